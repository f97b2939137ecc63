//! The pipelines that have something.

ghost use Rattle.std.specs.Prelude.{◌≡◌, IfOk, OnOk, OnErr};
ghost use Rattle.std.specs.FinMap as map;
ghost use Rattle.pipelines.specs.Table.{AreFit, IsListOf, pipeline_at};
ghost use Rattle.pipelines.specs.Changes.{IsNearChange, changed, with_list, with_moves, with_pipeline};

use crate::change::{know_change, put_change, put_list, remove};
use crate::{Change, Listed, Pipeline};
use containers::{NumberMap, Shared};
use std::alloc::Global;
use std::marker::Model;
use wr_geom::NoMemory;

/// What each pipeline has, by its number. The lists and maps are shared with the scenes before.
#[derive(Drop)]
pub struct Pipelines {
    present: Shared<NumberMap<Pipeline>>,
    blank: Pipeline,
    alloc: Global,
}

impl Model for Pipelines {
    ghost use Rattle.std.specs.Prelude.{◌≡◌};
    ghost use Rattle.std.specs.FinMap as map;
    ghost use Rattle.std.specs.Coded.{coded_ℕ};
    ghost use Rattle.pipelines.specs.Table.{PipelineMap, AreFit, blank_pipeline};
    ghost use Rattle.pipelines.specs.contracts.pipeline.Pipeline as a_pipeline;

    ghost Value = { PipelineMap };

    ghost coded = { map.code coded_ℕ a_pipeline.the_row.coded };

    ghost view = { λ p. p.present };

    ghost invariant = { λ p. AreFit p.present × (p.blank ≡ blank_pipeline) };
}

impl Pipelines {
    /// No pipeline has anything. It takes no memory.
    pub fn new(alloc: Global) -> Pipelines
        ensures { result ≡ map.empty }
    {
        Pipelines {
            present: Shared::new(alloc, NumberMap::new(alloc)),
            blank: Pipeline::blank(alloc),
            alloc,
        }
    }

    /// One more owner of all. Nothing is copied until one of the owners writes.
    pub fn share(&self) -> Result<Pipelines, NoMemory>
        ensures { IfOk result (λ pipelines. pipelines ≡ self.now) }
    {
        let present = self.present.share()?;
        Ok(Pipelines {
            present,
            blank: Pipeline::blank(self.alloc),
            alloc: self.alloc,
        })
    }

    /// What a pipeline has.
    pub fn get(&self, pipeline: u8) -> &Pipeline
        ensures value { result.now ≡ pipeline_at self.now pipeline }
        ensures fit { AreFit self.now }
    {
        match self.present.get().get(u32::from(pipeline)) {
            None => &self.blank,
            Some(has) => has,
        }
    }

    /// Removes all that a pipeline has. Another owner of the pipelines keeps it.
    pub fn remove(&mut self, pipeline: u8) -> Result<(), NoMemory>
        ensures ok { OnOk result (self.new ≡ map.remove self.old pipeline) }
        ensures err { OnErr result (self.new ≡ self.old) }
    {
        remove(&mut self.present, pipeline)
    }

    /// Replaces a pipeline's list and epoch. The list is one that fits the pipeline.
    pub fn set_list(&mut self, pipeline: u8, listed: Listed) -> Result<(), NoMemory>
        requires { IsListOf pipeline listed.list }
        ensures ok { OnOk result (self.new ≡ with_pipeline pipeline (with_list listed) self.old) }
        ensures err { OnErr result (self.new ≡ self.old) }
    {
        put_list(&mut self.present, self.alloc, pipeline, listed)
    }

    /// Stores a position or a property.
    pub fn change(&mut self, pipeline: u8, change: Change) -> Result<(), NoMemory>
        requires { IsNearChange change }
        ensures ok { OnOk result (self.new ≡ with_pipeline pipeline (with_moves (changed change)) self.old) }
        ensures err { OnErr result (self.new ≡ self.old) }
    {
        know_change(change);
        put_change(&mut self.present, self.alloc, pipeline, change)
    }
}
