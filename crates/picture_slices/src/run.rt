//! Tops that follow one another and have one home.

ghost use Rattle.std.specs.Prelude.{◌≡◌, IfOk};
ghost use Rattle.picture_slices.specs.Gathered.{lone_run, with_top, without_home};

use containers::Sequence;
use primitives::Top;
use slice_rules::Home;
use std::alloc::Global;
use std::marker::Model;
use wr_geom::NoMemory;

/// Tops that follow one another, with their home.
#[derive(Drop)]
pub(crate) struct TopRun {
    pub(crate) home: Home,
    pub(crate) tops: Sequence<Top>,
}

impl Model for TopRun {
    ghost use Rattle.slice_rules.specs.Runs.{Run};
    ghost use Rattle.primitives.specs.declared.entry.Top.{Top as TopValue};

    ghost Value = { Run TopValue };

    ghost view = { λ r. record { home = r.home; members = r.tops } };

    ghost inverse = { λ r. record { home = r.home; tops = r.members } };
}

impl TopRun {
    /// A run of one top.
    pub(crate) fn lone_run(alloc: Global, top: Top) -> Result<TopRun, NoMemory>
        ensures { IfOk result (λ r. r ≡ lone_run top) }
    {
        let home = top.scroll;
        let mut tops = Sequence::new(alloc);
        tops.push(top)?;
        Ok(TopRun { home, tops })
    }

    /// With one top more.
    pub(crate) fn with_top(self, top: Top) -> Result<TopRun, NoMemory>
        ensures { IfOk result (λ r. r ≡ with_top self top) }
    {
        let TopRun { home, mut tops } = self;
        tops.push(top)?;
        Ok(TopRun { home, tops })
    }

    /// The same tops, as a run without a home.
    pub(crate) fn without_home(self) -> TopRun
        ensures { result ≡ without_home self }
    {
        TopRun {
            home: None,
            tops: self.tops,
        }
    }
}
