//! Changes of one pipeline in a map of them.

ghost use Rattle.std.specs.Prelude.{◌≡◌, ◌<◌, ◌^◌, OnOk, OnErr};
ghost use Rattle.std.specs.FinMap as map;
ghost use Rattle.pipelines.specs.Changes.{HasByteOpacity, IsNearChange, changed, with_list, with_moves, with_pipeline};

use crate::{Listed, Pipeline};
use containers::{NumberMap, Shared, number_map_laws};
use spatial_tree::Moves;
use std::alloc::Global;
use wr_geom::NoMemory;

/// A position or a property that is stored. Coordinates are in pixels.
#[derive(Clone, Copy, Debug, PartialEq, Eq)]
pub enum Change {
    Scroll { sid: u16, x: i32, y: i32 },
    Offset { id: u16, x: i32, y: i32 },
    Opacity { id: u16, opacity: u8 },
}

/// A byte is below 256. It does nothing.
fn know_byte(byte: u8)
    ensures { byte < 2 ^ 8 }
{}

/// What the type of a change knows of its opacity. It does nothing.
pub(crate) fn know_change(change: Change)
    ensures { HasByteOpacity change }
{
    match change {
        Change::Opacity { opacity, .. } => know_byte(opacity),
        _ => {}
    }
}

fn change_moves(moves: &mut Moves, change: Change) -> Result<(), NoMemory>
    requires { IsNearChange change }
    ensures ok { OnOk result (moves.new ≡ changed change moves.old) }
    ensures err { OnErr result (moves.new ≡ moves.old) }
{
    match change {
        Change::Scroll { sid, x, y } => moves.set_scroll(sid, x, y),
        Change::Offset { id, x, y } => moves.set_offset(id, x, y),
        Change::Opacity { id, opacity } => moves.set_opacity(id, opacity),
    }
}

fn change_pipeline(has: &mut Pipeline, change: Change) -> Result<(), NoMemory>
    requires { IsNearChange change }
    ensures ok { OnOk result (has.new ≡ with_moves (changed change) has.old) }
    ensures err { OnErr result (has.new ≡ has.old) }
{
    change_moves(&mut has.moves, change)
}

/// Changes what a pipeline has in a map.
fn change_in(
    present: &mut NumberMap<Pipeline>,
    alloc: Global,
    pipeline: u8,
    change: Change,
) -> Result<(), NoMemory>
    requires { IsNearChange change }
    ensures ok { OnOk result (present.new ≡ with_pipeline pipeline (with_moves (changed change)) present.old) }
    ensures err { OnErr result (present.new ≡ present.old) }
{
    number_map_laws::<Pipeline>();
    match present.get_mut(u32::from(pipeline)) {
        Some(has) => change_pipeline(has, change),
        None => {
            let mut has = Pipeline::blank(alloc);
            change_pipeline(&mut has, change)?;
            present.insert(u32::from(pipeline), has)?;
            Ok(())
        }
    }
}

/// Changes the positions or properties of a pipeline, in a map that may have other owners.
pub(crate) fn put_change(
    present: &mut Shared<NumberMap<Pipeline>>,
    alloc: Global,
    pipeline: u8,
    change: Change,
) -> Result<(), NoMemory>
    requires { IsNearChange change }
    ensures ok { OnOk result (present.new ≡ with_pipeline pipeline (with_moves (changed change)) present.old) }
    ensures err { OnErr result (present.new ≡ present.old) }
{
    change_in(present.write()?, alloc, pipeline, change)
}

fn replace_list(has: &mut Pipeline, listed: Listed)
    ensures { has.new ≡ with_list listed has.old }
{
    has.listed = Some(listed);
}

/// Replaces the list of a pipeline in a map.
fn list_in(
    present: &mut NumberMap<Pipeline>,
    alloc: Global,
    pipeline: u8,
    listed: Listed,
) -> Result<(), NoMemory>
    ensures ok { OnOk result (present.new ≡ with_pipeline pipeline (with_list listed) present.old) }
    ensures err { OnErr result (present.new ≡ present.old) }
{
    match present.get_mut(u32::from(pipeline)) {
        Some(has) => replace_list(has, listed),
        None => {
            let mut has = Pipeline::blank(alloc);
            replace_list(&mut has, listed);
            present.insert(u32::from(pipeline), has)?;
        }
    }
    Ok(())
}

/// Replaces the list of a pipeline, in a map that may have other owners.
pub(crate) fn put_list(
    present: &mut Shared<NumberMap<Pipeline>>,
    alloc: Global,
    pipeline: u8,
    listed: Listed,
) -> Result<(), NoMemory>
    ensures ok { OnOk result (present.new ≡ with_pipeline pipeline (with_list listed) present.old) }
    ensures err { OnErr result (present.new ≡ present.old) }
{
    list_in(present.write()?, alloc, pipeline, listed)
}

/// Removes all that a pipeline has, from a map that may have other owners.
pub(crate) fn remove(
    present: &mut Shared<NumberMap<Pipeline>>,
    pipeline: u8,
) -> Result<(), NoMemory>
    ensures ok { OnOk result (present.new ≡ map.remove present.old pipeline) }
    ensures err { OnErr result (present.new ≡ present.old) }
{
    present.write()?.remove(u32::from(pipeline));
    Ok(())
}
