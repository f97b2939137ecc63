//! Where the nodes of drawn pipelines are.

ghost use Rattle.std.specs.Prelude.{◌≡◌, ℤ, pos, neg_ℤ, ◌+ℤ◌, ◌≤ℤ◌, ◌^◌, ◌&&◌, IfOk, None, replicate, slice_index_or};
ghost use Rattle.std.specs.List.{list_all};
ghost use Rattle.wr_geom.specs.declared.point.Point as a_point;
ghost use Rattle.pipelines.specs.Table.{listed_list};
ghost use Rattle.scene_limits.specs.Drawn.{AreReached};
ghost use Rattle.scene_limits.specs.Limits.{is_any_far, is_point_in_reach};
ghost use Rattle.scene_limits.specs.Places.{node_places, zero_point};
ghost use Rattle.scene_limits.specs.Rooms.{IsRoomOf, iframe_reaches, iframe_shift, nodes_reach, room_has, rooms_have};

use crate::room::Room;
use list_summary::Iframe;
use pipelines::{Listed, Pipeline, Pipelines};
use spatial_tree::{Moves, offsets};
use std::alloc::Global;
use wr_geom::{NoMemory, Point};

/// The origins in reach that leave the nodes in reach, by their offsets from (0, 0).
fn narrow_by_nodes(offsets: &[Point]) -> Room
    ensures { (origin : a_point.Point) → room_has result origin ≡ (is_point_in_reach origin && nodes_reach offsets.now origin) }
{
    let mut room = Room::all();
    for offset in offsets {
        room = room.narrowed(Room::all(), i64::from(offset.x), i64::from(offset.y));
    }
    room
}

fn offset_at(offsets: &[Point], node: u16) -> Point
    ensures { result ≡ slice_index_or offsets.now node zero_point }
{
    offsets
        .get(usize::from(node))
        .copied()
        .unwrap_or(Point { x: 0, y: 0 })
}

fn sum_of(a: i32, b: i32) -> i64
    ensures value { result ≡ a +ℤ b }
    ensures low { neg_ℤ (pos (2 ^ 33)) ≤ℤ result }
    ensures high { result ≤ℤ pos (2 ^ 33) }
{
    i64::from(a) + i64::from(b)
}

/// How far an Iframe puts its pipeline's origin from its own pipeline's, on each axis.
fn shift(offsets: &[Point], iframe: Iframe) -> (i64, i64)
    ensures x { result.0 ≡ (iframe_shift offsets.now iframe).x }
    ensures y { result.1 ≡ (iframe_shift offsets.now iframe).y }
    ensures left { neg_ℤ (pos (2 ^ 33)) ≤ℤ result.0 }
    ensures right { result.0 ≤ℤ pos (2 ^ 33) }
    ensures top { neg_ℤ (pos (2 ^ 33)) ≤ℤ result.1 }
    ensures bottom { result.1 ≤ℤ pos (2 ^ 33) }
{
    let offset = offset_at(offsets, iframe.node);
    let x = sum_of(offset.x, iframe.x);
    let y = sum_of(offset.y, iframe.y);
    (x, y)
}

fn room_at(rooms: &[Option<Room>], pipeline: u8) -> Option<Room>
    ensures { result ≡ slice_index_or rooms.now pipeline None }
{
    let p = usize::from(pipeline);
    if p < rooms.len() { rooms[p] } else { None }
}

/// The origins that leave in reach what an Iframe shows too.
fn narrow_by_iframe(iframe: Iframe, offsets: &[Point], rooms: &[Option<Room>], sum: Room) -> Room
    ensures { (origin : a_point.Point) → room_has result origin ≡ (room_has sum origin && iframe_reaches (rooms_have rooms.now) offsets.now origin iframe) }
{
    match room_at(rooms, iframe.pipeline) {
        Some(room) => {
            let (x, y) = shift(offsets, iframe);
            sum.narrowed(room, x, y)
        }
        None => sum,
    }
}

/// The origins that leave in reach what Iframes show too.
fn narrow_by_iframes(
    iframes: &[Iframe],
    offsets: &[Point],
    rooms: &[Option<Room>],
    sum: Room,
) -> Room
    ensures { (origin : a_point.Point) → room_has result origin ≡ (room_has sum origin && list_all (iframe_reaches (rooms_have rooms.now) offsets.now origin) iframes.now) }
{
    let mut sum = sum;
    for iframe in iframes {
        sum = narrow_by_iframe(*iframe, offsets, rooms, sum);
    }
    sum
}

/// The room of a list, by the rooms of the pipelines that it names.
fn list_room(
    alloc: Global,
    listed: &Listed,
    moves: &Moves,
    rooms: &[Option<Room>],
) -> Result<Room, NoMemory>
    ensures { IfOk result (λ room. IsRoomOf (Some room) (rooms_have rooms.now) moves.now (Some listed.now.list)) }
{
    let offsets = offsets(alloc, listed.list(), moves, Point { x: 0, y: 0 })?;
    let own = narrow_by_nodes(&offsets);
    Ok(narrow_by_iframes(listed.summary().iframes(), &offsets, rooms, own))
}

/// The room of a pipeline that has a list, by the rooms of the pipelines that it names.
fn pipeline_room(
    alloc: Global,
    pipeline: &Pipeline,
    rooms: &[Option<Room>],
) -> Result<Option<Room>, NoMemory>
    ensures { IfOk result (λ room. IsRoomOf room (rooms_have rooms.now) pipeline.now.moves (listed_list pipeline.now.listed)) }
{
    match pipeline.listed() {
        None => Ok(None),
        Some(listed) => {
            let room = list_room(alloc, listed, pipeline.moves(), rooms)?;
            Ok(Some(room))
        }
    }
}

fn no_rooms() -> [Option<Room>; 64]
    ensures { result ≡ replicate 64 None }
{
    [None; 64]
}

/// Whether a node of the expanded scene is out of reach, from the last pipeline down, over those that are
/// reached.
pub(crate) fn is_scene_far(
    alloc: Global,
    pipelines: &Pipelines,
    reached: &[bool; 64],
) -> Result<bool, NoMemory>
    requires { AreReached reached.now pipelines.now }
    ensures { IfOk result (λ far. far ≡ is_any_far (node_places 64 pipelines.now 0 zero_point)) }
{
    let mut rooms = no_rooms();
    for step in 0..64u8 {
        let p = 63 - step;
        let pipeline = pipelines.get(p);
        if reached[usize::from(p)] {
            let room = pipeline_room(alloc, pipeline, &rooms)?;
            rooms[usize::from(p)] = room;
        }
    }
    match rooms[0] {
        Some(room) => Ok(!room.has_zero()),
        None => Ok(false),
    }
}
