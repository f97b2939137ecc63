//! Offsets of nested frames.

use super::{FRAMES, on_a_list, set_moves};
use display_list::List;
use spatial_tree::{Moves, node_offset, offsets};
use std::alloc::Global;
use wr_geom::{NoMemory, Point};

/// Positions by scroll number, offset properties, and the offsets of the shared frames with the root at (100, 200).
const PLACED: [(&[(u16, i32, i32)], &[(u16, i32, i32)], [(i32, i32); 6]); 5] = [
    // Nothing is moved.
    (
        &[],
        &[],
        [
            (100, 200),
            (110, 220),
            (110, 220),
            (110, 220),
            (106, 220),
            (111, 221),
        ],
    ),
    // Both scroll frames are scrolled.
    (
        &[(3, 7, 50), (1, 10, 5)],
        &[],
        [
            (100, 200),
            (110, 220),
            (110, 170),
            (100, 170),
            (96, 170),
            (111, 221),
        ],
    ),
    // They are scrolled beyond their content.
    (
        &[(3, 5000, 5000), (1, 5000, 5000)],
        &[],
        [
            (100, 200),
            (110, 220),
            (110, -580),
            (80, -580),
            (76, -580),
            (111, 221),
        ],
    ),
    // They are scrolled to before their content, which moves nothing.
    (
        &[(3, -9, -9), (1, -1_048_576, -1)],
        &[],
        [
            (100, 200),
            (110, 220),
            (110, 220),
            (110, 220),
            (106, 220),
            (111, 221),
        ],
    ),
    // Two reference frames have properties, and a third property is that of none.
    (
        &[],
        &[(5, 1000, -1), (6, 2, 3), (7, 1, 1)],
        [
            (100, 200),
            (1110, 219),
            (1110, 219),
            (1110, 219),
            (1106, 219),
            (1113, 223),
        ],
    ),
];

/// Whether points are these.
fn are_at(points: &[Point], want: &[(i32, i32)]) -> bool {
    for (point, want) in points.iter().zip(want) {
        if (point.x, point.y) != *want {
            return false;
        }
    }
    points.len() == want.len()
}

/// Whether the frames of a list with these moves have these offsets.
fn is_placed(
    alloc: Global,
    list: &List,
    scrolls: &[(u16, i32, i32)],
    properties: &[(u16, i32, i32)],
    want: &[(i32, i32)],
) -> Result<bool, NoMemory> {
    let mut moves = Moves::new(alloc);
    set_moves(&mut moves, scrolls, properties)?;
    let table = offsets(alloc, list, &moves, Point { x: 100, y: 200 })?;
    Ok(are_at(table.as_slice(), want))
}

/// Whether the shared frames have theirs.
fn places_frames(alloc: Global, list: &List, _moves: &mut Moves) -> Result<bool, NoMemory> {
    for (scrolls, properties, want) in &PLACED {
        if !is_placed(alloc, list, *scrolls, *properties, want)? {
            return Ok(false);
        }
    }
    Ok(true)
}

#[test]
fn frames_with_moves(rt: HostRuntime) {
    assert!(rt; on_a_list(rt.alloc(), &FRAMES, places_frames));
}

const ORIGIN: Point = Point { x: -5, y: 6 };

/// Whether a node alone has this offset.
fn is_alone(list: &List, moves: &Moves, node: u16, offset: Option<&Point>) -> bool {
    if node as usize > list.nodes().len() {
        return false;
    }
    offset == Some(&node_offset(list, moves, ORIGIN, node))
}

/// Whether each node alone has the offset that all have together.
fn agree(list: &List, moves: &Moves, table: &[Point]) -> bool {
    for node in 0u16..6 {
        if !is_alone(list, moves, node, table.get(node as usize)) {
            return false;
        }
    }
    table.len() == 6
}

/// Whether that holds of the shared frames, with moves.
fn places_each(alloc: Global, list: &List, moves: &mut Moves) -> Result<bool, NoMemory> {
    set_moves(moves, &[(3, 7, 50)], &[(5, 1, 2)])?;
    let table = offsets(alloc, list, moves, ORIGIN)?;
    Ok(agree(list, moves, table.as_slice()))
}

#[test]
fn one_node_at_a_time(rt: HostRuntime) {
    assert!(rt; on_a_list(rt.alloc(), &FRAMES, places_each));
}
