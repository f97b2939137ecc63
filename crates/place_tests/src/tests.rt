//! Lists and moves that the tests share.

mod clips;
mod homes;
mod offsets;
mod stored;

ghost use Rattle.field_forms.specs.Facts.{IsNear};

use display_list::{List, decode};
use spatial_tree::Moves;
use std::alloc::Global;
use wr_geom::NoMemory;

/// Frames under the root: a reference frame, in it a scroll frame, in that another one, in that a
/// reference frame, and one more in the first. Then clips and chains.
const FRAMES: [u8; 178] = [
    1, 0, 0, 10, 0, 0, 0, 20, 0, 0, 0, 5, 0, // node 1, with property 5
    2, 1, 0, 3, 0, 100, 0, 0, 0, 100, 0, 0, 0, 100, 0, 0, 0, 132, 3, 0, 0, // node 2
    2, 2, 0, 1, 0, 50, 0, 0, 0, 200, 0, 0, 0, 80, 0, 0, 0, 100, 0, 0, 0, // node 3
    1, 3, 0, 252, 255, 255, 255, 0, 0, 0, 0, 255, 255, // node 4
    1, 1, 0, 1, 0, 0, 0, 1, 0, 0, 0, 6, 0, // node 5, with property 6
    3, 2, 0, 0, 0, 0, 0, 0, 0, 0, 0, 8, 0, 0, 0, 8, 0, 0, 0, // clip 0, of node 2
    4, 0, 0, 1, 0, 0, 0, 0, 0, 0, 0, 0, 8, 0, 0, 0, 8, 0, 0, 0, // clip 1, of the root and mode out
    4, 0, 4, 0, 4, 0, 4, 0, 4, 0, 4, 0, 4, 0, 4, 0, // its radii
    3, 4, 0, 0, 0, 0, 0, 0, 0, 0, 0, 4, 0, 0, 0, 4, 0, 0, 0, // clip 2, of node 4
    5, 255, 255, 2, 0, 0, 1, 0, // chain 0, of clips 0 and 1
    5, 0, 0, 1, 2, 0, // chain 1, of clip 2 too
    5, 1, 0, 0, // chain 2, of no more
    5, 255, 255, 0, // chain 3, of none
    0, // the list's end
];

/// The list that these bytes spell, or None where they spell none or memory runs out.
fn list_of(alloc: Global, bytes: &[u8]) -> Option<List> {
    if bytes.len() > 65_536 {
        return None;
    }
    decode(alloc, bytes, 0).ok()
}

/// What a check answers on the list that these bytes spell, and with no moves. False where there is no list, or memory
/// runs out.
fn on_a_list<F: FnOnce(Global, &List, &mut Moves) -> Result<bool, NoMemory>>(
    alloc: Global,
    bytes: &[u8],
    check: F,
) -> bool
    requires { F.IsAlwaysCallable check }
{
    match list_of(alloc, bytes) {
        Some(list) => check(alloc, &list, &mut Moves::new(alloc)) == Ok(true),
        None => false,
    }
}

/// A number of pixels, within the range of positions.
fn near(z: i32) -> i32
    ensures { IsNear result }
{
    z.max(-1_048_576).min(1_048_576)
}

/// Stores positions by scroll number, and offset properties.
fn set_moves(
    moves: &mut Moves,
    scrolls: &[(u16, i32, i32)],
    offsets: &[(u16, i32, i32)],
) -> Result<(), NoMemory> {
    for scroll in scrolls {
        moves.set_scroll(scroll.0, near(scroll.1), near(scroll.2))?;
    }
    for offset in offsets {
        moves.set_offset(offset.0, near(offset.1), near(offset.2))?;
    }
    Ok(())
}
