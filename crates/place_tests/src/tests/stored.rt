//! Positions and properties that are stored.

use super::{FRAMES, on_a_list, set_moves};
use display_list::List;
use spatial_tree::Moves;
use std::alloc::Global;
use wr_geom::NoMemory;

/// Whether a position, an offset and an opacity are found, each under its own number alone.
fn have_moves(moves: &Moves) -> bool {
    let scrolls = moves.scroll(3) == Some((7, 50)) && moves.scroll(5).is_none();
    let offsets = moves.offset(5) == Some((1, 2)) && moves.offset(3).is_none();
    let opacities = moves.opacity(9) == Some(200) && moves.opacity(8).is_none();
    scrolls && offsets && opacities && !moves.is_empty()
}

/// Whether what is stored is found.
fn finds_moves(_alloc: Global, _list: &List, moves: &mut Moves) -> Result<bool, NoMemory> {
    let empty = moves.is_empty();
    set_moves(moves, &[(3, 7, 50)], &[(5, 1, 2)])?;
    moves.set_opacity(9, 200)?;
    Ok(empty && have_moves(moves))
}

#[test]
fn what_is_set_is_found(rt: HostRuntime) {
    assert!(rt; on_a_list(rt.alloc(), &FRAMES, finds_moves));
}

/// Whether the clone of moves that are changed then stays as it was.
fn clones_moves(_alloc: Global, _list: &List, moves: &mut Moves) -> Result<bool, NoMemory> {
    set_moves(moves, &[(3, 7, 50)], &[])?;
    let before = moves.clone()?;
    moves.set_scroll(3, 1, -1_048_576)?;
    let kept = before.scroll(3) == Some((7, 50));
    let alone = moves.scrolls().len() == 1 && moves.offsets().is_empty();
    let changed = moves.scroll(3) == Some((1, -1_048_576)) && moves.opacities().is_empty();
    Ok(kept && alone && changed)
}

#[test]
fn a_clone_stays(rt: HostRuntime) {
    assert!(rt; on_a_list(rt.alloc(), &FRAMES, clones_moves));
}
