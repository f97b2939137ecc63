//! Placed clips of chains, and what they cover.

use super::{FRAMES, on_a_list, set_moves};
use clip_masks::Clip;
use clip_tree::{chain_cover_at, resolve, resolve_into};
use display_list::List;
use spatial_tree::{Moves, offsets};
use std::alloc::Global;
use wr_geom::{NoMemory, Point};

const ORIGIN: Point = Point { x: 100, y: 200 };

/// A clip's edges, its mode, and the radii of its first corner.
fn seen(clip: &Clip) -> ([i32; 4], bool, u16) {
    let rect = clip.shape.rect();
    let edges = [rect.x0(), rect.y0(), rect.x1(), rect.y1()];
    (edges, clip.out, clip.shape.radii().tl.0)
}

/// Whether clips are these.
fn are_seen(clips: &[Clip], want: &[([i32; 4], bool, u16)]) -> bool {
    for (clip, want) in clips.iter().zip(want) {
        if seen(clip) != *want {
            return false;
        }
    }
    clips.len() == want.len()
}

/// Whether a chain is there, and its placed clips are these.
fn is_placed(
    alloc: Global,
    list: &List,
    moves: &Moves,
    chain: u16,
    want: &[([i32; 4], bool, u16)],
) -> Result<bool, NoMemory> {
    if chain as usize >= list.chains().len() {
        return Ok(false);
    }
    let table = offsets(alloc, list, moves, ORIGIN)?;
    let clips = resolve(alloc, list, Some(chain), table.as_slice())?;
    Ok(are_seen(clips.as_slice(), want))
}

/// What a chain covers of a pixel, or None where there is no such chain.
fn cover_of(list: &List, moves: &Moves, chain: u16, outer: u8, x: i32, y: i32) -> Option<u8> {
    if chain as usize >= list.chains().len() {
        return None;
    }
    Some(chain_cover_at(list, moves, ORIGIN, Some(chain), outer, x, y))
}

/// Clips of chain 2 of the shared frames, where scroll frame 3 is moved by 50.
const MOVED: [([i32; 4], bool, u16); 3] = [
    ([110, 170, 118, 178], false, 0),
    ([100, 200, 108, 208], true, 4),
    ([106, 170, 110, 174], false, 0),
];

/// Whether they are so.
fn moves_clips(alloc: Global, list: &List, moves: &mut Moves) -> Result<bool, NoMemory> {
    set_moves(moves, &[(3, 0, 50)], &[])?;
    is_placed(alloc, list, moves, 2, &MOVED)
}

#[test]
fn clips_of_moved_nodes(rt: HostRuntime) {
    assert!(rt; on_a_list(rt.alloc(), &FRAMES, moves_clips));
}

/// Whether chain 3 has no clips and leaves what is covered, as no chain does.
fn has_no_clips(alloc: Global, list: &List, moves: &mut Moves) -> Result<bool, NoMemory> {
    let none = is_placed(alloc, list, moves, 3, &[])?;
    let all = cover_of(list, moves, 3, 77, 5, 5) == Some(77);
    Ok(none && all && chain_cover_at(list, moves, ORIGIN, None, 78, 5, 5) == 78)
}

#[test]
fn a_chain_without_clips(rt: HostRuntime) {
    assert!(rt; on_a_list(rt.alloc(), &FRAMES, has_no_clips));
}

/// Whether the clips of chain 1 come after those of chain 0.
fn appends(alloc: Global, list: &List, moves: &mut Moves) -> Result<bool, NoMemory> {
    if list.chains().len() < 2 {
        return Ok(false);
    }
    let table = offsets(alloc, list, moves, ORIGIN)?;
    let mut out = Vec::new(alloc);
    resolve_into(list, Some(0), table.as_slice(), &mut out)?;
    resolve_into(list, Some(1), table.as_slice(), &mut out)?;
    Ok(out.len() == 5)
}

#[test]
fn clips_are_appended(rt: HostRuntime) {
    assert!(rt; on_a_list(rt.alloc(), &FRAMES, appends));
}

/// Pixels, and what chain 0 of the shared frames covers of each, of 200, where scroll frame 3 is moved by 50.
const COVERS: [(i32, i32, u8); 6] = [
    (109, 172, 0),
    (110, 170, 200),
    (117, 177, 200),
    (118, 177, 0),
    (112, 169, 0),
    (112, 222, 0),
];

/// Whether it covers so much.
fn covers(_alloc: Global, list: &List, moves: &mut Moves) -> Result<bool, NoMemory> {
    set_moves(moves, &[(3, 0, 50)], &[])?;
    for (x, y, want) in COVERS {
        if cover_of(list, moves, 0, 200, x, y) != Some(want) {
            return Ok(false);
        }
    }
    Ok(true)
}

#[test]
fn covers_at_points(rt: HostRuntime) {
    assert!(rt; on_a_list(rt.alloc(), &FRAMES, covers));
}

/// Two round clips on one rectangle, of mode in and of mode out, in chains in both orders.
const TURNED: [u8; 93] = [
    4, 0, 0, 0, 0, 0, 0, 0, 0, 0, 0, 0, 6, 0, 0, 0, 2, 0, 0, 0, // clip 0, of mode in
    3, 0, 1, 0, 0, 0, 0, 0, 0, 0, 0, 0, 0, 0, 0, 0, // its radii
    4, 0, 0, 1, 0, 0, 0, 0, 0, 0, 0, 0, 6, 0, 0, 0, 2, 0, 0, 0, // clip 1, of mode out
    3, 0, 1, 0, 0, 0, 0, 0, 0, 0, 0, 0, 0, 0, 0, 0, // its radii
    5, 255, 255, 1, 0, 0, // chain 0, of clip 0
    5, 0, 0, 1, 1, 0, // chain 1, of clips 0 and 1
    5, 255, 255, 2, 1, 0, 0, 0, // chain 2, of clips 1 and 0
    0, // the list's end
];

/// What these chains cover of the first pixel.
fn turned_covers(list: &List, moves: &Moves) -> Option<[u8; 3]> {
    if list.chains().len() < 3 {
        return None;
    }
    let origin = Point { x: 0, y: 0 };
    Some([
        chain_cover_at(list, moves, origin, Some(0), 255, 0, 0),
        chain_cover_at(list, moves, origin, Some(1), 255, 0, 0),
        chain_cover_at(list, moves, origin, Some(2), 255, 0, 0),
    ])
}

/// Whether the outermost clip comes first.
fn folds_in_order(_alloc: Global, list: &List, moves: &mut Moves) -> Result<bool, NoMemory> {
    Ok(turned_covers(list, moves) == Some([128, 64, 63]))
}

#[test]
fn the_order_of_clips_counts(rt: HostRuntime) {
    assert!(rt; on_a_list(rt.alloc(), &TURNED, folds_in_order));
}
