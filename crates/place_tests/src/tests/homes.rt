//! Outermost scroll frames, and the clips of chains.

use super::{FRAMES, on_a_list};
use display_list::List;
use spatial_tree::{Moves, chain_clips, clip_count, homes, root_scroll};
use std::alloc::{AllocError, Global};
use wr_geom::NoMemory;

/// Whether a node has this outermost scroll frame.
fn is_within(list: &List, node: u16, frame: Option<u16>) -> bool {
    node as usize <= list.nodes().len() && root_scroll(list, node) == frame
}

/// Whether the nodes of the shared frames have theirs.
fn have_frames(_alloc: Global, list: &List, _moves: &mut Moves) -> Result<bool, NoMemory> {
    let outside = is_within(list, 0, None) && is_within(list, 1, None) && is_within(list, 5, None);
    let frame = Some(3);
    let within = is_within(list, 2, frame) && is_within(list, 3, frame);
    Ok(outside && within && is_within(list, 4, frame))
}

#[test]
fn outermost_frames(rt: HostRuntime) {
    assert!(rt; on_a_list(rt.alloc(), &FRAMES, have_frames));
}

/// How many clips a chain has, and the homes of the first three; None where there is no such chain.
fn homes_of(
    alloc: Global,
    list: &List,
    chain: u16,
) -> Result<Option<(usize, [Option<Option<u16>>; 3])>, NoMemory> {
    if chain as usize >= list.chains().len() {
        return Ok(None);
    }
    let homes = homes(alloc, list, Some(chain))?;
    let first = [
        homes.get(0).copied(),
        homes.get(1).copied(),
        homes.get(2).copied(),
    ];
    Ok(Some((homes.len(), first)))
}

/// Whether the homes of chain 2 are those of its parents first, and chain 3 has none.
fn have_homes(alloc: Global, list: &List, _moves: &mut Moves) -> Result<bool, NoMemory> {
    let first = [Some(Some(3)), Some(None), Some(Some(3))];
    let third = homes_of(alloc, list, 2)? == Some((3, first));
    Ok(third && homes_of(alloc, list, 3)? == Some((0, [None; 3])))
}

#[test]
fn homes_of_parents_first(rt: HostRuntime) {
    assert!(rt; on_a_list(rt.alloc(), &FRAMES, have_homes));
}

/// Whether the clips of chain 2 are those of its parents first, of which chain 0 has two.
fn have_clips(_alloc: Global, list: &List, _moves: &mut Moves) -> Result<bool, NoMemory> {
    if list.chains().len() < 3 {
        return Ok(false);
    }
    let numbers = chain_clips(list, Some(2)).as_slice() == [0, 1, 2].as_slice();
    Ok(numbers && clip_count(list, Some(0)) == 2 && clip_count(list, None) == 0)
}

#[test]
fn clips_of_parents_first(rt: HostRuntime) {
    assert!(rt; on_a_list(rt.alloc(), &FRAMES, have_clips));
}

/// A chain of 255 clips, and 4,095 chains of no more, each within the one before.
fn deep_chain(alloc: Global) -> Result<Vec<u8>, AllocError> {
    let mut bytes = Vec::new(alloc);
    bytes.extend_from_slice(&[3, 0, 0, 0, 0, 0, 0, 0, 0, 0, 0, 8, 0, 0, 0, 8, 0, 0, 0])?;
    bytes.extend_from_slice(&[5, 255, 255, 255])?;
    bytes.extend_from_slice(&[0; 510])?;
    for parent in 0u16..4095 {
        let parent = parent.to_le_bytes();
        bytes.extend_from_slice(&[5, parent[0], parent[1], 0])?;
    }
    bytes.extend_from_slice(&[0])?;
    Ok(bytes)
}

/// Whether the last chain has as many homes.
fn has_255_homes(alloc: Global, list: &List, _moves: &mut Moves) -> Result<bool, NoMemory> {
    let homes = homes_of(alloc, list, 4095)?;
    Ok(matches!(homes, Some((255, _))))
}

/// Whether it does in a list of such chains.
fn is_deep(alloc: Global) -> bool {
    match deep_chain(alloc) {
        Ok(bytes) => on_a_list(alloc, bytes.as_slice(), has_255_homes),
        Err(_) => false,
    }
}

#[test]
fn a_deep_chain_of_255_clips(rt: HostRuntime) {
    assert!(rt; is_deep(rt.alloc()));
}
