//! The renderer that a run leaves in its slot, and records that are answered on a renderer at hand.

use super::files::{HALF_RED, list, push_transaction, solid, view};
use super::{CALM, ran_over, replayed};
use frame_replay::replay_on;
use renderer::Renderer;
use std::alloc::{AllocError, Global};
use std::test::Fail;
use wr_geom::NoMemory;
use wr_io::{MemSink, MemSource};

/// The pixels of a tile that no policy was set for.
const TILE: u64 = 65_536;

#[test]
fn a_replay_leaves_its_renderer(rt: HostRuntime) -> Result<(), Fail> {
    assert_eq!(rt; replayed(&rt, &HALF_RED)?.drawn, Some(TILE));
    assert_eq!(rt; replayed(&rt, b"WRT1Z")?.drawn, Some(0));
    let stats = ran_over(&rt, &["replay", "--stats"], &HALF_RED, &CALM)?;
    assert_eq!(rt; (stats.drawn, stats.out.len()), (Some(TILE), 45));
    Ok(())
}

#[test]
fn so_does_one_of_a_broken_file_after_its_magic(rt: HostRuntime) -> Result<(), Fail> {
    assert_eq!(rt; replayed(&rt, b"WRT1Q!")?.drawn, Some(0));
    assert_eq!(rt; replayed(&rt, &HALF_RED[..57])?.drawn, Some(TILE));
    assert_eq!(rt; replayed(&rt, b"WRT9Z")?.drawn, None);
    assert_eq!(rt; replayed(&rt, b"WRT")?.drawn, None);
    Ok(())
}

#[test]
fn other_commands_leave_none(rt: HostRuntime) -> Result<(), Fail> {
    assert_eq!(rt; ran_over(&rt, &["paint"], &HALF_RED, &CALM)?.drawn, None);
    assert_eq!(rt; ran_over(&rt, &["draw"], &HALF_RED, &CALM)?.drawn, None);
    Ok(())
}

#[test]
fn a_load_leaves_its_renderer(rt: HostRuntime) -> Result<(), Fail> {
    let ran = ran_over(&rt, &["load", "2", "1"], b"", &CALM)?;
    // Sixteen tiles of 64 by 64 pixels.
    assert_eq!(rt; ran.drawn, Some(65_536));
    assert!(rt; ran.out.ends_with(b"\ndrawn 65536\n"));
    Ok(())
}

/// The answer to these records: a red pixel, one kept tile, and so many drawn pixels.
fn red_frame(alloc: Global, drawn: u64) -> Result<Vec<u8>, AllocError> {
    let frame = [70, 1, 0, 1, 0, 1, 0, 1, 0, 0, 0, 0, 0, 255, 255];
    let mut bytes = frame.to_vec(alloc)?;
    bytes.extend_from_slice(&[83, 1, 0, 0, 0])?;
    bytes.extend_from_slice(&drawn.to_le_bytes())?;
    bytes.push(b'Z')?;
    Ok(bytes)
}

/// Whether a renderer answers records so, and reads all of them.
fn is_answered(
    alloc: Global,
    renderer: &mut Renderer,
    records: &[u8],
    want: &[u8],
) -> Result<bool, AllocError> {
    let mut source = MemSource::new(records.to_vec(alloc)?, 7, Vec::new(alloc));
    let mut sink = MemSink::new(vec![in alloc; 0; 64]?, 7, Vec::new(alloc));
    let status = replay_on(alloc, renderer, true, &mut source, &mut sink);
    Ok(status == 0 && source.left().is_empty() && sink.written() == want)
}

/// Whether one renderer draws a tile for the records, and nothing when they come again.
fn is_answered_twice(alloc: Global, records: &[u8]) -> Result<bool, NoMemory> {
    let (first, again) = (red_frame(alloc, TILE)?, red_frame(alloc, 0)?);
    let mut renderer = Renderer::new(alloc)?;
    let is_drawn = is_answered(alloc, &mut renderer, records, &first)?;
    let is_kept = is_answered(alloc, &mut renderer, records, &again)?;
    Ok(is_drawn && is_kept && renderer.opened() == TILE)
}

#[test]
fn records_are_answered_on_a_renderer_at_hand(rt: HostRuntime) -> Result<(), Fail> {
    let reds = list(rt.alloc(), 1, &[solid([0, 0, 1, 1], [0, 0, 255, 255])])?;
    let mut records = Vec::new(rt.alloc());
    push_transaction(&mut records, true, &[&view(1, 1, [9, 9, 9, 255]), &reds])?;
    records.push(b'Z')?;
    assert!(rt; is_answered_twice(rt.alloc(), &records) == Ok(true));
    Ok(())
}
