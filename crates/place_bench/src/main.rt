//! With a word as argument, prints how long nodes and clips are placed: `offsets`, `resolve` or
//! `point`.
#![tactic(auto)]

use clip_tree::{chain_cover_at, resolve_into};
use display_list::{List, decode};
use spatial_tree::{Moves, offsets};
use std::alloc::{AllocError, Global};
use std::time::Instant;
use std::{env, io};
use wr_geom::Point;

/// How often a list's nodes are placed.
const ROUNDS: u64 = 2000;

const ORIGIN: Point = Point { x: 0, y: 0 };

/// 4,096 nodes, each other one a scroll frame, in ways of 64, and a chain of 255 clips, one for each node.
fn nodes(alloc: Global) -> Result<Vec<u8>, AllocError> {
    let mut out = Vec::new(alloc);
    for k in 0u16..4096 {
        let parent = if k % 64 == 0 { 0 } else { k };
        out.push(if k % 2 == 0 { 1 } else { 2 })?;
        out.extend_from_slice(&parent.to_le_bytes())?;
        if k % 2 == 0 {
            out.extend_from_slice(&[3, 0, 0, 0, 4, 0, 0, 0, 255, 255])?;
        } else {
            out.extend_from_slice(&k.to_le_bytes())?;
            out.extend_from_slice(&[64, 0, 0, 0, 64, 0, 0, 0, 0, 1, 0, 0, 0, 1, 0, 0])?;
        }
    }
    Ok(out)
}

/// The same with a chain of 255 clips.
fn list(alloc: Global) -> Result<Vec<u8>, AllocError> {
    let mut out = nodes(alloc)?;
    for node in 1u16..256 {
        out.push(3)?;
        out.extend_from_slice(&node.to_le_bytes())?;
        out.extend_from_slice(&[0, 0, 0, 0, 0, 0, 0, 0, 9, 0, 0, 0, 9, 0, 0, 0])?;
    }
    out.extend_from_slice(&[5, 255, 255, 255])?;
    for clip in 0u16..255 {
        out.extend_from_slice(&clip.to_le_bytes())?;
    }
    out.push(0)?;
    Ok(out)
}

/// Prints nanoseconds for each of so many.
fn print_each(rt: &HostRuntime, name: &str, spent: u64, count: u64) -> io::Result<()> {
    let each = spent / count.max(1);
    println!(rt; "{name}: {each} ns each")
}

/// Places all nodes again and again.
fn time_nodes(rt: &HostRuntime, list: &List, moves: &Moves) -> io::Result<()> {
    let mut found = 0u64;
    let start = Instant::now(rt)?;
    for _ in 0..ROUNDS {
        if let Ok(table) = offsets(rt.alloc(), list, moves, ORIGIN) {
            found = found.wrapping_add(table.len() as u64);
        }
    }
    let spent = u64::try_from(start.elapsed(rt)?.as_nanos()).unwrap_or(u64::MAX);
    print_each(rt, "a node of a table", spent, found)
}

/// Places a chain's clips again and again.
fn time_clips(rt: &HostRuntime, list: &List, moves: &Moves) -> io::Result<()> {
    let Ok(table) = offsets(rt.alloc(), list, moves, ORIGIN) else {
        return Ok(());
    };
    let mut found = 0u64;
    let mut clips = Vec::new(rt.alloc());
    let start = Instant::now(rt)?;
    for _ in 0..ROUNDS {
        clips.clear();
        if list.chains().len() > 0 {
            let _placed = resolve_into(list, Some(0), table.as_slice(), &mut clips);
        }
        found = found.wrapping_add(clips.len() as u64);
    }
    let spent = u64::try_from(start.elapsed(rt)?.as_nanos()).unwrap_or(u64::MAX);
    print_each(rt, "a clip that is placed", spent, found)
}

/// Folds a chain at a point again and again.
fn time_point(rt: &HostRuntime, list: &List, moves: &Moves) -> io::Result<()> {
    let mut left = 0u64;
    let start = Instant::now(rt)?;
    for _ in 0..ROUNDS {
        if list.chains().len() > 0 {
            let cover = chain_cover_at(list, moves, ORIGIN, Some(0), 255, 5, 5);
            left = left.wrapping_add(cover as u64);
        }
    }
    let spent = u64::try_from(start.elapsed(rt)?.as_nanos()).unwrap_or(u64::MAX);
    println!(rt; "left at the point: {left}")?;
    print_each(rt, "a clip at a point", spent, ROUNDS * 255)
}

fn main(rt: HostRuntime) -> io::Result<()> {
    // Without a word nothing is written, since times differ from run to run.
    let alloc = rt.alloc();
    let Some(word) = env::args(&rt)?.nth(1) else {
        return Ok(());
    };
    let bytes = list(alloc)?;
    if bytes.len() > 1 << 20 {
        return Ok(());
    }
    let Ok(list) = decode(alloc, bytes.as_slice(), 0) else {
        return println!(rt; "no list");
    };
    let moves = Moves::new(alloc);
    match word.as_str() {
        "offsets" => time_nodes(&rt, &list, &moves),
        "resolve" => time_clips(&rt, &list, &moves),
        "point" => time_point(&rt, &list, &moves),
        _ => Ok(()),
    }
}
