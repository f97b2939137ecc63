//! With a word as argument, prints how many nanoseconds a row of 1,024 pixels takes under clips.
#![tactic(auto)]

use clip_masks::{Clip, Rounded, cover_row};
use std::alloc::{AllocError, Global};
use std::time::Instant;
use std::{env, io};
use wr_geom::{Radii, Rect};

/// How often each row is covered.
const ROUNDS: u32 = 20_000;

/// A clip of mode in on the rectangle [100 0 924 512], all of whose radii are the same.
fn clip(radius: u16) -> Option<Clip> {
    let corner = (radius, radius);
    let radii = Radii {
        tl: corner,
        tr: corner,
        br: corner,
        bl: corner,
    };
    let shape = Rounded::new(Rect::new(100, 0, 924, 512)?, radii)?;
    Some(Clip { shape, out: false })
}

/// Covers one row again and again, and prints what each time took.
fn time_row(rt: &HostRuntime, name: &str, clips: &[Clip], y: i32) -> io::Result<()> {
    let mut row = [0; 1024];
    let mut sum = 0u64;
    let start = Instant::now(rt)?;
    for _ in 0..ROUNDS {
        cover_row(clips, 255, y, 0, &mut row);
        sum = sum.wrapping_add(row[500] as u64);
    }
    let spent = start.elapsed(rt)?.as_nanos() / 20_000;
    println!(rt; "{name}: {spent} ns a row ({sum})")?;
    Ok(())
}

/// A chain at some rows.
fn time_chain(rt: &HostRuntime, name: &str, chain: &[Clip]) -> io::Result<()> {
    println!(rt; "{name}")?;
    time_row(rt, "  row 0", chain, 0)?;
    time_row(rt, "  row 8", chain, 8)?;
    time_row(rt, "  row 50", chain, 50)?;
    time_row(rt, "  row 150", chain, 150)?;
    time_row(rt, "  row 250", chain, 250)
}

/// A chain of clips with these radii.
fn chain_of(alloc: Global, radii: &[u16]) -> Result<Vec<Clip>, AllocError> {
    let mut chain = Vec::new(alloc);
    for radius in radii {
        if let Some(next) = clip(*radius) {
            chain.push(next)?;
        }
    }
    Ok(chain)
}

/// Times rows under chains with these radii.
fn time_all(rt: &HostRuntime) -> io::Result<()> {
    time_chain(rt, "rectangle", &chain_of(rt.alloc(), &[0])?)?;
    time_chain(rt, "radius 16", &chain_of(rt.alloc(), &[16])?)?;
    time_chain(rt, "radius 200", &chain_of(rt.alloc(), &[200])?)?;
    time_chain(
        rt,
        "chain of 0, 16, 16, 0",
        &chain_of(rt.alloc(), &[0, 16, 16, 0])?,
    )
}

fn main(rt: HostRuntime) -> io::Result<()> {
    // Without a word nothing is written, since times differ from run to run.
    if env::args(&rt)?.count() < 2 {
        return Ok(());
    }
    time_all(&rt)
}
