//! With a word as argument, prints how fast lists are decoded: `solids`, `contexts` or `scrolls`.
#![tactic(auto)]

ghost use Rattle.std.specs.Prelude.{◌≤◌, ◌^◌, length};

use display_list::decode;
use std::alloc::{AllocError, Global};
use std::time::Instant;
use std::{env, io};

/// The size of a list, in bytes: at least this, and a part more.
const SIZE: usize = 8 << 20;

/// How often a list is decoded.
const ROUNDS: u64 = 20;

/// A plain solid.
const SOLID: [u8; 25] = [
    6, 0, 0, 255, 255, 0, 0, 0, 0, 0, 0, 0, 0, 4, 0, 0, 0, 4, 0, 0, 0, 1, 2, 3, 4,
];

/// The start of a context.
const PUSH: [u8; 10] = [10, 0, 0, 255, 255, 255, 255, 255, 0, 0];

/// Parts again and again, and the End.
fn repeated(alloc: Global, part: &[u8]) -> Result<Vec<u8>, AllocError> {
    let mut out = Vec::new(alloc);
    for _ in 0..SIZE / part.len().max(1) + 1 {
        out.extend_from_slice(part)?;
    }
    out.push(0)?;
    Ok(out)
}

/// 64 contexts in one another around nothing.
fn nest(alloc: Global) -> Result<Vec<u8>, AllocError> {
    let mut out = Vec::new(alloc);
    for _ in 0..64 {
        out.extend_from_slice(&PUSH)?;
    }
    out.extend_from_slice(&[11; 64])?;
    Ok(out)
}

/// A list of 4,096 scroll frames.
fn frames(alloc: Global) -> Result<Vec<u8>, AllocError> {
    let mut out = Vec::new(alloc);
    for sid in 0u16..4096 {
        out.extend_from_slice(&[2, 0, 0])?;
        out.extend_from_slice(&sid.to_le_bytes())?;
        out.extend_from_slice(&[0; 16])?;
    }
    out.push(0)?;
    Ok(out)
}

/// Decodes a list again and again, and prints how fast.
fn time_list(rt: &HostRuntime, name: &str, bytes: &[u8], rounds: u64) -> io::Result<()> {
    if bytes.len() > 1 << 26 {
        return Ok(());
    }
    let mut found = 0u64;
    let start = Instant::now(rt)?;
    for _ in 0..rounds {
        if let Ok(list) = decode(rt.alloc(), bytes, 0) {
            found = found.wrapping_add(list.items().len() as u64);
        }
    }
    let spent = u64::try_from(start.elapsed(rt)?.as_micros())
        .unwrap_or(u64::MAX)
        .max(1);
    let speed = (bytes.len() as u64).saturating_mul(rounds) / spent;
    println!(rt; "{name}: {speed} MB/s ({found} items)")
}

fn main(rt: HostRuntime) -> io::Result<()> {
    // Without a word nothing is written, since times differ from run to run.
    let alloc = rt.alloc();
    let Some(word) = env::args(&rt)?.nth(1) else {
        return Ok(());
    };
    match word.as_str() {
        "solids" => time_list(&rt, "solids", &repeated(alloc, &SOLID)?, ROUNDS),
        "contexts" => time_list(&rt, "contexts", &repeated(alloc, &nest(alloc)?)?, ROUNDS),
        "scrolls" => time_list(&rt, "scroll frames", &frames(alloc)?, 200),
        _ => Ok(()),
    }
}
