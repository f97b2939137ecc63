//! With a word as argument, prints how many megabytes of payload are read and written a second: of one
//! with 65,535 scrolls, and of one with an image of 64 MiB.
#![tactic(auto)]

ghost use Rattle.std.specs.Prelude.{◌≤◌, ◌^◌, length};

use std::alloc::{AllocError, Global};
use std::time::{Duration, Instant};
use std::{env, io};
use txn_format::{MAX_PAYLOAD_BYTES, read_txn, write_txn};

/// How often each payload is read and written.
const ROUNDS: u32 = 20;

/// A payload of 65,535 scrolls.
fn scrolls(alloc: Global) -> Result<Vec<u8>, AllocError> {
    let mut payload = Vec::new(alloc);
    payload.extend_from_slice(&[0, 0, 255, 255])?;
    for _ in 0..65535u32 {
        payload.extend_from_slice(&[3, 7, 0, 1, 0, 0, 0, 2, 0, 0, 0])?;
    }
    Ok(payload)
}

/// A payload with an image of 4,096 by 4,095 texels.
fn image(alloc: Global) -> Result<Vec<u8>, AllocError> {
    let mut payload = Vec::new(alloc);
    payload.extend_from_slice(&[0, 0, 1, 0, 5, 1, 0, 0, 0, 0, 16, 255, 15])?;
    payload.resize(67_092_493, 200)?;
    Ok(payload)
}

/// Megabytes a second, where so many bytes took so long each time.
fn rate(bytes: usize, spent: Duration) -> u64 {
    let nanos = spent.as_nanos() / ROUNDS as u128;
    let scaled = bytes as u128 * 1000;
    (scaled / nanos.max(1)).min(u64::MAX as u128) as u64
}

/// Reads and writes a payload again and again.
fn time(rt: &HostRuntime, name: &str, payload: &[u8]) -> io::Result<()>
    requires { length payload.now ≤ 2 ^ 26 }
{
    let start = Instant::now(rt)?;
    let mut ops = 0u64;
    for _ in 0..ROUNDS {
        if let Ok(txn) = read_txn(rt.alloc(), payload) {
            ops = ops.wrapping_add(txn.ops().len() as u64);
        }
    }
    let reading = rate(payload.len(), start.elapsed(rt)?);
    println!(rt; "{name}: {reading} MB/s read ({ops} operations)")?;
    let Ok(txn) = read_txn(rt.alloc(), payload) else {
        return Ok(());
    };
    let start = Instant::now(rt)?;
    let mut bytes = 0u64;
    for _ in 0..ROUNDS {
        if let Ok(written) = write_txn(rt.alloc(), &txn) {
            bytes = bytes.wrapping_add(written.len() as u64);
        }
    }
    let writing = rate(payload.len(), start.elapsed(rt)?);
    println!(rt; "{name}: {writing} MB/s written ({bytes} bytes)")?;
    Ok(())
}

/// Reads and writes a payload that is within the limit.
fn time_payload(rt: &HostRuntime, name: &str, payload: &[u8]) -> io::Result<()> {
    if payload.len() > MAX_PAYLOAD_BYTES {
        return Ok(());
    }
    time(rt, name, payload)
}

fn main(rt: HostRuntime) -> io::Result<()> {
    // Without a word nothing is written, since times differ from run to run.
    if env::args(&rt)?.count() < 2 {
        return Ok(());
    }
    time_payload(&rt, "scrolls", scrolls(rt.alloc())?.as_slice())?;
    time_payload(&rt, "image", image(rt.alloc())?.as_slice())
}
