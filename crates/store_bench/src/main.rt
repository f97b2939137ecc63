//! With a word as argument, prints how many megabytes a second are added as images, and how long an update of one
//! texel takes, by the process's processor time.
#![tactic(auto)]

ghost use Rattle.std.specs.Prelude.{◌≡◌, ◌*◌, ◌≤◌, length};
ghost use Rattle.image_store.specs.Models.{IsSide};

use image_store::{Gens, Store, StoreError};
use std::alloc::Global;
use std::time::{CpuClock, Duration};
use std::{env, io};

/// Nanoseconds for each of some rounds.
fn nanos_each(spent: Duration, rounds: u32) -> u128 {
    spent.as_nanos() / u128::from(rounds.max(1))
}

/// Adds an image again and again in the place of the one before, and prints how fast.
fn time_adds(
    rt: &HostRuntime,
    store: &mut Store,
    side: u16,
    pixels: &[u8],
    rounds: u32,
) -> io::Result<()>
    requires side { IsSide side }
    requires whole { length pixels.now ≡ side * (4 * side) }
{
    let mut gens = Gens::new();
    let start = rt.process_cpu_time()?;
    for _ in 0..rounds {
        let _ = store.add_image(&mut gens, 0, 1, side, side, pixels);
    }
    let spent = nanos_each(rt.process_cpu_time()?.saturating_sub(start), rounds);
    let rate = pixels.len() as u128 * 1000 / spent.max(1);
    println!(rt; "add {side} by {side}: {rate} MB/s ({} added)", gens.last())?;
    Ok(())
}

/// Updates one texel of the image again and again, and prints how long each time took.
fn time_updates(rt: &HostRuntime, store: &mut Store, rounds: u16) -> io::Result<()> {
    let mut gens = Gens::new();
    let start = rt.process_cpu_time()?;
    for round in 0..rounds {
        let (x, y) = (round % 2048, round / 2 % 2048);
        let _ = store.update(&mut gens, 0, 1, x, y, 1, 1, &[9; 4]);
    }
    let spent = nanos_each(
        rt.process_cpu_time()?.saturating_sub(start),
        u32::from(rounds),
    );
    println!(rt; "update of one texel: {} ns ({} done)", spent, gens.last())?;
    Ok(())
}

/// Deletes and adds one image among 10,000 in a fork, and prints how long each time took.
fn time_forks(rt: &HostRuntime, rounds: u32) -> io::Result<()> {
    let mut gens = Gens::new();
    let mut store = Store::new(rt.alloc());
    for key in 0..10_000 {
        let _ = store.add_image(&mut gens, 1, key, 1, 1, &[9; 4]);
    }
    let start = rt.process_cpu_time()?;
    for round in 0..rounds {
        if let Ok(mut fork) = store.fork() {
            let _ = fork.add_image(&mut gens, 1, round, 1, 1, &[9; 4]);
            store = fork;
        }
    }
    let spent = nanos_each(rt.process_cpu_time()?.saturating_sub(start), rounds);
    println!(rt;
        "fork and add among 10,000: {spent} ns ({} pixels)",
        store.pixels()
    )?;
    Ok(())
}

/// Times each in turn.
fn time_all(rt: &HostRuntime, alloc: Global) -> io::Result<()> {
    let large = vec![in alloc; 200; 16_777_216]?;
    let small = vec![in alloc; 200; 16_384]?;
    let mut store = Store::new(alloc);
    time_adds(rt, &mut store, 64, &small, 20_000)?;
    time_adds(rt, &mut store, 2048, &large, 20)?;
    time_updates(rt, &mut store, 2_000)?;
    time_forks(rt, 200)
}

fn main(rt: HostRuntime) -> io::Result<()> {
    // Without a word nothing is written, since times differ from run to run.
    if env::args(&rt)?.count() < 2 {
        return Ok(());
    }
    time_all(&rt, rt.alloc())
}
