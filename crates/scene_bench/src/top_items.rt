//! How long a scene's top items take.

use crate::payloads::{SOLID, clipped_solids, list, solids_and_iframe};
use crate::subject::Subject;
use scene_flatten::tops;
use scene_state::Scene;
use std::alloc::AllocError;
use std::io;
use std::time::CpuClock;

/// How often the top items of each scene are made.
const ROUNDS: u8 = 20;

/// How many pipelines stand in one another.
const PIPELINES: u8 = 64;

/// How many Solids each of them has: 9,984 in all.
const SOLIDS_EACH: u16 = 156;

/// How many nanoseconds it takes to list a scene's top items once, and 0 where there are fewer than `least`.
fn time_once(rt: &HostRuntime, scene: &Scene, least: usize) -> io::Result<u64> {
    let start = rt.process_cpu_time()?;
    let made = tops(rt.alloc(), scene);
    let spent = rt.process_cpu_time()?.saturating_sub(start);
    match made {
        Ok(found) if found.len() >= least => {
            Ok(u64::try_from(spent.as_nanos()).unwrap_or(u64::MAX))
        }
        _ => Ok(0),
    }
}

/// Prints the least time of all rounds for each of so many items.
fn time(rt: &HostRuntime, name: &str, subject: &Subject, items: u32) -> io::Result<()> {
    let mut least = u64::MAX;
    for _ in 0..ROUNDS {
        least = least.min(time_once(rt, &subject.scene, items as usize)?);
    }
    let each = least / u64::from(items.max(1));
    println!(rt; "{name}: {each} ns an item")
}

/// Sets the root's list of so many Solids.
fn add_solids(subject: &mut Subject, count: u16) -> Result<(), AllocError> {
    let payload = list(subject.alloc, 0, &SOLID, count)?;
    subject.apply(payload.as_slice());
    Ok(())
}

/// Sets a list for each pipeline: Solids, and an Iframe of the next one.
fn add_nested(subject: &mut Subject) -> Result<(), AllocError> {
    let last = list(subject.alloc, PIPELINES - 1, &SOLID, SOLIDS_EACH)?;
    subject.apply(last.as_slice());
    for pipeline in 0..PIPELINES - 1 {
        let payload = solids_and_iframe(subject.alloc, pipeline, SOLIDS_EACH)?;
        subject.apply(payload.as_slice());
    }
    Ok(())
}

/// Sets the root's list of so many Solids under a chain of eight clips.
fn add_clipped(subject: &mut Subject, count: u16) -> Result<(), AllocError> {
    let payload = clipped_solids(subject.alloc, count)?;
    subject.apply(payload.as_slice());
    Ok(())
}

/// Times 60,000 Solids, 9,984 in nested Iframes, and 60,000 that are clipped.
fn time_scenes(rt: &HostRuntime, subject: &mut Subject) -> io::Result<()> {
    add_solids(subject, 60_000)?;
    time(rt, "60,000 solids", subject, 60_000)?;
    add_nested(subject)?;
    time(rt, "64 nested Iframes", subject, 9_984)?;
    add_clipped(subject, 60_000)?;
    time(rt, "solids under eight clips", subject, 60_000)
}

/// The same, from an empty scene on.
pub fn time_top_items(rt: &HostRuntime) -> io::Result<()> {
    let mut subject = Subject::start(rt.alloc());
    time_scenes(rt, &mut subject)
}
