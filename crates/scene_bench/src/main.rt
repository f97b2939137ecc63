//! With a word as argument, prints how many nanoseconds of the process's processor time a scene takes: with `tops`
//! to be made a list of top items, for each of its items, and with another word to be followed by the next scene.
#![tactic(auto)]

mod payloads;
mod subject;
mod top_items;

use crate::payloads::{SOLID, iframe, list, scrolls};
use crate::subject::Subject;
use crate::top_items::time_top_items;
use image_store::Gens;
use std::alloc::AllocError;
use std::time::{CpuClock, Duration};
use std::{env, io};
use txn_format::{MAX_PAYLOAD_BYTES, Txn, read_txn};

/// How often each next scene is made.
const ROUNDS: u32 = 1_000;

/// Prints nanoseconds for each of the rounds.
fn print_each(rt: &HostRuntime, name: &str, spent: Duration, refused: u32) -> io::Result<()> {
    let each = spent.as_nanos() / u128::from(ROUNDS);
    println!(rt; "{name}: {each} ns ({refused} of {ROUNDS} refused)")
}

/// Makes the next scene again and again.
fn time_txn(rt: &HostRuntime, name: &str, subject: &Subject, txn: &Txn<'_>) -> io::Result<()> {
    let mut gens = Gens::at(subject.gens.last());
    let mut refused = 0u32;
    let start = rt.process_cpu_time()?;
    for _ in 0..ROUNDS {
        if subject.scene.next(txn, &mut gens).is_err() {
            refused = refused.wrapping_add(1);
        }
    }
    let spent = rt.process_cpu_time()?.saturating_sub(start);
    print_each(rt, name, spent, refused)
}

/// The same after a payload, where the scene was made whole.
fn time(rt: &HostRuntime, name: &str, subject: &Subject, payload: &[u8]) -> io::Result<()> {
    if payload.len() > MAX_PAYLOAD_BYTES || !subject.is_whole {
        return Ok(());
    }
    match read_txn(rt.alloc(), payload) {
        Ok(txn) => time_txn(rt, name, subject, &txn),
        Err(_) => Ok(()),
    }
}

/// Stores twice so many positions in each of the 64 pipelines.
fn add_scrolls(subject: &mut Subject, half: u16) -> Result<(), AllocError> {
    for pipeline in 0..64u8 {
        let first = scrolls(subject.alloc, pipeline, 0, half)?;
        subject.apply(first.as_slice());
        let second = scrolls(subject.alloc, pipeline, half, half)?;
        subject.apply(second.as_slice());
    }
    Ok(())
}

/// A scroll where each of 64 pipelines has twice so many positions.
fn time_scroll(rt: &HostRuntime, name: &str, half: u16) -> io::Result<()> {
    let mut subject = Subject::start(rt.alloc());
    add_scrolls(&mut subject, half)?;
    let payload = scrolls(rt.alloc(), 7, 1, 1)?;
    time(rt, name, &subject, payload.as_slice())
}

/// Makes a list of 65,000 items that is drawn.
fn add_items(subject: &mut Subject) -> Result<(), AllocError> {
    let payload = list(subject.alloc, 0, &SOLID, 65_000)?;
    subject.apply(payload.as_slice());
    Ok(())
}

/// A scroll where the drawn list has many items.
fn time_items(rt: &HostRuntime) -> io::Result<()> {
    let mut subject = Subject::start(rt.alloc());
    add_items(&mut subject)?;
    let payload = scrolls(rt.alloc(), 0, 1, 1)?;
    time(rt, "scroll, 65,000 items", &subject, payload.as_slice())
}

/// Makes lists in which each pipeline but 0 and 63 has two Iframes of the next.
fn add_iframes(subject: &mut Subject) -> Result<(), AllocError> {
    let last = list(subject.alloc, 63, &SOLID, 1)?;
    subject.apply(last.as_slice());
    for pipeline in 1..63u8 {
        let two = list(subject.alloc, pipeline, &iframe(pipeline + 1), 2)?;
        subject.apply(two.as_slice());
    }
    Ok(())
}

/// A list of pipeline 0 with two Iframes of pipeline 1, which is refused.
fn time_places(rt: &HostRuntime) -> io::Result<()> {
    let mut subject = Subject::start(rt.alloc());
    add_iframes(&mut subject)?;
    let payload = list(rt.alloc(), 0, &iframe(1), 2)?;
    time(rt, "2^63 places", &subject, payload.as_slice())
}

/// Times each in turn.
fn time_all(rt: &HostRuntime) -> io::Result<()> {
    time_scroll(rt, "scroll, 10 positions", 5)?;
    time_scroll(rt, "scroll, 1,000 positions", 500)?;
    time_scroll(rt, "scroll, 65,536 positions", 32_768)?;
    time_items(rt)?;
    time_places(rt)
}

fn main(rt: HostRuntime) -> io::Result<()> {
    // Without a word nothing is written, since times differ from run to run.
    let Some(word) = env::args(&rt)?.nth(1) else {
        return Ok(());
    };
    if word.as_str() == "tops" {
        return time_top_items(&rt);
    }
    time_all(&rt)
}
