//! With a word as argument, prints the processor time in nanoseconds that each call on a row takes where 1, 16 and 512
//! intervals of it are covered, and in brackets a sum of the places that were found.
#![tactic(auto)]

ghost use Rattle.std.specs.Prelude.{◌≡◌, ◌≤◌, ◌*◌, length};

use batching::Cover;
use std::time::{CpuClock, Duration};
use std::{env, io};

/// How often each call is made for each row.
const CALLS: u32 = 1 << 20;

/// Pixels from the begin of one interval to the begin of the next. Four of them are covered.
const STRIDE: u16 = 8;

/// Covers so many intervals from left to right, each with a depth of its own.
fn cover_all(cover: &mut Cover, count: u16)
    requires few { count ≤ 512 }
    requires wide { STRIDE * count ≤ length cover.old }
    ensures { length cover.new ≡ length cover.old }
{
    for k in 0..count {
        cover.cover(STRIDE * k + 2, STRIDE * k + 6, u32::from(k) + 1);
    }
}

/// The same from right to left, so that each interval moves all that are covered.
fn cover_back(cover: &mut Cover, count: u16)
    requires few { count ≤ 512 }
    requires wide { STRIDE * count ≤ length cover.old }
    ensures { length cover.new ≡ length cover.old }
{
    for k in (0..count).rev() {
        cover.cover(STRIDE * k + 2, STRIDE * k + 6, u32::from(k) + 1);
    }
}

/// Covers the intervals of a row again and again.
fn cover_rounds(cover: &mut Cover, count: u16, rounds: u32)
    requires few { count ≤ 512 }
    requires wide { STRIDE * count ≤ length cover.old }
    ensures { length cover.new ≡ length cover.old }
{
    for _ in 0..rounds {
        cover.reset();
        cover_all(cover, count);
    }
}

/// The same from right to left.
fn cover_rounds_back(cover: &mut Cover, count: u16, rounds: u32)
    requires few { count ≤ 512 }
    requires wide { STRIDE * count ≤ length cover.old }
    ensures { length cover.new ≡ length cover.old }
{
    for _ in 0..rounds {
        cover.reset();
        cover_back(cover, count);
    }
}

/// Asks for the first open part from each interval on, and adds up where these parts begin.
fn ask_open(cover: &Cover, count: u16) -> u64
    requires few { count ≤ 512 }
    requires wide { STRIDE * count ≤ length cover.now }
{
    let mut sum = 0u64;
    for k in 0..count {
        if let Some((x, _)) = cover.next_open(STRIDE * k + 2, STRIDE * count) {
            sum = sum.wrapping_add(x.into());
        }
    }
    sum
}

/// Asks for the first part from each interval on that no depth above this one covers, and adds up where these parts end.
fn ask_above(cover: &Cover, count: u16, depth: u32) -> u64
    requires few { count ≤ 512 }
    requires wide { STRIDE * count ≤ length cover.now }
{
    let mut sum = 0u64;
    for k in 0..count {
        if let Some((_, x)) = cover.next_above(STRIDE * k, STRIDE * count, depth) {
            sum = sum.wrapping_add(x.into());
        }
    }
    sum
}

fn open_rounds(cover: &Cover, count: u16, rounds: u32) -> u64
    requires few { count ≤ 512 }
    requires wide { STRIDE * count ≤ length cover.now }
{
    let mut sum = 0u64;
    for _ in 0..rounds {
        sum = sum.wrapping_add(ask_open(cover, count));
    }
    sum
}

fn above_rounds(cover: &Cover, count: u16, rounds: u32) -> u64
    requires few { count ≤ 512 }
    requires wide { STRIDE * count ≤ length cover.now }
{
    let mut sum = 0u64;
    for _ in 0..rounds {
        sum = sum.wrapping_add(ask_above(cover, count, 0));
    }
    sum
}

/// Prints the nanoseconds for each call since `start`.
fn print_since(rt: &HostRuntime, name: &str, start: Duration, sum: u64) -> io::Result<()> {
    let spent = rt.process_cpu_time()?.saturating_sub(start);
    let each = spent.as_nanos() / u128::from(CALLS);
    println!(rt; "  {name}: {each} ({sum})")
}

/// Times each call on a row of so many intervals.
fn time_row(rt: &HostRuntime, count: u16) -> io::Result<()>
    requires { count ≤ 512 }
{
    let Ok(mut cover) = Cover::new(rt.alloc(), STRIDE * count) else {
        return Ok(());
    };
    println!(rt; "{count} intervals")?;
    let rounds = CALLS / u32::from(count.max(1));
    let start = rt.process_cpu_time()?;
    cover_rounds_back(&mut cover, count, rounds);
    print_since(rt, "cover, from right to left", start, 0)?;
    let start = rt.process_cpu_time()?;
    cover_rounds(&mut cover, count, rounds);
    print_since(rt, "cover, from left to right", start, 0)?;
    let start = rt.process_cpu_time()?;
    let sum = open_rounds(&cover, count, rounds);
    print_since(rt, "next_open", start, sum)?;
    let start = rt.process_cpu_time()?;
    let sum = above_rounds(&cover, count, rounds);
    print_since(rt, "next_above", start, sum)?;
    cover.cover(0, STRIDE * count, 1000);
    let start = rt.process_cpu_time()?;
    let sum = open_rounds(&cover, count, rounds);
    print_since(rt, "next_open on a row covered whole", start, sum)
}

fn main(rt: HostRuntime) -> io::Result<()> {
    // Without a word nothing is written, since times differ from run to run.
    if env::args(&rt)?.count() < 2 {
        return Ok(());
    }
    for count in [1, 16, 512] {
        time_row(&rt, count)?;
    }
    Ok(())
}
