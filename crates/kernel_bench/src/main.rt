//! With a word as argument, prints the processor time that each kernel takes for a row of 1,024 bytes, in tenths of a
//! nanosecond, and in brackets a sum of the bytes that it left.
#![tactic(auto)]

ghost use Rattle.std.specs.Prelude.{◌≡◌, ◌≤◌, ◌*◌, length, slice_index, EachIndex, replicate};

use blend_rules::Mode;
use span_kernels::{
    blend_row, copy, fill, know_row, over_row, over_solid, scale_by, scale_row, weave_row,
};
use std::time::{CpuClock, Duration};
use std::{env, io};

/// How often each row is done.
const ROUNDS: u64 = 2_000;

/// Bytes in a row.
const LENGTH: usize = 1024;

/// Prints what one row took.
fn print_time(rt: &HostRuntime, name: &str, spent: Duration, row: &[u8]) -> io::Result<()> {
    let tenths = spent.as_nanos() / 200;
    let sum: u64 = row
        .iter()
        .fold(0, |sum: u64, byte| sum.wrapping_add(*byte as u64));
    println!(rt; "{name} {tenths} ({sum})")?;
    Ok(())
}

fn time_fill(rt: &HostRuntime, d: &mut [u8]) -> io::Result<()> {
    let start = rt.process_cpu_time()?;
    for round in 0..ROUNDS {
        fill(d, (round % 251) as u8);
    }
    print_time(rt, "fill", rt.process_cpu_time()?.saturating_sub(start), d)
}

fn time_copy(rt: &HostRuntime, d: &mut [u8], s: &mut [u8]) -> io::Result<()>
    requires { length s.old ≡ length d.old }
{
    let start = rt.process_cpu_time()?;
    for _ in 0..ROUNDS / 2 {
        copy(d, s);
        copy(s, d);
    }
    print_time(rt, "copy", rt.process_cpu_time()?.saturating_sub(start), d)
}

fn time_scale_by(rt: &HostRuntime, d: &mut [u8]) -> io::Result<()> {
    let start = rt.process_cpu_time()?;
    for round in 0..ROUNDS {
        scale_by(d, (round % 251) as u8);
    }
    print_time(
        rt,
        "scale_by",
        rt.process_cpu_time()?.saturating_sub(start),
        d,
    )
}

fn time_scale_row(rt: &HostRuntime, d: &mut [u8], c: &[u8]) -> io::Result<()>
    requires { length c.now ≡ length d.old }
{
    let start = rt.process_cpu_time()?;
    for _ in 0..ROUNDS {
        scale_row(d, c);
    }
    print_time(
        rt,
        "scale_row",
        rt.process_cpu_time()?.saturating_sub(start),
        d,
    )
}

fn time_over_solid(rt: &HostRuntime, d: &mut [u8]) -> io::Result<()> {
    let start = rt.process_cpu_time()?;
    for round in 0..ROUNDS {
        over_solid(d, (round % 100) as u8, (128 + round % 120) as u8);
    }
    print_time(
        rt,
        "over_solid",
        rt.process_cpu_time()?.saturating_sub(start),
        d,
    )
}

fn time_over_row(rt: &HostRuntime, d: &mut [u8], s: &[u8], sa: &[u8]) -> io::Result<()>
    requires source { length s.now ≡ length d.old }
    requires alphas { length sa.now ≡ length d.old }
    requires premultiplied { EachIndex s.now (λ k. slice_index s.now k ≤ slice_index sa.now k) }
{
    let start = rt.process_cpu_time()?;
    for _ in 0..ROUNDS {
        over_row(d, s, sa);
    }
    print_time(
        rt,
        "over_row",
        rt.process_cpu_time()?.saturating_sub(start),
        d,
    )
}

fn time_weave(rt: &HostRuntime, b: &[u8], a: &[u8], out: &mut [u8]) -> io::Result<()>
    requires alpha { length a.now ≡ length b.now }
    requires out { length out.old ≡ 4 * length b.now }
{
    let start = rt.process_cpu_time()?;
    for _ in 0..ROUNDS / 2 {
        weave_row(b, b, a, a, out);
        weave_row(a, b, a, b, out);
    }
    print_time(
        rt,
        "weave_row",
        rt.process_cpu_time()?.saturating_sub(start),
        out,
    )
}

/// Blends a row over an opaque one.
#[inline(always)]
fn blend_over(m: Mode, d: &mut [u8], s: &[u8], sa: &[u8], da: &[u8])
    requires source { length s.now ≡ length d.old }
    requires alphas { length sa.now ≡ length d.old }
    requires backdrop_alphas { length da.now ≡ length d.old }
    requires premultiplied { EachIndex s.now (λ k. slice_index s.now k ≤ slice_index sa.now k) }
    requires opaque { EachIndex da.now (λ k. slice_index da.now k ≡ 255) }
{
    know_row(d);
    blend_row(m, d, s, sa, da);
}

fn time_mode(
    rt: &HostRuntime,
    name: &str,
    m: Mode,
    d: &mut [u8],
    s: &[u8],
    sa: &[u8],
    da: &[u8],
) -> io::Result<()>
    requires source { length s.now ≡ length d.old }
    requires alphas { length sa.now ≡ length d.old }
    requires backdrop_alphas { length da.now ≡ length d.old }
    requires premultiplied { EachIndex s.now (λ k. slice_index s.now k ≤ slice_index sa.now k) }
    requires opaque { EachIndex da.now (λ k. slice_index da.now k ≡ 255) }
{
    let start = rt.process_cpu_time()?;
    for _ in 0..ROUNDS {
        blend_over(m, d, s, sa, da);
    }
    print_time(rt, name, rt.process_cpu_time()?.saturating_sub(start), d)
}

/// Times each mode, over an opaque backdrop.
fn time_modes(rt: &HostRuntime, d: &mut [u8], s: &[u8], sa: &[u8], da: &[u8]) -> io::Result<()>
    requires source { length s.now ≡ length d.old }
    requires alphas { length sa.now ≡ length d.old }
    requires backdrop_alphas { length da.now ≡ length d.old }
    requires premultiplied { EachIndex s.now (λ k. slice_index s.now k ≤ slice_index sa.now k) }
    requires opaque { EachIndex da.now (λ k. slice_index da.now k ≡ 255) }
{
    time_mode(rt, "normal", Mode::Normal, d, s, sa, da)?;
    time_mode(rt, "multiply", Mode::Multiply, d, s, sa, da)?;
    time_mode(rt, "screen", Mode::Screen, d, s, sa, da)?;
    time_mode(rt, "overlay", Mode::Overlay, d, s, sa, da)?;
    time_mode(rt, "darken", Mode::Darken, d, s, sa, da)?;
    time_mode(rt, "lighten", Mode::Lighten, d, s, sa, da)?;
    time_mode(rt, "hard_light", Mode::HardLight, d, s, sa, da)?;
    time_mode(rt, "difference", Mode::Difference, d, s, sa, da)?;
    time_mode(rt, "exclusion", Mode::Exclusion, d, s, sa, da)
}

/// Times each kernel.
fn time_all(rt: &HostRuntime, length: usize) -> io::Result<()>
    requires { length ≤ 4096 }
{
    let mut d = vec![in rt.alloc(); 7; length]?;
    let mut s = vec![in rt.alloc(); 100; length]?;
    let sa = vec![in rt.alloc(); 128; length]?;
    let da = vec![in rt.alloc(); 255; length]?;
    let mut out = vec![in rt.alloc(); 0; 4 * length]?;
    time_fill(rt, &mut d)?;
    time_over_solid(rt, &mut d)?;
    time_over_row(rt, &mut d, &s, &sa)?;
    time_scale_by(rt, &mut d)?;
    time_scale_row(rt, &mut d, &sa)?;
    time_weave(rt, &s, &sa, &mut out)?;
    time_modes(rt, &mut d, &s, &sa, &da)?;
    time_copy(rt, &mut d, &mut s)
}

fn main(rt: HostRuntime) -> io::Result<()> {
    // Without a word nothing is written, since times differ from run to run.
    if env::args(&rt)?.count() < 2 {
        return Ok(());
    }
    time_all(&rt, LENGTH)
}
