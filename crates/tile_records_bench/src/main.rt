//! With a word as argument, prints how many nanoseconds of processor time `make_records` takes for each entry and for each
//! tile, with tiles of 64 by 64 pixels in a view of 1280 by 800, and how many ids the records have: once when all entries
//! are new to the interner, and once when other records hold them.
#![tactic(auto)]

ghost use Rattle.std.specs.Prelude.{IsTrue};
ghost use Rattle.primitives.specs.Stacks.{balanced};

mod subjects;

use crate::subjects::{entries, grid};
use primitives::Entry;
use std::time::CpuClock;
use std::{env, io};
use tile_records::{Interner, TileRecord, give_up, is_balanced, make_records};

/// How many ids some records have.
fn ids_of(records: &[TileRecord]) -> usize {
    let mut count: usize = 0;
    for record in records {
        count = count.wrapping_add(record.ids.len());
    }
    count
}

/// Makes the records of all tiles, and prints the nanoseconds.
fn time(
    rt: &HostRuntime,
    name: &str,
    interner: &mut Interner,
    entries: &[Entry],
) -> io::Result<Vec<TileRecord>>
    requires { IsTrue (balanced 0 entries.now) }
{
    let start = rt.process_cpu_time()?;
    let records = make_records(interner, entries, grid()).unwrap_or(Vec::new(rt.alloc()));
    let spent = rt.process_cpu_time()?.saturating_sub(start).as_nanos();
    let each = spent.checked_div(entries.len() as u128).unwrap_or(0);
    let tile = spent.checked_div(records.len() as u128).unwrap_or(0);
    let ids = ids_of(records.as_slice());
    println!(rt;
        "{} entries, {name}: {each} ns an entry, {tile} ns a tile, {ids} ids",
        entries.len()
    )?;
    Ok(records)
}

/// Gives records up, and prints the nanoseconds for each entry.
fn time_release(
    rt: &HostRuntime,
    interner: &mut Interner,
    records: Vec<TileRecord>,
    count: usize,
) -> io::Result<()> {
    let start = rt.process_cpu_time()?;
    for record in records {
        give_up(interner, record);
    }
    let spent = rt.process_cpu_time()?.saturating_sub(start).as_nanos();
    let each = spent.checked_div(count as u128).unwrap_or(0);
    println!(rt; "{count} entries, given up: {each} ns an entry")
}

/// Times some entries, new and held.
fn time_both(rt: &HostRuntime, entries: &[Entry]) -> io::Result<()>
    requires { IsTrue (balanced 0 entries.now) }
{
    let mut interner = Interner::new(rt.alloc());
    let first = time(rt, "new", &mut interner, entries)?;
    let second = time(rt, "held", &mut interner, entries)?;
    time_release(rt, &mut interner, first, entries.len())?;
    time_release(rt, &mut interner, second, entries.len())
}

/// Makes so many entries, and times them.
fn time_count(rt: &HostRuntime, count: u32) -> io::Result<()> {
    let Ok(entries) = entries(rt.alloc(), count) else {
        return Ok(());
    };
    if !is_balanced(entries.as_slice()) {
        return Ok(());
    }
    time_both(rt, entries.as_slice())
}

fn main(rt: HostRuntime) -> io::Result<()> {
    // Without a word nothing is written, since times differ from run to run.
    if env::args(&rt)?.count() < 2 {
        return Ok(());
    }
    time_count(&rt, 100)?;
    time_count(&rt, 10_000)?;
    time_count(&rt, 65_536)
}
