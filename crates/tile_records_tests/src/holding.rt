//! An interner over many calls against a plain list.

use super::made::Step::{Image, Pop, Push, Solid, Text};
use super::made::{entries, rect};
use primitives::Entry;
use std::alloc::Global;
use std::test::Fail;
use tile_records::{Id, Interner};
use wr_geom::NoMemory;

/// Numbers by a linear congruential generator.
#[derive(Drop)]
struct Draws {
    state: u64,
}

impl Draws {
    /// A number from 0 to 255.
    fn draw(&mut self) -> u8 {
        let next = self.state.wrapping_mul(6_364_136_223_846_793_005);
        self.state = next.wrapping_add(1_442_695_040_888_963_407);
        (self.state >> 56) as u8
    }
}

/// The id that an entry had last, and how often it is held.
#[derive(Clone, Copy)]
struct Row {
    id: Id,
    count: u64,
}

/// What nothing was held under so far.
const NO_ROW: Row = Row {
    id: Id { key: 0 },
    count: 0,
};

/// Whether an interner says of an entry what its row does.
fn agrees(interner: &Interner, entry: &Entry, row: Row) -> bool {
    if row.count == 0 {
        return match interner.get(row.id) {
            Some(other) => other != entry,
            None => interner.count(row.id) == 0,
        };
    }
    match interner.get(row.id) {
        Some(held) => held == entry && interner.count(row.id) == row.count,
        None => false,
    }
}

/// Whether an interner says what the rows of all entries do.
fn all_agree(interner: &Interner, entries: &[Entry], rows: &[Row]) -> bool {
    for i in 0..entries.len().min(rows.len()) {
        if !agrees(interner, &entries[i], rows[i]) {
            return false;
        }
    }
    entries.len() == rows.len()
}

/// Holds an entry once more. Whether it keeps its id while it is held.
fn hold(interner: &mut Interner, entry: &Entry, row: &mut Row) -> Result<bool, NoMemory> {
    let id = interner.acquire(entry)?;
    let keeps = row.count == 0 || row.id == id;
    row.id = id;
    row.count = row.count.wrapping_add(1);
    Ok(keeps)
}

/// Holds an entry once less, if it is held. Its last id may be held for another entry by now.
fn let_go(interner: &mut Interner, row: &mut Row) {
    if row.count > 0 {
        interner.release(row.id);
        row.count -= 1;
    }
}

/// Holds one of the entries once more or once less, as is drawn. Whether it keeps its id while it is held.
fn call(
    interner: &mut Interner,
    entries: &[Entry],
    rows: &mut [Row],
    draws: &mut Draws,
) -> Result<bool, NoMemory> {
    let i = usize::from(draws.draw() % 12);
    if i >= entries.len() || i >= rows.len() {
        return Ok(false);
    }
    if draws.draw() < 120 {
        return hold(interner, &entries[i], &mut rows[i]);
    }
    let_go(interner, &mut rows[i]);
    Ok(true)
}

/// Whether an interner says what a plain list does, after each of some thousand calls.
fn agrees_for_long(interner: &mut Interner, entries: &[Entry]) -> Result<bool, NoMemory> {
    let mut draws = Draws { state: 1 };
    let mut rows = [NO_ROW; 12];
    for _ in 0..5000 {
        if !call(interner, entries, &mut rows, &mut draws)? {
            return Ok(false);
        }
        if !all_agree(interner, entries, &rows) {
            return Ok(false);
        }
    }
    Ok(true)
}

/// Twelve entries, some of which differ little.
fn twelve(alloc: Global) -> Result<Vec<Entry>, NoMemory> {
    let steps = [
        Solid(rect(0, 0, 8, 8)),
        Solid(rect(0, 0, 8, 9)),
        Solid(rect(-1, 0, 8, 8)),
        Image(rect(0, 0, 8, 8), 1),
        Image(rect(0, 0, 8, 8), 2),
        Text(rect(0, 0, 8, 8), 1),
        Text(rect(0, 0, 8, 8), 2),
        Push(0),
        Push(1),
        Push(255),
        Pop,
        Solid(rect(0, 0, 0, 0)),
    ];
    Ok(entries(alloc, &steps)?)
}

#[test]
fn counts_are_those_of_a_list(rt: HostRuntime) -> Result<(), Fail> {
    let entries = twelve(rt.alloc())?;
    let mut interner = Interner::new(rt.alloc());
    assert!(rt; agrees_for_long(&mut interner, entries.as_slice())?);
    Ok(())
}
