//! The records of many tiles, in one pass over entries.

ghost use Rattle.std.specs.Prelude.{◌≡◌, ◌++◌, ◌∷◌, [], ◌<◌, ◌≤◌, ◌+◌, ◌*◌, ◌^◌, ℕ, length, get_or, slice_set, OnOk, IfOk, IsTrue, Contains};
ghost use Rattle.primitives.specs.Stacks.{balanced};
ghost use Rattle.primitives.specs.declared.entry.Entry.TheVariants as an_entry;
ghost use Rattle.tile_records.specs.Interning.{ids_keys};
ghost use Rattle.tile_records.specs.Picks.{picked_after, shows_in};
ghost use Rattle.tile_records.specs.Tiles.{columns_of, rows_of, rect_at};
ghost use Rattle.tile_records.specs.Passing.{views, keys_of_records, state, IsSoundPass, HasFilled, HasDrawn, Leaves, AllLeave, HasOpened, HasClosed, HasDrawnBlock, Takes, IsFresh};

use crate::tiles::Tiles;
use crate::{Id, TileRecord};
use primitives::{Entry, Primitive, visible};
use std::alloc::{AllocError, Global};
use tile_grid::GridPart;

/// The records so far, how many of the open groups each has, and of each open group the key and the tiles that it has
/// reached.
#[derive(Drop)]
pub(crate) struct Pass {
    records: Vec<TileRecord>,
    entered: Vec<usize>,
    groups: Vec<usize>,
    reached: Vec<Vec<usize>>,
}

/// Adds an id to one of the records.
fn append_id(records: &mut Vec<TileRecord>, at: usize, key: usize) -> Result<(), AllocError>
    requires { at < length records.now.items }
    ensures { OnOk result (keys_of_records records.new.items ≡ slice_set (keys_of_records records.old.items) at (get_or (keys_of_records records.old.items) at [] ++ (key ∷ []))) }
{
    records[at].ids.push(Id { key })?;
    Ok(())
}

/// Adds a number to one of the lists.
fn append(lists: &mut Vec<Vec<usize>>, at: usize, number: usize) -> Result<(), AllocError>
    requires { at < length lists.now.items }
    ensures { OnOk result (views lists.new.items ≡ slice_set (views lists.old.items) at (get_or (views lists.old.items) at [] ++ (number ∷ []))) }
{
    lists[at].push(number)?;
    Ok(())
}

/// Adds the groups from a depth on to a tile's record, and the tile to each of those.
fn fill(
    records: &mut Vec<TileRecord>,
    reached: &mut Vec<Vec<usize>>,
    groups: &[usize],
    from: usize,
    tile: usize,
) -> Result<(), AllocError>
    requires tile { tile < length records.now.items }
    requires depths { length reached.now.items ≡ length groups.now }
    requires from { from ≤ length groups.now }
    ensures { OnOk result (HasFilled groups.now from tile (keys_of_records records.old.items) (views reached.old.items) (keys_of_records records.new.items) (views reached.new.items)) }
{
    for depth in from..groups.len() {
        append_id(records, tile, groups[depth])?;
        append(reached, depth, tile)?;
    }
    Ok(())
}

/// Ends a tile's group at this depth, if the tile has it.
fn leave_one(
    records: &mut Vec<TileRecord>,
    entered: &mut Vec<usize>,
    tile: usize,
    depth: usize,
    key: usize,
) -> Result<(), AllocError>
    requires sides { length entered.now.items ≡ length records.now.items }
    requires depth { 0 < depth }
    ensures { OnOk result (Leaves tile depth key (keys_of_records records.old.items) entered.old.items (keys_of_records records.new.items) entered.new.items) }
{
    if tile < entered.len() {
        if entered[tile] == depth {
            append_id(records, tile, key)?;
            entered[tile] = depth - 1;
        }
    }
    Ok(())
}

/// Ends the group at this depth in each tile that has it.
fn leave(
    records: &mut Vec<TileRecord>,
    entered: &mut Vec<usize>,
    group: &[usize],
    depth: usize,
    key: usize,
) -> Result<(), AllocError>
    requires sides { length entered.now.items ≡ length records.now.items }
    requires depth { 0 < depth }
    requires known { (k : ℕ) → get_or entered.now.items k 0 ≡ depth → Contains group.now k }
    ensures { OnOk result (AllLeave depth key (keys_of_records records.old.items) entered.old.items (keys_of_records records.new.items) entered.new.items) }
{
    for tile in group {
        leave_one(records, entered, *tile, depth, key)?;
    }
    Ok(())
}

impl Pass {
    /// Tiles with empty records.
    fn new(alloc: Global, count: usize) -> Result<Pass, AllocError>
        ensures { IfOk result (λ p. IsFresh count (state p)) }
    {
        let mut records: Vec<TileRecord> = Vec::new(alloc);
        let mut entered: Vec<usize> = Vec::new(alloc);
        for _ in 0..count {
            records.push(TileRecord {
                ids: Vec::new(alloc),
            })?;
            entered.push(0)?;
        }
        Ok(Pass {
            records,
            entered,
            groups: Vec::new(alloc),
            reached: Vec::new(alloc),
        })
    }

    /// Puts a primitive into one tile's record, after the groups that the tile lacks.
    fn enter(&mut self, tile: usize, key: usize) -> Result<(), AllocError>
        requires sound { IsSoundPass (state self.now) }
        requires tile { tile < length (state self.now).lists }
        ensures { OnOk result (HasDrawn tile (tile + 1) key (state self.old) (state self.new)) }
    {
        let from = self.entered[tile];
        fill(
            &mut self.records,
            &mut self.reached,
            &self.groups,
            from,
            tile,
        )?;
        append_id(&mut self.records, tile, key)?;
        self.entered[tile] = self.groups.len();
        Ok(())
    }

    /// Puts a primitive into the records of tiles side by side.
    fn draw_row(&mut self, start: usize, end: usize, key: usize) -> Result<(), AllocError>
        requires sound { IsSoundPass (state self.now) }
        requires end { end ≤ length (state self.now).lists }
        requires order { start ≤ end }
        ensures { OnOk result (HasDrawn start end key (state self.old) (state self.new)) }
    {
        for tile in start..end {
            self.enter(tile, key)?;
        }
        Ok(())
    }

    /// Puts a primitive into the records of the tiles of some columns and rows.
    fn draw_block(
        &mut self,
        columns: usize,
        rows: usize,
        part: GridPart,
        key: usize,
    ) -> Result<(), AllocError>
        requires sound { IsSoundPass (state self.now) }
        requires sides { length (state self.now).lists ≡ rows * columns }
        requires across { part.columns.from ≤ part.columns.to }
        requires down { part.rows.from ≤ part.rows.to }
        requires right { part.columns.to ≤ columns }
        requires bottom { part.rows.to ≤ rows }
        requires few { rows * columns < 2 ^ 63 }
        ensures { OnOk result (HasDrawnBlock columns part.columns.from part.columns.to part.rows.from part.rows.to key (state self.old) (state self.new)) }
    {
        let left = part.columns.from as usize;
        let right = part.columns.to as usize;
        for row in part.rows.from as usize..part.rows.to as usize {
            let start = row * columns;
            self.draw_row(start + left, start + right, key)?;
        }
        Ok(())
    }

    /// Opens a group, which no tile has yet.
    fn open_group(&mut self, alloc: Global, key: usize) -> Result<(), AllocError>
        requires { IsSoundPass (state self.now) }
        ensures { OnOk result (HasOpened key (state self.old) (state self.new)) }
    {
        self.groups.push(key)?;
        self.reached.push(Vec::new(alloc))?;
        Ok(())
    }

    /// Ends the innermost group, in the tiles that have it.
    fn close_group(&mut self, key: usize) -> Result<(), AllocError>
        requires sound { IsSoundPass (state self.now) }
        requires opened { 0 < length (state self.now).groups }
        ensures { OnOk result (HasClosed key (state self.old) (state self.new)) }
    {
        let depth = self.groups.len();
        let _place = self.groups.pop().unwrap();
        let group = self.reached.pop().unwrap();
        leave(&mut self.records, &mut self.entered, &group, depth, key)?;
        Ok(())
    }

    /// Takes the next entry, with its key.
    fn take(
        &mut self,
        alloc: Global,
        tiles: &Tiles,
        entry: &Entry,
        key: usize,
    ) -> Result<(), AllocError>
        requires sound { IsSoundPass (state self.now) }
        requires sides { length (state self.now).lists ≡ rows_of tiles.now * columns_of tiles.now }
        requires pop { entry.now ≡ an_entry.Pop → 0 < length (state self.now).groups }
        ensures { OnOk result (Takes tiles.now entry.now key (state self.old) (state self.new)) }
    {
        match entry {
            Entry::Primitive(primitive) => self.draw(tiles, primitive, key),
            Entry::Push { .. } => self.open_group(alloc, key),
            Entry::Pop => self.close_group(key),
        }
    }

    /// Puts a primitive into the records of the tiles that it meets.
    fn draw(&mut self, tiles: &Tiles, primitive: &Primitive, key: usize) -> Result<(), AllocError>
        requires sound { IsSoundPass (state self.now) }
        requires sides { length (state self.now).lists ≡ rows_of tiles.now * columns_of tiles.now }
        ensures { OnOk result (Takes tiles.now (an_entry.Primitive primitive.now) key (state self.old) (state self.new)) }
    {
        let columns = tiles.columns();
        let part = tiles.part(visible(primitive));
        self.draw_block(columns, tiles.rows(), part, key)?;
        Ok(())
    }
}

/// The record of each tile, row by row: what is picked of some ids, one for each entry.
pub(crate) fn picked_by_tile(
    alloc: Global,
    entries: &[Entry],
    ids: &[Id],
    tiles: &Tiles,
) -> Result<Vec<TileRecord>, AllocError>
    requires balanced { IsTrue (balanced 0 entries.now) }
    requires ids { length ids.now ≡ length entries.now }
    ensures count { IfOk result (λ rs. length (keys_of_records rs.items) ≡ rows_of tiles.now * columns_of tiles.now) }
    ensures picked { IfOk result (λ rs. (c r : ℕ) → c < columns_of tiles.now → r < rows_of tiles.now
        → get_or (keys_of_records rs.items) (r * columns_of tiles.now + c) [] ≡ picked_after (shows_in (rect_at tiles.now c r)) [] entries.now (ids_keys ids.now)) }
{
    let mut pass = Pass::new(alloc, tiles.count())?;
    for number in 0..entries.len() {
        pass.take(alloc, tiles, &entries[number], ids[number].key)?;
    }
    Ok(pass.records)
}
