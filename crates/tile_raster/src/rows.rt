//! Entries, drawn into planes.

ghost use Rattle.std.specs.Prelude.{◌≡◌, ◌≢◌, ◌≤◌, ◌<◌, ◌+◌, ◌-◌, ◌^◌, ◌+ℤ◌, ◌≤ℤ◌, pos, ℕ, length, slice_index, IsTrue};
ghost use Rattle.blend_rules.specs.declared.plane.Plane.{Plane};
ghost use Rattle.primitives.specs.Stacks.{balanced, is_shallow, value_at};
ghost use Rattle.span_kernels.specs.PlanesModel.{pixel_at, byte_at};
ghost use Rattle.tile_raster.specs.Lists.{entries_of};
ghost use Rattle.tile_raster.specs.Drawing.{IsCorner};
ghost use Rattle.tile_raster.specs.Levels.{IsBelow};
ghost use Rattle.tile_raster.specs.Rows.{width, pixel};
ghost use Rattle.tile_raster.specs.Spans.{IsFirst, x_of};
ghost use Rattle.tile_raster.specs.Notes.{IsDrawing};
ghost use Rattle.tile_raster.specs.Rasters.{AreWide, IsFit};

use crate::level::{Level, LevelRows, Tools};
use crate::line::Line;
use crate::list::EntryList;
use crate::note::{Drawing, fill_notes};
use crate::plane::part_of;
use crate::scratch::Scratch;
use crate::span::Span;
use crate::strip::Strip;
use crate::walk::draw_level;
use blend_rules::Plane;
use image_store::{Store, know_store};
use primitives::Entry;
use span_kernels::{Planes, copy};
use wr_geom::Point;

/// Draws entries into the first pixels of a row, the first of which lies at `first`.
pub(crate) fn draw_row(
    drawing: Drawing,
    first: Point,
    count: u16,
    row: &mut Line,
    levels: &mut [LevelRows],
    tools: &mut Tools,
)
    requires drawing { IsDrawing drawing }
    requires below { IsBelow (entries_of drawing.entries) (length levels.old) }
    requires room { length levels.old ≤ 65 }
    requires first { IsFirst first }
    requires reach { (first.x +ℤ pos count) ≤ℤ pos (2 ^ 29) }
    requires count { count ≤ width row.old }
    requires wide { AreWide (width row.old) levels.old }
    requires tools { IsFit (width row.old) tools.old }
    ensures value { (k : ℕ) → k < count → pixel row.new k ≡ value_at (entries_of drawing.entry.entries) drawing.entry.store.now (x_of first k) first.y }
    ensures width { width row.new ≡ width row.old }
    ensures levels { length levels.new ≡ length levels.old }
    ensures wide { AreWide (width row.old) levels.new }
    ensures tools { IsFit (width row.old) tools.new }
{
    let level = Level {
        depth: 0,
        from: 0,
        to: drawing.entries.len(),
    };
    let strip = Strip {
        first,
        span: Span { from: 0, to: count },
    };
    draw_level(drawing, level, strip, row, levels, tools);
}

/// Writes the first bytes of a row into a row of a plane.
fn put_plane(bytes: &[u8], p: Plane, y: u16, out: &mut Planes)
    requires row { y < out.old.height }
    requires width { out.old.width ≤ length bytes.now }
    ensures here { (k : ℕ) → k < out.old.width → byte_at p out.new k y ≡ slice_index bytes.now k }
    ensures rows { (q : Plane) (a b : ℕ) → a < out.old.width → b ≢ y → byte_at q out.new a b ≡ byte_at q out.old a b }
    ensures planes { (q : Plane) (a b : ℕ) → q ≢ p → byte_at q out.new a b ≡ byte_at q out.old a b }
    ensures width { out.new.width ≡ out.old.width }
    ensures height { out.new.height ≡ out.old.height }
{
    let span = Span {
        from: 0,
        to: out.width(),
    };
    let part = out.row_mut(p, y, 0, span.to);
    copy(part, part_of(bytes, span));
}

/// Writes the first pixels of a row into a row of planes.
fn put_row(row: &Line, y: u16, out: &mut Planes)
    requires row { y < out.old.height }
    requires width { out.old.width ≤ width row.now }
    ensures here { (k : ℕ) → k < out.old.width → pixel_at out.new k y ≡ pixel row.now k }
    ensures rows { (a b : ℕ) → a < out.old.width → b ≢ y → pixel_at out.new a b ≡ pixel_at out.old a b }
    ensures width { out.new.width ≡ out.old.width }
    ensures height { out.new.height ≡ out.old.height }
{
    put_plane(row.plane(Plane::B), Plane::B, y, out);
    put_plane(row.plane(Plane::G), Plane::G, y, out);
    put_plane(row.plane(Plane::R), Plane::R, y, out);
    put_plane(row.plane(Plane::A), Plane::A, y, out);
}

/// Where the first pixel of a row of planes lies.
pub(crate) fn first_of(corner: Point, y: u16) -> Point
    requires { IsFirst (record { x = corner.x; y = corner.y +ℤ pos y }) }
    ensures x { result.x ≡ corner.x }
    ensures y { result.y ≡ corner.y +ℤ pos y }
    ensures first { IsFirst result }
{
    Point {
        x: corner.x,
        y: corner.y + i32::from(y),
    }
}

/// Draws entries into each row of planes, the first pixel of which lies at `corner`.
fn draw_rows(
    drawing: Drawing,
    corner: Point,
    out: &mut Planes,
    row: &mut Line,
    levels: &mut [LevelRows],
    tools: &mut Tools,
)
    requires drawing { IsDrawing drawing }
    requires below { IsBelow (entries_of drawing.entries) (length levels.old) }
    requires room { length levels.old ≤ 65 }
    requires corner { IsCorner corner }
    requires row { out.old.width ≤ width row.old }
    requires wide { AreWide (width row.old) levels.old }
    requires tools { IsFit (width row.old) tools.old }
    ensures width { out.new.width ≡ out.old.width }
    ensures height { out.new.height ≡ out.old.height }
    ensures value { (x y : ℕ) → x < out.new.width → y < out.new.height
        → pixel_at out.new x y ≡ value_at (entries_of drawing.entry.entries) drawing.entry.store.now (corner.x +ℤ pos x) (corner.y +ℤ pos y) }
    ensures row { width row.new ≡ width row.old }
    ensures levels { length levels.new ≡ length levels.old }
    ensures wide { AreWide (width row.old) levels.new }
    ensures tools { IsFit (width row.old) tools.new }
{
    let (count, height) = (out.width(), out.height());
    for y in 0..height {
        let first = first_of(corner, y);
        draw_row(drawing, first, count, row, levels, tools);
        put_row(row, y, out);
    }
}

/// Draws entries into planes whose first pixel lies at `corner`, with what is stored now. It takes no memory. The entries
/// are balanced in pushes and pops, nest at most 64 groups and are fewer than 2^32; the corner's coordinates are from
/// -2^28 to 2^28 pixels; the scratch is at least as wide as the planes.
pub fn draw(
    entries: &[Entry],
    store: &Store,
    corner: Point,
    out: &mut Planes,
    scratch: &mut Scratch,
)
    requires few { length entries.now < 2 ^ 32 }
    requires balanced { IsTrue (balanced 0 entries.now) }
    requires shallow { IsTrue (is_shallow 64 entries.now) }
    requires corner { IsCorner corner }
    requires wide { out.old.width ≤ scratch.old.width }
    ensures width { out.new.width ≡ out.old.width }
    ensures height { out.new.height ≡ out.old.height }
    ensures value { (x y : ℕ) → x < out.new.width → y < out.new.height
        → pixel_at out.new x y ≡ value_at entries.now store.now (corner.x +ℤ pos x) (corner.y +ℤ pos y) }
    ensures scratch { scratch.new ≡ scratch.old }
{
    let entries = EntryList::All(entries);
    entries.know_entries();
    know_store(store);
    let count = fill_notes(entries, store, &mut scratch.notes);
    let drawing = Drawing {
        entries,
        store,
        notes: &scratch.notes[..count],
    };
    draw_rows(
        drawing,
        corner,
        out,
        &mut scratch.row,
        &mut scratch.levels,
        &mut scratch.tools,
    );
}
