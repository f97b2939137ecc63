//! Levels of entries, drawn into a row.

ghost use Rattle.std.specs.Prelude.{◌≡◌, ◌≤◌, ◌<◌, ◌+◌, ℕ, length};
ghost use Rattle.blend_rules.specs.Colour.{clear};
ghost use Rattle.primitives.specs.declared.entry.Entry.TheVariants as entry;
ghost use Rattle.tile_raster.specs.Lists.{entries_of};
ghost use Rattle.tile_raster.specs.Levels.{IsAt, IsBelow, Begins, IsGroupEnd};
ghost use Rattle.tile_raster.specs.Rows.{width, pixel, IsIn};
ghost use Rattle.tile_raster.specs.Spans.{IsStrip, x_of};
ghost use Rattle.tile_raster.specs.Notes.{IsNote, IsDrawing};
ghost use Rattle.tile_raster.specs.Rasters.{IsLevel, AreBegun, IsFit, IsWide, AreWide};

use crate::lay::{fade_group, lay_group, lay_primitive};
use crate::level::{Level, LevelRows, Tools};
use crate::line::Line;
use crate::note::{Drawing, Note, Noted, note_at};
use crate::opaque::take_opaque;
use crate::span::know_span;
use crate::strip::{Strip, cut_strip};
use blend_rules::Px;
use primitives::Entry;

/// Takes the primitive or group of a level that ends right before `i`, if it is an opaque primitive, and answers where
/// it begins.
fn take_top(
    drawing: Drawing,
    level: Level,
    i: usize,
    strip: Strip,
    row: &mut Line,
    rows: &mut LevelRows,
    tools: &mut Tools,
) -> usize
    requires drawing { IsDrawing drawing }
    requires level { IsLevel (entries_of drawing.entries) level }
    requires some { level.from < i }
    requires order { i ≤ level.to }
    requires place { IsAt (entries_of drawing.entries) level.depth i }
    requires strip { IsStrip strip (width row.old) }
    requires wide { IsWide (width row.old) rows.old }
    requires tools { IsFit (width row.old) tools.old }
    requires begun { AreBegun drawing level strip level.from rows.old.cover row.old }
    ensures left { level.from ≤ result }
    ensures less { result < i }
    ensures place { IsAt (entries_of drawing.entry.entries) level.depth result }
    ensures begun { AreBegun drawing.entry level strip level.from rows.new.cover row.new }
    ensures width { width row.new ≡ width row.old }
    ensures wide { IsWide (width row.old) rows.new }
    ensures tools { IsFit (width row.old) tools.new }
{
    let last = i - 1;
    let note = note_at(drawing, last);
    match drawing.entries.at(last) {
        Entry::Primitive(primitive) => {
            if note.is_opaque {
                let noted = Noted {
                    primitive,
                    store: drawing.store,
                    number: last,
                    is_whole: note.is_whole,
                };
                take_opaque(
                    noted,
                    note.shown,
                    strip,
                    &mut rows.cover,
                    &mut tools.mask,
                    row,
                );
            }
            last
        }
        Entry::Push { .. } => unreachable!(),
        Entry::Pop => note.partner,
    }
}

/// Takes the opaque primitives of a level front to back.
fn take_all(
    drawing: Drawing,
    level: Level,
    strip: Strip,
    row: &mut Line,
    rows: &mut LevelRows,
    tools: &mut Tools,
)
    requires drawing { IsDrawing drawing }
    requires level { IsLevel (entries_of drawing.entries) level }
    requires strip { IsStrip strip (width row.old) }
    requires wide { IsWide (width row.old) rows.old }
    requires tools { IsFit (width row.old) tools.old }
    requires begun { AreBegun drawing level strip level.from rows.old.cover row.old }
    ensures begun { AreBegun drawing.entry level strip level.from rows.new.cover row.new }
    ensures width { width row.new ≡ width row.old }
    ensures wide { IsWide (width row.old) rows.new }
    ensures tools { IsFit (width row.old) tools.new }
{
    let mut i = level.to;
    'tops: while level.from < i {
        i = take_top(drawing, level, i, strip, row, rows, tools);
    }
}

/// Draws a level into the clear pixels of a strip: opaque primitives front to back, and then all others back to front.
#[cycle(level)]
pub(crate) fn draw_level(
    drawing: Drawing,
    level: Level,
    strip: Strip,
    row: &mut Line,
    levels: &mut [LevelRows],
    tools: &mut Tools,
)
    requires drawing { IsDrawing drawing }
    requires level { IsLevel (entries_of drawing.entries) level }
    requires below { IsBelow (entries_of drawing.entries) (level.depth + length levels.old) }
    requires room { level.depth + length levels.old ≤ 65 }
    requires strip { IsStrip strip (width row.old) }
    requires wide { AreWide (width row.old) levels.old }
    requires tools { IsFit (width row.old) tools.old }
    ensures run { (k : ℕ) → IsIn strip.span k
        → Begins drawing.entry.store.now (entries_of drawing.entry.entries) level.from level.to (x_of strip.first k) strip.first.y (pixel row.new k) }
    ensures width { width row.new ≡ width row.old }
    ensures levels { length levels.new ≡ length levels.old }
    ensures wide { AreWide (width row.old) levels.new }
    ensures tools { IsFit (width row.old) tools.new }
{
    let (rows, deeper) = levels.split_first_mut().unwrap();
    row.fill(strip.span, Px::CLEAR);
    rows.cover.reset();
    take_all(drawing, level, strip, row, rows, tools);
    let mut i = level.from;
    'tops: while i < level.to {
        i = draw_top(drawing, level, i, strip, row, rows, deeper, tools);
    }
}

/// Draws the primitive or the group of a level that begins at `i` over what the level gave so far, and answers where the
/// next begins.
#[cycle(level)]
fn draw_top(
    drawing: Drawing,
    level: Level,
    i: usize,
    strip: Strip,
    row: &mut Line,
    rows: &mut LevelRows,
    deeper: &mut [LevelRows],
    tools: &mut Tools,
) -> usize
    requires drawing { IsDrawing drawing }
    requires level { IsLevel (entries_of drawing.entries) level }
    requires from { level.from ≤ i }
    requires order { i < level.to }
    requires place { IsAt (entries_of drawing.entries) level.depth i }
    requires below { IsBelow (entries_of drawing.entries) (level.depth + 1 + length deeper.old) }
    requires room { level.depth + 1 + length deeper.old ≤ 65 }
    requires strip { IsStrip strip (width row.old) }
    requires wide { IsWide (width row.old) rows.old }
    requires deeper_wide { AreWide (width row.old) deeper.old }
    requires tools { IsFit (width row.old) tools.old }
    requires begun { AreBegun drawing level strip i rows.old.cover row.old }
    ensures more { i < result }
    ensures right { result ≤ level.to }
    ensures place { IsAt (entries_of drawing.entry.entries) level.depth result }
    ensures begun { AreBegun drawing.entry level strip result rows.new.cover row.new }
    ensures width { width row.new ≡ width row.old }
    ensures wide { IsWide (width row.old) rows.new }
    ensures deeper { length deeper.new ≡ length deeper.old }
    ensures deeper_wide { AreWide (width row.old) deeper.new }
    ensures tools { IsFit (width row.old) tools.new }
{
    let note = note_at(drawing, i);
    match drawing.entries.at(i) {
        Entry::Primitive(primitive) => {
            let noted = Noted {
                primitive,
                store: drawing.store,
                number: i,
                is_whole: note.is_whole,
            };
            lay_primitive(noted, note.shown, strip, &rows.cover, tools, row);
            i + 1
        }
        Entry::Push { .. } => {
            let next = note.partner + 1;
            draw_group(drawing, level, i, note, strip, row, rows, deeper, tools);
            next
        }
        Entry::Pop => unreachable!(),
    }
}

/// Draws the group of a level that the Push at `i` opens over what the level gave so far.
#[cycle(level)]
fn draw_group(
    drawing: Drawing,
    level: Level,
    i: usize,
    note: Note,
    strip: Strip,
    row: &mut Line,
    rows: &mut LevelRows,
    deeper: &mut [LevelRows],
    tools: &mut Tools,
)
    requires drawing { IsDrawing drawing }
    requires level { IsLevel (entries_of drawing.entries) level }
    requires from { level.from ≤ i }
    requires order { i < level.to }
    requires place { IsAt (entries_of drawing.entries) level.depth i }
    requires note { IsNote drawing.store.now (entries_of drawing.entries) i note }
    requires end { IsGroupEnd (entries_of drawing.entries) level.depth i note.partner }
    requires below { IsBelow (entries_of drawing.entries) (level.depth + 1 + length deeper.old) }
    requires room { level.depth + 1 + length deeper.old ≤ 65 }
    requires strip { IsStrip strip (width row.old) }
    requires wide { IsWide (width row.old) rows.old }
    requires deeper_wide { AreWide (width row.old) deeper.old }
    requires tools { IsFit (width row.old) tools.old }
    requires begun { AreBegun drawing level strip i rows.old.cover row.old }
    ensures begun { AreBegun drawing.entry level strip (note.partner + 1) rows.new.cover row.new }
    ensures width { width row.new ≡ width row.old }
    ensures wide { IsWide (width row.old) rows.new }
    ensures deeper { length deeper.new ≡ length deeper.old }
    ensures deeper_wide { AreWide (width row.old) deeper.new }
    ensures tools { IsFit (width row.old) tools.new }
{
    row.know_pixels();
    know_span(strip.span);
    let Entry::Push {
        opacity,
        mode,
        clips,
    } = drawing.entries.at(i)
    else {
        unreachable!();
    };
    let shown = cut_strip(strip, note.shown);
    if shown.from == shown.to {
        return;
    }
    let inside = Strip {
        span: shown,
        first: strip.first,
    };
    let members = Level {
        depth: level.depth + 1,
        from: i + 1,
        to: note.partner,
    };
    draw_level(drawing, members, inside, &mut rows.inner, deeper, tools);
    let clips = clips.as_slice();
    fade_group(
        *opacity,
        clips,
        note.is_whole,
        inside,
        &mut tools.mask,
        &mut rows.inner,
    );
    lay_group(&rows.inner, *mode, i as u32, inside, &rows.cover, row);
}
