//! Notes on entries: what drawing asks of them in each row, found once.

ghost use Rattle.std.specs.Prelude.{◌≡◌, ◌↔◌, ◌≤◌, ◌<◌, ◌+◌, ◌∷◌, ℕ, IsTrue, All, length, drop, take};
ghost use Rattle.clip_masks.specs.Clips.{IsRectClip};
ghost use Rattle.primitives.specs.declared.entry.Entry.TheVariants as entry;
ghost use Rattle.tile_raster.specs.Lists.{entries_of, IsEntryList};
ghost use Rattle.tile_raster.specs.Levels.{IsAt, StaysWithin, IsGroupEnd};
ghost use Rattle.tile_raster.specs.Notes.{everywhere, IsGroupStart, IsNote, AreNotes, IsDrawing};

use crate::list::EntryList;
use clip_masks::{Clip, cut};
use image_store::Store;
use primitives::{Entry, Primitive, is_opaque, visible};
use wr_geom::{MAX_RECT_COORDINATE, Rect};

/// What drawing asks of an entry in each row.
#[derive(Clone, Copy, Debug)]
pub(crate) struct Note {
    /// Nothing of the entry shows outside of this rectangle.
    pub(crate) shown: Rect,
    /// The position of a Push's Pop, or of a Pop's Push.
    pub(crate) partner: usize,
    /// Its clips leave all of the points in `shown`.
    pub(crate) is_whole: bool,
    /// It is a primitive that hides what is below it.
    pub(crate) is_opaque: bool,
}

/// The entries that are drawn with what is stored, and notes on the first of them.
#[derive(Clone, Copy)]
pub(crate) struct Drawing<'a> {
    pub(crate) entries: EntryList<'a>,
    pub(crate) store: &'a Store,
    pub(crate) notes: &'a [Note],
}

/// A primitive, its position among the entries, and whether its clips leave all of what is visible of it.
#[derive(Clone, Copy)]
pub(crate) struct Noted<'a> {
    pub(crate) primitive: &'a Primitive,
    pub(crate) store: &'a Store,
    pub(crate) number: usize,
    pub(crate) is_whole: bool,
}

/// The rectangle of all coordinates.
fn everywhere() -> Rect
    ensures { result ≡ everywhere }
{
    Rect::new(
        -MAX_RECT_COORDINATE,
        -MAX_RECT_COORDINATE,
        MAX_RECT_COORDINATE,
        MAX_RECT_COORDINATE,
    )
    .unwrap()
}

/// Whether each is a rectangle clip.
fn are_rects(clips: &[Clip]) -> bool
    ensures { IsTrue result → All IsRectClip clips.now }
{
    for clip in clips {
        if !clip.is_rect() {
            return false;
        }
    }
    true
}

/// The position of the Pop that ends the group whose first entry stands at `from`, or the list's end.
fn end_of(entries: EntryList, from: usize) -> usize
    requires list { IsEntryList entries }
    requires other { from ≤ length (entries_of entries) }
    ensures left { from ≤ result }
    ensures right { result ≤ length (entries_of entries.entry) }
    ensures place { (n : ℕ) → IsAt (entries_of entries.entry) n from → IsAt (entries_of entries.entry) n result }
    ensures within { (n : ℕ) → IsAt (entries_of entries.entry) n from → StaysWithin (entries_of entries.entry) n from result }
    ensures end { result < length (entries_of entries.entry) → drop result (entries_of entries.entry) ≡ entry.Pop ∷ drop (result + 1) (entries_of entries.entry) }
{
    let mut opened: usize = 0;
    let mut i = from;
    'entries: while i < entries.len() {
        match entries.at(i) {
            Entry::Primitive(_) => {}
            Entry::Push { .. } => opened += 1,
            Entry::Pop => {
                if opened == 0 {
                    return i;
                }
                opened -= 1;
            }
        }
        i += 1;
    }
    i
}

/// The position of the Push that opened the group whose Pop stands at `to`, or 0.
fn start_of(entries: EntryList, to: usize) -> usize
    requires list { IsEntryList entries }
    requires other { to < length (entries_of entries) }
    ensures { (n : ℕ) → drop to (entries_of entries.entry) ≡ entry.Pop ∷ drop (to + 1) (entries_of entries.entry) → IsAt (entries_of entries.entry) (n + 1) to
        → IsAt (entries_of entries.entry) 0 0 → IsGroupStart (entries_of entries.entry) n result to }
{
    let mut closed: usize = 0;
    let mut i = to;
    'entries: while 0 < i {
        i -= 1;
        match entries.at(i) {
            Entry::Primitive(_) => {}
            Entry::Push { .. } => {
                if closed == 0 {
                    return i;
                }
                closed -= 1;
            }
            Entry::Pop => closed += 1,
        }
    }
    0
}

/// A note on the entry at `i`.
fn note_of(entries: EntryList, store: &Store, i: usize) -> Note
    requires list { IsEntryList entries }
    requires balanced { IsAt (entries_of entries) 0 0 }
    requires inside { i < length (entries_of entries) }
    ensures { IsNote store.now (entries_of entries.entry) i result }
{
    let _count = entries.len();
    match entries.at(i) {
        Entry::Primitive(primitive) => Note {
            shown: visible(primitive),
            partner: i,
            is_whole: are_rects(primitive.clips()),
            is_opaque: is_opaque(primitive, store),
        },
        Entry::Push { clips, .. } => {
            let clips = clips.as_slice();
            Note {
                shown: cut(clips, everywhere()),
                partner: end_of(entries, i + 1),
                is_whole: are_rects(clips),
                is_opaque: false,
            }
        }
        Entry::Pop => Note {
            shown: everywhere(),
            partner: start_of(entries, i),
            is_whole: false,
            is_opaque: false,
        },
    }
}

/// The note on the entry at `i`, which is found anew where none is kept.
pub(crate) fn note_at(drawing: Drawing, i: usize) -> Note
    requires drawing { IsDrawing drawing }
    requires inside { i < length (entries_of drawing.entries) }
    ensures { IsNote drawing.entry.store.now (entries_of drawing.entry.entries) i result }
{
    if i < drawing.notes.len() {
        return drawing.notes[i];
    }
    note_of(drawing.entries, drawing.store, i)
}

/// A note on no entry.
pub(crate) fn blank_note() -> Note {
    Note {
        shown: everywhere(),
        partner: 0,
        is_whole: false,
        is_opaque: false,
    }
}

/// Writes notes on the first entries, as many as there is room for, and answers how many.
pub(crate) fn fill_notes(entries: EntryList, store: &Store, notes: &mut [Note]) -> usize
    requires list { IsEntryList entries }
    requires other { IsAt (entries_of entries) 0 0 }
    ensures inside { result ≤ length notes.new }
    ensures notes { AreNotes store.now (entries_of entries.entry) (take result notes.new) }
{
    let count = entries.len().min(notes.len());
    for i in 0..count {
        notes[i] = note_of(entries, store, i);
    }
    count
}
