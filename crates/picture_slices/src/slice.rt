//! The slices of a picture.

ghost use Rattle.std.specs.Prelude.{◌≡◌, ◌<◌, ◌≤◌, length, map, All, IfOk, OnOk};
ghost use Rattle.slice_rules.specs.Keys.{key_after, slice_keys};
ghost use Rattle.picture_slices.specs.Facts.{HaveGoodEntries, AreSlices};
ghost use Rattle.primitives.specs.Tops.{IsSliceOrigin, AreTops};
ghost use Rattle.picture_slices.specs.Slices.{origin_of, slice_of, keyed_slices, picture_slices};
ghost use Rattle.picture_slices.specs.declared.slice.Slice.{Slice as SliceValue};

use crate::entries::{back_from, moved_entries};
use crate::gather::gathered;
use crate::run::TopRun;
use containers::Sequence;
use primitives::{Entry, Top};
use slice_rules::{Home, same_home};
use std::alloc::Global;
use wr_geom::{NoMemory, Point, Rect, SliceKey};

/// What scrolls together, as entries in coordinates of its own.
#[derive(Debug, Drop)]
pub struct Slice {
    pub key: SliceKey,
    /// Where those coordinates begin in the view, in pixels.
    pub origin: Point,
    /// Outside of this part of the view the slice is clear.
    pub shown: Rect,
    /// In coordinates of the view minus the origin.
    pub entries: Sequence<Entry>,
}

impl TopRun {
    /// Where the coordinates of its slice begin, in pixels.
    fn origin(&self) -> Point
        requires { AreTops self.now.members }
        ensures value { result ≡ origin_of self.now.home self.now.members }
        ensures origin { IsSliceOrigin result }
    {
        match (self.home, self.tops.first()) {
            (Some(_), Some(first)) => first.origin,
            _ => Point { x: 0, y: 0 },
        }
    }

    /// The slice of its tops, with a key.
    fn slice(self, alloc: Global, key: SliceKey, view: Rect) -> Result<Slice, NoMemory>
        requires { AreTops self.members }
        ensures value { IfOk result (λ s. s ≡ slice_of view key self) }
        ensures good { OnOk result (HaveGoodEntries self.members) }
    {
        let origin = self.origin();
        let shared = self.shared();
        let shown = self.shown(shared, view);
        let entries = moved_entries(alloc, self.tops, shared, back_from(origin))?;
        Ok(Slice {
            key,
            origin,
            shown,
            entries,
        })
    }
}

/// The key of the slice of a home after these slices.
fn next_key(slices: &[Slice], home: Home) -> SliceKey
    requires { length slices.now < 256 }
    ensures { result ≡ key_after (map (λ (s : SliceValue). s.key.scroll) slices.now) home }
{
    let mut nth = 0;
    for slice in slices {
        if same_home(slice.key.scroll, home) {
            nth += 1;
        }
    }
    SliceKey { scroll: home, nth }
}

/// The slices of runs, in order.
fn sliced(alloc: Global, runs: Vec<TopRun>, view: Rect) -> Result<Vec<Slice>, NoMemory>
    requires few { length runs.items ≤ 8 }
    requires tops { All (λ r. AreTops r.members) runs.items }
    ensures value { IfOk result (λ slices. slices.items ≡ keyed_slices view (slice_keys runs.items) runs.items) }
    ensures good { OnOk result (All (λ run. HaveGoodEntries run.members) runs.items) }
{
    let mut slices = Vec::new(alloc);
    for run in runs {
        let key = next_key(slices.as_slice(), run.home);
        slices.push(run.slice(alloc, key, view)?)?;
    }
    Ok(slices)
}

/// The slices of a picture's tops in a view, back to front.
///
/// Tops that follow one another and have one home are a slice. There are at most eight: with more runs of one
/// home, the first seven are slices, and all others are one slice without a home. A slice's key is its home and
/// its number, from 0, among the slices with that home. Clips that all its tops begin with are taken off them and
/// cut `shown`: rectangle clips that have another home than the slice, the outermost ones. Each top is one
/// primitive, or one group from its Push to its Pop, and has a home for each clip of its first entry; origins lie
/// within 2^27 pixels of 0, rectangles and glyphs within 2^28.
///
/// Entries are moved, and not copied. Where memory runs out, the tops are dropped.
pub fn slices(alloc: Global, tops: Sequence<Top>, view: Rect) -> Result<Sequence<Slice>, NoMemory>
    requires { AreTops tops }
    ensures value { IfOk result (λ slices. slices ≡ picture_slices view tops) }
    ensures good { OnOk result (HaveGoodEntries tops) }
    ensures slices { IfOk result (λ slices. AreSlices view slices) }
{
    let runs = gathered(alloc, tops)?;
    let slices = sliced(alloc, runs, view)?;
    Ok(Sequence::from_vec(slices))
}
