//! What items have together.

ghost use Rattle.std.specs.Prelude.{◌≡◌, ◌+◌, ◌*◌};
ghost use Rattle.list_summary.specs.Totals.{both, capped, lowered, no_totals, raised, single};

use crate::limits::COUNT_CAP;

/// What items have together, each number up to [`COUNT_CAP`].
#[derive(Clone, Copy, Debug, PartialEq, Eq)]
pub struct Totals {
    pub items: u32,
    pub glyphs: u32,
    /// The clips of each item, summed.
    pub clips: u32,
    /// The most contexts that nest.
    pub nesting: u32,
    /// The most clips of one item.
    pub most_clips: u32,
}

#[tactic(auto, unfolding(crate::specs::Totals::capped))]
fn cap(n: u64) -> u32
    ensures { result ≡ capped n }
{
    n.min(u64::from(COUNT_CAP)) as u32
}

/// A sum up to the cap.
fn sum(a: u32, b: u32) -> u32
    ensures { result ≡ capped (a + b) }
{
    cap(u64::from(a) + u64::from(b))
}

/// What a greatest number becomes where n is added for each item.
#[tactic(auto, unfolding(crate::specs::Totals::raised))]
fn raise(n: u32, items: u32, greatest: u32) -> u32
    ensures { result ≡ raised n items greatest }
{
    if items == 0 { 0 } else { sum(greatest, n) }
}

impl Totals {
    /// Of no item.
    pub const NONE: Totals = Totals {
        items: 0,
        glyphs: 0,
        clips: 0,
        nesting: 0,
        most_clips: 0,
    };

    /// Of one item with so many clips and glyphs, where so many contexts nest.
    #[tactic(auto, unfolding(crate::specs::Totals::single))]
    pub fn single(nesting: u32, clips: u32, glyphs: u64) -> Totals
        ensures { result ≡ single nesting clips glyphs }
    {
        let clips = cap(u64::from(clips));
        Totals {
            items: 1,
            glyphs: cap(glyphs),
            clips,
            nesting: cap(u64::from(nesting)),
            most_clips: clips,
        }
    }

    /// Of the items of both.
    #[tactic(auto, unfolding(crate::specs::Totals::both))]
    pub fn both(self, other: Totals) -> Totals
        ensures { result ≡ both self other }
    {
        Totals {
            items: sum(self.items, other.items),
            glyphs: sum(self.glyphs, other.glyphs),
            clips: sum(self.clips, other.clips),
            nesting: self.nesting.max(other.nesting),
            most_clips: self.most_clips.max(other.most_clips),
        }
    }

    /// With each item in so many contexts, and under so many clips, more.
    #[tactic(auto, unfolding(crate::specs::Totals::lowered))]
    pub fn lowered(self, contexts: u32, clips: u32) -> Totals
        ensures { result ≡ lowered contexts clips self }
    {
        let more = u64::from(clips) * u64::from(self.items);
        Totals {
            items: self.items,
            glyphs: self.glyphs,
            clips: cap(u64::from(self.clips) + more),
            nesting: raise(contexts, self.items, self.nesting),
            most_clips: raise(clips, self.items, self.most_clips),
        }
    }
}
