//! The chains of a list where they are drawn, each resolved once, when it is first asked for.

ghost use Rattle.std.specs.Prelude.{◌≡◌, ◌<◌, ◌+◌, ◌++◌, [], length, slice_get, IfOk, OnOk, Some, None};
ghost use Rattle.field_forms.specs.Facts.{IsDefined};
ghost use Rattle.display_list.specs.Facts.{IsSpot};
ghost use Rattle.painter.specs.PlacedList.{chain_clips, iframe_clips};
ghost use Rattle.scene_flatten.specs.Chains.{IsChainTable, IsResolved, placed_chain};

use crate::lists::joined;
use crate::placed_list::PlacedList;
use clip_masks::Clip;
use clip_tree::resolve;
use containers::Sequence;
use display_list::Spot;
use spatial_tree::homes;
use std::alloc::Global;
use wr_geom::NoMemory;

/// A chain's clips where they are, those of its parents, outermost first, before its own, and for each the
/// scroll number of the outermost scroll frame that moves it in its list.
#[derive(Drop)]
pub(crate) struct PlacedChain {
    pub(crate) clips: Sequence<Clip>,
    pub(crate) scrolls: Sequence<Option<u16>>,
}

/// The chains of a list by number, of which those are there that were asked for.
pub(crate) type ChainTable = Vec<Option<PlacedChain>>;

/// A chain that was resolved.
pub(crate) fn resolved(table: &[Option<PlacedChain>], chain: u16) -> &PlacedChain
    requires { IsResolved table.now chain }
    ensures { slice_get table.now chain ≡ Some (Some result.now) }
{
    table[chain as usize].as_ref().unwrap()
}

impl PlacedList<'_> {
    /// The list's chains, of which none is resolved.
    pub(crate) fn chain_table(&self, alloc: Global) -> Result<ChainTable, NoMemory>
        ensures { IfOk result (λ table. IsChainTable self.now table.items) }
    {
        let chains = self.list.chains();
        let mut table = Vec::with_capacity(alloc, chains.len())?;
        for _chain in chains {
            table.push(None)?;
        }
        Ok(table)
    }

    /// A chain of the list, resolved.
    fn placed_chain(&self, alloc: Global, chain: u16) -> Result<PlacedChain, NoMemory>
        requires { chain < length self.now.list.chains }
        ensures { IfOk result (λ placed. placed ≡ placed_chain self.now (Some chain)) }
    {
        let clips = resolve(alloc, self.list, Some(chain), self.points.as_slice())?;
        let scrolls = homes(alloc, self.list, Some(chain))?;
        Ok(PlacedChain {
            clips: Sequence::from_vec(clips),
            scrolls: Sequence::from_vec(scrolls),
        })
    }

    /// Resolves a chain, unless it was asked for before.
    pub(crate) fn resolve(
        &self,
        alloc: Global,
        table: &mut ChainTable,
        chain: u16,
    ) -> Result<(), NoMemory>
        requires table { IsChainTable self.now table.old.items }
        requires chain { chain < length self.now.list.chains }
        ensures table { OnOk result (IsChainTable self.now table.new.items) }
        ensures resolved { OnOk result (slice_get table.new.items chain ≡ Some (Some (placed_chain self.now (Some chain)))) }
    {
        if table[chain as usize].is_some() {
            return Ok(());
        }
        table[chain as usize] = Some(self.placed_chain(alloc, chain)?);
        Ok(())
    }

    /// Clips, and then those of a chain.
    pub(crate) fn clips_after(
        &self,
        alloc: Global,
        table: &mut ChainTable,
        around: &[Clip],
        chain: Option<u16>,
    ) -> Result<Sequence<Clip>, NoMemory>
        requires table { IsChainTable self.now table.old.items }
        requires chain { IsDefined (length self.now.list.chains) chain }
        ensures value { IfOk result (λ clips. clips ≡ around.now ++ chain_clips self.now chain) }
        ensures table { OnOk result (IsChainTable self.now table.new.items) }
    {
        match chain {
            None => Ok(joined(alloc, around, &[])?),
            Some(number) => {
                self.resolve(alloc, table, number)?;
                let clips = resolved(table.as_slice(), number).clips.as_slice();
                Ok(joined(alloc, around, clips)?)
            }
        }
    }

    /// Clips, and then those of an Iframe: its chain's, and its rectangle.
    pub(crate) fn clips_inside(
        &self,
        alloc: Global,
        table: &mut ChainTable,
        around: &[Clip],
        spot: Spot,
    ) -> Result<Sequence<Clip>, NoMemory>
        requires table { IsChainTable self.now table.old.items }
        requires spot { IsSpot (length self.now.list.nodes + 1) (length self.now.list.chains) spot }
        ensures value { IfOk result (λ clips. clips ≡ around.now ++ iframe_clips self.now spot) }
        ensures table { OnOk result (IsChainTable self.now table.new.items) }
    {
        let (chain, rect) = (spot.chain, Clip::of_rect(self.item_rect(spot)));
        let mut clips = self.clips_after(alloc, table, around, chain)?;
        clips.push(rect)?;
        Ok(clips)
    }
}
