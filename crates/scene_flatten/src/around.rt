//! What Iframes put around a list.

ghost use Rattle.std.specs.Prelude.{◌≡◌, ◌<◌, ◌+◌, ◌++◌, map, length, IfOk, OnOk};
ghost use Rattle.field_forms.specs.Facts.{IsDefined};
ghost use Rattle.display_list.specs.Facts.{IsSpot};
ghost use Rattle.painter.specs.TopItems.{around_iframe, clip_homes, home_in, node_home, node_origin, nothing_around};
ghost use Rattle.scene_flatten.specs.Chains.{IsChainTable};

use crate::chains::{ChainTable, resolved};
use crate::placed_list::PlacedList;
use clip_masks::Clip;
use containers::Sequence;
use display_list::Spot;
use std::alloc::{AllocError, Global};
use std::marker::Model;
use wr_geom::{NoMemory, Point};

/// A scroll frame by its pipeline and scroll number, or none.
pub(crate) type Home = Option<(u8, u16)>;

const ZERO: Point = Point { x: 0, y: 0 };

/// A home, and where it is, in pixels; (0, 0) without one.
#[derive(Clone, Copy)]
pub(crate) struct HomePoint {
    pub(crate) home: Home,
    pub(crate) origin: Point,
}

/// What Iframes put around a list: the outermost scroll frame that moves them and where it is, and clips,
/// outermost first, with the home of each.
#[derive(Drop)]
pub(crate) struct Around {
    home: Home,
    origin: Point,
    clips: Sequence<Clip>,
    homes: Sequence<Home>,
}

impl Model for Around {
    ghost use Rattle.painter.specs.TopItems.{Around};

    ghost Value = { Around };

    ghost view = { λ a. record { home = a.home; origin = a.origin; clips = a.clips; homes = a.homes } };

    ghost inverse = { λ a. record { home = a.home; origin = a.origin; clips = a.clips; homes = a.homes } };
}

impl Around {
    /// Nothing. It takes no memory.
    pub(crate) fn nothing(alloc: Global) -> Around
        ensures { result ≡ nothing_around }
    {
        Around {
            home: None,
            origin: ZERO,
            clips: Sequence::new(alloc),
            homes: Sequence::new(alloc),
        }
    }

    /// The clips, outermost first.
    pub(crate) fn clips(&self) -> &[Clip]
        ensures { result.now ≡ self.now.clips }
    {
        self.clips.as_slice()
    }

    /// The home of a scroll number of a list.
    fn home_in(&self, placed: &PlacedList<'_>, scroll: Option<u16>) -> Home
        ensures { result ≡ home_in self.now placed.now scroll }
    {
        if self.home.is_some() {
            return self.home;
        }
        Some((placed.pipeline, scroll?))
    }

    /// The home of a node, and where it is.
    pub(crate) fn home_point(&self, placed: &PlacedList<'_>, node: u16) -> HomePoint
        requires { node < length placed.now.list.nodes + 1 }
        ensures home { result.home ≡ node_home self.now placed.now node }
        ensures origin { result.origin ≡ node_origin self.now placed.now node }
    {
        let (home, origin) = (self.home, self.origin);
        if home.is_some() {
            return HomePoint { home, origin };
        }
        match placed.root_frame(node) {
            None => HomePoint {
                home: None,
                origin: ZERO,
            },
            Some(frame) => HomePoint {
                home: Some((placed.pipeline, frame.scroll)),
                origin: placed.node_point(frame.node),
            },
        }
    }

    /// The homes of the clips, and then those of clips with these scroll numbers.
    fn with_scrolls(
        &self,
        alloc: Global,
        placed: &PlacedList<'_>,
        scrolls: &[Option<u16>],
    ) -> Result<Sequence<Home>, AllocError>
        ensures { IfOk result (λ homes. homes ≡ self.now.homes ++ map (home_in self.now placed.now) scrolls.now) }
    {
        let first = self.homes.as_slice();
        let mut homes = Vec::with_capacity(alloc, first.len().saturating_add(scrolls.len()))?;
        homes.extend_from_slice(first)?;
        for scroll in scrolls {
            homes.push(self.home_in(placed, *scroll))?;
        }
        Ok(Sequence::from_vec(homes))
    }

    /// The homes of the clips, and then those of a chain's clips.
    pub(crate) fn homes_after(
        &self,
        alloc: Global,
        placed: &PlacedList<'_>,
        table: &mut ChainTable,
        chain: Option<u16>,
    ) -> Result<Sequence<Home>, NoMemory>
        requires table { IsChainTable placed.now table.old.items }
        requires chain { IsDefined (length placed.now.list.chains) chain }
        ensures value { IfOk result (λ homes. homes ≡ clip_homes self.now placed.now chain) }
        ensures table { OnOk result (IsChainTable placed.now table.new.items) }
    {
        match chain {
            None => Ok(self.with_scrolls(alloc, placed, &[])?),
            Some(number) => {
                placed.resolve(alloc, table, number)?;
                let scrolls = resolved(table.as_slice(), number).scrolls.as_slice();
                Ok(self.with_scrolls(alloc, placed, scrolls)?)
            }
        }
    }

    /// What is around the items of an Iframe.
    pub(crate) fn inside(
        &self,
        alloc: Global,
        placed: &PlacedList<'_>,
        table: &mut ChainTable,
        spot: Spot,
    ) -> Result<Around, NoMemory>
        requires table { IsChainTable placed.now table.old.items }
        requires spot { IsSpot (length placed.now.list.nodes + 1) (length placed.now.list.chains) spot }
        ensures value { IfOk result (λ inside. inside ≡ around_iframe self.now placed.now spot) }
        ensures table { OnOk result (IsChainTable placed.now table.new.items) }
    {
        let HomePoint { home, origin } = self.home_point(placed, spot.node);
        let mut homes = self.homes_after(alloc, placed, table, spot.chain)?;
        homes.push(home)?;
        let clips = placed.clips_inside(alloc, table, self.clips(), spot)?;
        Ok(Around {
            home,
            origin,
            clips,
            homes,
        })
    }
}
