//! What a list adds to a scene.

ghost use Rattle.std.specs.Prelude.{◌≡◌, IfOk};
ghost use Rattle.list_summary.specs.Iframes.{summary_of};

use crate::chains::chain_counts;
use crate::counting::count_items;
use crate::{Iframe, Totals};
use display_list::{List, tree_laws};
use std::alloc::Global;
use std::marker::Model;
use wr_geom::NoMemory;

/// A list's own items, each Iframe among them as one, and its Iframes.
#[derive(Debug, Drop)]
pub struct Summary {
    own: Totals,
    iframes: Vec<Iframe>,
}

impl Model for Summary {
    ghost use Rattle.list_summary.specs.Iframes.{SummaryModel};

    ghost Value = { SummaryModel };

    ghost view = { λ s. record { own = s.own; iframes = s.iframes.items } };
}

impl Summary {
    /// The list's own items together: an Iframe is one, without what it shows.
    pub fn own(&self) -> Totals
        ensures { result ≡ self.now.own }
    {
        self.own
    }

    /// Its Iframes, back to front.
    pub fn iframes(&self) -> &[Iframe]
        ensures { result.now ≡ self.now.iframes }
    {
        self.iframes.as_slice()
    }
}

/// What a list adds to a scene, counted in one pass over its items.
pub fn summarise(alloc: Global, list: &List) -> Result<Summary, NoMemory>
    ensures { IfOk result (λ s. s ≡ summary_of list.now) }
{
    tree_laws();
    let counts = chain_counts(alloc, list)?;
    let mut iframes = Vec::new(alloc);
    let own = count_items(list.items(), &counts, 0, Totals::NONE, &mut iframes)?;
    Ok(Summary { own, iframes })
}
