//! What the expanded scene has together.

ghost use Rattle.std.specs.Prelude.{◌≡◌, ◌||◌, nat_lt, replicate};
ghost use Rattle.list_summary.specs.Iframes.{iframe_totals, with_iframes};
ghost use Rattle.list_summary.specs.Totals.{no_totals, totals_of_shown};
ghost use Rattle.pipelines.specs.Table.{listed_list};
ghost use Rattle.scene_limits.specs.Drawn.{AreReached};
ghost use Rattle.scene_limits.specs.Expanded.{expanded, list_totals, totals_in};

use crate::limits::{MAX_CLIPS, MAX_GLYPHS, MAX_ITEM_CLIPS, MAX_ITEMS, MAX_NESTING};
use list_summary::{Iframe, Totals};
use pipelines::{Pipeline, Pipelines};

fn totals_at(table: &[Totals], pipeline: u8) -> Totals
    ensures { result ≡ totals_in table.now pipeline }
{
    table
        .get(usize::from(pipeline))
        .copied()
        .unwrap_or(Totals::NONE)
}

/// What an Iframe adds.
fn iframe_totals(iframe: Iframe, table: &[Totals]) -> Totals
    ensures { result ≡ iframe_totals iframe (totals_in table.now iframe.pipeline) }
{
    let inside = totals_at(table, iframe.pipeline);
    inside.lowered(u32::from(iframe.contexts), u32::from(iframe.clips) + 1)
}

fn add_iframes(iframes: &[Iframe], table: &[Totals], own: Totals) -> Totals
    ensures { result ≡ with_iframes (totals_in table.now) iframes.now own }
{
    let mut sum = own;
    for iframe in iframes {
        sum = sum.both(iframe_totals(*iframe, table));
    }
    sum
}

/// The totals of a pipeline, by those of the pipelines that it names.
fn pipeline_totals(pipeline: &Pipeline, table: &[Totals]) -> Totals
    ensures { result ≡ list_totals (totals_in table.now) (listed_list pipeline.now.listed) }
{
    match pipeline.listed() {
        None => Totals::NONE,
        Some(listed) => {
            let summary = listed.summary();
            add_iframes(summary.iframes(), table, summary.own())
        }
    }
}

fn no_table() -> [Totals; 64]
    ensures { result ≡ replicate 64 no_totals }
{
    [Totals::NONE; 64]
}

/// The totals of the expanded scene, from the last pipeline down, over those that are reached.
pub(crate) fn scene_totals(pipelines: &Pipelines, reached: &[bool; 64]) -> Totals
    requires { AreReached reached.now pipelines.now }
    ensures { result ≡ totals_of_shown (expanded 64 pipelines.now 0) }
{
    let mut table = no_table();
    for step in 0..64u8 {
        let p = 63 - step;
        let pipeline = pipelines.get(p);
        if reached[usize::from(p)] {
            table[usize::from(p)] = pipeline_totals(pipeline, &table);
        }
    }
    table[0]
}

/// Whether more contexts nest, or an item has more clips, than may be.
pub(crate) fn go_deep(totals: Totals) -> bool
    ensures { result ≡ (nat_lt 64 totals.nesting || nat_lt 255 totals.most_clips) }
{
    MAX_NESTING < totals.nesting || MAX_ITEM_CLIPS < totals.most_clips
}

/// Whether there are more items, glyphs or clips than may be.
pub(crate) fn are_large(totals: Totals) -> bool
    ensures { result ≡ (nat_lt 65536 totals.items || nat_lt 1048576 totals.glyphs || nat_lt 1048576 totals.clips) }
{
    MAX_ITEMS < totals.items || MAX_GLYPHS < totals.glyphs || MAX_CLIPS < totals.clips
}
