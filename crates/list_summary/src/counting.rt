//! Items counted one by one.

ghost use Rattle.std.specs.Prelude.{◌≡◌, ◌++◌, ◌∷◌, ◌+◌, ◌≤◌, [], map, length, IfOk, OnOk};
ghost use Rattle.display_list.specs.Trees.{tree_of, trees_of, nesting_of, tree_nesting};
ghost use Rattle.list_summary.specs.Shown.{chain_clip_count, nobody, shown_tree, shown_trees, within};
ghost use Rattle.list_summary.specs.Totals.{and_shown, single};
ghost use Rattle.list_summary.specs.Iframes.{tree_iframes, trees_iframes};

use crate::chains::chain_clip_count;
use crate::{Iframe, Totals};
use display_list::{Item, Spot};
use std::alloc::AllocError;

/// One item with the clips of its chain, and so many glyphs.
fn one(counts: &[u8], depth: u8, chain: Option<u16>, glyphs: usize) -> Totals
    ensures { result ≡ single depth (chain_clip_count counts.now chain) glyphs }
{
    Totals::single(
        u32::from(depth),
        u32::from(chain_clip_count(counts, chain)),
        glyphs as u64,
    )
}

/// An Iframe where it stands.
fn iframe(counts: &[u8], depth: u8, spot: Spot, pipeline: u8) -> Iframe
    ensures { result ≡ record { pipeline = pipeline; contexts = depth; clips = chain_clip_count counts.now spot.chain; node = spot.node; x = spot.rect.x0; y = spot.rect.y0 } }
{
    Iframe {
        pipeline,
        contexts: depth,
        clips: chain_clip_count(counts, spot.chain),
        node: spot.node,
        x: spot.rect.x0(),
        y: spot.rect.y0(),
    }
}

/// A sum with an item within so many contexts, and its Iframes after others.
#[tactic(auto, using(display_list::proofs::TreeLaws::trees, crate::proofs::Counted::counted))]
#[cycle(items)]
fn count_item(
    item: &Item,
    counts: &[u8],
    depth: u8,
    sum: Totals,
    iframes: &mut Vec<Iframe>,
) -> Result<Totals, AllocError>
    requires { depth + tree_nesting (tree_of item.now) ≤ 64 }
    ensures own { IfOk result (λ t. t ≡ and_shown sum (map (within depth) (shown_tree nobody counts.now (tree_of item.now)))) }
    ensures iframes { OnOk result (iframes.new.items ≡ iframes.old.items ++ tree_iframes counts.now depth (tree_of item.now)) }
{
    match item {
        Item::Solid { spot, .. } => Ok(sum.both(one(counts, depth, spot.chain, 0))),
        Item::Image { spot, .. } => Ok(sum.both(one(counts, depth, spot.chain, 0))),
        Item::Border { spot, .. } => Ok(sum.both(one(counts, depth, spot.chain, 0))),
        Item::Text { spot, glyphs, .. } => {
            Ok(sum.both(one(counts, depth, spot.chain, glyphs.len())))
        }
        Item::Context {
            chain,
            children,
            ..
        } => {
            let sum = sum.both(one(counts, depth + 1, *chain, 0));
            count_items(children, counts, depth + 1, sum, iframes)
        }
        Item::Iframe { spot, pipeline } => {
            iframes.push(iframe(counts, depth, *spot, *pipeline))?;
            Ok(sum.both(one(counts, depth, spot.chain, 0)))
        }
        Item::HitArea { spot, .. } => Ok(sum.both(one(counts, depth, spot.chain, 0))),
    }
}

/// A sum with items within so many contexts, and their Iframes after others.
#[tactic(auto, using(crate::proofs::Counted::counted))]
#[cycle(items)]
pub(crate) fn count_items(
    items: &[Item],
    counts: &[u8],
    depth: u8,
    sum: Totals,
    iframes: &mut Vec<Iframe>,
) -> Result<Totals, AllocError>
    requires { depth + nesting_of (trees_of items.now) ≤ 64 }
    ensures own { IfOk result (λ t. t ≡ and_shown sum (map (within depth) (shown_trees nobody counts.now (trees_of items.now)))) }
    ensures iframes { OnOk result (iframes.new.items ≡ iframes.old.items ++ trees_iframes counts.now depth (trees_of items.now)) }
{
    let mut sum = sum;
    for item in items {
        sum = count_item(item, counts, depth, sum, iframes)?;
    }
    Ok(sum)
}
