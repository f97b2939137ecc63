//! The top items of a scene.

ghost use Rattle.std.specs.Prelude.{◌≡◌, ◌≤◌, ◌<◌, ◌+◌, ◌++◌, length, map, OnOk, IfOk};
ghost use Rattle.field_forms.specs.Facts.{IsDefined};
ghost use Rattle.display_list.specs.Trees.{tree_of, trees_of};
ghost use Rattle.primitives.specs.Tops.{AreTops};
ghost use Rattle.painter.specs.Facts.{CanPaint, CanPaintAll, Reaches};
ghost use Rattle.painter.specs.TopItems.{tree_tops, trees_tops, pipeline_tops};
ghost use Rattle.scene_flatten.specs.Chains.{IsChainTable};
ghost use Rattle.scene_flatten.specs.Entries.{primitive_kind};
ghost use Rattle.scene_flatten.specs.Tops.{primitive_tops, scene_tops, top_at, top_of};

use crate::around::{Around, HomePoint};
use crate::chains::ChainTable;
use crate::lists::one;
use crate::placed_list::{PlacedList, placed_list};
use crate::shown::Walk;
use containers::Sequence;
use display_list::Item;
use painter::{first_corner, stands_around};
use primitives::{Entry, Top};
use scene_state::{Scene, know_scene};
use std::alloc::Global;
use wr_geom::{NoMemory, Point};

impl Walk<'_> {
    /// Entries of an item at a node and under a chain, as a top item.
    fn top(
        &self,
        around: &Around,
        placed: &PlacedList<'_>,
        table: &mut ChainTable,
        node: u16,
        chain: Option<u16>,
        entries: Sequence<Entry>,
    ) -> Result<Top, NoMemory>
        requires table { IsChainTable placed.now table.old.items }
        requires node { node < length placed.now.list.nodes + 1 }
        requires chain { IsDefined (length placed.now.list.chains) chain }
        ensures value { IfOk result (λ top. top ≡ top_at around.now placed.now node chain entries) }
        ensures table { OnOk result (IsChainTable placed.now table.new.items) }
    {
        let HomePoint { home, origin } = around.home_point(placed, node);
        let homes = around.homes_after(self.alloc, placed, table, chain)?;
        Ok(Top {
            scroll: home,
            origin,
            homes,
            entries,
        })
    }

    /// The top item of an item, where it is a primitive.
    fn add_primitive_top(
        &self,
        out: &mut Sequence<Top>,
        around: &Around,
        placed: &PlacedList<'_>,
        table: &mut ChainTable,
        item: &Item,
    ) -> Result<(), NoMemory>
        requires table { IsChainTable placed.now table.old.items }
        requires item { CanPaint self.now.pipelines.now placed.now (tree_of item.now) }
        ensures value { OnOk result (out.new ≡ out.old ++ map (top_of self.now.pipelines.now self.now.store.now) (primitive_tops around.now placed.now (tree_of item.now) (primitive_kind self.now.store.now placed.now (tree_of item.now)))) }
        ensures table { OnOk result (IsChainTable placed.now table.new.items) }
    {
        if let Some((spot, kind)) = self.primitive_kind(placed, item)? {
            let (node, chain) = (spot.node, spot.chain);
            let entry = self.primitive(placed, table, around.clips(), spot, kind)?;
            let entries = one(self.alloc, entry)?;
            out.push(self.top(around, placed, table, node, chain, entries)?)?;
        }
        Ok(())
    }

    /// The top items of one item.
    #[tactic(auto, using(display_list::proofs::TreeLaws::trees))]
    #[cycle(tops)]
    fn add_top(
        &self,
        out: &mut Sequence<Top>,
        around: &Around,
        placed: &PlacedList<'_>,
        table: &mut ChainTable,
        item: &Item,
    ) -> Result<(), NoMemory>
        requires table { IsChainTable placed.now table.old.items }
        requires item { CanPaint self.now.pipelines.now placed.now (tree_of item.now) }
        ensures value { OnOk result (out.new ≡ out.old ++ map (top_of self.now.pipelines.now self.now.store.now) (tree_tops (pipeline_tops self.now.pipelines.now) around.now placed.now (tree_of item.now))) }
        ensures table { OnOk result (IsChainTable placed.now table.new.items) }
    {
        match item {
            Item::Context {
                node,
                chain,
                opacity,
                prop,
                mode,
                isolate,
                children,
            } => {
                let opacity = placed.opacity(*prop, *opacity);
                if stands_around(opacity, *mode, *isolate, *chain) {
                    return self.add_tops(out, around, placed, table, children);
                }
                let push = Entry::Push {
                    opacity,
                    mode: *mode,
                    clips: placed.clips_after(self.alloc, table, around.clips(), *chain)?,
                };
                let mut entries = Sequence::new(self.alloc);
                self.add_group(&mut entries, placed, table, push, children)?;
                out.push(self.top(around, placed, table, *node, *chain, entries)?)?;
                Ok(())
            }
            Item::Iframe { spot, pipeline } => {
                let origin = first_corner(placed.item_rect(*spot));
                let inside = around.inside(self.alloc, placed, table, *spot)?;
                self.add_pipeline_tops(out, &inside, *pipeline, origin)
            }
            _ => self.add_primitive_top(out, around, placed, table, item),
        }
    }

    /// The top items of items in order.
    #[cycle(tops)]
    fn add_tops(
        &self,
        out: &mut Sequence<Top>,
        around: &Around,
        placed: &PlacedList<'_>,
        table: &mut ChainTable,
        items: &[Item],
    ) -> Result<(), NoMemory>
        requires table { IsChainTable placed.now table.old.items }
        requires items { CanPaintAll self.now.pipelines.now placed.now (trees_of items.now) }
        ensures value { OnOk result (out.new ≡ out.old ++ map (top_of self.now.pipelines.now self.now.store.now) (trees_tops (pipeline_tops self.now.pipelines.now) around.now placed.now (trees_of items.now))) }
        ensures table { OnOk result (IsChainTable placed.now table.new.items) }
    {
        for item in items {
            self.add_top(out, around, placed, table, item)?;
        }
        Ok(())
    }

    /// The top items of a pipeline whose root is at a point.
    #[cycle(tops)]
    fn add_pipeline_tops(
        &self,
        out: &mut Sequence<Top>,
        around: &Around,
        pipeline: u8,
        origin: Point,
    ) -> Result<(), NoMemory>
        requires pipeline { pipeline ≤ 63 }
        requires reach { Reaches self.now.pipelines.now pipeline origin }
        ensures { OnOk result (out.new ≡ out.old ++ map (top_of self.now.pipelines.now self.now.store.now) (pipeline_tops self.now.pipelines.now pipeline origin around.now)) }
    {
        match placed_list(self.alloc, self.pipelines, pipeline, origin)? {
            None => Ok(()),
            Some(placed) => {
                let mut table = placed.chain_table(self.alloc)?;
                let items = placed.list.items();
                self.add_tops(out, around, &placed, &mut table, items)
            }
        }
    }
}

/// The top items of a scene in view coordinates, in pixels, back to front: what stands in no group, through
/// plain contexts and Iframes. Each has its own clips after those of the Iframes around it.
pub fn tops(alloc: Global, scene: &Scene) -> Result<Sequence<Top>, NoMemory>
    ensures value { IfOk result (λ tops. tops ≡ scene_tops scene.now) }
    ensures tops { IfOk result (λ tops. AreTops tops) }
{
    know_scene(scene);
    let walk = Walk {
        alloc,
        pipelines: scene.pipelines(),
        store: scene.store(),
    };
    let mut out = Sequence::new(alloc);
    let around = Around::nothing(alloc);
    walk.add_pipeline_tops(&mut out, &around, 0, Point { x: 0, y: 0 })?;
    Ok(out)
}
