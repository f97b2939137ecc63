//! The entries of items, back to front.

ghost use Rattle.std.specs.Prelude.{◌≡◌, ◌≤◌, ◌++◌, [], OnOk};
ghost use Rattle.display_list.specs.Trees.{tree_of, trees_of};
ghost use Rattle.painter.specs.Facts.{CanPaint, CanPaintAll, Reaches};
ghost use Rattle.scene_flatten.specs.Chains.{IsChainTable};
ghost use Rattle.scene_flatten.specs.Entries.{group_entries, pipeline_entries, primitive_entries, primitive_kind, tree_entries, trees_entries};

use crate::chains::ChainTable;
use crate::placed_list::{PlacedList, placed_list};
use crate::shown::Walk;
use clip_masks::Clip;
use containers::Sequence;
use display_list::Item;
use painter::{first_corner, stands_around};
use primitives::Entry;
use wr_geom::{NoMemory, Point};

impl Walk<'_> {
    /// The entry of an item, where it is a primitive.
    fn add_primitive(
        &self,
        out: &mut Sequence<Entry>,
        placed: &PlacedList<'_>,
        table: &mut ChainTable,
        around: &[Clip],
        item: &Item,
    ) -> Result<(), NoMemory>
        requires table { IsChainTable placed.now table.old.items }
        requires item { CanPaint self.now.pipelines.now placed.now (tree_of item.now) }
        ensures value { OnOk result (out.new ≡ out.old ++ primitive_entries placed.now around.now (primitive_kind self.now.store.now placed.now (tree_of item.now))) }
        ensures table { OnOk result (IsChainTable placed.now table.new.items) }
    {
        if let Some((spot, kind)) = self.primitive_kind(placed, item)? {
            out.push(self.primitive(placed, table, around, spot, kind)?)?;
        }
        Ok(())
    }

    /// The entries of one item, under clips around it.
    #[tactic(auto, using(display_list::proofs::TreeLaws::trees))]
    #[cycle(items)]
    fn add_item(
        &self,
        out: &mut Sequence<Entry>,
        placed: &PlacedList<'_>,
        table: &mut ChainTable,
        around: &[Clip],
        item: &Item,
    ) -> Result<(), NoMemory>
        requires table { IsChainTable placed.now table.old.items }
        requires item { CanPaint self.now.pipelines.now placed.now (tree_of item.now) }
        ensures value { OnOk result (out.new ≡ out.old ++ tree_entries (pipeline_entries self.now.pipelines.now self.now.store.now) self.now.store.now placed.now around.now (tree_of item.now)) }
        ensures table { OnOk result (IsChainTable placed.now table.new.items) }
    {
        match item {
            Item::Context {
                chain,
                opacity,
                prop,
                mode,
                isolate,
                children,
                ..
            } => {
                let opacity = placed.opacity(*prop, *opacity);
                if stands_around(opacity, *mode, *isolate, *chain) {
                    return self.add_items(out, placed, table, around, children);
                }
                let push = Entry::Push {
                    opacity,
                    mode: *mode,
                    clips: placed.clips_after(self.alloc, table, around, *chain)?,
                };
                self.add_group(out, placed, table, push, children)
            }
            Item::Iframe { spot, pipeline } => {
                let origin = first_corner(placed.item_rect(*spot));
                let clips = placed.clips_inside(self.alloc, table, around, *spot)?;
                self.add_pipeline(out, *pipeline, origin, clips.as_slice())
            }
            _ => self.add_primitive(out, placed, table, around, item),
        }
    }

    /// A group from what opens it to its end, with the entries of its items.
    #[cycle(items)]
    pub(crate) fn add_group(
        &self,
        out: &mut Sequence<Entry>,
        placed: &PlacedList<'_>,
        table: &mut ChainTable,
        push: Entry,
        children: &[Item],
    ) -> Result<(), NoMemory>
        requires table { IsChainTable placed.now table.old.items }
        requires children { CanPaintAll self.now.pipelines.now placed.now (trees_of children.now) }
        ensures value { OnOk result (out.new ≡ out.old ++ group_entries push (trees_entries (pipeline_entries self.now.pipelines.now self.now.store.now) self.now.store.now placed.now [] (trees_of children.now))) }
        ensures table { OnOk result (IsChainTable placed.now table.new.items) }
    {
        out.push(push)?;
        self.add_items(out, placed, table, &[], children)?;
        out.push(Entry::Pop)?;
        Ok(())
    }

    /// The entries of items in order.
    #[cycle(items)]
    fn add_items(
        &self,
        out: &mut Sequence<Entry>,
        placed: &PlacedList<'_>,
        table: &mut ChainTable,
        around: &[Clip],
        items: &[Item],
    ) -> Result<(), NoMemory>
        requires table { IsChainTable placed.now table.old.items }
        requires items { CanPaintAll self.now.pipelines.now placed.now (trees_of items.now) }
        ensures value { OnOk result (out.new ≡ out.old ++ trees_entries (pipeline_entries self.now.pipelines.now self.now.store.now) self.now.store.now placed.now around.now (trees_of items.now)) }
        ensures table { OnOk result (IsChainTable placed.now table.new.items) }
    {
        for item in items {
            self.add_item(out, placed, table, around, item)?;
        }
        Ok(())
    }

    /// The entries of a pipeline whose root is at a point, under clips around it.
    #[cycle(items)]
    fn add_pipeline(
        &self,
        out: &mut Sequence<Entry>,
        pipeline: u8,
        origin: Point,
        around: &[Clip],
    ) -> Result<(), NoMemory>
        requires pipeline { pipeline ≤ 63 }
        requires reach { Reaches self.now.pipelines.now pipeline origin }
        ensures { OnOk result (out.new ≡ out.old ++ pipeline_entries self.now.pipelines.now self.now.store.now pipeline origin around.now) }
    {
        match placed_list(self.alloc, self.pipelines, pipeline, origin)? {
            None => Ok(()),
            Some(placed) => {
                let mut table = placed.chain_table(self.alloc)?;
                let items = placed.list.items();
                self.add_items(out, &placed, &mut table, around, items)
            }
        }
    }
}
