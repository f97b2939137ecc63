//! Items painted back to front at a pixel.

ghost use Rattle.std.specs.Prelude.{◌≡◌, ◌≤◌};
ghost use Rattle.blend_rules.specs.Colour.{IsPremultiplied};
ghost use Rattle.display_list.specs.Trees.{tree_of, trees_of};
ghost use Rattle.painter.specs.Facts.{CanPaint, CanPaintAll, Reaches};
ghost use Rattle.painter.specs.Painter.{paint_pipeline, paint_tree, paint_trees};

use crate::pixel::ScenePixel;
use crate::placed_list::{PlacedList, first_corner, stands_around};
use blend_rules::Px;
use display_list::Item;
use primitives::BorderColours;
use wr_geom::Point;

impl ScenePixel<'_> {
    /// One item of a list, under a cover and over a backdrop.
    #[tactic(auto, using(display_list::proofs::TreeLaws::trees))]
    #[cycle(items)]
    pub(crate) fn paint_item(
        &self,
        placed: &PlacedList<'_>,
        item: &Item,
        cover: u8,
        backdrop: Px,
    ) -> Px
        requires item { CanPaint self.now.pipelines placed.now (tree_of item.now) }
        requires backdrop { IsPremultiplied backdrop }
        ensures value { result ≡ paint_tree (paint_pipeline self.now) self.now placed.now (tree_of item.now) cover backdrop }
        ensures premultiplied { IsPremultiplied result }
    {
        match item {
            Item::Solid { spot, colour } => self.solid(placed, *spot, *colour, cover, backdrop),
            Item::Image { spot, key, u, v } => {
                self.image(placed, *spot, *key, *u, *v, cover, backdrop)
            }
            Item::Border {
                spot,
                widths,
                top,
                right,
                bottom,
                left,
                radii,
            } => {
                let colours = BorderColours {
                    top: *top,
                    right: *right,
                    bottom: *bottom,
                    left: *left,
                };
                self.border(placed, *spot, *widths, colours, *radii, cover, backdrop)
            }
            Item::Text {
                spot,
                font,
                colour,
                glyphs,
            } => self.text(
                placed,
                *spot,
                *font,
                *colour,
                glyphs.as_slice(),
                cover,
                backdrop,
            ),
            Item::Context {
                chain,
                opacity,
                prop,
                mode,
                isolate,
                children,
                ..
            } => {
                let opacity = placed.opacity(*prop, *opacity);
                if stands_around(opacity, *mode, *isolate, *chain) {
                    return self.paint_items(placed, children, cover, backdrop);
                }
                let group = self.paint_items(placed, children, 255, Px::CLEAR);
                self.lay_group(placed, *chain, opacity, *mode, group, cover, backdrop)
            }
            Item::Iframe { spot, pipeline } => {
                let origin = first_corner(placed.item_rect(*spot));
                let cover = self.under_iframe(placed, *spot, cover);
                self.paint_pipeline(*pipeline, origin, cover, backdrop)
            }
            Item::HitArea { .. } => backdrop,
        }
    }

    /// Items of a list in order.
    #[cycle(items)]
    pub(crate) fn paint_items(
        &self,
        placed: &PlacedList<'_>,
        items: &[Item],
        cover: u8,
        backdrop: Px,
    ) -> Px
        requires items { CanPaintAll self.now.pipelines placed.now (trees_of items.now) }
        requires backdrop { IsPremultiplied backdrop }
        ensures value { result ≡ paint_trees (paint_pipeline self.now) self.now placed.now (trees_of items.now) cover backdrop }
        ensures premultiplied { IsPremultiplied result }
    {
        let mut painted = backdrop;
        for item in items {
            painted = self.paint_item(placed, item, cover, painted);
        }
        painted
    }

    /// The list of a pipeline whose root is at a point, where it has one.
    #[cycle(items)]
    fn paint_pipeline(&self, pipeline: u8, origin: Point, cover: u8, backdrop: Px) -> Px
        requires pipeline { pipeline ≤ 63 }
        requires reach { Reaches self.now.pipelines pipeline origin }
        requires backdrop { IsPremultiplied backdrop }
        ensures value { result ≡ paint_pipeline self.now pipeline origin cover backdrop }
        ensures premultiplied { IsPremultiplied result }
    {
        self.know();
        match self.placed_list(pipeline, origin) {
            None => backdrop,
            Some(placed) => self.paint_items(&placed, placed.list.items(), cover, backdrop),
        }
    }
}
