//! The picture at a pixel: top items in slices.

ghost use Rattle.std.specs.Prelude.{◌≡◌, ◌≤◌, ◌<◌, ◌+◌, pos, length};
ghost use Rattle.std.specs.List.{fold};
ghost use Rattle.blend_rules.specs.Colour.{IsPremultiplied};
ghost use Rattle.display_list.specs.Facts.{IsSpot};
ghost use Rattle.display_list.specs.Trees.{tree_of, trees_of};
ghost use Rattle.scene_limits.specs.Limits.{scene_fault};
ghost use Rattle.painter.specs.Facts.{CanPaint, CanPaintAll, IsProgress, Reaches};
ghost use Rattle.painter.specs.Painter.{under};
ghost use Rattle.painter.specs.Progress.{after_top};
ghost use Rattle.painter.specs.Slices.{picture_over};
ghost use Rattle.painter.specs.TopItems.{Around, around_iframe, node_home, node_of, pipeline_tops, tree_tops, trees_tops};

use crate::pixel::ScenePixel;
use crate::placed_list::{PlacedList, first_corner, stands_around};
use crate::progress::Progress;
use blend_rules::{Px, know_bytes};
use display_list::{Item, Spot};
use image_store::Store;
use pipelines::Pipelines;
use scene_limits::limit_laws;
use slice_rules::Home;
use wr_geom::Point;

/// What Iframes put around a list, as it is at the pixel: the outermost scroll frame that moves them, and what
/// their clips leave of 255.
#[derive(Clone, Copy)]
struct Surroundings {
    home: Home,
    cover: u8,
}

impl ScenePixel<'_> {
    /// The home of a node.
    fn home(&self, around: Surroundings, placed: &PlacedList<'_>, node: u16) -> Home
        requires { node < length placed.now.list.nodes + 1 }
        ensures { (a : Around) → a.home ≡ around.home → result ≡ node_home a placed.now node }
    {
        if around.home.is_some() {
            return around.home;
        }
        let scroll = placed.root_scroll(node)?;
        Some((placed.pipeline, scroll))
    }

    /// A primitive or a group as a top item.
    fn top(
        &self,
        around: Surroundings,
        placed: &PlacedList<'_>,
        node: u16,
        item: &Item,
        progress: Progress,
    ) -> Progress
        requires node { node < length placed.now.list.nodes + 1 }
        requires item { CanPaint self.now.pipelines placed.now (tree_of item.now) }
        requires progress { IsProgress progress }
        ensures value { (a : Around) → a.home ≡ around.home → under self.now a.clips 255 ≡ around.cover → node ≡ node_of (tree_of item.now)
            → result ≡ after_top self.now progress (record { around = a; list = placed.now; item = tree_of item.now }) }
        ensures progress { IsProgress result }
    {
        let home = self.home(around, placed, node);
        let entered = progress.entered(home);
        let slice = self.paint_item(placed, item, around.cover, entered.slice);
        Progress { slice, ..entered }
    }

    /// The top items of an item.
    #[tactic(auto, using(display_list::proofs::TreeLaws::trees))]
    #[cycle(tops)]
    fn item_tops(
        &self,
        around: Surroundings,
        placed: &PlacedList<'_>,
        item: &Item,
        progress: Progress,
    ) -> Progress
        requires item { CanPaint self.now.pipelines placed.now (tree_of item.now) }
        requires progress { IsProgress progress }
        ensures value { (a : Around) → a.home ≡ around.home → under self.now a.clips 255 ≡ around.cover
            → result ≡ fold (after_top self.now) progress (tree_tops (pipeline_tops self.now.pipelines) a placed.now (tree_of item.now)) }
        ensures progress { IsProgress result }
    {
        match item {
            Item::Solid { spot, .. } => self.top(around, placed, spot.node, item, progress),
            Item::Image { spot, .. } => self.top(around, placed, spot.node, item, progress),
            Item::Border { spot, .. } => self.top(around, placed, spot.node, item, progress),
            Item::Text { spot, .. } => self.top(around, placed, spot.node, item, progress),
            Item::Context {
                node,
                chain,
                opacity,
                prop,
                mode,
                isolate,
                children,
            } => {
                let opacity = placed.opacity(*prop, *opacity);
                if stands_around(opacity, *mode, *isolate, *chain) {
                    return self.items_tops(around, placed, children, progress);
                }
                self.top(around, placed, *node, item, progress)
            }
            Item::Iframe { spot, pipeline } => {
                let origin = first_corner(placed.item_rect(*spot));
                let inside = self.inside(around, placed, *spot);
                self.pipeline_tops(inside, *pipeline, origin, progress)
            }
            Item::HitArea { .. } => progress,
        }
    }

    /// The top items of items in order.
    #[cycle(tops)]
    fn items_tops(
        &self,
        around: Surroundings,
        placed: &PlacedList<'_>,
        items: &[Item],
        progress: Progress,
    ) -> Progress
        requires items { CanPaintAll self.now.pipelines placed.now (trees_of items.now) }
        requires progress { IsProgress progress }
        ensures value { (a : Around) → a.home ≡ around.home → under self.now a.clips 255 ≡ around.cover
            → result ≡ fold (after_top self.now) progress (trees_tops (pipeline_tops self.now.pipelines) a placed.now (trees_of items.now)) }
        ensures progress { IsProgress result }
    {
        let mut progress = progress;
        for item in items {
            progress = self.item_tops(around, placed, item, progress);
        }
        progress
    }

    /// The top items of a pipeline whose root is at a point.
    #[cycle(tops)]
    fn pipeline_tops(
        &self,
        around: Surroundings,
        pipeline: u8,
        origin: Point,
        progress: Progress,
    ) -> Progress
        requires pipeline { pipeline ≤ 63 }
        requires reach { Reaches self.now.pipelines pipeline origin }
        requires progress { IsProgress progress }
        ensures value { (a : Around) → a.home ≡ around.home → under self.now a.clips 255 ≡ around.cover
            → result ≡ fold (after_top self.now) progress (pipeline_tops self.now.pipelines pipeline origin a) }
        ensures progress { IsProgress result }
    {
        self.know();
        match self.placed_list(pipeline, origin) {
            None => progress,
            Some(placed) => self.items_tops(around, &placed, placed.list.items(), progress),
        }
    }

    /// What is around the items of an Iframe.
    fn inside(&self, around: Surroundings, placed: &PlacedList<'_>, spot: Spot) -> Surroundings
        requires { IsSpot (length placed.now.list.nodes + 1) (length placed.now.list.chains) spot }
        ensures home { (a : Around) → a.home ≡ around.home → result.home ≡ (around_iframe a placed.now spot).home }
        ensures cover { (a : Around) → under self.now a.clips 255 ≡ around.cover → under self.now (around_iframe a placed.now spot).clips 255 ≡ result.cover }
    {
        Surroundings {
            home: self.home(around, placed, spot.node),
            cover: self.under_iframe(placed, spot, around.cover),
        }
    }
}

/// The colour of the picture at the pixel (x, y), over the colour behind all: each slice of top items is a group
/// of its own. The scene breaks no limit of what it would have expanded. It takes no memory.
pub fn picture_at(pipelines: &Pipelines, store: &Store, behind: Px, x: u16, y: u16) -> Px
    requires limits { scene_fault pipelines.now ≡ None }
    requires behind { IsPremultiplied behind }
    ensures value { result ≡ picture_over (record { pipelines = pipelines.now; store = store.now; x = pos x; y = pos y }) behind }
    ensures premultiplied { IsPremultiplied result }
{
    limit_laws();
    know_bytes(behind);
    let pixel = ScenePixel {
        pipelines,
        store,
        x: i32::from(x),
        y: i32::from(y),
    };
    let around = Surroundings {
        home: None,
        cover: 255,
    };
    let begun = Progress::begin(behind);
    pixel
        .pipeline_tops(around, 0, Point { x: 0, y: 0 }, begun)
        .laid()
}
