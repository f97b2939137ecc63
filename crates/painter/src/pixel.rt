//! What is drawn at one pixel.

ghost use Rattle.std.specs.Prelude.{◌≡◌, ◌+◌, IsNone, IfSome, IsTrue, IsFalse, length};
ghost use Rattle.wr_geom.specs.Bounds.{holds};
ghost use Rattle.blend_rules.specs.Colour.{IsPremultiplied, blended, scaled};
ghost use Rattle.clip_masks.specs.Corners.{HasPixel};
ghost use Rattle.field_forms.specs.Facts.{IsDefined};
ghost use Rattle.display_list.specs.Facts.{IsSpot};
ghost use Rattle.pipelines.specs.Table.{AreFit};
ghost use Rattle.painter.specs.PlacedList.{chain_clips, iframe_clips, item_rect, placed_at};
ghost use Rattle.painter.specs.Painter.{under};
ghost use Rattle.painter.specs.Facts.{Reaches};

use crate::placed_list::PlacedList;
use blend_rules::{Mode, Px, blend, mul, scale};
use clip_masks::Clip;
use clip_tree::chain_cover_at;
use display_list::Spot;
use image_store::Store;
use pipelines::Pipelines;
use scene_limits::limit_laws;
use std::marker::Model;
use wr_geom::{Point, Rect};

/// What is drawn, the pipelines with the images and masks, and the pixel at which.
#[derive(Drop)]
pub(crate) struct ScenePixel<'a> {
    pub(crate) pipelines: &'a Pipelines,
    pub(crate) store: &'a Store,
    pub(crate) x: i32,
    pub(crate) y: i32,
}

impl<'a> Model for ScenePixel<'a> {
    ghost use Rattle.painter.specs.Painter.{ScenePixel, pixel_code};

    ghost Value = { ScenePixel };

    ghost coded = { pixel_code };

    ghost view = { λ s. record { pipelines = s.pipelines.now; store = s.store.now; x = s.x; y = s.y } };
}

impl ScenePixel<'_> {
    /// The pixel's column and row.
    pub(crate) fn at(&self) -> Point
        ensures { result ≡ record { x = self.now.x; y = self.now.y } }
    {
        Point {
            x: self.x,
            y: self.y,
        }
    }

    /// What is known of the pipelines, for whoever reasons about them. It does nothing.
    pub(crate) fn know(&self)
        ensures { AreFit self.now.pipelines }
    {
        let _root = self.pipelines.get(0);
    }

    /// The list of a pipeline whose root is at a point, where it has one.
    pub(crate) fn placed_list(&self, pipeline: u8, origin: Point) -> Option<PlacedList<'_>>
        requires { Reaches self.now.pipelines pipeline origin }
        ensures { result ≡ placed_at self.now.pipelines pipeline origin }
    {
        limit_laws();
        let has = self.pipelines.get(pipeline);
        let listed = has.listed()?;
        Some(PlacedList {
            pipeline,
            list: listed.list(),
            moves: has.moves(),
            origin,
        })
    }

    /// The rectangle of an item, where the pixel lies in it.
    pub(crate) fn rect_here(&self, placed: &PlacedList<'_>, spot: Spot) -> Option<Rect>
        requires { IsSpot (length placed.now.list.nodes + 1) (length placed.now.list.chains) spot }
        ensures none { IsNone result → IsFalse (holds (item_rect placed.now spot) self.now.x self.now.y) }
        ensures some { IfSome result (λ r. (r ≡ item_rect placed.now spot) × HasPixel r self.now.x self.now.y × IsTrue (holds (item_rect placed.now spot) self.now.x self.now.y)) }
    {
        let rect = placed.item_rect(spot);
        if rect.contains(self.at()) {
            return Some(rect);
        }
        None
    }

    /// What a chain's clips leave of a cover.
    pub(crate) fn under_chain(&self, placed: &PlacedList<'_>, chain: Option<u16>, cover: u8) -> u8
        requires { IsDefined (length placed.now.list.chains) chain }
        ensures { result ≡ under self.now (chain_clips placed.now chain) cover }
    {
        let at = self.at();
        chain_cover_at(
            placed.list,
            placed.moves,
            placed.origin,
            chain,
            cover,
            at.x,
            at.y,
        )
    }

    /// What an Iframe's chain and rectangle leave of a cover.
    pub(crate) fn under_iframe(&self, placed: &PlacedList<'_>, spot: Spot, cover: u8) -> u8
        requires { IsSpot (length placed.now.list.nodes + 1) (length placed.now.list.chains) spot }
        ensures { result ≡ under self.now (iframe_clips placed.now spot) cover }
    {
        let at = self.at();
        let cover = self.under_chain(placed, spot.chain, cover);
        let rect = Clip::of_rect(placed.item_rect(spot));
        mul(cover, rect.cover(at.x, at.y))
    }

    /// A colour that an item has here, under its chain and over a backdrop.
    pub(crate) fn lay(
        &self,
        placed: &PlacedList<'_>,
        chain: Option<u16>,
        colour: Px,
        cover: u8,
        backdrop: Px,
    ) -> Px
        requires chain { IsDefined (length placed.now.list.chains) chain }
        requires colour { IsPremultiplied colour }
        requires backdrop { IsPremultiplied backdrop }
        ensures value { result ≡ blended Mode.Normal (scaled colour (under self.now (chain_clips placed.now chain) cover)) backdrop }
        ensures premultiplied { IsPremultiplied result }
    {
        let cover = self.under_chain(placed, chain, cover);
        blend(Mode::Normal, scale(colour, cover), backdrop)
    }

    /// A group whose items gave a colour, over a backdrop.
    pub(crate) fn lay_group(
        &self,
        placed: &PlacedList<'_>,
        chain: Option<u16>,
        opacity: u8,
        mode: Mode,
        group: Px,
        cover: u8,
        backdrop: Px,
    ) -> Px
        requires chain { IsDefined (length placed.now.list.chains) chain }
        requires group { IsPremultiplied group }
        requires backdrop { IsPremultiplied backdrop }
        ensures value { result ≡ blended mode (scaled (scaled group opacity) (under self.now (chain_clips placed.now chain) cover)) backdrop }
        ensures premultiplied { IsPremultiplied result }
    {
        let cover = self.under_chain(placed, chain, cover);
        blend(mode, scale(scale(group, opacity), cover), backdrop)
    }
}
