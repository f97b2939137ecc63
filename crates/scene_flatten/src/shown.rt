//! Primitives: what items show at once.

ghost use Rattle.std.specs.Prelude.{◌≡◌, ◌+◌, ◌^◌, length, map, All, IfOk, IfSome, OnOk};
ghost use Rattle.std.specs.Option.{option_map};
ghost use Rattle.blend_rules.specs.Colour.{IsPixel};
ghost use Rattle.display_list.specs.Facts.{IsGlyph, IsSpot};
ghost use Rattle.display_list.specs.Trees.{tree_of};
ghost use Rattle.image_store.specs.StoreModel.{glyph_at, image_at};
ghost use Rattle.spatial_tree.specs.Offsets.{IsWithin};
ghost use Rattle.primitives.specs.PrimitiveModel.{IsGlyphUse, IsKind};
ghost use Rattle.painter.specs.Facts.{CanPaint};
ghost use Rattle.painter.specs.PlacedList.{item_rect};
ghost use Rattle.painter.specs.Painter.{glyph_use, image_kind, text_kind};
ghost use Rattle.scene_flatten.specs.Chains.{IsChainTable};
ghost use Rattle.scene_flatten.specs.Entries.{primitive_entry, primitive_kind};

use crate::chains::ChainTable;
use crate::placed_list::PlacedList;
use blend_rules::Px;
use clip_masks::Clip;
use containers::Sequence;
use display_list::{GlyphAt, Item, Spot};
use image_store::Store;
use painter::glyph_corner;
use pipelines::Pipelines;
use primitives::{Entry, GlyphUse, Kind, Primitive};
use std::alloc::{AllocError, Global};
use wr_geom::{NoMemory, Point};

/// What is walked: the pipelines, with the images and masks.
#[derive(Drop)]
pub(crate) struct Walk<'a> {
    pub(crate) alloc: Global,
    pub(crate) pipelines: &'a Pipelines,
    pub(crate) store: &'a Store,
}

/// The generation of a glyph's mask, where one is stored.
fn mask_generation(store: &Store, pipeline: u8, font: u16, glyph: u16) -> Option<u64>
    ensures { result ≡ option_map (λ m. m.generation) (glyph_at store.now pipeline font glyph) }
{
    match store.glyph(pipeline, font, glyph) {
        None => None,
        Some(mask) => Some(mask.generation()),
    }
}

/// The generation of an image, where one is stored.
fn image_generation(store: &Store, pipeline: u8, key: u32) -> Option<u64>
    ensures { result ≡ option_map (λ i. i.generation) (image_at store.now pipeline key) }
{
    match store.image(pipeline, key) {
        None => None,
        Some(image) => Some(image.generation()),
    }
}

/// A glyph where its node puts it, with its mask's generation where one is stored.
fn glyph_use(store: &Store, pipeline: u8, font: u16, at: Point, g: GlyphAt) -> GlyphUse
    requires glyph { IsGlyph g }
    requires reach { IsWithin (2 ^ 27) at }
    ensures value { result ≡ glyph_use store.now pipeline font at g }
    ensures near { IsGlyphUse result }
{
    let Point { x, y } = glyph_corner(at, g);
    GlyphUse {
        glyph: g.glyph,
        x,
        y,
        generation: mask_generation(store, pipeline, font, g.glyph),
    }
}

/// The glyphs where their node puts them.
fn glyph_uses(
    alloc: Global,
    store: &Store,
    pipeline: u8,
    font: u16,
    at: Point,
    glyphs: &[GlyphAt],
) -> Result<Sequence<GlyphUse>, AllocError>
    requires glyphs { All IsGlyph glyphs.now }
    requires reach { IsWithin (2 ^ 27) at }
    ensures value { IfOk result (λ uses. uses ≡ map (glyph_use store.now pipeline font at) glyphs.now) }
    ensures near { IfOk result (λ uses. All IsGlyphUse uses) }
{
    let mut uses = Vec::with_capacity(alloc, glyphs.len())?;
    for g in glyphs {
        uses.push(glyph_use(store, pipeline, font, at, *g))?;
    }
    Ok(Sequence::from_vec(uses))
}

impl Walk<'_> {
    /// An image, with its generation where one is stored.
    fn image_kind(&self, placed: &PlacedList<'_>, key: u32, u: u16, v: u16) -> Kind
        ensures { result ≡ image_kind self.now.store.now placed.now key u v }
    {
        let pipeline = placed.pipeline;
        let generation = image_generation(self.store, pipeline, key);
        Kind::Image {
            pipeline,
            key,
            generation,
            u,
            v,
        }
    }

    /// A text, whose glyphs are relative to the item's node.
    fn text_kind(
        &self,
        placed: &PlacedList<'_>,
        spot: Spot,
        font: u16,
        colour: Px,
        glyphs: &[GlyphAt],
    ) -> Result<Kind, AllocError>
        requires spot { IsSpot (length placed.now.list.nodes + 1) (length placed.now.list.chains) spot }
        requires colour { IsPixel colour }
        requires glyphs { All IsGlyph glyphs.now }
        ensures value { IfOk result (λ kind. kind ≡ text_kind self.now.store.now placed.now spot.node font colour glyphs.now) }
        ensures kind { IfOk result (λ kind. IsKind (item_rect placed.now spot) kind) }
    {
        let (pipeline, at) = (placed.pipeline, placed.node_point(spot.node));
        let glyphs = glyph_uses(self.alloc, self.store, pipeline, font, at, glyphs)?;
        Ok(Kind::Text {
            pipeline,
            font,
            colour,
            glyphs,
        })
    }

    /// Where an item that is a primitive stands, and what it shows.
    #[tactic(auto, using(display_list::proofs::TreeLaws::trees))]
    pub(crate) fn primitive_kind(
        &self,
        placed: &PlacedList<'_>,
        item: &Item,
    ) -> Result<Option<(Spot, Kind)>, AllocError>
        requires { CanPaint self.now.pipelines.now placed.now (tree_of item.now) }
        ensures value { IfOk result (λ shown. shown ≡ primitive_kind self.now.store.now placed.now (tree_of item.now)) }
        ensures spot { IfOk result (λ shown. IfSome shown (λ p. IsSpot (length placed.now.list.nodes + 1) (length placed.now.list.chains) p.0)) }
        ensures kind { IfOk result (λ shown. IfSome shown (λ p. IsKind (item_rect placed.now p.0) p.1)) }
    {
        Ok(match item {
            Item::Solid { spot, colour } => Some((*spot, Kind::Solid(*colour))),
            Item::Image { spot, key, u, v } => {
                Some((*spot, self.image_kind(placed, *key, *u, *v)))
            }
            Item::Border {
                spot,
                widths,
                top,
                right,
                bottom,
                left,
                radii,
            } => {
                let kind = Kind::Border {
                    widths: *widths,
                    top: *top,
                    right: *right,
                    bottom: *bottom,
                    left: *left,
                    radii: *radii,
                };
                Some((*spot, kind))
            }
            Item::Text {
                spot,
                font,
                colour,
                glyphs,
            } => {
                let kind = self.text_kind(placed, *spot, *font, *colour, glyphs.as_slice())?;
                Some((*spot, kind))
            }
            Item::Context { .. } | Item::Iframe { .. } | Item::HitArea { .. } => None,
        })
    }

    /// A primitive under clips around it and then its own.
    pub(crate) fn primitive(
        &self,
        placed: &PlacedList<'_>,
        table: &mut ChainTable,
        around: &[Clip],
        spot: Spot,
        kind: Kind,
    ) -> Result<Entry, NoMemory>
        requires table { IsChainTable placed.now table.old.items }
        requires spot { IsSpot (length placed.now.list.nodes + 1) (length placed.now.list.chains) spot }
        requires kind { IsKind (item_rect placed.now spot) kind }
        ensures value { IfOk result (λ entry. entry ≡ primitive_entry placed.now around.now spot kind) }
        ensures table { OnOk result (IsChainTable placed.now table.new.items) }
    {
        let (chain, rect) = (spot.chain, placed.item_rect(spot));
        let clips = placed.clips_after(self.alloc, table, around, chain)?;
        Ok(Entry::Primitive(Primitive::new(kind, rect, clips).unwrap()))
    }
}
