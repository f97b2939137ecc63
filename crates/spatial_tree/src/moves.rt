//! What is stored of a pipeline beside its list: positions and properties.

ghost use Rattle.std.specs.Prelude.{◌≡◌, ◌↔◌, ◌≤◌, neg_ℤ, IsTrue, OnOk, OnErr};
ghost use Rattle.std.specs.FinMap as map;
ghost use Rattle.field_forms.specs.Facts.{IsNear};
ghost use Rattle.display_list.specs.Facts.{IsNode};
ghost use Rattle.spatial_tree.specs.Moves.{AreNearMoves, no_moves};
ghost use Rattle.spatial_tree.specs.Offsets.{IsWithin, distance_of, property_of, clamped, shift_of};

use containers::{Exact, NumberMap, Shared};
use display_list::Node;
use std::alloc::{AllocError, Global};
use std::marker::Model;
use wr_geom::{NoMemory, Point};

/// The positions of scroll numbers, and the offset and opacity properties, each by its number. Positions
/// and offsets are in pixels, within ±1,048,576. A clone shares each of the three until one of its owners
/// writes to it.
#[derive(Drop)]
pub struct Moves {
    scrolls: Shared<NumberMap<(i32, i32)>>,
    offsets: Shared<NumberMap<(i32, i32)>>,
    opacities: Shared<NumberMap<u8>>,
}

impl Model for Moves {
    ghost use Rattle.spatial_tree.specs.Moves.{MovesModel, moves_code, AreNearMoves};

    ghost Value = { MovesModel };

    ghost coded = { moves_code };

    ghost view = { λ m. record { scrolls = m.scrolls; offsets = m.offsets; opacities = m.opacities } };

    ghost invariant = { λ m. AreNearMoves (record { scrolls = m.scrolls; offsets = m.offsets; opacities = m.opacities }) };
}

impl Moves {
    /// Without a position or a property. It takes no memory.
    pub fn new(alloc: Global) -> Moves
        ensures { result ≡ no_moves }
    {
        Moves {
            scrolls: Shared::new(alloc, NumberMap::new(alloc)),
            offsets: Shared::new(alloc, NumberMap::new(alloc)),
            opacities: Shared::new(alloc, NumberMap::new(alloc)),
        }
    }

    /// The positions, by scroll number.
    pub fn scrolls(&self) -> &NumberMap<(i32, i32)>
        ensures value { result.now ≡ self.now.scrolls }
        ensures near { AreNearMoves self.now }
    {
        self.scrolls.get()
    }

    /// The offset properties, by their number.
    pub fn offsets(&self) -> &NumberMap<(i32, i32)>
        ensures value { result.now ≡ self.now.offsets }
        ensures near { AreNearMoves self.now }
    {
        self.offsets.get()
    }

    /// The opacity properties, by their number.
    pub fn opacities(&self) -> &NumberMap<u8>
        ensures { result.now ≡ self.now.opacities }
    {
        self.opacities.get()
    }

    /// The position of a scroll number, or none where none is stored.
    pub fn scroll(&self, sid: u16) -> Option<(i32, i32)>
        ensures value { result ≡ map.get self.now.scrolls sid }
        ensures near { AreNearMoves self.now }
    {
        self.scrolls.get().get(sid as u32).copied()
    }

    /// An offset property, or none where it isn't set.
    pub fn offset(&self, id: u16) -> Option<(i32, i32)>
        ensures value { result ≡ map.get self.now.offsets id }
        ensures near { AreNearMoves self.now }
    {
        self.offsets.get().get(id as u32).copied()
    }

    /// An opacity property, or none where it isn't set.
    pub fn opacity(&self, id: u16) -> Option<u8>
        ensures { result ≡ map.get self.now.opacities id }
    {
        self.opacities.get().get(id as u32).copied()
    }

    /// How far a node is moved against its parent, in pixels.
    #[tactic(auto, unfolding(crate::specs::Offsets::stored))]
    pub(crate) fn shift(&self, node: Node) -> Point
        requires { IsNode node }
        ensures value { result ≡ shift_of self.now node }
        ensures near { AreNearMoves self.now }
    {
        match node {
            Node::Reference { x, y, prop, .. } => Point { x, y }.plus(self.property(prop)),
            Node::Scroll {
                sid,
                view_w,
                view_h,
                content_w,
                content_h,
                ..
            } => {
                let position = distance(self.scroll(sid));
                Point {
                    x: scrolled(position.x, view_w, content_w),
                    y: scrolled(position.y, view_h, content_h),
                }
            }
        }
    }

    /// The offset property with this number, or no distance.
    #[tactic(auto, unfolding(crate::specs::Offsets::stored))]
    fn property(&self, prop: Option<u16>) -> Point
        ensures value { result ≡ property_of self.now prop }
        ensures within { IsWithin 1048576 result }
        ensures near { AreNearMoves self.now }
    {
        let offsets = self.offsets();
        match prop {
            None => distance(None),
            Some(id) => distance(offsets.get(id as u32).copied()),
        }
    }

    /// Whether there is neither a position nor a property.
    pub fn is_empty(&self) -> bool
        ensures { IsTrue result ↔ (self.now ≡ no_moves) }
    {
        self.scrolls().is_empty() && self.offsets().is_empty() && self.opacities().is_empty()
    }

    /// Stores the position of a scroll number, in pixels within ±1,048,576, as it is.
    pub fn set_scroll(&mut self, sid: u16, x: i32, y: i32) -> Result<(), NoMemory>
        requires x { IsNear x }
        requires y { IsNear y }
        ensures ok { OnOk result (self.new ≡ record self.old { scrolls = map.insert self.old.scrolls sid (x, y) }) }
        ensures err { OnErr result (self.new ≡ self.old) }
    {
        insert(&mut self.scrolls, sid, (x, y))?;
        Ok(())
    }

    /// Sets an offset property, in pixels within ±1,048,576.
    pub fn set_offset(&mut self, id: u16, x: i32, y: i32) -> Result<(), NoMemory>
        requires x { IsNear x }
        requires y { IsNear y }
        ensures ok { OnOk result (self.new ≡ record self.old { offsets = map.insert self.old.offsets id (x, y) }) }
        ensures err { OnErr result (self.new ≡ self.old) }
    {
        insert(&mut self.offsets, id, (x, y))?;
        Ok(())
    }

    /// Sets an opacity property, of 255.
    pub fn set_opacity(&mut self, id: u16, opacity: u8) -> Result<(), NoMemory>
        ensures ok { OnOk result (self.new ≡ record self.old { opacities = map.insert self.old.opacities id opacity }) }
        ensures err { OnErr result (self.new ≡ self.old) }
    {
        insert(&mut self.opacities, id, opacity)?;
        Ok(())
    }
}

/// Puts a value at a number into a map that may have other owners, which keep theirs.
fn insert<V: Exact + Drop>(
    values: &mut Shared<NumberMap<V>>,
    key: u16,
    value: V,
) -> Result<(), AllocError>
    ensures ok { OnOk result (values.new ≡ map.insert values.old key value) }
    ensures err { OnErr result (values.new ≡ values.old) }
{
    values.write()?.insert(key as u32, value)
}

/// A distance that may be stored.
fn distance(stored: Option<(i32, i32)>) -> Point
    ensures { result ≡ distance_of stored }
{
    let (x, y) = stored.unwrap_or((0, 0));
    Point { x, y }
}

/// How far a position moves the content on one axis, in pixels: against the position, and not beyond the
/// viewport.
#[tactic(auto, unfolding(crate::specs::Offsets::clamped))]
fn scrolled(position: i32, view: u32, content: u32) -> i32
    requires { content ≤ 1048576 }
    ensures { result ≡ neg_ℤ (clamped position view content) }
{
    let room = content.saturating_sub(view) as i32;
    -position.max(0).min(room)
}

impl Clone for Moves {
    ghost use Rattle.std.specs.Prelude.{◌≡◌};

    ghost is_clone = { λ m n. n ≡ m };

    fn clone(&self) -> Result<Moves, AllocError> {
        Ok(Moves {
            scrolls: self.scrolls.share()?,
            offsets: self.offsets.share()?,
            opacities: self.opacities.share()?,
        })
    }
}

impl Exact for Moves {
    ghost exact = { λ x y e. e };
}
