ghost use Rattle.std.specs.Prelude.{◌≡◌, ◌↔◌, ◌≤◌, length, IsSome, IfSome, IfOk};
ghost use Rattle.primitives.specs.Clipping.{primitive_without_clips};
ghost use Rattle.primitives.specs.Colours.{visible_rect};
ghost use Rattle.primitives.specs.Moves.{CanShiftPrimitive, shifted_primitive};
ghost use Rattle.primitives.specs.PrimitiveModel.{IsKind, IsPrimitive};

use crate::Kind;
use crate::lists::{copied_clips, shifted_clips};
use clip_masks::{Clip, cut};
use containers::Sequence;
use std::marker::Model;
use wr_geom::{NoMemory, Point, Rect};

/// What is drawn at once: a kind of picture in a rectangle, under clips, the outermost first.
///
/// Its colours are premultiplied, its glyphs stand within -2^29 and 2^29 pixels, and a border's widths and
/// radii are at most 4,096 pixels and fit its rectangle.
#[derive(Debug, PartialEq, Eq, PartialOrd, Ord, Drop)]
pub struct Primitive {
    kind: Kind,
    rect: Rect,
    clips: Sequence<Clip>,
}

impl Model for Primitive {
    ghost use Rattle.primitives.specs.PrimitiveModel.{PrimitiveModel, IsKind};

    ghost Value = { PrimitiveModel };

    ghost view = { λ p. record { kind = p.kind; rect = p.rect; clips = p.clips } };

    ghost invariant = { λ p. IsKind p.rect p.kind };

    ghost inverse = { λ p. record { kind = p.kind; rect = p.rect; clips = p.clips } };
}

impl Primitive {
    /// A kind of picture in a rectangle, under clips. None where the kind doesn't fit the rectangle, by
    /// `Kind::fits`.
    pub fn new(kind: Kind, rect: Rect, clips: Sequence<Clip>) -> Option<Primitive>
        ensures some { IsSome result ↔ IsKind rect kind }
        ensures value { IfSome result (λ p. p ≡ record { kind = kind; rect = rect; clips = clips }) }
    {
        if !kind.fits(rect) {
            return None;
        }
        Some(Primitive { kind, rect, clips })
    }

    /// What it shows.
    pub fn kind(&self) -> &Kind
        ensures value { result.now ≡ self.now.kind }
        ensures primitive { IsPrimitive self.now }
    {
        &self.kind
    }

    /// Outside of this rectangle it is clear.
    pub fn rect(&self) -> Rect
        ensures value { result ≡ self.now.rect }
        ensures primitive { IsPrimitive self.now }
    {
        self.rect
    }

    /// Its clips, the outermost first.
    pub fn clips(&self) -> &[Clip]
        ensures value { result.now ≡ self.now.clips }
        ensures primitive { IsPrimitive self.now }
    {
        self.clips.as_slice()
    }

    /// Its rectangle cut by the rectangle of each of its clips of mode in. Outside of that nothing of it
    /// shows. It takes no memory.
    pub(crate) fn visible_rect(&self) -> Rect
        ensures { result ≡ visible_rect self.now }
    {
        cut(self.clips.as_slice(), self.rect)
    }

    /// An equal primitive.
    pub fn copy(&self) -> Result<Primitive, NoMemory>
        ensures { IfOk result (λ p. p ≡ self.now) }
    {
        Ok(Primitive {
            kind: self.kind.copy()?,
            rect: self.rect,
            clips: copied_clips(&self.clips)?,
        })
    }

    /// Moved by whole pixels, with its clips and glyphs, which must stay in range. It takes no memory.
    pub fn shift(self, by: Point) -> Primitive
        requires { CanShiftPrimitive by self }
        ensures { result ≡ shifted_primitive self by }
    {
        let Primitive { kind, rect, clips } = self;
        Primitive {
            kind: kind.shift(by),
            rect: rect.shift(by),
            clips: shifted_clips(clips, by),
        }
    }

    /// Without its first `count` clips. It takes no memory.
    pub fn without_clips(self, count: usize) -> Primitive
        requires { count ≤ length self.clips }
        ensures { result ≡ primitive_without_clips self count }
    {
        let Primitive {
            kind,
            rect,
            mut clips,
        } = self;
        clips.remove_front(count);
        Primitive { kind, rect, clips }
    }
}
