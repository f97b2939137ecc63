//! Tops that the tests share, made from short descriptions.

ghost use Rattle.std.specs.Prelude.{◌≡◌, length, IfOk};
ghost use Rattle.clip_masks.specs.declared.clip.Clip.{Clip as ClipValue};
ghost use Rattle.primitives.specs.Tops.{IsCloseRect, AreCloseClips, IsSliceOrigin, IsTop, AreTops};
ghost use Rattle.primitives.specs.declared.entry.Entry.TheVariants as entry;
ghost use Rattle.primitives.specs.declared.kind.Kind.TheVariants as kind;
ghost use Rattle.slice_tests.specs.TopOf.{IsTopOf};

use blend_rules::{Mode, Px};
use clip_masks::{Clip, Rounded};
use containers::Sequence;
use picture_slices::{Slice, slices};
use primitives::{Entry, Kind, Primitive, Top};
use slice_rules::Home;
use std::alloc::{AllocError, Global};
use std::test::Fail;
use wr_geom::{Point, Radii, Rect};

pub(crate) const WHITE: Px = Px {
    b: 255,
    g: 255,
    r: 255,
    a: 255,
};

/// A grey of half coverage.
pub(crate) const HALF: Px = Px {
    b: 100,
    g: 100,
    r: 100,
    a: 128,
};

/// The shape of a clip.
#[derive(Clone, Copy)]
pub(crate) enum Shape {
    /// A rectangle of four by four pixels.
    Wide,
    /// A rectangle of two by three pixels.
    Narrow,
    /// The wide one with a round corner.
    Round,
    /// What lies outside of the narrow one.
    Outside,
}

/// A clip's shape, and the number of the scroll frame with which it moves, 0 for none.
pub(crate) type Clipped = (Shape, u8);

/// One primitive, or a group of two.
#[derive(Clone, Copy)]
pub(crate) struct Piece<'a> {
    /// The scroll frame with which it moves, 0 for none.
    pub(crate) scroll: u8,
    pub(crate) clips: &'a [Clipped],
    pub(crate) colour: Px,
    pub(crate) is_group: bool,
}

/// The scroll frame of pipeline 0 with this number, none for 0.
pub(crate) fn home(scroll: u8) -> Home {
    if scroll == 0 {
        return None;
    }
    Some((0, scroll.into()))
}

/// Where a scroll frame stands.
pub(crate) fn origin(scroll: u8) -> Point
    ensures { IsSliceOrigin result }
{
    let far = i32::from(scroll);
    Point {
        x: 10 * far,
        y: -far,
    }
}

/// A rectangle at most 255 pixels from (0, 0).
pub(crate) fn rect(x0: u8, y0: u8, x1: u8, y1: u8) -> Result<Rect, Fail>
    ensures { IfOk result (λ r. IsCloseRect r) }
{
    let rect = Rect::new(x0.into(), y0.into(), x1.into(), y1.into());
    Ok(rect.ok_or("no rectangle")?)
}

/// The clip of a shape.
pub(crate) fn clip(shape: Shape) -> Result<Clip, Fail>
    ensures { IfOk result (λ (c : ClipValue). IsCloseRect c.shape.rect) }
{
    Ok(match shape {
        Shape::Wide => Clip::of_rect(rect(0, 0, 4, 4)?),
        Shape::Narrow => Clip::of_rect(rect(1, 0, 3, 3)?),
        Shape::Round => {
            let radii = Radii {
                tl: (2, 2),
                ..Radii::SQUARE
            };
            let rounded = Rounded::new(rect(0, 0, 4, 4)?, radii);
            Clip {
                shape: rounded.ok_or("no shape")?,
                out: false,
            }
        }
        Shape::Outside => Clip {
            out: true,
            ..Clip::of_rect(rect(1, 0, 3, 3)?)
        },
    })
}

/// The clips of a piece.
fn clips_of(alloc: Global, clips: &[Clipped]) -> Result<Sequence<Clip>, Fail>
    ensures count { IfOk result (λ cs. length cs ≡ length clips.now) }
    ensures close { IfOk result (λ cs. AreCloseClips cs) }
{
    let mut made = Sequence::new(alloc);
    for clipped in clips {
        made.push(clip(clipped.0)?)?;
    }
    Ok(made)
}

/// Their homes.
fn homes_of(alloc: Global, clips: &[Clipped]) -> Result<Sequence<Home>, AllocError>
    ensures { IfOk result (λ hs. length hs ≡ length clips.now) }
{
    let mut made = Sequence::new(alloc);
    for clipped in clips {
        made.push(home(clipped.1))?;
    }
    Ok(made)
}

/// A solid of a colour in a rectangle.
fn solid(colour: Px, rect: Rect, clips: Sequence<Clip>) -> Result<Entry, Fail>
    ensures { IfOk result (λ e. e ≡ entry.Primitive (record { kind = kind.Solid colour; rect = rect; clips = clips })) }
{
    let made = Primitive::new(Kind::Solid(colour), rect, clips);
    Ok(Entry::Primitive(made.ok_or("no solid")?))
}

/// A solid of five by four pixels from (0, 0), under the clips of a piece.
fn primitive_of(alloc: Global, piece: &Piece<'_>) -> Result<Sequence<Entry>, Fail>
    ensures { IfOk result (λ es. IsTopOf (length piece.now.clips.now) es) }
{
    let clips = clips_of(alloc, piece.clips)?;
    let mut entries = Sequence::new(alloc);
    entries.push(solid(piece.colour, rect(0, 0, 5, 4)?, clips)?)?;
    Ok(entries)
}

/// A group of that solid and a small white one, of opacity 200, under the same clips.
fn group_of(alloc: Global, piece: &Piece<'_>) -> Result<Sequence<Entry>, Fail>
    ensures { IfOk result (λ es. IsTopOf (length piece.now.clips.now) es) }
{
    let push = Entry::Push {
        opacity: 200,
        mode: Mode::Normal,
        clips: clips_of(alloc, piece.clips)?,
    };
    let clips = clips_of(alloc, piece.clips)?;
    let first = solid(piece.colour, rect(0, 0, 5, 4)?, clips)?;
    let second = solid(WHITE, rect(2, 1, 4, 3)?, Sequence::new(alloc))?;
    let mut entries = Sequence::new(alloc);
    entries.push(push)?;
    entries.push(first)?;
    entries.push(second)?;
    entries.push(Entry::Pop)?;
    Ok(entries)
}

/// A piece as a top.
pub(crate) fn top_of(alloc: Global, piece: &Piece<'_>) -> Result<Top, Fail>
    ensures { IfOk result (λ t. IsTop t) }
{
    let entries = if piece.is_group {
        group_of(alloc, piece)?
    } else {
        primitive_of(alloc, piece)?
    };
    Ok(Top {
        scroll: home(piece.scroll),
        origin: origin(piece.scroll),
        homes: homes_of(alloc, piece.clips)?,
        entries,
    })
}

/// Pieces as tops, in order.
pub(crate) fn tops_of(alloc: Global, pieces: &[Piece<'_>]) -> Result<Sequence<Top>, Fail>
    ensures { IfOk result (λ ts. AreTops ts) }
{
    let mut tops = Sequence::new(alloc);
    for piece in pieces {
        tops.push(top_of(alloc, piece)?)?;
    }
    Ok(tops)
}

/// The slices of pieces in a view of six by five pixels.
pub(crate) fn slices_of(alloc: Global, pieces: &[Piece<'_>]) -> Result<Sequence<Slice>, Fail> {
    Ok(slices(alloc, tops_of(alloc, pieces)?, rect(0, 0, 6, 5)?)?)
}
