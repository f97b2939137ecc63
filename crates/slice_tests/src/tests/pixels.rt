//! Pictures of tops that a generator makes: the slices paint at each pixel what the tops do.

use super::drawn::{drawn, over};
use super::made::Shape::{Narrow, Outside, Round, Wide};
use super::made::{Clipped, Piece, WHITE, slices_of, tops_of};
use blend_rules::{Mode, Px};
use image_store::Store;
use picture_slices::Slice;
use primitives::Top;
use std::alloc::{AllocError, Global};
use std::process::Abort;
use std::test::Fail;
use wr_geom::Point;

/// How many pictures are compared.
const PICTURES: u64 = 100;

/// Numbers by a linear congruential generator.
#[derive(Drop)]
struct Draws {
    state: u64,
}

impl Draws {
    /// A number below a limit, 0 for the limit 0.
    fn below(&mut self, limit: u8) -> u8 {
        let next = self.state.wrapping_mul(6_364_136_223_846_793_005);
        self.state = next.wrapping_add(1_442_695_040_888_963_407);
        let drawn = (self.state >> 33) % u64::from(limit.max(1));
        u8::try_from(drawn).unwrap_or(0)
    }

    /// A premultiplied colour.
    fn colour(&mut self) -> Px {
        let a = self.below(255);
        Px {
            b: self.below(a),
            g: 0,
            r: self.below(a),
            a,
        }
    }

    /// Clips with which a top begins.
    fn clips(&mut self) -> &'static [Clipped] {
        match self.below(6) {
            0 => &[],
            1 => &[(Round, 0), (Wide, 0)],
            2 => &[(Wide, 0), (Round, 0)],
            3 => &[(Wide, 0), (Narrow, 1), (Outside, 0)],
            _ => &[(Wide, 0), (Narrow, 2)],
        }
    }
}

/// One to twelve pieces of up to four homes.
fn pieces(alloc: Global, seed: u64) -> Result<Vec<Piece<'static>>, AllocError> {
    let mut draws = Draws { state: seed };
    let mut pieces = Vec::new(alloc);
    for _ in 0..draws.below(12).saturating_add(1) {
        pieces.push(Piece {
            scroll: draws.below(4),
            clips: draws.clips(),
            colour: draws.colour(),
            is_group: draws.below(3) == 0,
        })?;
    }
    Ok(pieces)
}

/// The tops in slices over white, slice by slice.
fn of_tops(alloc: Global, tops: &[Top], store: &Store, at: Point) -> Result<Px, AllocError> {
    let (mut picture, mut slice) = (WHITE, Px::CLEAR);
    let (mut home, mut count) = (None, 0u8);
    for top in tops {
        if count == 0 || count < 8 && top.scroll != home {
            picture = over(Mode::Normal, slice, picture);
            (slice, home) = (Px::CLEAR, top.scroll);
            count = count.saturating_add(1);
        }
        slice = drawn(alloc, top.entries.as_slice(), store, at, slice)?;
    }
    Ok(over(Mode::Normal, slice, picture))
}

/// The slices over white.
fn of_slices(alloc: Global, slices: &[Slice], store: &Store, at: Point) -> Result<Px, AllocError> {
    let mut picture = WHITE;
    for slice in slices {
        if slice.shown.contains(at) {
            let here = Point {
                x: at.x.wrapping_sub(slice.origin.x),
                y: at.y.wrapping_sub(slice.origin.y),
            };
            let entries = slice.entries.as_slice();
            let colour = drawn(alloc, entries, store, here, Px::CLEAR)?;
            picture = over(Mode::Normal, colour, picture);
        }
    }
    Ok(picture)
}

/// Compares a pixel of both.
fn expect_same(
    rt: &(impl Abort + AllocGlobal),
    tops: &[Top],
    slices: &[Slice],
    store: &Store,
    at: Point,
) -> Result<(), Fail> {
    let want = of_tops(rt.alloc(), tops, store, at)?;
    let found = of_slices(rt.alloc(), slices, store, at)?;
    assert_eq!(rt; found, want);
    Ok(())
}

/// Compares each pixel of a picture of six by five pixels.
fn expect_picture(rt: &(impl Abort + AllocGlobal), seed: u64) -> Result<(), Fail> {
    let store = Store::new(rt.alloc());
    let pieces = pieces(rt.alloc(), seed)?;
    let tops = tops_of(rt.alloc(), &pieces)?;
    let slices = slices_of(rt.alloc(), &pieces)?;
    for pixel in 0..30u8 {
        let at = Point {
            x: i32::from(pixel % 6),
            y: i32::from(pixel / 6),
        };
        expect_same(rt, tops.as_slice(), slices.as_slice(), &store, at)?;
    }
    Ok(())
}

#[test]
fn slices_paint_what_the_tops_do(rt: HostRuntime) -> Result<(), Fail> {
    for seed in 0..PICTURES {
        expect_picture(&rt, seed)?;
    }
    Ok(())
}
