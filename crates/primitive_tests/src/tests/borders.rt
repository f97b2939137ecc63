//! Sides and corners of borders.

use super::made::{BLUE, RED, four_of, grey, on_a_store, opaque};
use blend_rules::Px;
use image_store::Store;
use primitives::{BorderColours, Kind, border_colour};
use std::alloc::Global;
use wr_geom::{Radii, Rect, Widths};

const WIDTHS: Widths = Widths {
    top: 2,
    right: 1,
    bottom: 1,
    left: 1,
};

/// Red, white, blue and grey from the top on.
fn sides(widths: Widths, radii: Radii) -> Kind {
    Kind::Border {
        widths,
        top: RED,
        right: grey(255),
        bottom: BLUE,
        left: grey(9),
        radii,
    }
}

/// Row y of such a border in the rectangle from (0, 0) to (4, 4).
fn row(alloc: Global, radii: Radii, store: &Store, y: i8) -> Option<[Px; 4]> {
    four_of(
        alloc,
        sides(WIDTHS, radii),
        Rect::new(0, 0, 4, 4)?,
        store,
        0,
        y,
    )
}

/// Whether the pixels of its upper half have their side, and those of its lower half.
fn has_sides(alloc: Global, store: &mut Store) -> Option<bool> {
    let upper = row(alloc, Radii::SQUARE, store, 0)? == [RED; 4]
        && row(alloc, Radii::SQUARE, store, 1)? == [grey(9), RED, RED, grey(255)];
    let within = [grey(9), Px::CLEAR, Px::CLEAR, grey(255)];
    let lower = row(alloc, Radii::SQUARE, store, 2)? == within;
    Some(upper && lower && row(alloc, Radii::SQUARE, store, 3)? == [BLUE; 4])
}

#[test]
fn pixels_have_their_side(rt: HostRuntime) {
    assert!(rt; on_a_store(rt.alloc(), has_sides));
}

const ROUND: Radii = Radii {
    tl: (2, 2),
    tr: (0, 0),
    br: (0, 0),
    bl: (0, 0),
};

/// Red of this alpha.
fn red(alpha: u8) -> Px {
    Px {
        r: alpha,
        a: alpha,
        ..Px::CLEAR
    }
}

/// Whether a round corner covers a part: 6 and 15 of 16 samples lie in the outer shape, and none in the inner one.
fn covers_a_part(alloc: Global, store: &mut Store) -> Option<bool> {
    let first = row(alloc, ROUND, store, 0)? == [red(96), red(239), RED, RED];
    let opaque = opaque(alloc, sides(WIDTHS, ROUND), Rect::new(0, 0, 4, 4)?, store)?;
    Some(first && !opaque)
}

#[test]
fn a_round_corner_covers_a_part(rt: HostRuntime) {
    assert!(rt; on_a_store(rt.alloc(), covers_a_part));
}

/// Whether widths and radii that are longer than a side don't fit.
fn refuses_long_sides() -> Option<bool> {
    let place = Rect::new(0, 0, 4, 4)?;
    let radii = Radii {
        tl: (3, 1),
        tr: (2, 1),
        ..Radii::SQUARE
    };
    let wide = sides(Widths { left: 4, ..WIDTHS }, Radii::SQUARE).fits(place);
    Some(!wide && !sides(WIDTHS, radii).fits(place))
}

#[test]
fn widths_and_radii_must_fit(rt: HostRuntime) {
    assert!(rt; refuses_long_sides() == Some(true));
}

const COLOURS: BorderColours = BorderColours {
    top: RED,
    right: RED,
    bottom: RED,
    left: BLUE,
};

/// Whether a pixel of the left side has its colour.
fn is_blue() -> Option<bool> {
    let place = Rect::new(0, 0, 4, 4)?;
    Some(border_colour(place, WIDTHS, COLOURS, Radii::SQUARE, 0, 1) == BLUE)
}

#[test]
fn a_pixel_of_a_border_has_a_colour(rt: HostRuntime) {
    assert!(rt; is_blue() == Some(true));
}
