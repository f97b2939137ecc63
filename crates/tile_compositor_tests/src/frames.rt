//! Frames of black tiles over grey, compared at single pixels with greys that were worked out by hand.
//!
//! Slice 0 has one tile in column 0, with the alpha 125. Slice 1 has one in column 0, with the alpha 128, and an opaque one
//! in column 1. All are of row 0. Over the grey 254 the first leaves 129, the second 127, and the second over the first 64.
//! By rounding the first over the second would leave 65, so that the order shows.

ghost use Rattle.std.specs.Prelude.{◌≡◌, None, IfOk};
ghost use Rattle.tile_grid.specs.Grids.{HasTileRoom};
ghost use Rattle.tile_compositor.specs.Composition.{CanAllBeShown};
ghost use Rattle.black_tiles.specs.Black.{AreBlack, FitFrame};

use black_tiles::{keep_black, slice_key, two_slices};
use blend_rules::Px;
use span_kernels::Planes;
use std::alloc::Global;
use std::test::Fail;
use tile_compositor::{Frame, Placed, compose};
use tile_grid::TileSides;
use tile_store::TileStore;
use wr_geom::{NoMemory, Rect};

/// Tiles of 64 by 64 pixels.
const SIDES: TileSides = TileSides {
    width: 64,
    height: 64,
};

/// The side of each frame in pixels.
const FRAME: u16 = 100;

/// The colour behind all slices.
const CLEAR: Px = Px {
    b: 254,
    g: 254,
    r: 254,
    a: 255,
};

/// A rectangle near the point (0, 0).
fn rect(x: u8, y: u8, width: u8, height: u8) -> Rect
    ensures { HasTileRoom result }
{
    let (left, top) = (i32::from(x), i32::from(y));
    let (right, bottom) = (left + i32::from(width), top + i32::from(height));
    Rect::new(left, top, right, bottom).unwrap()
}

/// The whole frame.
fn whole() -> Rect {
    rect(0, 0, 100, 100)
}

/// Slices 0 and 1 in the frame, each with its origin and the part in which it shows.
fn slices(origins: ((i16, i16), (i16, i16)), parts: (Rect, Rect)) -> [Placed; 2]
    ensures { FitFrame FRAME FRAME result }
{
    two_slices((FRAME, FRAME), origins, parts)
}

/// Keeps the three tiles of both slices.
fn keep_tiles(store: &mut TileStore<u32>, alloc: Global) -> Result<(), NoMemory>
    requires closed { store.old.window ≡ None }
    requires black { AreBlack SIDES store.old.tiles }
    ensures black { AreBlack SIDES store.new.tiles }
    ensures shown { IfOk result (λ _. CanAllBeShown SIDES store.new.tiles) }
{
    keep_black(store, alloc, SIDES, slice_key(0), rect(0, 0, 64, 64), 125)?;
    keep_black(store, alloc, SIDES, slice_key(1), rect(0, 0, 64, 64), 128)?;
    keep_black(store, alloc, SIDES, slice_key(1), rect(64, 0, 64, 64), 255)
}

/// Composes a frame from the tiles of both slices.
fn compose_on(frame: &mut Frame, alloc: Global, placed: &[Placed]) -> Result<(), NoMemory>
    requires width { frame.old.planes.width ≡ FRAME }
    requires height { frame.old.planes.height ≡ FRAME }
    requires placed { FitFrame FRAME FRAME placed.now }
{
    let mut store = TileStore::new(alloc)?;
    keep_tiles(&mut store, alloc)?;
    compose(&store, placed, SIDES.width, SIDES.height, CLEAR, frame);
    Ok(())
}

/// A frame that is composed so.
fn composed(alloc: Global, placed: &[Placed]) -> Result<Frame, NoMemory>
    requires { FitFrame FRAME FRAME placed.now }
{
    let mut frame = Frame::new(Planes::new(alloc, FRAME, FRAME)?);
    compose_on(&mut frame, alloc, placed)?;
    Ok(frame)
}

/// The grey at a pixel of a frame; None where it isn't in the frame, or isn't opaque and grey.
fn grey_at(frame: &Frame, x: u16, y: u16) -> Option<u8> {
    let planes = frame.planes();
    if x >= planes.width() || y >= planes.height() {
        return None;
    }
    let colour = planes.pixel(x, y);
    if colour.a != 255 || colour.b != colour.g || colour.g != colour.r {
        return None;
    }
    Some(colour.b)
}

/// A pixel, and the grey that a frame is to have there.
type Want = (u16, u16, u8);

/// The first pixel at which a frame isn't as wanted, with the grey that it has there.
fn first_other(frame: &Frame, wants: &[Want]) -> Option<(u16, u16, Option<u8>)> {
    for &(x, y, want) in wants {
        let grey = grey_at(frame, x, y);
        if grey != Some(want) {
            return Some((x, y, grey));
        }
    }
    None
}

#[test]
fn a_tile_that_is_not_kept_is_clear(rt: HostRuntime) -> Result<(), Fail> {
    let placed = slices(((0, 0), (0, 0)), (whole(), rect(0, 0, 0, 0)));
    let frame = composed(rt.alloc(), &placed)?;
    let wants = [
        (0, 0, 129),
        (63, 63, 129),
        (64, 63, 254),
        (63, 64, 254),
        (99, 99, 254),
    ];
    assert_eq!(rt; first_other(&frame, &wants), None);
    Ok(())
}

#[test]
fn the_second_slice_lies_over_the_first(rt: HostRuntime) -> Result<(), Fail> {
    let placed = slices(((0, 0), (-30, -10)), (whole(), whole()));
    let frame = composed(rt.alloc(), &placed)?;
    let wants = [
        (0, 0, 64),
        (33, 53, 64),
        (34, 53, 0),
        (33, 54, 129),
        (97, 53, 0),
        (98, 53, 254),
        (97, 54, 254),
    ];
    assert_eq!(rt; first_other(&frame, &wants), None);
    Ok(())
}

#[test]
fn a_slice_is_clear_outside_of_what_it_shows(rt: HostRuntime) -> Result<(), Fail> {
    let placed = slices(
        ((0, 0), (30, 0)),
        (rect(10, 0, 90, 60), rect(40, 5, 20, 10)),
    );
    let frame = composed(rt.alloc(), &placed)?;
    let wants = [
        (9, 5, 254),
        (10, 59, 129),
        (10, 60, 254),
        (39, 5, 129),
        (40, 5, 64),
        (59, 14, 64),
        (60, 14, 129),
        (59, 15, 129),
        (59, 4, 129),
    ];
    assert_eq!(rt; first_other(&frame, &wants), None);
    Ok(())
}

#[test]
fn a_frame_has_the_count_of_its_store(rt: HostRuntime) -> Result<(), Fail> {
    assert_eq!(rt; Frame::new(Planes::empty(rt.alloc())).opened(), None);
    let placed = slices(((0, 0), (0, 0)), (whole(), whole()));
    let frame = composed(rt.alloc(), &placed)?;
    assert_eq!(rt; frame.opened(), Some(3 * 64 * 64));
    Ok(())
}
