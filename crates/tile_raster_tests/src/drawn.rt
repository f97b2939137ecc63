//! Lists of a few entries, drawn and painted.

use crate::fits::can_draw;
use crate::made::{Entries, colour, mode, rect, stored};
use crate::painted::are_painted;
use blend_rules::{Mode, Px};
use image_store::{Store, StoreError};
use primitives::{Entry, Kind};
use span_kernels::Planes;
use std::alloc::{AllocError, Global};
use std::test::Fail;
use tile_raster::{Scratch, draw};
use wr_geom::{NoMemory, Point};

const CORNER: Point = Point { x: 0, y: 0 };

/// Whether entries are drawn as they are painted, in planes of this width and three rows.
fn is_drawn(alloc: Global, width: u16, entries: &[Entry]) -> Result<bool, NoMemory> {
    let store = Store::new(alloc);
    let mut scratch = Scratch::new(alloc, width)?;
    let mut planes = Planes::new(alloc, width, 3)?;
    if !can_draw(entries) {
        return Ok(false);
    }
    draw(entries, &store, CORNER, &mut planes, &mut scratch);
    Ok(are_painted(alloc, entries, &store, CORNER, &planes)?)
}

/// A solid for each group, in so many groups of every mode in each other.
fn nested(alloc: Global, depth: u8) -> Result<Entries, AllocError> {
    let mut entries = Entries::new(alloc);
    for n in 0..depth {
        entries.primitive(Kind::Solid(colour(n, 90, 255 - n, 200)), rect(0, 0, 3, 2))?;
        entries.push(255 - n, mode(n % 9))?;
        entries.primitive(Kind::Solid(colour(200, n, n, 255)), rect(1, 0, 2, 3))?;
    }
    for _ in 0..depth {
        entries.pop()?;
    }
    Ok(entries)
}

#[test]
fn groups_are_drawn_64_deep_and_no_deeper(rt: HostRuntime) -> Result<(), Fail> {
    let deep = nested(rt.alloc(), 64)?;
    assert!(rt; is_drawn(rt.alloc(), 3, deep.all.as_slice())?);
    let deeper = nested(rt.alloc(), 65)?;
    assert!(rt; !can_draw(deeper.all.as_slice()));
    Ok(())
}

/// One that begins left of the planes and one that ends right of them, both under a circle, and one in the last column.
fn beyond_edges(alloc: Global, last: i8) -> Result<Entries, AllocError> {
    let mut entries = Entries::new(alloc);
    entries.primitive(Kind::Solid(colour(9, 9, 9, 255)), rect(-5, 0, 9, 2))?;
    entries.clip(rect(0, -2, 8, 8), 4, false)?;
    entries.primitive(Kind::Solid(colour(0, 250, 0, 255)), rect(-3, -1, 100, 3))?;
    entries.push(128, Mode::Difference)?;
    entries.primitive(Kind::Solid(colour(70, 0, 0, 90)), rect(2, 1, 120, 9))?;
    entries.pop()?;
    entries.primitive(Kind::Solid(colour(1, 2, 3, 255)), rect(last, 0, 9, 9))?;
    Ok(entries)
}

#[test]
fn rows_of_each_width_are_drawn_to_their_ends(rt: HostRuntime) -> Result<(), Fail> {
    for (width, last) in [(1, 0), (2, 1), (15, 14), (16, 15), (17, 16), (33, 32)] {
        let entries = beyond_edges(rt.alloc(), last)?;
        assert!(rt; is_drawn(rt.alloc(), width, entries.all.as_slice())?);
    }
    Ok(())
}

/// What one pixel of a list is drawn as.
fn pixel_of(alloc: Global, entries: &[Entry]) -> Result<Option<Px>, NoMemory> {
    let store = Store::new(alloc);
    let mut scratch = Scratch::new(alloc, 1)?;
    let mut planes = Planes::new(alloc, 1, 1)?;
    if !can_draw(entries) {
        return Ok(None);
    }
    draw(entries, &store, CORNER, &mut planes, &mut scratch);
    Ok(Some(planes.pixel(0, 0)))
}

#[test]
fn an_opaque_primitive_hides_what_is_before_it_alone(rt: HostRuntime) -> Result<(), Fail> {
    let mut entries = Entries::new(rt.alloc());
    entries.primitive(Kind::Solid(colour(99, 0, 0, 100)), rect(0, 0, 1, 1))?;
    entries.primitive(Kind::Solid(colour(0, 0, 255, 255)), rect(0, 0, 1, 1))?;
    assert_eq!(rt;
        pixel_of(rt.alloc(), entries.all.as_slice())?,
        Some(colour(0, 0, 255, 255))
    );
    entries.primitive(Kind::Solid(colour(100, 100, 100, 100)), rect(0, 0, 1, 1))?;
    assert_eq!(rt;
        pixel_of(rt.alloc(), entries.all.as_slice())?,
        Some(colour(100, 100, 255, 255))
    );
    Ok(())
}
