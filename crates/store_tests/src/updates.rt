use crate::made::on_a_store;
use blend_rules::{Plane, Px};
use image_store::{Gens, Store, StoreError};

/// Adds one clear image of 3 by 2 under pipeline 0 and key 7.
fn add_clear(store: &mut Store, gens: &mut Gens) -> Result<(), StoreError> {
    store.add_image(gens, 0, 7, 3, 2, &[0; 24])
}

/// Whether the alphas of the image are these, row by row.
fn has_alphas(store: &Store, rows: [[u8; 3]; 2]) -> bool {
    let Some(image) = store.image(0, 7) else {
        return false;
    };
    if image.h() != 2 {
        return false;
    }
    image.row(Plane::A, 0) == rows[0].as_slice() && image.row(Plane::A, 1) == rows[1].as_slice()
}

/// Writes one white texel into a clear image.
fn write_white(store: &mut Store, x: u16, y: u16) -> Result<(), StoreError> {
    let mut gens = Gens::new();
    add_clear(store, &mut gens)?;
    store.update(&mut gens, 0, 7, x, y, 1, 1, &[255; 4])
}

/// Texels at the corners, and the alphas of both rows after them.
const CORNERS: [(u16, u16, [[u8; 3]; 2]); 4] = [
    (0, 0, [[255, 0, 0], [0, 0, 0]]),
    (2, 0, [[0, 0, 255], [0, 0, 0]]),
    (0, 1, [[0, 0, 0], [255, 0, 0]]),
    (2, 1, [[0, 0, 0], [0, 0, 255]]),
];

/// Whether an update reaches each corner, and nothing else.
fn reaches_corners(store: &mut Store) -> Result<bool, StoreError> {
    for (x, y, rows) in CORNERS {
        write_white(store, x, y)?;
        if !has_alphas(store, rows) {
            return Ok(false);
        }
    }
    Ok(true)
}

#[test]
fn an_update_reaches_each_corner(rt: HostRuntime) {
    assert!(rt; on_a_store(rt.alloc(), reaches_corners) == Ok(true));
}

/// Texels beyond an edge, and the refusal of an update there.
const BEYOND: [(u16, u16, StoreError); 5] = [
    (3, 0, StoreError::OutOfWidth),
    (0, 2, StoreError::OutOfHeight),
    (3, 2, StoreError::OutOfWidth),
    (65535, 0, StoreError::OutOfWidth),
    (0, 65535, StoreError::OutOfHeight),
];

/// Whether each is refused.
fn refuses_beyond(store: &mut Store) -> Result<bool, StoreError> {
    for (x, y, refusal) in BEYOND {
        if write_white(store, x, y) != Err(refusal) {
            return Ok(false);
        }
    }
    Ok(true)
}

#[test]
fn one_beyond_an_edge_is_refused(rt: HostRuntime) {
    assert!(rt; on_a_store(rt.alloc(), refuses_beyond) == Ok(true));
}

/// Whether an update of the whole image makes it opaque, and counts once.
fn fills(store: &mut Store) -> Result<bool, StoreError> {
    let mut gens = Gens::new();
    add_clear(store, &mut gens)?;
    store.update(&mut gens, 0, 7, 0, 0, 3, 2, &[255; 24])?;
    let Some(image) = store.image(0, 7) else {
        return Ok(false);
    };
    Ok(image.opaque() && image.generation() == 2 && gens.last() == 2)
}

#[test]
fn an_update_fills_the_image(rt: HostRuntime) {
    assert!(rt; on_a_store(rt.alloc(), fills) == Ok(true));
}

fn grey(level: u8) -> Px {
    Px {
        b: level,
        g: level,
        r: level,
        a: level,
    }
}

/// Rows of a column of texels, and their greys after an update of the rows 63 and 64.
const GREYS: [(u16, u8); 5] = [(62, 7), (63, 1), (64, 2), (65, 7), (129, 7)];

/// Whether an image of one column has these greys.
fn has_greys(store: &Store) -> bool {
    let Some(image) = store.image(0, 1) else {
        return false;
    };
    if image.w() != 1 || image.h() != 130 {
        return false;
    }
    for (row, level) in GREYS {
        if row >= 130 || image.texel(0, row) != grey(level) {
            return false;
        }
    }
    true
}

/// Whether an update over two bands reaches its texels alone.
fn reaches_over_bands(store: &mut Store) -> Result<bool, StoreError> {
    let mut gens = Gens::new();
    store.add_image(&mut gens, 0, 1, 1, 130, &[7; 520])?;
    store.update(&mut gens, 0, 1, 0, 63, 1, 2, &[1, 1, 1, 1, 2, 2, 2, 2])?;
    Ok(has_greys(store))
}

#[test]
fn an_update_reaches_over_bands(rt: HostRuntime) {
    assert!(rt; on_a_store(rt.alloc(), reaches_over_bands) == Ok(true));
}
