use crate::made::on_a_store;
use blend_rules::{Plane, Px};
use image_store::{Gens, Store, StoreError};

const TEXEL: Px = Px {
    b: 9,
    g: 10,
    r: 11,
    a: 12,
};

/// Whether image 9 of pipeline 3 has the texels of the bytes from 1 to 16.
fn has_its_texels(store: &Store) -> bool {
    let Some(image) = store.image(3, 9) else {
        return false;
    };
    if image.w() != 2 || image.h() != 2 || image.generation() != 1 || image.opaque() {
        return false;
    }
    let green = image.row(Plane::G, 0) == [2, 6].as_slice();
    green && image.row(Plane::A, 1) == [12, 16].as_slice() && image.texel(0, 1) == TEXEL
}

/// Whether an image that is added has its texels.
fn adds_an_image(store: &mut Store) -> Result<bool, StoreError> {
    let pixels = [1, 2, 3, 4, 5, 6, 7, 8, 9, 10, 11, 12, 13, 14, 15, 16];
    store.add_image(&mut Gens::new(), 3, 9, 2, 2, &pixels)?;
    Ok(has_its_texels(store))
}

#[test]
fn an_image_has_its_texels(rt: HostRuntime) {
    assert!(rt; on_a_store(rt.alloc(), adds_an_image) == Ok(true));
}

/// Adds two images of two texels: under key 1 one with an alpha of 254, and under key 2 one without.
fn add_two(store: &mut Store, gens: &mut Gens) -> Result<(), StoreError> {
    store.add_image(gens, 0, 1, 2, 1, &[0, 0, 0, 255, 0, 0, 0, 254])?;
    store.add_image(gens, 0, 2, 2, 1, &[0, 0, 0, 255, 9, 255, 0, 255])
}

/// Takes that alpha away, and puts it into the other image.
fn swap(store: &mut Store, gens: &mut Gens) -> Result<(), StoreError> {
    store.update(gens, 0, 1, 1, 0, 1, 1, &[0, 0, 0, 255])?;
    store.update(gens, 0, 2, 0, 0, 1, 1, &[0, 0, 0, 254])
}

/// Whether an image is there, and is opaque or not.
fn is_opaque(store: &Store, key: u32) -> Option<bool> {
    match store.image(0, key) {
        Some(image) => Some(image.opaque()),
        None => None,
    }
}

/// Whether the image with an alpha of 254 alone is not opaque.
fn tells_opaque_images(store: &mut Store) -> Result<bool, StoreError> {
    let mut gens = Gens::new();
    add_two(store, &mut gens)?;
    let added = is_opaque(store, 1) == Some(false) && is_opaque(store, 2) == Some(true);
    swap(store, &mut gens)?;
    Ok(added && is_opaque(store, 1) == Some(true) && is_opaque(store, 2) == Some(false))
}

#[test]
fn an_alpha_of_254_is_not_opaque(rt: HostRuntime) {
    assert!(rt; on_a_store(rt.alloc(), tells_opaque_images) == Ok(true));
}
