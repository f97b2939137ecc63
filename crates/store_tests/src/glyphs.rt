use crate::made::on_a_store;
use image_store::{Gens, Store, StoreError};

/// The generation of the mask of glyph 5 in a font, 0 where there is none.
fn generation(store: &Store, pipeline: u8, font: u16) -> u64 {
    match store.glyph(pipeline, font, 5) {
        Some(mask) => mask.generation(),
        None => 0,
    }
}

/// Adds masks of one pixel: of glyph 5 in font 1 of pipeline 0, in font 2 of pipeline 0, and in font 1 of pipeline 1.
fn add_three(store: &mut Store) -> Result<(), StoreError> {
    let mut gens = Gens::new();
    store.add_glyph(&mut gens, 0, 1, 5, 1, 1, &[10])?;
    store.add_glyph(&mut gens, 0, 2, 5, 1, 1, &[20])?;
    store.add_glyph(&mut gens, 1, 1, 5, 1, 1, &[30])
}

/// Whether glyph 4 of font 3 of pipeline 2 has the sides, the generation and the bytes that were added last.
fn is_added(store: &Store) -> bool {
    let Some(mask) = store.glyph(2, 3, 4) else {
        return false;
    };
    if mask.w() != 3 || mask.h() != 2 || mask.generation() != 7 {
        return false;
    }
    mask.row(1) == [4, 5, 6].as_slice() && mask.byte(2, 0) == 3
}

/// Whether a mask that is added has its bytes.
fn adds_a_mask(store: &mut Store) -> Result<bool, StoreError> {
    store.add_glyph(&mut Gens::at(6), 2, 3, 4, 3, 2, &[1, 2, 3, 4, 5, 6])?;
    Ok(is_added(store) && store.pixels() == 6)
}

#[test]
fn a_mask_has_its_bytes(rt: HostRuntime) {
    assert!(rt; on_a_store(rt.alloc(), adds_a_mask) == Ok(true));
}

/// Whether a font goes with its pixels, and the others stay.
fn deletes_a_font(store: &mut Store) -> Result<bool, StoreError> {
    add_three(store)?;
    let added = store.pixels() == 3;
    store.delete_font(0, 1);
    let deleted = generation(store, 0, 1) == 0;
    let left = generation(store, 0, 2) == 2 && generation(store, 1, 1) == 3;
    store.delete_font(0, 9);
    Ok(added && deleted && left && store.pixels() == 2)
}

#[test]
fn a_deleted_font_leaves_the_others(rt: HostRuntime) {
    assert!(rt; on_a_store(rt.alloc(), deletes_a_font) == Ok(true));
}
