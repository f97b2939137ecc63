use crate::made::on_a_store;
use image_store::{Gens, Store, StoreError};

/// A texel that is not premultiplied.
const BAD: [u8; 4] = [0, 4, 0, 3];

/// Adds one clear texel under pipeline 0 and key 7, with generation 1.
fn add_texel(store: &mut Store) -> Result<(), StoreError> {
    store.add_image(&mut Gens::new(), 0, 7, 1, 1, &[0; 4])
}

/// Whether the first of two bad texels is named, and nothing is added.
fn names_the_first(store: &mut Store) -> Result<bool, StoreError> {
    let mut gens = Gens::at(4);
    let pixels = [1, 1, 1, 1, 0, 0, 9, 8, 0, 0, 0, 0, 5, 4, 4, 4];
    let refused = store.add_image(&mut gens, 0, 1, 2, 2, &pixels) == Err(StoreError::BadPixels(1));
    Ok(refused && store.image(0, 1).is_none() && gens.last() == 4)
}

#[test]
fn the_first_bad_texel_is_named(rt: HostRuntime) {
    assert!(rt; on_a_store(rt.alloc(), names_the_first) == Ok(true));
}

/// Whether nothing is added after the counter's last value.
fn adds_no_more(store: &mut Store, gens: &mut Gens) -> bool {
    let image = store.add_image(gens, 0, 2, 1, 1, &BAD) == Err(StoreError::Limit);
    let mask = store.add_glyph(gens, 0, 2, 2, 1, 1, &[0]) == Err(StoreError::Limit);
    image && mask && store.image(0, 2).is_none() && store.glyph(0, 2, 2).is_none()
}

/// Whether the counter's last value is taken, and no other after it.
fn ends_the_counter(store: &mut Store) -> Result<bool, StoreError> {
    let mut gens = Gens::at(u64::MAX - 1);
    store.add_image(&mut gens, 0, 1, 1, 1, &[0; 4])?;
    let taken = gens.last() == u64::MAX;
    Ok(taken && adds_no_more(store, &mut gens) && gens.last() == u64::MAX)
}

#[test]
fn the_counter_has_an_end(rt: HostRuntime) {
    assert!(rt; on_a_store(rt.alloc(), ends_the_counter) == Ok(true));
}

/// Updates with a bad texel where a generation is the last: that generation, the key and the texel, and the refusal.
const UPDATES: [(u64, u32, u16, u16, StoreError); 5] = [
    (u64::MAX, 8, 1, 1, StoreError::UnknownImage),
    (u64::MAX, 7, 1, 1, StoreError::OutOfWidth),
    (u64::MAX, 7, 0, 1, StoreError::OutOfHeight),
    (u64::MAX, 7, 0, 0, StoreError::Limit),
    (1, 7, 0, 0, StoreError::BadPixels(0)),
];

/// Whether each is refused for its first fault, and changes nothing.
fn checks_in_order(store: &mut Store) -> Result<bool, StoreError> {
    add_texel(store)?;
    for (last, key, x, y, refusal) in UPDATES {
        let mut gens = Gens::at(last);
        let updated = store.update(&mut gens, 0, key, x, y, 1, 1, &BAD);
        if updated != Err(refusal) || gens.last() != last {
            return Ok(false);
        }
    }
    Ok(matches!(store.image(0, 7), Some(image) if image.generation() == 1))
}

#[test]
fn an_update_is_checked_in_order(rt: HostRuntime) {
    assert!(rt; on_a_store(rt.alloc(), checks_in_order) == Ok(true));
}

/// Whether an add and an update leave what was there where they run out of memory.
fn grows_or_stays(store: &mut Store) -> Result<bool, StoreError> {
    let mut gens = Gens::new();
    if store.add_image(&mut gens, 0, 7, 1, 1, &[9; 4]) == Err(StoreError::NoMemory) {
        return Ok(gens.last() == 0 && store.image(0, 7).is_none());
    }
    let last = gens.last();
    if store.update(&mut gens, 0, 7, 0, 0, 1, 1, &[8; 4]) == Err(StoreError::NoMemory) {
        return Ok(gens.last() == last && store.image(0, 7).is_some());
    }
    Ok(gens.last() == 2)
}

#[test]
fn without_memory_nothing_changes(rt: HostRuntime) {
    assert!(rt; on_a_store(rt.alloc(), grows_or_stays) == Ok(true));
}
