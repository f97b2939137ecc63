use crate::made::on_a_store;
use image_store::{Gens, Store, StoreError, generation_laws, image_laws, know_store, lookup_laws};

/// The generation of an image, 0 where there is none.
fn generation(store: &Store, pipeline: u8, key: u32) -> u64 {
    match store.image(pipeline, key) {
        Some(image) => image.generation(),
        None => 0,
    }
}

/// Whether the images under key 7 of the pipelines 0 and 1 have these generations.
fn are_at(store: &Store, first: u64, second: u64) -> bool {
    generation(store, 0, 7) == first && generation(store, 1, 7) == second
}

/// Adds two images of one texel, under key 7 of the pipelines 0 and 1.
fn add_two(store: &mut Store, gens: &mut Gens) -> Result<(), StoreError> {
    store.add_image(gens, 0, 7, 1, 1, &[0; 4])?;
    store.add_image(gens, 1, 7, 1, 1, &[0; 4])
}

/// Whether images that are absent can't be deleted.
fn refuses_the_absent(store: &mut Store) -> bool {
    let again = store.delete(0, 7) == Err(StoreError::UnknownImage);
    again && store.delete(1, 8) == Err(StoreError::UnknownImage)
}

/// Whether an image is deleted once, and that of the other pipeline stays.
fn deletes_one(store: &mut Store) -> Result<bool, StoreError> {
    add_two(store, &mut Gens::new())?;
    let added = are_at(store, 1, 2);
    store.delete(0, 7)?;
    let deleted = are_at(store, 0, 2);
    Ok(added && deleted && refuses_the_absent(store) && store.pixels() == 1)
}

#[test]
fn keys_of_two_pipelines_do_not_meet(rt: HostRuntime) {
    assert!(rt; on_a_store(rt.alloc(), deletes_one) == Ok(true));
}

/// Deletes an image, updates the other, and adds a third.
fn change(fork: &mut Store, gens: &mut Gens) -> Result<(), StoreError> {
    fork.delete(0, 7)?;
    fork.update(gens, 1, 7, 0, 0, 1, 1, &[5; 4])?;
    fork.add_image(gens, 1, 8, 2, 1, &[5; 8])
}

/// Whether neither of two stores sees what changes in the other.
fn go_their_own_way(
    store: &mut Store,
    fork: &mut Store,
    gens: &mut Gens,
) -> Result<bool, StoreError> {
    change(fork, gens)?;
    let changed = are_at(fork, 0, 3) && fork.pixels() == 3;
    let kept = are_at(store, 1, 2) && store.pixels() == 2;
    store.delete(1, 7)?;
    Ok(changed && kept && generation(store, 1, 7) == 0 && generation(fork, 1, 8) == 4)
}

/// Whether a store and its fork don't.
fn forks(store: &mut Store) -> Result<bool, StoreError> {
    let mut gens = Gens::new();
    add_two(store, &mut gens)?;
    let Ok(mut fork) = store.fork() else {
        return Err(StoreError::NoMemory);
    };
    go_their_own_way(store, &mut fork, &mut gens)
}

#[test]
fn a_fork_goes_its_own_way(rt: HostRuntime) {
    assert!(rt; on_a_store(rt.alloc(), forks) == Ok(true));
}

/// Whether an image takes the place of one, with its pixels and a generation of its own.
fn replaces(store: &mut Store) -> Result<bool, StoreError> {
    let mut gens = Gens::new();
    add_two(store, &mut gens)?;
    store.add_image(&mut gens, 0, 7, 3, 1, &[0; 12])?;
    Ok(generation(store, 0, 7) == 3 && store.pixels() == 4)
}

#[test]
fn an_image_is_replaced(rt: HostRuntime) {
    assert!(rt; on_a_store(rt.alloc(), replaces) == Ok(true));
}

/// The laws, and whether a new store is empty.
fn knows_laws(store: &mut Store) -> Result<bool, StoreError> {
    know_store(store);
    image_laws();
    lookup_laws();
    generation_laws();
    Ok(store.pixels() == 0)
}

#[test]
fn the_laws_are_at_hand(rt: HostRuntime) {
    assert!(rt; on_a_store(rt.alloc(), knows_laws) == Ok(true));
}

/// Whether an image is deleted from a fork and not from its store, where any other call may run out of memory.
fn deletes_without_memory(store: &Store, fork: &mut Store, gens: &mut Gens) -> bool {
    if fork.delete(0, 7).is_err() || generation(store, 0, 7) != 1 {
        return false;
    }
    let added = fork.add_image(gens, 0, 9, 1, 1, &[1; 4]).is_ok();
    generation(fork, 0, 7) == 0 && (generation(fork, 0, 9) != 0) == added
}

/// Whether it is, in a fork of a store of three images.
fn forks_without_memory(store: &mut Store) -> Result<bool, StoreError> {
    let mut gens = Gens::new();
    add_two(store, &mut gens)?;
    store.add_image(&mut gens, 0, 8, 1, 1, &[0; 4])?;
    let Ok(mut fork) = store.fork() else {
        return Err(StoreError::NoMemory);
    };
    Ok(deletes_without_memory(store, &mut fork, &mut gens))
}

#[test]
fn a_deletion_needs_no_memory(rt: HostRuntime) {
    let deleted = on_a_store(rt.alloc(), forks_without_memory);
    assert!(rt; deleted == Ok(true) || deleted == Err(StoreError::NoMemory));
}
