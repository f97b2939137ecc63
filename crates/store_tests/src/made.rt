//! A store for a check.

use image_store::{Store, StoreError};
use std::alloc::Global;

/// What a check answers on a new store.
pub fn on_a_store<F: FnOnce(&mut Store) -> Result<bool, StoreError>>(
    alloc: Global,
    check: F,
) -> Result<bool, StoreError>
    requires { F.IsAlwaysCallable check }
{
    let mut store = Store::new(alloc);
    check(&mut store)
}
