//! Which pipelines a frame lists.

use super::files::{begun, push_transaction, push_transaction_of};
use super::replayed;
use std::test::Fail;

/// The operation that sets a list of one Iframe, of pipeline 3, with epoch 5.
const SHOWS_3: [u8; 32] = [
    1, 5, 0, 0, 0, 23, 0, 0, 0, 12, 0, 0, 255, 255, 0, 0, 0, 0, 0, 0, 0, 0, 1, 0, 0, 0, 1, 0, 0, 0,
    3, 0,
];

/// The operation that sets an empty list, with epoch 9.
const EMPTY: [u8; 10] = [1, 9, 0, 0, 0, 1, 0, 0, 0, 0];

/// The answers to lists of pipelines 0 and 5, a frame, one with a list of pipeline 3, and one without
/// the root's.
const ANSWERS: [u8; 52] = [
    87, 82, 70, 49, 65, 65, 70, 1, 0, 1, 0, 1, 0, 5, 0, 0, 0, 0, 0, 0, 0, 70, 1, 0, 1, 0, 2, 0, 5,
    0, 0, 0, 3, 9, 0, 0, 0, 0, 0, 0, 0, 70, 1, 0, 1, 0, 0, 0, 0, 0, 0, 90,
];

#[test]
fn pipelines_that_iframes_reach(rt: HostRuntime) -> Result<(), Fail> {
    let mut file = begun(rt.alloc())?;
    push_transaction(&mut file, false, &[&SHOWS_3])?;
    push_transaction_of(5, &mut file, false, &[&EMPTY])?;
    push_transaction(&mut file, true, &[])?;
    push_transaction_of(3, &mut file, true, &[&EMPTY])?;
    push_transaction(&mut file, true, &[&[2]])?;
    file.push(b'Z')?;
    let ran = replayed(&rt, &file)?;
    assert_eq!(rt; ran.out.as_slice(), ANSWERS.as_slice());
    Ok(())
}
