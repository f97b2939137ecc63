//! Runs of one home, their slices and keys.

use super::made::{HALF, Piece, home, origin, slices_of};
use picture_slices::{Slice, slice_laws, value_laws};
use primitives::Top;
use slice_rules::{key_laws, mapping_laws, run_laws, same_home, shared_laws};
use std::alloc::{AllocError, Global};
use std::process::Abort;
use std::test::Fail;
use wr_geom::SliceKey;

/// A slice's scroll frame, 0 for none, its number, and how many entries it has.
type Wanted = (u8, u8, usize);

/// The scroll frames of solids, 0 for none, and their slices.
const CASES: [(&[u8], &[Wanted]); 6] = [
    (&[], &[]),
    (&[0, 0, 3, 3, 3], &[(0, 0, 2), (3, 0, 3)]),
    (&[1, 2, 1], &[(1, 0, 1), (2, 0, 1), (1, 1, 1)]),
    (&[1, 2, 1, 2, 0, 1, 0, 9], &EIGHT),
    (&[0, 1, 2, 3, 4, 5, 6, 7, 8, 8], &NINE),
    (&[0, 1, 2, 3, 4, 5, 6, 0, 0, 8], &NINE),
];

/// Eight runs, each a slice.
const EIGHT: [Wanted; 8] = [
    (1, 0, 1),
    (2, 0, 1),
    (1, 1, 1),
    (2, 1, 1),
    (0, 0, 1),
    (1, 2, 1),
    (0, 1, 1),
    (9, 0, 1),
];

/// More runs: the rest is one slice without a home.
const NINE: [Wanted; 8] = [
    (0, 0, 1),
    (1, 0, 1),
    (2, 0, 1),
    (3, 0, 1),
    (4, 0, 1),
    (5, 0, 1),
    (6, 0, 1),
    (0, 1, 3),
];

/// A solid of each of these scroll frames.
fn pieces(alloc: Global, scrolls: &[u8]) -> Result<Vec<Piece<'static>>, AllocError> {
    let mut pieces = Vec::new(alloc);
    for scroll in scrolls {
        pieces.push(Piece {
            scroll: *scroll,
            clips: &[],
            colour: HALF,
            is_group: false,
        })?;
    }
    Ok(pieces)
}

/// Expects a slice of these.
fn expect_slice(rt: &impl Abort, slice: &Slice, wanted: Wanted) {
    let (scroll, nth, count) = wanted;
    let scroll_home = home(scroll);
    let key = SliceKey {
        scroll: scroll_home,
        nth,
    };
    assert_eq!(rt; slice.key, key);
    assert_eq!(rt; slice.origin, origin(scroll));
    assert_eq!(rt; slice.entries.len(), count);
}

/// Expects these slices of solids.
fn expect(rt: &(impl Abort + AllocGlobal), scrolls: &[u8], wanted: &[Wanted]) -> Result<(), Fail> {
    let slices = slices_of(rt.alloc(), pieces(rt.alloc(), scrolls)?.as_slice())?;
    assert_eq!(rt; slices.len(), wanted.len());
    for (slice, wanted) in slices.as_slice().iter().zip(wanted) {
        expect_slice(rt, slice, *wanted);
    }
    Ok(())
}

#[test]
fn tops_are_divided_into_slices(rt: HostRuntime) -> Result<(), Fail> {
    for (scrolls, wanted) in &CASES {
        expect(&rt, scrolls, wanted)?;
    }
    Ok(())
}

#[test]
fn homes_are_the_same_by_both_numbers(rt: HostRuntime) -> Result<(), Fail> {
    let home = Some((1, 2));
    assert!(rt; same_home(None, None) && same_home(home, home));
    assert!(rt; !same_home(home, None) && !same_home(None, home));
    assert!(rt; !same_home(home, Some((1, 3))) && !same_home(home, Some((0, 2))));
    Ok(())
}

#[test]
fn laws_hold_of_tops(rt: HostRuntime) -> Result<(), Fail> {
    run_laws::<Top>();
    key_laws::<Top>();
    shared_laws::<Top>();
    mapping_laws::<Top, Slice>();
    slice_laws();
    value_laws();
    assert!(rt; same_home(None, None));
    Ok(())
}
