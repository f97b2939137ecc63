//! Clips that a slice shares, and what it shows.

use super::made::Shape::{Narrow, Outside, Round, Wide};
use super::made::{Clipped, HALF, Piece, rect, slices_of};
use picture_slices::Slice;
use std::process::Abort;
use std::test::Fail;

/// What a slice shows, from (x0, y0) to (x1, y1).
type Shown = (u8, u8, u8, u8);

/// The clips of a solid and of a group, both of the scroll frame 1; what their slice shows; how many clips it shares.
type Case = (&'static [Clipped], &'static [Clipped], Shown, usize);

const VIEW: Shown = (0, 0, 6, 5);

const WIDE: Shown = (0, 0, 4, 4);

const NARROW: Shown = (1, 0, 3, 3);

/// Rectangle clips of other homes are shared, up to the first that isn't.
const CASES: [Case; 8] = [
    (&[(Wide, 0)], &[(Wide, 0), (Round, 0)], WIDE, 1),
    (
        &[(Wide, 2), (Narrow, 0)],
        &[(Wide, 2), (Narrow, 0)],
        NARROW,
        2,
    ),
    (&[], &[(Wide, 0)], VIEW, 0),
    (&[(Round, 0), (Wide, 0)], &[(Round, 0), (Wide, 0)], VIEW, 0),
    (
        &[(Wide, 0), (Narrow, 1), (Wide, 0)],
        &[(Wide, 0), (Narrow, 1), (Wide, 0)],
        WIDE,
        1,
    ),
    (
        &[(Outside, 0), (Wide, 0)],
        &[(Outside, 0), (Wide, 0)],
        VIEW,
        0,
    ),
    (&[(Wide, 0)], &[(Wide, 2)], VIEW, 0),
    (&[(Wide, 0)], &[(Narrow, 0)], VIEW, 0),
];

/// A solid under these clips, and a group under those.
fn pair<'a>(clips: &'a [Clipped], others: &'a [Clipped]) -> [Piece<'a>; 2] {
    let first = Piece {
        scroll: 1,
        clips,
        colour: HALF,
        is_group: false,
    };
    let second = Piece {
        clips: others,
        is_group: true,
        ..first
    };
    [first, second]
}

/// Expects the entry at an index to have so many clips.
fn expect_clips(rt: &impl Abort, slice: &Slice, index: usize, count: usize) {
    let found = slice
        .entries
        .get(index)
        .map_or(usize::MAX, |e| e.clips().len());
    assert_eq!(rt; found, count, "clips of entry {index}");
}

/// Expects the slice of a case. The first entries of both lose the shared clips, the group's solid keeps all.
fn expect(rt: &(impl Abort + AllocGlobal), case: &Case) -> Result<(), Fail> {
    let (clips, others, (x0, y0, x1, y1), shared) = *case;
    let slices = slices_of(rt.alloc(), &pair(clips, others))?;
    let slice = slices.first().ok_or("no slice")?;
    assert_eq!(rt; slice.shown, rect(x0, y0, x1, y1)?);
    assert_eq!(rt; slice.entries.len(), 5);
    expect_clips(rt, slice, 0, clips.len().saturating_sub(shared));
    expect_clips(rt, slice, 1, others.len().saturating_sub(shared));
    expect_clips(rt, slice, 2, others.len());
    Ok(())
}

#[test]
fn rectangle_clips_of_other_homes_are_shared(rt: HostRuntime) -> Result<(), Fail> {
    for case in &CASES {
        expect(&rt, case)?;
    }
    Ok(())
}
