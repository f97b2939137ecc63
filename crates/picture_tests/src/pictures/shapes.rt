//! Clips and borders: what is covered, and how far.

use super::colours::{BLACK, BLUE, GREEN, RED, WHITE, grey};
use super::expect;
use super::operations::{list, view};
use super::parts::Part::{Border, Chain, RoundClip, Solid};
use super::parts::{INSIDE, NONE, OUTSIDE, ROOT};
use super::transactions::Answer::Frame;
use super::transactions::shown;
use std::process::Abort;
use std::test::Fail;

#[test]
fn a_rounded_clip_covers_by_samples(rt: HostRuntime) -> Result<(), Fail> {
    let parts = [
        RoundClip(ROOT, INSIDE, [0, 0, 4, 4], [2; 8]),
        Chain(NONE, &[0]),
        Solid(ROOT, 0, [0, 0, 4, 4], WHITE),
    ];
    let (a, b, c) = (grey(96), grey(239), WHITE);
    let pixels = [a, b, b, a, b, c, c, b, b, c, c, b, a, b, b, a];
    let list = list(rt.alloc(), 1, &parts)?;
    let frame = shown(rt.alloc(), &[&view([4, 4], BLACK), &list])?;
    expect(&rt, &[&frame], &[Frame([4, 4], &[(0, 1)], &pixels)])
}

/// A white pixel under a chain, over black: its grey. The chains are: inside, outside, both, both
/// the other way round, and the outside after a parent that has the inside.
fn expect_grey(rt: &(impl Abort + AllocGlobal), chain: u16, level: u8) -> Result<(), Fail> {
    let radii = [3, 1, 0, 0, 0, 0, 0, 0];
    let parts = [
        RoundClip(ROOT, INSIDE, [0, 0, 6, 2], radii),
        RoundClip(ROOT, OUTSIDE, [0, 0, 6, 2], radii),
        Chain(NONE, &[0]),
        Chain(NONE, &[1]),
        Chain(NONE, &[0, 1]),
        Chain(NONE, &[1, 0]),
        Chain(0, &[1]),
        Solid(ROOT, chain, [0, 0, 1, 1], WHITE),
    ];
    let list = list(rt.alloc(), 1, &parts)?;
    let frame = shown(rt.alloc(), &[&view([1, 1], BLACK), &list])?;
    expect(rt, &[&frame], &[Frame([1, 1], &[(0, 1)], &[grey(level)])])
}

#[test]
fn clips_multiply_from_the_outermost(rt: HostRuntime) -> Result<(), Fail> {
    expect_grey(&rt, 0, 128)?;
    expect_grey(&rt, 1, 127)?;
    expect_grey(&rt, 2, 64)?;
    expect_grey(&rt, 3, 63)?;
    expect_grey(&rt, 4, 64)
}

#[test]
fn a_side_of_a_border_ends_at_the_mitre(rt: HostRuntime) -> Result<(), Fail> {
    let (t, r, b, l, n) = (RED, GREEN, BLUE, WHITE, BLACK);
    let parts = [Border(ROOT, NONE, [0, 0, 4, 4], [2, 1, 1, 1], [t, r, b, l], [0; 8])];
    let pixels = [t, t, t, t, l, t, t, r, l, n, n, r, b, b, b, b];
    let list = list(rt.alloc(), 1, &parts)?;
    let frame = shown(rt.alloc(), &[&view([4, 4], BLACK), &list])?;
    expect(&rt, &[&frame], &[Frame([4, 4], &[(0, 1)], &pixels)])
}

#[test]
fn an_empty_list_shows_the_colour_behind_all(rt: HostRuntime) -> Result<(), Fail> {
    let behind = [1, 2, 3, 4];
    let list = list(rt.alloc(), 1, &[])?;
    let frame = shown(rt.alloc(), &[&view([2, 1], behind), &list])?;
    expect(
        &rt,
        &[&frame],
        &[Frame([2, 1], &[(0, 1)], &[behind, behind])],
    )
}
