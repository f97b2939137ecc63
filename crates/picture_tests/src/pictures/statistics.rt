//! What `replay --stats` tells of frames: how many tiles are kept after each, and how many of their pixels it drew.

use super::answered_by;
use super::colours::{GREEN, RED, WHITE};
use super::frames::statistics_at;
use super::operations::{list, opacity, scroll, tiles, view};
use super::parts::Part::{Frame, Pop, Push, Solid};
use super::parts::{NONE, ROOT};
use super::transactions::{file_of, sent, shown};
use std::process::Abort;
use std::test::Fail;

/// Replays transactions that all ask for a frame, and compares what is told of the frames.
fn expect_statistics(
    rt: &(impl Abort + AllocGlobal),
    transactions: &[&[u8]],
    want: &[(u32, u64)],
) -> Result<(), Fail> {
    let input = file_of(rt.alloc(), transactions)?;
    let told = answered_by(rt, &["replay", "--stats"], input, 8_000_000)?;
    for (number, frame) in want.iter().enumerate() {
        let found = statistics_at(&told, number).ok_or("statistics")?;
        assert_eq!(rt; found, *frame, "frame {number}");
    }
    Ok(())
}

/// Tiles of 64 by 64 pixels, and room for all.
fn small_tiles() -> [u8; 9] {
    tiles(64, 255)
}

#[test]
fn an_empty_list_keeps_no_tile(rt: HostRuntime) -> Result<(), Fail> {
    let empty = list(rt.alloc(), 1, &[])?;
    let first = shown(rt.alloc(), &[&view([2, 1], [1, 2, 3, 4]), &empty])?;
    let input = file_of(rt.alloc(), &[&first])?;
    let told = answered_by(&rt, &["replay", "--stats"], input, 100)?;
    let want = [
        87, 82, 70, 49, 70, 2, 0, 1, 0, 1, 0, 1, 0, 0, 0, 1, 2, 3, 4, 1, 2, 3, 4, 83, 0, 0, 0, 0,
        0, 0, 0, 0, 0, 0, 0, 0, 90,
    ];
    assert_eq!(rt; told.as_slice(), want.as_slice());
    Ok(())
}

#[test]
fn only_frames_have_statistics(rt: HostRuntime) -> Result<(), Fail> {
    let accepted = sent(rt.alloc(), &[&view([2, 1], WHITE)])?;
    let refused = sent(rt.alloc(), &[&view([0, 1], WHITE)])?;
    let input = file_of(rt.alloc(), &[&accepted, &refused])?;
    let plain = answered_by(
        &rt,
        &["replay"],
        file_of(rt.alloc(), &[&accepted, &refused])?,
        100,
    )?;
    let told = answered_by(&rt, &["replay", "--stats"], input, 100)?;
    assert_eq!(rt; told, plain);
    Ok(())
}

#[test]
fn a_solid_moves_and_stands_still(rt: HostRuntime) -> Result<(), Fail> {
    let left = list(rt.alloc(), 1, &[Solid(ROOT, NONE, [0, 0, 4, 4], RED)])?;
    let right = list(rt.alloc(), 2, &[Solid(ROOT, NONE, [8, 0, 12, 4], RED)])?;
    let first = shown(rt.alloc(), &[&view([64, 64], WHITE), &small_tiles(), &left])?;
    let second = shown(rt.alloc(), &[&right])?;
    expect_statistics(
        &rt,
        &[&first, &second, &second],
        &[(1, 4096), (1, 48), (1, 0)],
    )
}

#[test]
fn a_page_scrolls_there_and_back(rt: HostRuntime) -> Result<(), Fail> {
    let page = [
        Frame(ROOT, 1, [64, 64], [64, 256]),
        Solid(1, NONE, [0, 0, 64, 256], RED),
    ];
    let page = list(rt.alloc(), 1, &page)?;
    let first = shown(rt.alloc(), &[&view([64, 64], WHITE), &small_tiles(), &page])?;
    let second = shown(rt.alloc(), &[&scroll(1, [0, 10])])?;
    let third = shown(rt.alloc(), &[&scroll(1, [0, 0])])?;
    expect_statistics(
        &rt,
        &[&first, &second, &third],
        &[(1, 4096), (2, 4096), (2, 0)],
    )
}

#[test]
fn a_budget_drops_the_least_recent_tiles(rt: HostRuntime) -> Result<(), Fail> {
    let all = list(rt.alloc(), 1, &[Solid(ROOT, NONE, [0, 0, 128, 128], RED)])?;
    let wide = view([128, 128], WHITE);
    let again = shown(rt.alloc(), &[])?;
    let roomy = shown(rt.alloc(), &[&wide, &tiles(64, 64), &all])?;
    expect_statistics(&rt, &[&roomy, &again], &[(4, 16384), (4, 0)])?;
    let tight = shown(rt.alloc(), &[&wide, &tiles(64, 1), &all])?;
    expect_statistics(&rt, &[&tight, &again], &[(1, 16384), (1, 12288)])
}

#[test]
fn an_opacity_opens_a_group(rt: HostRuntime) -> Result<(), Fail> {
    let parts = [
        Solid(ROOT, NONE, [0, 0, 64, 64], GREEN),
        Push(ROOT, NONE, 255, 1, 0, 0),
        Solid(ROOT, NONE, [0, 0, 4, 4], WHITE),
        Pop,
    ];
    let parts = list(rt.alloc(), 1, &parts)?;
    let first = shown(
        rt.alloc(),
        &[&view([64, 64], WHITE), &small_tiles(), &parts],
    )?;
    let half = shown(rt.alloc(), &[&opacity(1, 128)])?;
    let less = shown(rt.alloc(), &[&opacity(1, 64)])?;
    let whole = shown(rt.alloc(), &[&opacity(1, 255)])?;
    expect_statistics(
        &rt,
        &[&first, &half, &less, &whole],
        &[(1, 4096), (1, 16), (1, 4096), (1, 16)],
    )
}
