//! Limits of the scene, once Iframes are expanded, and of what is stored.

use super::colours::RED;
use super::expect;
use super::fields::put;
use super::operations::{add_glyph, list};
use super::parts::Part::{Bytes, Chain, Iframe, RectClip, Reference, Solid, Text};
use super::parts::{NONE, Part, ROOT};
use super::transactions::Answer::{Accepted, Refused};
use super::transactions::{Answer, sent, transaction};
use std::alloc::{AllocError, Global};
use std::process::Abort;
use std::test::Fail;

/// The rectangle of one pixel.
const DOT: [i32; 4] = [0, 0, 1, 1];

/// The begin of a context, as bytes.
const PUSH: [u8; 10] = [10, 0, 0, 255, 255, 255, 255, 255, 0, 0];

/// A solid of one pixel, as bytes.
const SOLID: [u8; 25] = [
    6, 0, 0, 255, 255, 0, 0, 0, 0, 0, 0, 0, 0, 1, 0, 0, 0, 1, 0, 0, 0, 0, 0, 255, 255,
];

/// A solid of one pixel under chain 0, as bytes.
const CLIPPED: [u8; 25] = [
    6, 0, 0, 0, 0, 0, 0, 0, 0, 0, 0, 0, 0, 1, 0, 0, 0, 1, 0, 0, 0, 0, 0, 255, 255,
];

/// An Iframe of pipeline 1, as bytes.
const IFRAME: [u8; 22] = [
    12, 0, 0, 255, 255, 0, 0, 0, 0, 0, 0, 0, 0, 1, 0, 0, 0, 1, 0, 0, 0, 1,
];

/// A piece of bytes, so many times.
fn repeated(alloc: Global, piece: &[u8], count: u32) -> Result<Vec<u8>, AllocError> {
    let mut bytes = Vec::new(alloc);
    for _ in 0..count {
        bytes.extend_from_slice(piece)?;
    }
    Ok(bytes)
}

/// Accepts a list of the root pipeline, and answers so to a list of pipeline 1.
fn expect_second(
    rt: &(impl Abort + AllocGlobal),
    outer: &[Part<'_>],
    inner: &[Part<'_>],
    answer: Answer<'static>,
) -> Result<(), Fail> {
    let outer = list(rt.alloc(), 1, outer)?;
    let inner = list(rt.alloc(), 2, inner)?;
    let first = sent(rt.alloc(), &[&outer])?;
    let second = transaction(rt.alloc(), 1, false, &[&inner])?;
    expect(rt, &[&first, &second], &[Accepted, answer])
}

/// A list of this many contexts in one another.
fn expect_contexts(
    rt: &(impl Abort + AllocGlobal),
    count: u32,
    answer: Answer<'static>,
) -> Result<(), Fail> {
    let pushes = repeated(rt.alloc(), &PUSH, count)?;
    let pops = repeated(rt.alloc(), &[11], count)?;
    let nest = list(rt.alloc(), 1, &[Bytes(&pushes), Bytes(&pops)])?;
    expect(rt, &[&sent(rt.alloc(), &[&nest])?], &[answer])
}

#[test]
fn a_list_nests_64_contexts(rt: HostRuntime) -> Result<(), Fail> {
    expect_contexts(&rt, 64, Accepted)?;
    expect_contexts(&rt, 65, Refused(13, 653))
}

/// This many contexts of pipeline 1, in 33 of the root pipeline.
fn expect_nested(
    rt: &(impl Abort + AllocGlobal),
    count: u32,
    answer: Answer<'static>,
) -> Result<(), Fail> {
    let pushes = repeated(rt.alloc(), &PUSH, 33)?;
    let pops = repeated(rt.alloc(), &[11], 33)?;
    let outer = [Bytes(&pushes), Iframe(ROOT, NONE, DOT, 1), Bytes(&pops)];
    let begins = repeated(rt.alloc(), &PUSH, count)?;
    let ends = repeated(rt.alloc(), &[11], count)?;
    expect_second(rt, &outer, &[Bytes(&begins), Bytes(&ends)], answer)
}

#[test]
fn a_scene_nests_64_contexts(rt: HostRuntime) -> Result<(), Fail> {
    expect_nested(&rt, 31, Accepted)?;
    expect_nested(&rt, 32, Refused(16, 366))
}

/// This many clips on an item in an Iframe, whose rectangle is one more.
fn expect_clips(
    rt: &(impl Abort + AllocGlobal),
    count: u16,
    answer: Answer<'static>,
) -> Result<(), Fail> {
    let clips = vec![in rt.alloc(); 0; usize::from(count)]?;
    let outer = [Iframe(ROOT, NONE, DOT, 1)];
    let inner = [
        RectClip(ROOT, DOT),
        Chain(NONE, &clips),
        Solid(ROOT, 0, DOT, RED),
    ];
    expect_second(rt, &outer, &inner, answer)
}

#[test]
fn an_item_has_255_clips(rt: HostRuntime) -> Result<(), Fail> {
    expect_clips(&rt, 254, Accepted)?;
    // Four bytes and nine, the clip's 19, the chain's 4 and 510, the solid's 25, the End.
    expect_clips(&rt, 255, Refused(16, 572))
}

/// Reference frames in one another, each 2^20 pixels to the right.
fn tower(alloc: Global, count: u16) -> Result<Vec<Part<'static>>, AllocError> {
    let mut list = Vec::new(alloc);
    for parent in 0..count {
        list.push(Reference(parent, [1_048_576, 0], NONE))?;
    }
    Ok(list)
}

#[test]
fn an_offset_is_at_most_134217728(rt: HostRuntime) -> Result<(), Fail> {
    // 64 levels and an Iframe's corner are 65 steps. With 63 more these are 2^27.
    let mut outer = tower(rt.alloc(), 64)?;
    outer.push(Iframe(64, NONE, [1_048_576, 0, 1_048_576, 0], 1))?;
    let within = tower(rt.alloc(), 63)?;
    expect_second(&rt, &outer, &within, Accepted)?;
    let past = tower(rt.alloc(), 64)?;
    expect_second(&rt, &outer, &past, Refused(16, 846))
}

/// This many solids of a pipeline that two Iframes show.
fn expect_solids(
    rt: &(impl Abort + AllocGlobal),
    count: u32,
    answer: Answer<'static>,
) -> Result<(), Fail> {
    let shown = Iframe(ROOT, NONE, DOT, 1);
    let solids = repeated(rt.alloc(), &SOLID, count)?;
    expect_second(rt, &[shown, shown], &[Bytes(&solids)], answer)
}

#[test]
fn a_scene_has_65536_items(rt: HostRuntime) -> Result<(), Fail> {
    expect_solids(&rt, 32_767, Accepted)?;
    // Four bytes and nine, the solids, the End.
    expect_solids(&rt, 32_768, Refused(15, 819_214))
}

/// Sixteen Iframes that show a text of 65,535 glyphs each, and this many glyphs more.
fn expect_glyphs(
    rt: &(impl Abort + AllocGlobal),
    more: usize,
    answer: Answer<'static>,
) -> Result<(), Fail> {
    let many = vec![in rt.alloc(); (5, [0, 0]); 65_535]?;
    let inner = [Text(ROOT, NONE, DOT, 1, RED, &many)];
    let few = vec![in rt.alloc(); (5, [0, 0]); more]?;
    let iframes = repeated(rt.alloc(), &IFRAME, 16)?;
    let outer = [Bytes(&iframes), Text(ROOT, NONE, DOT, 1, RED, &few)];
    let outer = list(rt.alloc(), 1, &outer)?;
    let inner = list(rt.alloc(), 2, &inner)?;
    let first = transaction(rt.alloc(), 1, false, &[&inner])?;
    let second = sent(rt.alloc(), &[&outer])?;
    expect(rt, &[&first, &second], &[Accepted, answer])
}

#[test]
fn a_scene_has_1048576_glyphs(rt: HostRuntime) -> Result<(), Fail> {
    expect_glyphs(&rt, 16, Accepted)?;
    // Four bytes and nine, the Iframes, the text with its glyphs, the End.
    expect_glyphs(&rt, 17, Refused(15, 4 + 9 + 16 * 22 + 29 + 170 + 1))
}

/// This many solids of 255 clips each, and one of 16 or 17 clips by its chain.
fn expect_sum(
    rt: &(impl Abort + AllocGlobal),
    chain: u16,
    answer: Answer<'static>,
) -> Result<(), Fail> {
    let solids = repeated(rt.alloc(), &CLIPPED, 4112)?;
    let parts = [
        RectClip(ROOT, DOT),
        Chain(NONE, &[0; 255]),
        Chain(NONE, &[0; 16]),
        Chain(NONE, &[0; 17]),
        Bytes(&solids),
        Solid(ROOT, chain, DOT, RED),
    ];
    let list = list(rt.alloc(), 1, &parts)?;
    expect(rt, &[&sent(rt.alloc(), &[&list])?], &[answer])
}

#[test]
fn a_scene_has_1048576_clips(rt: HostRuntime) -> Result<(), Fail> {
    // 4,112 times 255 clips and 16 more.
    expect_sum(&rt, 1, Accepted)?;
    // Four bytes and nine, the clip's 19, the chains' 514, 36 and 38, the solids, the End.
    expect_sum(&rt, 2, Refused(15, 103_446))
}

/// Four masks of nearly 2^24 pixels and one of one pixel.
fn masks(alloc: Global) -> Result<Vec<u8>, Fail> {
    let mask = repeated(alloc, &[0; 4096], 4095)?;
    let first = add_glyph(alloc, 1, [4096, 4095], &mask)?;
    let second = add_glyph(alloc, 2, [4096, 4095], &mask)?;
    let third = add_glyph(alloc, 3, [4096, 4095], &mask)?;
    let fourth = add_glyph(alloc, 4, [4096, 4095], &mask)?;
    let dot = add_glyph(alloc, 5, [1, 1], &[9])?;
    sent(alloc, &[&first, &second, &third, &fourth, &dot])
}

#[test]
fn a_scene_stores_67108864_pixels(rt: HostRuntime) -> Result<(), Fail> {
    let masks = masks(rt.alloc())?;
    // A strip of 4,096 by 4 is one pixel too many.
    let strip = repeated(rt.alloc(), &[0; 4096], 4)?;
    let past = sent(rt.alloc(), &[&add_glyph(rt.alloc(), 6, [4096, 4], &strip)?])?;
    let short = repeated(rt.alloc(), &[0; 4095], 4)?;
    let within = sent(rt.alloc(), &[&add_glyph(rt.alloc(), 6, [4095, 4], &short)?])?;
    expect(
        &rt,
        &[&masks, &past, &within],
        &[Accepted, Refused(17, 4 + 9 + 16_384), Accepted],
    )
}
