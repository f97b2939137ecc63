//! Which scenes are refused, and which pipelines are drawn.

ghost use Rattle.std.specs.Prelude.{◌≤◌};
ghost use Rattle.display_list.specs.Grammar.{Fits};

use display_list::{List, decode};
use pipelines::{Listed, Pipelines};
use scene_limits::{drawn, level_laws, limit_laws, scene_fault};
use std::alloc::{AllocError, Global};
use wr_geom::NoMemory;
use wr_io::Code;

/// A solid, under no chain and under chain 0.
const SOLID: &[u8] = &[
    6, 0, 0, 255, 255, 0, 0, 0, 0, 0, 0, 0, 0, 4, 0, 0, 0, 4, 0, 0, 0, 1, 2, 3, 4,
];

const CLIPPED: &[u8] = &[
    6, 0, 0, 0, 0, 0, 0, 0, 0, 0, 0, 0, 0, 4, 0, 0, 0, 4, 0, 0, 0, 1, 2, 3, 4,
];

/// The start of a text of 16,384 glyphs, and a text of one glyph.
const TEXT: &[u8] = &[
    9, 0, 0, 255, 255, 0, 0, 0, 0, 0, 0, 0, 0, 4, 0, 0, 0, 4, 0, 0, 0, 0, 0, 1, 2, 3, 4, 0, 64,
];

const GLYPH: &[u8] = &[
    9, 0, 0, 255, 255, 0, 0, 0, 0, 0, 0, 0, 0, 4, 0, 0, 0, 4, 0, 0, 0, 0, 0, 1, 2, 3, 4, 1, 0, 0,
    0, 0, 0, 0, 0, 0, 0, 0, 0,
];

/// The start of a context, and its end.
const PUSH: &[u8] = &[10, 0, 0, 255, 255, 255, 255, 255, 0, 0];

const POP: &[u8] = &[11];

/// A clip, and the start of a chain of it.
const CHAIN: &[u8] = &[
    3, 0, 0, 0, 0, 0, 0, 0, 0, 0, 0, 8, 0, 0, 0, 8, 0, 0, 0, 5, 255, 255,
];

/// An Iframe under no chain, without the pipeline that it names, and one of pipeline 1 under chain 0.
const IFRAME: &[u8] = &[
    12, 0, 0, 255, 255, 0, 0, 0, 0, 0, 0, 0, 0, 4, 0, 0, 0, 4, 0, 0, 0,
];

const CLIPPED_IFRAME: &[u8] = &[
    12, 0, 0, 0, 0, 0, 0, 0, 0, 0, 0, 0, 0, 4, 0, 0, 0, 4, 0, 0, 0, 1,
];

/// Two nodes, each 2^20 pixels to the right of its parent.
const NODES: &[u8] = &[
    1, 0, 0, 0, 0, 16, 0, 0, 0, 0, 0, 255, 255, 1, 1, 0, 0, 0, 16, 0, 0, 0, 0, 0, 255, 255,
];

/// A third node one pixel to the right of the second.
const NODE: &[u8] = &[1, 2, 0, 1, 0, 0, 0, 0, 0, 0, 0, 255, 255];

/// An Iframe 2^20 pixels to the right of the second node, without the pipeline that it names.
const STEP: &[u8] = &[
    12, 2, 0, 255, 255, 0, 0, 16, 0, 0, 0, 0, 0, 0, 0, 16, 0, 0, 0, 0, 0,
];

/// A clip of a chain.
const CLIP: &[u8] = &[0, 0];

/// Two Iframes of pipeline 1, one in 33 contexts, one under so many clips, and one under 255 clips beside another.
const TWICE: [(u32, &[u8]); 4] = [(1, IFRAME), (1, &[1]), (1, IFRAME), (1, &[1])];

const IN_33: [(u32, &[u8]); 4] = [(33, PUSH), (1, IFRAME), (1, &[1]), (33, POP)];

const UNDER_254: [(u32, &[u8]); 4] = [(1, CHAIN), (1, &[254]), (254, CLIP), (1, CLIPPED_IFRAME)];

const UNDER_255: [(u32, &[u8]); 4] = [(1, CHAIN), (1, &[255]), (255, CLIP), (1, CLIPPED_IFRAME)];

const DEEP_AND_TWICE: [(u32, &[u8]); 6] = [
    (1, CHAIN),
    (1, &[255]),
    (255, CLIP),
    (1, CLIPPED_IFRAME),
    (1, IFRAME),
    (1, &[1]),
];

/// A part so many times, as part of other bytes.
fn add(bytes: &mut Vec<u8>, times: u32, part: &[u8]) -> Result<(), AllocError> {
    for _ in 0..times {
        bytes.extend_from_slice(part)?;
    }
    Ok(())
}

/// Parts one after the other, each so many times, and an End.
fn joined(alloc: Global, parts: &[(u32, &[u8])]) -> Result<Vec<u8>, AllocError> {
    let mut bytes = Vec::new(alloc);
    for (times, part) in parts {
        add(&mut bytes, *times, *part)?;
    }
    add(&mut bytes, 1, &[0])?;
    Ok(bytes)
}

fn put_list(pipelines: &mut Pipelines, alloc: Global, p: u8, list: List) -> Result<(), NoMemory>
    requires { Fits p list }
{
    let _nodes = list.nodes();
    pipelines.set_list(p, Listed::new(alloc, list, 0)?)
}

/// Makes the list of these bytes that of a pipeline.
fn put_bytes(pipelines: &mut Pipelines, alloc: Global, p: u8, bytes: &[u8]) -> Option<()>
    requires { p ≤ 63 }
{
    if bytes.len() > 1 << 26 {
        return None;
    }
    match decode(alloc, bytes, p) {
        Ok(list) => put_list(pipelines, alloc, p, list).ok(),
        Err(_) => None,
    }
}

/// Makes the list of these parts and an End that of a pipeline.
fn put(pipelines: &mut Pipelines, alloc: Global, p: u8, parts: &[(u32, &[u8])]) -> Option<()>
    requires { p ≤ 63 }
{
    match joined(alloc, parts) {
        Ok(bytes) => put_bytes(pipelines, alloc, p, bytes.as_slice()),
        Err(_) => None,
    }
}

/// What a check answers on no pipelines. False where it answers nothing.
fn on_pipelines<F: FnOnce(Global, &mut Pipelines) -> Option<bool>>(alloc: Global, check: F) -> bool
    requires { F.IsAlwaysCallable check }
{
    let mut pipelines = Pipelines::new(alloc);
    check(alloc, &mut pipelines) == Some(true)
}

/// Whether a scene has this fault, or none. None where memory runs out.
fn has_fault(alloc: Global, pipelines: &Pipelines, fault: Option<Code>) -> Option<bool> {
    Some(scene_fault(alloc, pipelines).ok()? == fault)
}

/// The parts of the list of pipeline 0, which shows pipeline 1, those of the list of pipeline 1, and the scene's fault.
const SCENES: [(&[(u32, &[u8])], &[(u32, &[u8])], Option<Code>); 10] = [
    // Solids of a list that is shown twice.
    (&TWICE, &[(32_767, SOLID)], None),
    (&TWICE, &[(32_768, SOLID)], Some(Code::TooManyItems)),
    // 33 contexts around an Iframe that shows contexts.
    (&IN_33, &[(31, PUSH), (31, POP)], None),
    (&IN_33, &[(32, PUSH), (32, POP)], Some(Code::TooDeep)),
    // An Iframe under so many clips that shows solids.
    (&UNDER_254, &[(1, SOLID)], None),
    (&UNDER_255, &[], None),
    (&UNDER_255, &[(1, SOLID)], Some(Code::TooDeep)),
    // So many solids under 128 clips each.
    (
        &[(1, CHAIN), (1, &[128]), (128, CLIP), (8_192, CLIPPED)],
        &[],
        None,
    ),
    (
        &[(1, CHAIN), (1, &[128]), (128, CLIP), (8_193, CLIPPED)],
        &[],
        Some(Code::TooManyItems),
    ),
    // 32,768 solids that are shown twice, once under 255 clips: the depth comes before the items.
    (&DEEP_AND_TWICE, &[(32_768, SOLID)], Some(Code::TooDeep)),
];

/// Whether each scene has its fault.
fn have_faults(alloc: Global, pipelines: &mut Pipelines) -> Option<bool> {
    for (root, shown, fault) in &SCENES {
        put(pipelines, alloc, 0, *root)?;
        put(pipelines, alloc, 1, *shown)?;
        if !has_fault(alloc, pipelines, *fault)? {
            return Some(false);
        }
    }
    Some(true)
}

#[test]
fn items_contexts_and_clips(rt: HostRuntime) {
    assert!(rt; on_pipelines(rt.alloc(), have_faults));
}

/// Makes so many pipelines from number 0 on, each of which shows the next one twice, and then a list of these parts.
fn put_doubled(pipelines: &mut Pipelines, alloc: Global, n: u8, last: &[(u32, &[u8])]) -> Option<()>
    requires { n ≤ 63 }
{
    for p in 0..n {
        let next = [p + 1];
        put(
            pipelines,
            alloc,
            p,
            &[(1, IFRAME), (1, &next), (1, IFRAME), (1, &next)],
        )?;
    }
    put(pipelines, alloc, n, last)
}

/// Whether 64 texts of 16,384 glyphs may be shown, and not with one glyph beside each.
fn counts_glyphs(alloc: Global, pipelines: &mut Pipelines) -> Option<bool> {
    put_doubled(pipelines, alloc, 6, &[(1, TEXT), (16_384, &[0; 10])])?;
    let most = has_fault(alloc, pipelines, None)?;
    put_doubled(
        pipelines,
        alloc,
        6,
        &[(1, TEXT), (16_384, &[0; 10]), (1, GLYPH)],
    )?;
    Some(most && has_fault(alloc, pipelines, Some(Code::TooManyItems))?)
}

#[test]
fn glyphs(rt: HostRuntime) {
    assert!(rt; on_pipelines(rt.alloc(), counts_glyphs));
}

/// Whether a list that is shown 2^63 times is refused.
fn counts_places(alloc: Global, pipelines: &mut Pipelines) -> Option<bool> {
    put_doubled(pipelines, alloc, 63, &[])?;
    has_fault(alloc, pipelines, Some(Code::TooManyItems))
}

#[test]
fn many_places(rt: HostRuntime) {
    assert!(rt; on_pipelines(rt.alloc(), counts_places));
}

/// Makes so many pipelines from number 0 on, each of which puts the next one 3 * 2^20 pixels farther right.
fn put_stairs(pipelines: &mut Pipelines, alloc: Global, n: u8) -> Option<()>
    requires { n ≤ 63 }
{
    for p in 0..n {
        put(pipelines, alloc, p, &[(1, NODES), (1, STEP), (1, &[p + 1])])?;
    }
    Some(())
}

/// Whether a second node may stand at exactly 2^27, and none beyond.
fn ends_at_2_27(alloc: Global, pipelines: &mut Pipelines) -> Option<bool> {
    put_stairs(pipelines, alloc, 42)?;
    put(pipelines, alloc, 42, &[(1, NODES)])?;
    let last = has_fault(alloc, pipelines, None)?;
    put(pipelines, alloc, 42, &[(1, NODES), (1, NODE)])?;
    Some(last && has_fault(alloc, pipelines, Some(Code::TooDeep))?)
}

#[test]
fn offsets(rt: HostRuntime) {
    assert!(rt; on_pipelines(rt.alloc(), ends_at_2_27));
}

/// Whether an Iframe may stand so far out that the pipeline it names can have no list.
fn stands_far_out(alloc: Global, pipelines: &mut Pipelines) -> Option<bool> {
    put_stairs(pipelines, alloc, 43)?;
    let unlisted = has_fault(alloc, pipelines, None)?;
    put(pipelines, alloc, 43, &[])?;
    Some(unlisted && has_fault(alloc, pipelines, Some(Code::TooDeep))?)
}

#[test]
fn an_iframe_far_out(rt: HostRuntime) {
    assert!(rt; on_pipelines(rt.alloc(), stands_far_out));
}

/// Whether pipeline 1, which has a list, is drawn where pipeline 0 shows it, and neither 2, which has none, nor 3, which
/// has a list and isn't shown.
fn draws_what_is_shown(alloc: Global, pipelines: &mut Pipelines) -> Option<bool> {
    put(
        pipelines,
        alloc,
        0,
        &[(1, IFRAME), (1, &[1]), (1, IFRAME), (1, &[2])],
    )?;
    put(pipelines, alloc, 1, &[])?;
    put(pipelines, alloc, 3, &[])?;
    let drawn = drawn(pipelines);
    Some(drawn[0] && drawn[1] && !drawn[2] && !drawn[3])
}

#[test]
fn drawn_pipelines(rt: HostRuntime) {
    assert!(rt; on_pipelines(rt.alloc(), draws_what_is_shown));
}

#[test]
fn laws_of_scenes() {
    level_laws();
    limit_laws();
}
