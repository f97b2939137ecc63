//! What lists add to a scene.

use display_list::{List, decode};
use list_summary::{Iframe, Totals, summarise, summary_laws};
use std::alloc::Global;

/// A clip, a chain of it, and in a context an Iframe of pipeline 5 from (2, 3) to (6, 7) under the chain.
const WITH_IFRAME: [u8; 59] = [
    3, 0, 0, 0, 0, 0, 0, 0, 0, 0, 0, 8, 0, 0, 0, 8, 0, 0, 0, // RectClip
    5, 255, 255, 1, 0, 0, // Chain
    10, 0, 0, 255, 255, 255, 255, 255, 0, 0, // PushContext
    12, 0, 0, 0, 0, 2, 0, 0, 0, 3, 0, 0, 0, 6, 0, 0, 0, 7, 0, 0, 0, 5, // Iframe
    11, 0, // PopContext and End
];

const OWN: Totals = Totals {
    items: 2,
    glyphs: 0,
    clips: 1,
    nesting: 1,
    most_clips: 1,
};

const IFRAME: Iframe = Iframe {
    pipeline: 5,
    contexts: 1,
    clips: 1,
    node: 0,
    x: 2,
    y: 3,
};

/// Whether the Iframe of a list is an item of it and is listed.
fn lists_an_iframe(alloc: Global, list: &List) -> bool {
    match summarise(alloc, list) {
        Ok(summary) => summary.own() == OWN && summary.iframes() == [IFRAME].as_slice(),
        Err(_) => false,
    }
}

/// Whether that is so in the list above.
fn summarises(alloc: Global) -> bool {
    match decode(alloc, &WITH_IFRAME, 0) {
        Ok(list) => lists_an_iframe(alloc, &list),
        Err(_) => false,
    }
}

#[test]
fn an_iframe_is_an_item_and_is_listed(rt: HostRuntime) {
    assert!(rt; summarises(rt.alloc()));
}

#[test]
fn an_empty_pipeline_adds_nothing(rt: HostRuntime) {
    let one = Totals::single(1, 2, 3);
    assert!(rt; Totals::NONE.lowered(3, 255) == Totals::NONE && one.both(Totals::NONE) == one);
    assert!(rt; one.lowered(1, 4) == Totals::single(2, 6, 3));
}

#[test]
fn laws_of_summaries() {
    summary_laws();
}
