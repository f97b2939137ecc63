//! Which pipelines are drawn.

ghost use Rattle.std.specs.Prelude.{◌≡◌, ◌↔◌, ◌||◌, ◌&&◌, ◌<◌, ℕ, true, false, IsTrue, replicate, slice_set};
ghost use Rattle.pipelines.specs.Table.{listed_list};
ghost use Rattle.scene_limits.specs.Drawn.{AreDrawn, AreReached, IsDrawn, is_drawn, is_marked};
ghost use Rattle.scene_limits.specs.Drawn.{has_list, have_iframe_of, iframes_of, is_some_list};

use list_summary::Iframe;
use pipelines::{Pipeline, Pipelines};

fn mark(marks: &mut [bool], pipeline: u8)
    ensures { marks.new ≡ slice_set marks.old pipeline true }
{
    let p = usize::from(pipeline);
    if p < marks.len() {
        marks[p] = true;
    }
}

fn mark_iframes(marks: &mut [bool], iframes: &[Iframe])
    ensures { (q : ℕ) → is_marked marks.new q ≡ (is_marked marks.old q || have_iframe_of q iframes.now) }
{
    for iframe in iframes {
        mark(marks, iframe.pipeline);
    }
}

/// Marks what the Iframes of a pipeline name.
fn mark_named(marks: &mut [bool], pipeline: &Pipeline)
    ensures { (q : ℕ) → is_marked marks.new q ≡ (is_marked marks.old q || have_iframe_of q (iframes_of (listed_list pipeline.now.listed))) }
{
    if let Some(listed) = pipeline.listed() {
        mark_iframes(marks, listed.summary().iframes());
    }
}

fn no_marks() -> [bool; 64]
    ensures { result ≡ replicate 64 false }
{
    [false; 64]
}

/// Pipeline 0, and the pipelines that the Iframes of these name, whether they have a list or not.
pub(crate) fn reached(pipelines: &Pipelines) -> [bool; 64]
    ensures reached { AreReached result pipelines.now }
    ensures drawn { AreDrawn result pipelines.now }
{
    let mut marks = no_marks();
    marks[0] = true;
    for p in 0..64u8 {
        let pipeline = pipelines.get(p);
        if marks[usize::from(p)] {
            mark_named(&mut marks, pipeline);
        }
    }
    marks
}

fn is_listed(pipelines: &Pipelines, p: u8) -> bool
    ensures { result ≡ has_list pipelines.now p }
{
    pipelines.get(p).listed().is_some()
}

/// What is marked and has a list.
fn only_listed(pipelines: &Pipelines, marks: [bool; 64]) -> [bool; 64]
    ensures { (q : ℕ) → q < 64 → is_drawn result q ≡ (is_marked marks q && has_list pipelines.now q) }
{
    let mut drawn = marks;
    for p in 0..64u8 {
        if !is_listed(pipelines, p) {
            drawn[usize::from(p)] = false;
        }
    }
    drawn
}

/// Which pipelines are drawn, by number: pipeline 0 where it has a list, and those that have a list and that
/// an Iframe of one that is drawn names.
pub fn drawn(pipelines: &Pipelines) -> [bool; 64]
    ensures { (q : ℕ) → IsTrue (is_drawn result q) ↔ IsDrawn pipelines.now q }
{
    let _root = pipelines.get(0);
    let marks = reached(pipelines);
    only_listed(pipelines, marks)
}
