//! The pipelines that are drawn, as a frame's record lists them.

ghost use Rattle.std.specs.Prelude.{◌≡◌, ◌<◌, ◌≤◌, ◌++◌, ℕ, length, OnOk};
ghost use Rattle.std.specs.List.{flat_map};
ghost use Rattle.frame_replay.specs.Drawn.{MarkDrawn, drawn_bytes, drawn_epoch, drawn_pipelines, entry_bytes, numbered};

use field_forms::{put_byte, put_u32};
use scene_state::{Scene, know_scene};
use std::alloc::AllocError;

/// Which pipelines are drawn, by number.
fn drawn_marks(scene: &Scene) -> [bool; 64]
    ensures { MarkDrawn result scene.now.pipelines }
{
    know_scene(scene);
    scene.drawn()
}

/// The epoch of a pipeline's list, where the pipeline is drawn.
fn drawn_epoch(scene: &Scene, drawn: &[bool; 64], pipeline: u8) -> Option<u32>
    requires pipeline { pipeline < 64 }
    requires drawn { MarkDrawn drawn.now scene.now.pipelines }
    ensures { result ≡ drawn_epoch scene.now.pipelines pipeline }
{
    if !drawn[usize::from(pipeline)] {
        return None;
    }
    scene.epoch(pipeline)
}

/// How many entries an epoch makes.
fn entry_count(epoch: Option<u32>) -> u8
    ensures value { (p : ℕ) → result ≡ length (numbered p epoch) }
    ensures most { result ≤ 1 }
{
    match epoch {
        None => 0,
        Some(_) => 1,
    }
}

/// How many pipelines are drawn.
fn count_drawn(scene: &Scene, drawn: &[bool; 64]) -> u8
    requires { MarkDrawn drawn.now scene.now.pipelines }
    ensures { result ≡ length (drawn_pipelines scene.now) }
{
    let mut count = 0u8;
    for pipeline in 0..64u8 {
        count += entry_count(drawn_epoch(scene, drawn, pipeline));
    }
    count
}

/// Appends the number of a pipeline and the epoch of its list, where it has one.
fn put_entry(out: &mut Vec<u8>, pipeline: u8, epoch: Option<u32>) -> Result<(), AllocError>
    ensures { OnOk result (out.new.items ≡ out.old.items ++ flat_map entry_bytes (numbered pipeline epoch)) }
{
    match epoch {
        None => Ok(()),
        Some(epoch) => {
            put_byte(out, pipeline)?;
            put_u32(out, epoch)
        }
    }
}

/// Appends the number and the epoch of each pipeline that is drawn.
fn put_entries(out: &mut Vec<u8>, scene: &Scene, drawn: &[bool; 64]) -> Result<(), AllocError>
    requires { MarkDrawn drawn.now scene.now.pipelines }
    ensures { OnOk result (out.new.items ≡ out.old.items ++ flat_map entry_bytes (drawn_pipelines scene.now)) }
{
    for pipeline in 0..64u8 {
        put_entry(out, pipeline, drawn_epoch(scene, drawn, pipeline))?;
    }
    Ok(())
}

/// Appends how many pipelines are drawn, and the number and the epoch of each.
pub(crate) fn put_drawn(out: &mut Vec<u8>, scene: &Scene) -> Result<(), AllocError>
    ensures { OnOk result (out.new.items ≡ out.old.items ++ drawn_bytes (drawn_pipelines scene.now)) }
{
    let drawn = drawn_marks(scene);
    put_byte(out, count_drawn(scene, &drawn))?;
    put_entries(out, scene, &drawn)
}
