//! The record of a frame.

ghost use Rattle.std.specs.Prelude.{◌≡◌, ◌++◌, OnOk};
ghost use Rattle.renderer.specs.Frames.{ShowScene};
ghost use Rattle.frame_replay.specs.Frame.{frame_head, frame_record};

use crate::drawn::put_drawn;
use crate::rows::put_rows;
use field_forms::{put_byte, put_u16};
use scene_state::Scene;
use span_kernels::Planes;
use std::alloc::AllocError;

/// The most bytes of a frame's record before its pixels: a tag, two sides, and 64 pipelines with their epochs.
const MAX_HEADER_BYTES: usize = 326;

/// At least as many bytes as the record of a frame has.
fn frame_bytes(width: u16, height: u16) -> usize {
    MAX_HEADER_BYTES + 4 * usize::from(width) * usize::from(height)
}

/// Appends what the record of a scene's frame has before its pixels. Memory is taken once, for all of the record.
#[tactic(auto, unfolding(crate::specs::Frame::frame_head))]
pub(crate) fn put_head(out: &mut Vec<u8>, scene: &Scene) -> Result<(), AllocError>
    ensures { OnOk result (out.new.items ≡ out.old.items ++ frame_head scene.now) }
{
    let (width, height) = scene.view();
    out.reserve(frame_bytes(width, height))?;
    put_byte(out, b'F')?;
    put_u16(out, width)?;
    put_u16(out, height)?;
    put_drawn(out, scene)
}

/// Appends the record of a scene's frame, which planes show.
pub(crate) fn put_frame(out: &mut Vec<u8>, scene: &Scene, planes: &Planes) -> Result<(), AllocError>
    requires { ShowScene scene.now planes.now }
    ensures { OnOk result (out.new.items ≡ out.old.items ++ frame_record scene.now) }
{
    put_head(out, scene)?;
    put_rows(out, planes)
}
