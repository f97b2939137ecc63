//! What a frame needs before a tile of it is drawn. Its memory is taken here.

ghost use Rattle.std.specs.Prelude.{◌≡◌, ◌==◌, ◌&&◌, IfOk};
ghost use Rattle.shown_frames.specs.Placing.{all_placed, placed_of};
ghost use Rattle.renderer.specs.Frames.{AreSides, IsThere};
ghost use Rattle.renderer.specs.Preparing.{IsPrepared, chosen};

use containers::Sequence;
use picture_slices::Slice;
use scene_slices::scene_slices;
use scene_state::Scene;
use span_kernels::Planes;
use std::alloc::Global;
use tile_compositor::{Frame, Placed};
use tile_raster::Scratch;
use wr_geom::NoMemory;

/// The slices of a scene, and how they lie in its frame.
#[derive(Drop)]
pub(crate) struct Prepared {
    pub(crate) slices: Sequence<Slice>,
    pub(crate) placed: Sequence<Placed>,
}

/// A slice as it lies in a frame.
fn placed_of(slice: &Slice) -> Placed
    ensures { result ≡ placed_of slice.now }
{
    Placed {
        key: slice.key,
        origin: slice.origin,
        shown: slice.shown,
    }
}

/// Slices as they lie in a frame.
fn all_placed(alloc: Global, slices: &[Slice]) -> Result<Vec<Placed>, NoMemory>
    ensures { IfOk result (λ placed. placed.items ≡ all_placed slices.now) }
{
    let mut placed = Vec::with_capacity(alloc, slices.len())?;
    for slice in slices {
        placed.push(placed_of(slice))?;
    }
    Ok(placed)
}

/// The slices of a scene for its frame.
pub(crate) fn prepare(alloc: Global, scene: &Scene) -> Result<Prepared, NoMemory>
    ensures { IfOk result (λ prepared. IsPrepared scene.now prepared) }
{
    let slices = scene_slices(alloc, scene)?;
    let placed = Sequence::from_vec(all_placed(alloc, slices.as_slice())?);
    Ok(Prepared { slices, placed })
}

/// Takes what drawing works with, for the entries of each of these slices.
pub(crate) fn make_room(scratch: &mut Scratch, slices: &[Slice]) -> Result<(), NoMemory>
    ensures { scratch.new.width ≡ scratch.old.width }
{
    for slice in slices {
        scratch.reserve(slice.entries.len())?;
    }
    Ok(())
}

/// Whether a frame has these sides in pixels.
fn has_sides(frame: &Frame, width: u16, height: u16) -> bool
    ensures { result ≡ ((frame.now.planes.width == width) && (frame.now.planes.height == height)) }
{
    let planes = frame.planes();
    planes.width() == width && planes.height() == height
}

/// A frame of the sides of a scene's view, unless the last frame has them.
pub(crate) fn other_frame(
    alloc: Global,
    last: &Option<Frame>,
    scene: &Scene,
) -> Result<Option<Frame>, NoMemory>
    ensures { IfOk result (λ other. IsThere (λ frame. AreSides scene.now.view.0 scene.now.view.1 frame.planes) (chosen other last.now)) }
{
    let (width, height) = scene.view();
    if let Some(frame) = last {
        if has_sides(frame, width, height) {
            return Ok(None);
        }
    }
    let blank = Planes::new(alloc, width, height)?;
    Ok(Some(Frame::new(blank)))
}
