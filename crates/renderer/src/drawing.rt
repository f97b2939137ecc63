//! The two steps of a frame: stale tiles are drawn, and the frame is put together.

ghost use Rattle.std.specs.Prelude.{◌≡◌, ◌≤◌, ◌<◌, ℕ, pos, length, All, Some, OnOk, IfOk};
ghost use Rattle.span_kernels.specs.PlanesModel.{pixel_at};
ghost use Rattle.tile_compositor.specs.Composition.{CanAllBeShown, IsPlacedIn, composed};
ghost use Rattle.tile_compositor.specs.Laid.{KeepSides};
ghost use Rattle.kept_tiles.specs.Progress.{IsWithin, KeepsSound};
ghost use Rattle.kept_tiles.specs.Steps.{ArePlaced};
ghost use Rattle.kept_tiles.specs.Tiles.{kept_of};
ghost use Rattle.kept_tiles.specs.Work.{IsWorkDone, work_on};
ghost use Rattle.renderer.specs.Drops.{sides_of};
ghost use Rattle.renderer.specs.Frames.{scene_tiles};
ghost use Rattle.renderer.specs.Preparing.{AreSlicesOf};

use crate::drops::sides_of;
use kept_tiles::KeptTiles;
use picture_slices::Slice;
use scene_resources::slice_resource_laws;
use scene_state::{Scene, know_scene};
use shown_frames::{frame_laws, showing_laws};
use tile_compositor::{Frame, Placed, compose};
use tile_raster::Scratch;
use wr_geom::NoMemory;

/// Draws what is stale of a scene's visible tiles, and answers how many pixels that were.
pub(crate) fn draw_tiles(
    kept: &mut KeptTiles,
    scratch: &mut Scratch,
    slices: &[Slice],
    scene: &Scene,
) -> Result<u64, NoMemory>
    requires slices { AreSlicesOf scene.now slices.now }
    requires few { length kept.old.store.tiles ≤ 65536 }
    requires placed { ArePlaced (sides_of scene.now.policy) (kept_of kept.old) }
    requires wide { scratch.old.width ≡ 1024 }
    ensures work { OnOk result (IsWorkDone kept.old kept.new (work_on kept.old (scene_tiles scene.now))) }
    ensures drawn { IfOk result (λ drawn. drawn ≡ (work_on kept.old (scene_tiles scene.now)).cost) }
    ensures within { IsWithin kept.old kept.new (scene_tiles scene.now) }
    ensures keeps { KeepsSound (sides_of scene.now.policy) scene.now.store kept.old kept.new }
    ensures scratch { scratch.new ≡ scratch.old }
{
    know_scene(scene);
    frame_laws();
    showing_laws();
    slice_resource_laws();
    kept.show_slices(slices, sides_of(scene.policy()), scene.store(), scratch)
}

/// Puts a frame together from kept tiles of slices that lie in it. It takes no memory.
pub(crate) fn compose_frame(kept: &KeptTiles, placed: &[Placed], scene: &Scene, frame: &mut Frame)
    requires tiles { CanAllBeShown (sides_of scene.now.policy) kept.now.store.tiles }
    requires placed { All (IsPlacedIn frame.old.planes) placed.now }
    ensures sides { KeepSides frame.old.planes frame.new.planes }
    ensures value { (x y : ℕ) → x < frame.new.planes.width → y < frame.new.planes.height
        → pixel_at frame.new.planes x y ≡ composed (sides_of scene.now.policy) kept.now.store.tiles placed.now (pos x) (pos y) scene.now.clear }
    ensures opened { frame.new.opened ≡ Some kept.now.store.opened }
{
    know_scene(scene);
    let policy = scene.policy();
    compose(
        kept.tiles(),
        placed,
        policy.tw,
        policy.th,
        scene.clear(),
        frame,
    );
}
