//! A scene in slices.

ghost use Rattle.std.specs.Prelude.{◌≡◌, ◌≤◌, pos, length, All, IsTrue, IfOk};
ghost use Rattle.primitives.specs.Stacks.{is_shallow};
ghost use Rattle.picture_slices.specs.Facts.{AreSlices};
ghost use Rattle.scene_slices.specs.Picture.{PaintThePicture, slices_of_scene, view_rect};

use containers::Sequence;
use picture_slices::{Slice, slices};
use scene_flatten::tops;
use scene_state::{Scene, know_scene};
use std::alloc::Global;
use wr_geom::{NoMemory, Rect};

/// The view's rectangle.
fn view_rect(scene: &Scene) -> Rect
    ensures { result ≡ view_rect scene.now }
{
    know_scene(scene);
    let (width, height) = scene.view();
    Rect::new(0, 0, i32::from(width), i32::from(height)).unwrap()
}

/// The slices of a scene's view, back to front: at most eight, with keys of their own. Painted one after another
/// over the colour behind all, each as a group by itself, they give the scene's picture. In each at most 64 groups
/// nest, and each has at most 131,072 entries.
pub fn scene_slices(alloc: Global, scene: &Scene) -> Result<Sequence<Slice>, NoMemory>
    ensures value { IfOk result (λ slices. slices ≡ slices_of_scene scene.now) }
    ensures slices { IfOk result (λ slices. AreSlices (view_rect scene.now) slices) }
    ensures picture { IfOk result (λ slices. PaintThePicture scene.now slices) }
    ensures shallow { IfOk result (λ slices. All (λ s. IsTrue (is_shallow 64 s.entries)) slices) }
    ensures few { IfOk result (λ slices. All (λ s. length s.entries ≤ 131072) slices) }
{
    know_scene(scene);
    let all = tops(alloc, scene)?;
    let found = slices(alloc, all, view_rect(scene))?;
    Ok(found)
}
