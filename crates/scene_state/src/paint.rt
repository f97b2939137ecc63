//! The plain painter.

ghost use Rattle.std.specs.Prelude.{◌≡◌, ◌<◌, pos};
ghost use Rattle.scene_state.specs.Picture.{picture};

use crate::{Scene, know_scene};
use blend_rules::Px;
use painter::picture_at;

/// The colour of a frame's pixel in column x and row y of the view, by the painter: all that the pipelines
/// show is painted item by item, back to front. It takes no memory.
#[tactic(auto, unfolding(crate::specs::Picture::picture))]
pub fn paint_at(scene: &Scene, x: u16, y: u16) -> Px
    requires column { x < scene.now.view.0 }
    requires row { y < scene.now.view.1 }
    ensures { result ≡ picture scene.now (pos x) (pos y) }
{
    know_scene(scene);
    picture_at(scene.pipelines(), scene.store(), scene.clear(), x, y)
}
