//! The pixels of a renderer's last frame.

ghost use Rattle.std.specs.Prelude.{◌<◌};

use blend_rules::Px;
use renderer::Renderer;
use scene_state::{Scene, paint_at};
use span_kernels::Planes;

/// The pixel of some planes in a column and row; None outside them.
fn pixel(planes: &Planes, x: u16, y: u16) -> Option<Px> {
    if x >= planes.width() || y >= planes.height() {
        return None;
    }
    Some(planes.pixel(x, y))
}

/// What the painter gives a pixel of the view; None outside it.
fn painted(scene: &Scene, x: u16, y: u16) -> Option<Px> {
    let (width, height) = scene.view();
    if x >= width || y >= height {
        return None;
    }
    Some(paint_at(scene, x, y))
}

/// The pixel of the last frame in a column and row; None outside it, or where there is no frame.
pub fn shown(renderer: &Renderer, x: u16, y: u16) -> Option<Px> {
    match renderer.last_frame() {
        Some(frame) => pixel(frame.planes(), x, y),
        None => None,
    }
}

/// Whether planes have the painter's pixels in a row, in one of so many columns.
fn is_row_painted(planes: &Planes, scene: &Scene, y: u16, step: u16) -> bool
    requires { 0 < step }
{
    for x in 0..planes.width() {
        let is_asked = x % step == y % step;
        if is_asked && pixel(planes, x, y) != painted(scene, x, y) {
            return false;
        }
    }
    true
}

/// Whether planes have the painter's pixels of a scene, in one of so many columns of each row.
fn are_painted(planes: &Planes, scene: &Scene, step: u16) -> bool
    requires { 0 < step }
{
    if (planes.width(), planes.height()) != scene.view() {
        return false;
    }
    for y in 0..planes.height() {
        if !is_row_painted(planes, scene, y, step) {
            return false;
        }
    }
    true
}

/// Whether the last frame has the painter's pixels of the scene, in one of so many columns of each row.
pub fn is_painted(renderer: &Renderer, step: u16) -> bool
    requires { 0 < step }
{
    match renderer.last_frame() {
        Some(frame) => are_painted(frame.planes(), renderer.scene(), step),
        None => false,
    }
}
