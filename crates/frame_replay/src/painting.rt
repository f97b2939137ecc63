//! The command `paint`: payloads answered by frames that are painted pixel by pixel.

ghost use Rattle.std.specs.Prelude.{◌≡◌, ◌<◌, ◌≤◌, ◌++◌, ◌^◌, ℕ, length, OnErr, OnOk};
ghost use Rattle.std.specs.List.{flat_map};
ghost use Rattle.blend_rules.specs.Colour.{colour_bytes};
ghost use Rattle.scene_state.specs.Outcome.{Answers};
ghost use Rattle.scene_state.specs.SceneModel.{SceneModel};
ghost use Rattle.frame_replay.specs.Frame.{frame_record, row_pixels, view_pixels};
ghost use Rattle.frame_replay.specs.Painting.{next_scene_of, painted_by, painted_record, painting, scene_answer, scene_start};

use crate::frame::put_head;
use crate::records::{put_refusal, read};
use field_forms::{put_byte, put_colour};
use image_store::Gens;
use record_frame::{AnswerError, AnswerPayload};
use scene_state::{ApplyError, Scene, paint_at};
use std::alloc::{AllocError, Global};

/// Appends the pixels of a row of the view, from the left.
fn put_row(out: &mut Vec<u8>, scene: &Scene, y: u16) -> Result<(), AllocError>
    requires { y < scene.now.view.1 }
    ensures { OnOk result (out.new.items ≡ out.old.items ++ flat_map colour_bytes (row_pixels scene.now y scene.now.view.0)) }
{
    let (width, _) = scene.view();
    for x in 0..width {
        put_colour(out, paint_at(scene, x, y))?;
    }
    Ok(())
}

/// Appends the pixels of the view, row by row from the top.
fn put_painted(out: &mut Vec<u8>, scene: &Scene) -> Result<(), AllocError>
    ensures { OnOk result (out.new.items ≡ out.old.items ++ flat_map colour_bytes (view_pixels scene.now)) }
{
    let (_, height) = scene.view();
    for y in 0..height {
        put_row(out, scene, y)?;
    }
    Ok(())
}

/// Appends the record of an accepted transaction: the scene's frame where it asks for one.
fn put_accepted(out: &mut Vec<u8>, scene: &Scene, frame: bool) -> Result<(), AllocError>
    ensures { OnOk result (out.new.items ≡ out.old.items ++ painted_by frame scene.now) }
{
    if frame {
        put_head(out, scene)?;
        return put_painted(out, scene);
    }
    put_byte(out, b'A')
}

/// The scene after the transaction that a payload spells, and whether it asks for a frame, or why it is refused.
/// After an error the counter is as before.
fn apply(
    alloc: Global,
    payload: &[u8],
    scene: &Scene,
    gens: &mut Gens,
) -> Result<(Scene, bool), ApplyError>
    requires { length payload.now ≤ 2 ^ 26 }
    ensures made { Answers (λ made. ((made.0, gens.new), made.1)) result (scene_answer payload.now (scene.now, gens.old)) }
    ensures counter { OnErr result (gens.new ≡ gens.old) }
{
    let txn = read(alloc, payload)?;
    let next = scene.next(&txn, gens)?;
    Ok((next, txn.frame()))
}

/// Puts the record that answers a payload into `out`, and takes the scene and the counter of generations to what
/// follows. A payload that is refused leaves both.
fn answer(
    alloc: Global,
    payload: &[u8],
    scene: &mut Scene,
    gens: &mut Gens,
    out: &mut Vec<u8>,
) -> Result<(), AllocError>
    requires { length payload.now ≤ 2 ^ 26 }
    ensures out { OnOk result (out.new.items ≡ painted_record payload.now (scene.old, gens.old)) }
    ensures state { OnOk result ((scene.new, gens.new) ≡ next_scene_of payload.now (scene.old, gens.old)) }
{
    out.clear();
    match apply(alloc, payload, scene, gens) {
        Ok((next, frame)) => {
            *scene = next;
            put_accepted(out, scene, frame)
        }
        Err(ApplyError::Fault(fault)) => put_refusal(out, fault),
        Err(ApplyError::NoMemory) => Err(AllocError),
    }
}

/// A scene, and the counter of generations.
#[derive(Drop)]
pub(crate) struct Painting {
    scene: Scene,
    gens: Gens,
}

impl Painting {
    /// At the start of an input.
    pub(crate) fn new(alloc: Global) -> Painting
        ensures { (result.scene, result.gens) ≡ scene_start }
    {
        Painting {
            scene: Scene::start(alloc),
            gens: Gens::new(),
        }
    }
}

/// Paints each frame anew.
#[derive(Drop)]
pub(crate) struct Painter;

impl AnswerPayload for Painter {
    type Subject = Painting;

    ghost State = { SceneModel × ℕ };

    ghost state = { λ _ painting. (painting.scene, painting.gens) };

    ghost rule = { painting };

    fn answer(
        &self,
        alloc: Global,
        subject: &mut Painting,
        payload: &[u8],
        out: &mut Vec<u8>,
    ) -> Result<(), AnswerError> {
        answer(alloc, payload, &mut subject.scene, &mut subject.gens, out)?;
        Ok(())
    }
}
