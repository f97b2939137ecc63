//! What a renderer holds, and what a transaction makes of it.

ghost use Rattle.std.specs.Prelude.{◌≡◌, ◌≤◌, [], true, Some, length, take, IfOk, OnErr, if◌then◌else◌};
ghost use Rattle.kept_tiles.specs.Showing.{AreShown};
ghost use Rattle.kept_tiles.specs.Sound.{AreSound};
ghost use Rattle.kept_tiles.specs.Tiles.{kept_of};
ghost use Rattle.image_store.specs.Laws.{IsUpTo};
ghost use Rattle.renderer.specs.Drops.{has_sides, sides_of};
ghost use Rattle.renderer.specs.Frames.{AreSides, IsFrameOf, IsThere, ShowScene, scene_tiles};
ghost use Rattle.renderer.specs.Kept.{IsFresh};
ghost use Rattle.renderer.specs.Outcome.{Applies};
ghost use Rattle.renderer.specs.PartsModel.{HasScratch, IsCurrentIn, IsFreshIn, model_of};
ghost use Rattle.renderer.specs.Preparing.{AreSlicesOf, IsPrepared, chosen};
ghost use Rattle.renderer.specs.RendererModel.{new_renderer};
ghost use Rattle.renderer.specs.Showing.{IsDrawn, IsFinished, IsReady, IsShown, IsUndrawn, IsUnshown};

use crate::answer::{Answer, Report};
use crate::drawing::{compose_frame, draw_tiles};
use crate::drops::{drop_tiles, has_sides};
use crate::preparing::{Prepared, make_room, other_frame, prepare};
use image_store::Gens;
use kept_tiles::{KeptTiles, work_laws};
use picture_slices::Slice;
use scene_resources::{next_laws, slice_resource_laws};
use scene_state::{ApplyError, Policy, Scene, know_scene};
use shown_frames::{frame_laws, showing_laws};
use std::alloc::Global;
use tile_compositor::Frame;
use tile_raster::Scratch;
use tile_store::know_store;
use txn_format::Txn;
use wr_geom::NoMemory;

/// The longest side of a tile, in pixels.
const MAX_WIDTH: u16 = 1024;

/// What a renderer holds.
#[derive(Drop)]
pub(crate) struct Parts {
    pub(crate) alloc: Global,
    pub(crate) scene: Scene,
    pub(crate) gens: Gens,
    pub(crate) kept: KeptTiles,
    pub(crate) scratch: Scratch,
    pub(crate) frame: Option<Frame>,
    /// Whether the last frame is known to show the scene as it stands.
    pub(crate) is_current: bool,
}

/// What a renderer holds before the first transaction.
pub(crate) fn new_parts(alloc: Global) -> Result<Parts, NoMemory>
    ensures value { IfOk result (λ parts. model_of parts ≡ new_renderer) }
    ensures fresh { IfOk result IsFreshIn }
    ensures current { IfOk result IsCurrentIn }
    ensures scratch { IfOk result HasScratch }
{
    Ok(Parts {
        alloc,
        scene: Scene::start(alloc),
        gens: Gens::new(),
        kept: KeptTiles::new(alloc)?,
        scratch: Scratch::new(alloc, MAX_WIDTH)?,
        frame: None,
        is_current: false,
    })
}

/// How many tiles stay kept where memory ran out in a frame under another policy: none where its tiles have other sides.
fn budget_left(old: Policy, next: Policy) -> u32
    ensures { result ≡ (if has_sides old next.tw next.th then old.budget else 0) }
{
    if has_sides(old, next.tw, next.th) {
        old.budget
    } else {
        0
    }
}

/// Draws what is stale of the visible tiles of the next scene, and answers how many pixels that were. Where memory runs
/// out, the tiles stay kept that show the scene as it stands.
fn draw(parts: &mut Parts, slices: &[Slice], next: &Scene) -> Result<u64, NoMemory>
    requires ready { IsReady parts.old.scene next.now parts.old.gens parts.old.kept }
    requires slices { AreSlicesOf next.now slices.now }
    requires scratch { HasScratch parts.old }
    ensures drawn { IfOk result (λ drawn. IsDrawn next.now (model_of parts.old) (model_of parts.new) drawn) }
    ensures err { OnErr result (IsUndrawn next.now (model_of parts.old) (model_of parts.new)) }
    ensures current { parts.new.is_current ≡ parts.old.is_current }
    ensures scratch { HasScratch parts.new }
{
    work_laws();
    frame_laws();
    showing_laws();
    slice_resource_laws();
    know_scene(&parts.scene);
    know_scene(next);
    know_store(parts.kept.tiles());
    match draw_tiles(&mut parts.kept, &mut parts.scratch, slices, next) {
        Ok(drawn) => Ok(drawn),
        Err(error) => {
            let left = budget_left(parts.scene.policy(), next.policy());
            parts.kept.trim(left);
            Err(error)
        }
    }
}

/// The frame that the next scene is shown in: another, or the last one.
fn frame_of(last: &mut Option<Frame>, other: Option<Frame>) -> Frame
    requires { IsThere (λ _. Unit {0}) (chosen other last.old) }
    ensures { Some result ≡ chosen other last.old }
{
    match other {
        Some(frame) => frame,
        None => last.take().unwrap(),
    }
}

/// Gives up the tiles over the budget of the next scene, which the last frame shows, and takes it as the scene.
fn settle(parts: &mut Parts, next: Scene, drawn: u64) -> Report
    requires stored { IsUpTo parts.old.gens next.store }
    requires sound { AreSound (sides_of next.policy) parts.old.gens next.store (kept_of parts.old.kept) }
    requires frame { IsThere (IsFrameOf next parts.old.kept.store.opened) parts.old.frame }
    requires scratch { HasScratch parts.old }
    ensures finished { IsFinished next (model_of parts.old) (model_of parts.new) drawn result }
    ensures current { IsCurrentIn parts.new }
    ensures scratch { HasScratch parts.new }
{
    know_scene(&next);
    parts.kept.trim(next.policy().budget);
    parts.scene = next;
    parts.is_current = true;
    Report {
        tiles: parts.kept.tiles().len(),
        drawn,
    }
}

/// Puts the next scene's frame together, gives up the tiles over its budget, and takes it as the scene.
fn finish(
    parts: &mut Parts,
    next: Scene,
    prepared: &Prepared,
    other: Option<Frame>,
    drawn: u64,
) -> Report
    requires stored { IsUpTo parts.old.gens next.store }
    requires sound { AreSound (sides_of next.policy) parts.old.gens next.store (kept_of parts.old.kept) }
    requires shown { AreShown next.store (kept_of parts.old.kept) (scene_tiles next) }
    requires prepared { IsPrepared next prepared.now }
    requires frame { IsThere (λ frame. AreSides next.view.0 next.view.1 frame.planes) (chosen other parts.old.frame) }
    requires scratch { HasScratch parts.old }
    ensures finished { IsFinished next (model_of parts.old) (model_of parts.new) drawn result }
    ensures current { IsCurrentIn parts.new }
    ensures scratch { HasScratch parts.new }
{
    frame_laws();
    showing_laws();
    know_scene(&next);
    let mut frame = frame_of(&mut parts.frame, other);
    compose_frame(&parts.kept, prepared.placed.as_slice(), &next, &mut frame);
    parts.frame = Some(frame);
    settle(parts, next, drawn)
}

/// Whether the last frame was put together from a store that had counted as many pixels as it has now.
fn has_count(parts: &Parts) -> bool
    ensures { result ≡ true → IsThere (λ frame. frame.opened ≡ Some parts.now.kept.store.opened) parts.now.frame }
{
    match &parts.frame {
        Some(frame) => frame.opened() == Some(parts.kept.tiles().opened()),
        None => false,
    }
}

/// Shows the next scene: draws what is stale of its visible tiles, and puts its frame together, unless it is the same
/// scene, which the last frame shows, and nothing was drawn. Where memory runs out, the scene and the last frame stand.
fn show(parts: &mut Parts, next: Scene, is_same: bool) -> Result<Report, NoMemory>
    requires ready { IsReady parts.old.scene next parts.old.gens parts.old.kept }
    requires same { is_same ≡ true → IsThere (λ frame. ShowScene next frame.planes) parts.old.frame }
    requires current { IsCurrentIn parts.old }
    requires scratch { HasScratch parts.old }
    ensures shown { IfOk result (λ report. IsShown next (model_of parts.old) (model_of parts.new) report) }
    ensures err { OnErr result (IsUnshown next (model_of parts.old) (model_of parts.new)) }
    ensures fresh { IsFreshIn parts.new }
    ensures current { IsCurrentIn parts.new }
    ensures scratch { HasScratch parts.new }
{
    let prepared = prepare(parts.alloc, &next)?;
    make_room(&mut parts.scratch, prepared.slices.as_slice())?;
    let other = other_frame(parts.alloc, &parts.frame, &next)?;
    let drawn = draw(parts, prepared.slices.as_slice(), &next)?;
    if is_same && has_count(parts) {
        return Ok(settle(parts, next, drawn));
    }
    Ok(finish(parts, next, &prepared, other, drawn))
}

/// Whether a transaction does nothing to a scene that the last frame shows.
fn changes_nothing(parts: &Parts, txn: &Txn<'_>) -> bool
    ensures { result ≡ true → (parts.now.is_current ≡ true) × (txn.now.ops ≡ []) }
{
    parts.is_current && txn.ops().is_empty()
}

/// Applies a transaction, and shows its frame where it asks for one.
pub(crate) fn apply(parts: &mut Parts, txn: &Txn<'_>) -> Result<Answer, ApplyError>
    requires fresh { IsFreshIn parts.old }
    requires current { IsCurrentIn parts.old }
    requires scratch { HasScratch parts.old }
    ensures applies { Applies txn.now (model_of parts.old) (model_of parts.new) result }
    ensures fresh { IsFreshIn parts.new }
    ensures current { IsCurrentIn parts.new }
    ensures scratch { HasScratch parts.new }
{
    next_laws();
    know_scene(&parts.scene);
    let next = parts.scene.next(txn, &mut parts.gens)?;
    know_scene(&next);
    drop_tiles(&mut parts.kept, txn, parts.scene.policy());
    let is_same = changes_nothing(parts, txn);
    if !txn.frame() {
        parts.scene = next;
        parts.is_current = is_same;
        return Ok(Answer::Accepted);
    }
    let report = show(parts, next, is_same)?;
    Ok(Answer::Framed(report))
}
