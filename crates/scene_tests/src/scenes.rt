//! What each operation leaves.

use crate::stage::{Stage, on_a_stage};
use blend_rules::Px;
use pipelines::{Change, Pipelines};
use scene_state::{Policy, Scene, know_scene};
use wr_geom::NoMemory;

/// The policy of a scene before the first transaction.
const POLICY: Policy = Policy {
    tw: 256,
    th: 256,
    budget: 512,
};

/// Whether nothing is shown or stored.
fn is_empty(scene: &Scene) -> bool {
    scene.list(0).is_none() && !scene.is_drawn(0) && scene.store().pixels() == 0
}

/// Whether the view, its colour and the policy are those before the first transaction.
fn starts(stage: &mut Stage) -> Result<bool, (u8, u32)> {
    let scene = &stage.scene;
    let shown = scene.view() == (1, 1) && scene.clear() == Px::CLEAR;
    Ok(shown && scene.policy() == POLICY && is_empty(scene))
}

#[test]
fn a_scene_starts_with_nothing(rt: HostRuntime) {
    assert!(rt; on_a_stage(rt.alloc(), starts) == Ok(true));
}

#[test]
fn facts_of_scenes(rt: HostRuntime) {
    know_scene(&Scene::start(rt.alloc()));
}

/// A view of 256 by 2 pixels over this colour.
const SET_VIEW: [u8; 9] = [10, 0, 1, 2, 0, 3, 4, 5, 6];

const CLEAR: Px = Px {
    b: 3,
    g: 4,
    r: 5,
    a: 6,
};

/// Whether the view and its colour are set.
fn sets_a_view(stage: &mut Stage) -> Result<bool, (u8, u32)> {
    stage.apply(0, 1, &SET_VIEW)?;
    Ok(stage.scene.view() == (256, 2) && stage.scene.clear() == CLEAR)
}

#[test]
fn a_view_is_set(rt: HostRuntime) {
    assert!(rt; on_a_stage(rt.alloc(), sets_a_view) == Ok(true));
}

/// Tiles of 64 by 256 pixels of which 9 are kept, and then all are dropped.
const SET_POLICY: [u8; 10] = [11, 64, 0, 0, 1, 9, 0, 0, 0, 12];

const SMALL_TILES: Policy = Policy {
    tw: 64,
    th: 256,
    budget: 9,
};

/// Whether the policy is set.
fn sets_a_policy(stage: &mut Stage) -> Result<bool, (u8, u32)> {
    stage.apply(0, 2, &SET_POLICY)?;
    Ok(stage.scene.policy() == SMALL_TILES)
}

#[test]
fn a_policy_is_set(rt: HostRuntime) {
    assert!(rt; on_a_stage(rt.alloc(), sets_a_policy) == Ok(true));
}

/// The list without items, of epoch 7.
const EMPTY_LIST: [u8; 10] = [1, 7, 0, 0, 0, 1, 0, 0, 0, 0];

const REMOVE: [u8; 1] = [2];

/// Whether pipeline 2 has a list, and pipeline 1 has none.
fn has_a_list(scene: &Scene) -> bool {
    let listed = scene.pipelines().get(2).listed().is_some() && scene.list(2).is_some();
    listed && scene.epoch(2) == Some(7) && scene.list(1).is_none()
}

/// Whether a list is set, and goes with its own pipeline alone.
fn sets_and_removes(stage: &mut Stage) -> Result<bool, (u8, u32)> {
    stage.apply(2, 1, &EMPTY_LIST)?;
    stage.apply(1, 1, &REMOVE)?;
    let kept = has_a_list(&stage.scene);
    stage.apply(2, 1, &REMOVE)?;
    Ok(kept && stage.scene.epoch(2).is_none() && stage.scene.list(2).is_none())
}

#[test]
fn a_list_is_set_and_removed(rt: HostRuntime) {
    assert!(rt; on_a_stage(rt.alloc(), sets_and_removes) == Ok(true));
}

/// Scroll number 3 to (5, -2), offset property 4 to (6, 0) and opacity property 8 to 9.
const MOVES: [u8; 28] = [
    3, 3, 0, 5, 0, 0, 0, 254, 255, 255, 255, // Scroll
    4, 0, 4, 0, 6, 0, 0, 0, 0, 0, 0, 0, // SetOffset
    4, 1, 8, 0, 9, // SetOpacity
];

/// Whether pipeline 1, which has no list, has these positions and properties, and pipeline 0 has none.
fn stores_positions(stage: &mut Stage) -> Result<bool, (u8, u32)> {
    stage.apply(1, 3, &MOVES)?;
    let moves = stage.scene.moves(1);
    let placed = moves.scroll(3) == Some((5, -2)) && moves.offset(4) == Some((6, 0));
    let seen = moves.opacity(8) == Some(9) && moves.opacity(4).is_none();
    Ok(placed && seen && stage.scene.moves(0).is_empty())
}

#[test]
fn positions_need_no_list(rt: HostRuntime) {
    assert!(rt; on_a_stage(rt.alloc(), stores_positions) == Ok(true));
}

/// Scroll number 3 to (1, 1).
const SCROLL: [u8; 11] = [3, 3, 0, 1, 0, 0, 0, 1, 0, 0, 0];

/// Whether a list that is set leaves what isn't scrolled again.
fn keeps_positions(stage: &mut Stage) -> Result<bool, (u8, u32)> {
    stage.apply(1, 3, &MOVES)?;
    stage.apply(1, 1, &EMPTY_LIST)?;
    stage.apply(1, 1, &SCROLL)?;
    let moves = stage.scene.moves(1);
    let placed = moves.scroll(3) == Some((1, 1)) && moves.offset(4) == Some((6, 0));
    Ok(placed && stage.scene.epoch(1) == Some(7))
}

#[test]
fn a_list_keeps_the_positions(rt: HostRuntime) {
    assert!(rt; on_a_stage(rt.alloc(), keeps_positions) == Ok(true));
}

/// Whether the positions of pipeline 1, which has no list, are removed, and not those of pipeline 0.
fn removes_positions(stage: &mut Stage) -> Result<bool, (u8, u32)> {
    stage.apply(0, 3, &MOVES)?;
    stage.apply(1, 3, &MOVES)?;
    stage.apply(1, 1, &REMOVE)?;
    Ok(stage.scene.moves(1).is_empty() && stage.scene.moves(0).scroll(3) == Some((5, -2)))
}

#[test]
fn a_removed_pipeline_has_no_positions(rt: HostRuntime) {
    assert!(rt; on_a_stage(rt.alloc(), removes_positions) == Ok(true));
}

/// Scroll number 3 to (1, 1), and then the pipeline is removed.
const SCROLL_AND_REMOVE: [u8; 12] = [3, 3, 0, 1, 0, 0, 0, 1, 0, 0, 0, 2];

/// Whether the removal comes after the scroll.
fn applies_in_order(stage: &mut Stage) -> Result<bool, (u8, u32)> {
    stage.apply(0, 2, &SCROLL_AND_REMOVE)?;
    Ok(stage.scene.moves(0).is_empty())
}

#[test]
fn operations_are_applied_in_order(rt: HostRuntime) {
    assert!(rt; on_a_stage(rt.alloc(), applies_in_order) == Ok(true));
}

/// Whether what is removed stays with the owner before.
fn keeps_before(pipelines: &mut Pipelines) -> Result<bool, NoMemory> {
    pipelines.change(3, Change::Opacity { id: 1, opacity: 9 })?;
    let before = pipelines.share()?;
    pipelines.remove(3)?;
    Ok(pipelines.get(3).moves().is_empty() && before.get(3).moves().opacity(1) == Some(9))
}

#[test]
fn owners_of_pipelines_keep_theirs(rt: HostRuntime) {
    let mut pipelines = Pipelines::new(rt.alloc());
    assert!(rt; matches!(keeps_before(&mut pipelines), Ok(true)));
}

/// The list of one Iframe of pipeline 1.
const FRAMED: [u8; 32] = [
    1, 2, 0, 0, 0, 23, 0, 0, 0, // SetList
    12, 0, 0, 255, 255, 1, 0, 0, 0, 1, 0, 0, 0, 3, 0, 0, 0, 3, 0, 0, 0, 1, // Iframe
    0, // End
];

/// Whether pipeline 0 is drawn with a list alone, and pipeline 1 not beside it.
fn draws_the_root(stage: &mut Stage) -> Result<bool, (u8, u32)> {
    stage.apply(1, 1, &EMPTY_LIST)?;
    let undrawn = !stage.scene.is_drawn(0);
    stage.apply(0, 1, &EMPTY_LIST)?;
    Ok(undrawn && stage.scene.is_drawn(0) && !stage.scene.is_drawn(1))
}

#[test]
fn a_list_of_pipeline_0_is_drawn(rt: HostRuntime) {
    assert!(rt; on_a_stage(rt.alloc(), draws_the_root) == Ok(true));
}

/// Whether a pipeline that an Iframe names is drawn with a list alone.
fn draws_an_iframe(stage: &mut Stage) -> Result<bool, (u8, u32)> {
    stage.apply(0, 1, &FRAMED)?;
    let undrawn = !stage.scene.is_drawn(1);
    stage.apply(1, 1, &EMPTY_LIST)?;
    let drawn = stage.scene.drawn();
    Ok(undrawn && drawn[0] && drawn[1] && !drawn[2])
}

#[test]
fn an_iframe_draws_a_pipeline(rt: HostRuntime) {
    assert!(rt; on_a_stage(rt.alloc(), draws_an_iframe) == Ok(true));
}
