//! A scene on which transactions act one after the other.

ghost use Rattle.std.specs.Prelude.{◌≤◌, ◌^◌, length};

use blend_rules::Px;
use image_store::Gens;
use scene_state::{ApplyError, Scene};
use std::alloc::{AllocError, Global};
use txn_format::{MAX_PAYLOAD_BYTES, read_txn};
use wr_io::{DecodeError, Fault};

/// In place of a fault's number and position, where memory runs out or a payload is too long.
pub const NO_FAULT: (u8, u32) = (0, 0);

/// A scene, and the counter of its images and masks.
#[derive(Drop)]
pub struct Stage {
    pub scene: Scene,
    pub gens: Gens,
    pub alloc: Global,
}

/// The payload of a transaction that asks for no frame: so many operations of a pipeline, as bytes.
pub fn payload(alloc: Global, pipeline: u8, count: u8, ops: &[u8]) -> Result<Vec<u8>, AllocError> {
    let mut out = Vec::new(alloc);
    out.extend_from_slice(&[pipeline, 0, count, 0])?;
    out.extend_from_slice(ops)?;
    Ok(out)
}

/// A fault's number and position.
fn numbered(fault: Fault) -> (u8, u32) {
    (fault.code.number(), fault.at)
}

/// The number and the position of the fault for which bytes are refused.
fn read_error(error: DecodeError) -> (u8, u32) {
    match error {
        DecodeError::Fault(fault) => numbered(fault),
        DecodeError::NoMemory => NO_FAULT,
    }
}

/// The number and the position of the fault for which a transaction isn't applied.
fn apply_error(error: ApplyError) -> (u8, u32) {
    match error {
        ApplyError::Fault(fault) => numbered(fault),
        ApplyError::NoMemory => NO_FAULT,
    }
}

/// The scene after a payload, or the number and the position of the fault.
fn next(alloc: Global, payload: &[u8], scene: &Scene, gens: &mut Gens) -> Result<Scene, (u8, u32)>
    requires { length payload.now ≤ 2 ^ 26 }
{
    let txn = match read_txn(alloc, payload) {
        Ok(txn) => txn,
        Err(error) => return Err(read_error(error)),
    };
    match scene.next(&txn, gens) {
        Ok(scene) => Ok(scene),
        Err(error) => Err(apply_error(error)),
    }
}

impl Stage {
    /// Before the first transaction.
    pub fn start(alloc: Global) -> Stage {
        Stage {
            scene: Scene::start(alloc),
            gens: Gens::new(),
            alloc,
        }
    }

    /// The scene after a payload, or the number and the position of the fault.
    fn next(&mut self, payload: &[u8]) -> Result<Scene, (u8, u32)> {
        if payload.len() > MAX_PAYLOAD_BYTES {
            return Err(NO_FAULT);
        }
        next(self.alloc, payload, &self.scene, &mut self.gens)
    }

    /// Applies a payload, or leaves the scene and gives the number and the position of the fault.
    pub fn apply_payload(&mut self, payload: &[u8]) -> Result<(), (u8, u32)> {
        match self.next(payload) {
            Ok(scene) => {
                self.scene = scene;
                Ok(())
            }
            Err(fault) => Err(fault),
        }
    }

    /// Applies so many operations of a pipeline, given as bytes.
    pub fn apply(&mut self, pipeline: u8, count: u8, ops: &[u8]) -> Result<(), (u8, u32)> {
        match payload(self.alloc, pipeline, count, ops) {
            Ok(payload) => self.apply_payload(payload.as_slice()),
            Err(_) => Err(NO_FAULT),
        }
    }

    /// The scene after an operation of pipeline 0, which is not applied.
    pub fn after(&mut self, op: &[u8]) -> Result<Scene, (u8, u32)> {
        match payload(self.alloc, 0, 1, op) {
            Ok(payload) => self.next(payload.as_slice()),
            Err(_) => Err(NO_FAULT),
        }
    }
}

/// What a check answers on a scene before the first transaction.
pub fn on_a_stage<F: FnOnce(&mut Stage) -> Result<bool, (u8, u32)>>(
    alloc: Global,
    check: F,
) -> Result<bool, (u8, u32)>
    requires { F.IsAlwaysCallable check }
{
    let mut stage = Stage::start(alloc);
    check(&mut stage)
}

/// The generation of an image and its first texel.
pub fn image(scene: &Scene, pipeline: u8, key: u32) -> Option<(u64, Px)> {
    let image = scene.store().image(pipeline, key)?;
    if image.w() == 0 || image.h() == 0 {
        return None;
    }
    Some((image.generation(), image.texel(0, 0)))
}

/// The generation of a glyph's mask.
pub fn glyph(scene: &Scene, pipeline: u8, font: u16, glyph: u16) -> Option<u64> {
    let mask = scene.store().glyph(pipeline, font, glyph)?;
    Some(mask.generation())
}
