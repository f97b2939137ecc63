//! A scene on which transactions act one after the other.

use crate::parts::ListBytes;
use image_store::Gens;
use scene_state::Scene;
use std::alloc::{AllocError, Global};
use txn_format::{MAX_PAYLOAD_BYTES, Txn, read_txn};
use wr_geom::NoMemory;

/// A scene, the counter of its images and masks, and whether each payload so far was applied.
#[derive(Drop)]
pub struct Stage {
    pub scene: Scene,
    pub gens: Gens,
    pub is_whole: bool,
    pub alloc: Global,
}

impl Stage {
    /// Before the first transaction.
    pub fn start(alloc: Global) -> Stage {
        Stage {
            scene: Scene::start(alloc),
            gens: Gens::new(),
            is_whole: true,
            alloc,
        }
    }

    fn apply_txn(&mut self, txn: &Txn<'_>) {
        match self.scene.next(txn, &mut self.gens) {
            Ok(scene) => self.scene = scene,
            Err(_) => self.is_whole = false,
        }
    }

    /// Applies a payload.
    fn apply_payload(&mut self, payload: &[u8]) {
        if payload.len() > MAX_PAYLOAD_BYTES {
            self.is_whole = false;
            return;
        }
        match read_txn(self.alloc, payload) {
            Ok(txn) => self.apply_txn(&txn),
            Err(_) => self.is_whole = false,
        }
    }

    /// Applies an operation of a pipeline, given as bytes.
    pub fn apply(&mut self, pipeline: u8, op: &[u8]) -> Result<(), AllocError> {
        let mut payload = Vec::new(self.alloc);
        payload.extend_from_slice(&[pipeline, 0, 1, 0])?;
        payload.extend_from_slice(op)?;
        self.apply_payload(payload.as_slice());
        Ok(())
    }

    /// Sets a pipeline's list.
    pub fn set_list(&mut self, pipeline: u8, list: ListBytes) -> Result<(), AllocError> {
        let bytes = list.finish()?;
        let mut op = Vec::new(self.alloc);
        op.extend_from_slice(&[1, 1, 0, 0, 0])?;
        op.extend_from_slice(&u32::try_from(bytes.len()).unwrap_or(0).to_le_bytes())?;
        op.extend_from_slice(bytes.as_slice())?;
        self.apply(pipeline, op.as_slice())
    }

    /// Scrolls a scroll frame of a pipeline down.
    pub fn scroll(&mut self, pipeline: u8, sid: u8, y: u8) -> Result<(), AllocError> {
        self.apply(pipeline, &[3, sid, 0, 0, 0, 0, 0, y, 0, 0, 0])
    }

    /// Sets an opacity property of a pipeline.
    pub fn set_opacity(&mut self, pipeline: u8, id: u8, opacity: u8) -> Result<(), AllocError> {
        self.apply(pipeline, &[4, 1, id, 0, opacity])
    }
}

/// What a check answers on a scene before the first transaction.
pub fn on_a_stage<F: FnOnce(&mut Stage) -> Result<bool, NoMemory>>(
    alloc: Global,
    check: F,
) -> Result<bool, NoMemory>
    requires { F.IsAlwaysCallable check }
{
    let mut stage = Stage::start(alloc);
    check(&mut stage)
}
