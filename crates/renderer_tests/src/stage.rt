//! A renderer on which transactions act one after the other.

ghost use Rattle.std.specs.Prelude.{◌≤◌, ◌^◌, length};

use crate::ops::Ops;
use crate::pixels::{is_painted, shown};
use blend_rules::Px;
use renderer::{Answer, Renderer, Report};
use scene_state::ApplyError;
use std::alloc::Global;
use txn_format::{MAX_PAYLOAD_BYTES, Txn, read_txn};
use wr_geom::NoMemory;
use wr_io::DecodeError;

pub const WHITE: [u8; 4] = [255, 255, 255, 255];

pub const RED: [u8; 4] = [0, 0, 255, 255];

pub const GREEN: [u8; 4] = [0, 255, 0, 255];

/// Black at half opacity.
pub const SHADE: [u8; 4] = [0, 0, 0, 128];

/// A renderer, and whether all was as expected so far.
#[derive(Drop)]
pub struct Stage {
    pub renderer: Renderer,
    pub is_right: bool,
    alloc: Global,
}

/// What a renderer answers to a transaction; None where it refuses it.
fn apply_txn(renderer: &mut Renderer, txn: &Txn<'_>) -> Result<Option<Answer>, NoMemory> {
    match renderer.apply(txn) {
        Ok(answer) => Ok(Some(answer)),
        Err(ApplyError::Fault(_)) => Ok(None),
        Err(ApplyError::NoMemory) => Err(NoMemory),
    }
}

/// What it answers to a payload.
fn apply_bytes(
    alloc: Global,
    renderer: &mut Renderer,
    payload: &[u8],
) -> Result<Option<Answer>, NoMemory>
    requires { length payload.now ≤ 2 ^ 26 }
{
    match read_txn(alloc, payload) {
        Ok(txn) => apply_txn(renderer, &txn),
        Err(DecodeError::Fault(_)) => Ok(None),
        Err(DecodeError::NoMemory) => Err(NoMemory),
    }
}

impl Stage {
    /// Before the first transaction.
    pub fn new(alloc: Global) -> Result<Stage, NoMemory> {
        Ok(Stage {
            renderer: Renderer::new(alloc)?,
            is_right: true,
            alloc,
        })
    }

    /// No operation of a pipeline yet.
    pub fn ops(&self, pipeline: u8) -> Ops {
        Ops::new(self.alloc, pipeline)
    }

    /// The allocator.
    pub fn alloc(&self) -> Global {
        self.alloc
    }

    /// What a payload is answered with; None where it is refused.
    pub fn apply(&mut self, payload: &[u8]) -> Result<Option<Answer>, NoMemory> {
        if payload.len() > MAX_PAYLOAD_BYTES {
            return Ok(None);
        }
        apply_bytes(self.alloc, &mut self.renderer, payload)
    }

    /// Something is expected.
    pub fn expect(&mut self, is_so: bool) {
        self.is_right = self.is_right && is_so;
    }

    /// Applies operations, and expects that they are accepted.
    pub fn accept(&mut self, ops: Ops) -> Result<(), NoMemory> {
        let payload = ops.finish(false)?;
        let answer = self.apply(payload.as_slice())?;
        self.expect(answer == Some(Answer::Accepted));
        Ok(())
    }

    /// Applies operations with a frame, and expects that so many tiles are kept, and so many pixels were drawn.
    pub fn report(&mut self, ops: Ops, tiles: u32, drawn: u64) -> Result<(), NoMemory> {
        let payload = ops.finish(true)?;
        let answer = self.apply(payload.as_slice())?;
        self.expect(answer == Some(Answer::Framed(Report { tiles, drawn })));
        Ok(())
    }

    /// The same, and expects the painter's picture.
    pub fn show(&mut self, ops: Ops, tiles: u32, drawn: u64) -> Result<(), NoMemory> {
        self.report(ops, tiles, drawn)?;
        self.expect_painted();
        Ok(())
    }

    /// Expects a pixel of the last frame.
    pub fn expect_pixel(&mut self, x: u16, y: u16, colour: [u8; 4]) {
        let [b, g, r, a] = colour;
        let found = shown(&self.renderer, x, y);
        self.expect(found == Some(Px { b, g, r, a }));
    }

    /// Expects that the last frame is the painter's picture of the scene.
    pub fn expect_painted(&mut self) {
        let is_so = is_painted(&self.renderer, 1);
        self.expect(is_so);
    }

    /// The same, of some pixels of each row.
    pub fn expect_sample(&mut self) {
        let is_so = is_painted(&self.renderer, 7);
        self.expect(is_so);
    }
}

/// Whether all is as a check on a new renderer expects it.
pub fn on_a_stage<F: FnOnce(&mut Stage) -> Result<(), NoMemory>>(
    alloc: Global,
    check: F,
) -> Result<bool, NoMemory>
    requires { F.IsAlwaysCallable check }
{
    let mut stage = Stage::new(alloc)?;
    check(&mut stage)?;
    Ok(stage.is_right)
}
