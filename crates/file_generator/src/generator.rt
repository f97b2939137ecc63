//! A generated file, a payload at a time or whole.

ghost use Rattle.std.specs.Prelude.{◌≡◌, ◌++◌, ◌+◌, ◌<◌, ◌≤◌, ◌^◌, length, IfOk, OnOk};
ghost use Rattle.file_generator.specs.Files.{after_payload, file, framed, next_payload};
ghost use Rattle.file_generator.specs.Laws.{IsShort};

use crate::limits::MAX_TRANSACTIONS;
use crate::rolls::Die;
use field_forms::{put_byte, put_bytes, put_u32};
use std::alloc::{AllocError, Global};
use std::marker::Model;
use wr_geom::NoMemory;

/// The payloads of a generated file, one after another.
#[derive(Debug, Drop)]
pub struct Generator {
    die: Die,
    next: u32,
    list: Vec<u8>,
}

impl Model for Generator {
    ghost use Rattle.file_generator.specs.Files.{Generating};

    ghost Value = { Generating };

    ghost view = { λ g. record { next = g.next; state = g.die.state } };
}

impl Generator {
    /// At the file's start. It takes no memory.
    pub fn new(alloc: Global, number: u64) -> Generator
        ensures { result ≡ record { next = 0; state = number } }
    {
        Generator {
            die: Die::new(number),
            next: 0,
            list: Vec::new(alloc),
        }
    }

    /// Puts the next payload into `payload`.
    pub fn put_next(&mut self, payload: &mut Vec<u8>) -> Result<(), AllocError>
        requires { self.old.next < MAX_TRANSACTIONS }
        ensures payload { OnOk result (payload.new.items ≡ next_payload self.old) }
        ensures after { OnOk result (self.new ≡ after_payload self.old) }
        ensures short { OnOk result (IsShort payload.new.items) }
    {
        payload.clear();
        self.die.put_payload(payload, &mut self.list, self.next)?;
        self.next += 1;
        Ok(())
    }
}

/// Appends a payload after T and its length.
fn put_framed(out: &mut Vec<u8>, payload: &[u8]) -> Result<(), AllocError>
    requires { IsShort payload.now }
    ensures { OnOk result (out.new.items ≡ out.old.items ++ framed payload.now) }
{
    put_byte(out, b'T')?;
    put_u32(out, payload.len() as u32)?;
    put_bytes(out, payload)
}

/// The file of `count` transactions that a number makes, 1 to 100,000 of them: the input that `load` replays.
#[tactic(auto, unfolding(crate::specs::Files::file))]
pub fn generate(alloc: Global, number: u64, count: u32) -> Result<Vec<u8>, NoMemory>
    requires { count ≤ MAX_TRANSACTIONS }
    ensures { IfOk result (λ bytes. bytes.items ≡ file number count) }
{
    let mut generator = Generator::new(alloc, number);
    let mut payload = Vec::new(alloc);
    let mut out = Vec::from_slice(alloc, b"WRT1")?;
    for _ in 0..count {
        generator.put_next(&mut payload)?;
        put_framed(&mut out, payload.as_slice())?;
    }
    put_byte(&mut out, b'Z')?;
    Ok(out)
}
