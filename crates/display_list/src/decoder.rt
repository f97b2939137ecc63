//! A list from bytes.

ghost use Rattle.std.specs.Prelude.{◌≡◌, ◌≤◌, ◌<◌, ◌^◌, ◌+◌, length, IfOk, IfErr, Ok};
ghost use Rattle.field_forms.specs.Outcome.{Gives, IsWithin};
ghost use Rattle.display_list.specs.ListModel.{ListModel};
ghost use Rattle.display_list.specs.Decoding.{list_at};
ghost use Rattle.display_list.specs.Grammar.{Spells, Fits, FaultIsFirst};

use crate::List;
use crate::builder::Builder;
use crate::parts::read_next_part;
use field_forms::{Reader, fault};
use std::alloc::Global;
use wr_io::{Code, DecodeError};

/// The list that the bytes spell, of the pipeline `own`, which is at most 63: an Iframe names a greater
/// one. There are at most 64 MiB.
pub fn decode(alloc: Global, bytes: &[u8], own: u8) -> Result<List, DecodeError>
    requires pipeline { own ≤ 63 }
    requires size { length bytes.now ≤ 2 ^ 26 }
    // What is answered is spelled so, and fits the pipeline.
    ensures found { IfOk result (λ l. Spells l bytes.now) }
    ensures fits { IfOk result (λ l. Fits own l) }
    // What is spelled so and fits is answered, unless memory runs out.
    ensures only { (l : ListModel) → Spells l bytes.now → Fits own l → Gives result (Ok l) }
    // A fault is the first one, in the bytes or just after them.
    ensures faulty { FaultIsFirst result own bytes.now }
    ensures within { IfErr result (IsWithin (length bytes.now)) }
    // Which fault it is.
    ensures exact { Gives result (list_at own bytes.now) }
{
    read(alloc, bytes, own)
}

fn read(alloc: Global, bytes: &[u8], own: u8) -> Result<List, DecodeError>
    requires pipeline { own ≤ 63 }
    requires size { length bytes.now ≤ 2 ^ 26 }
    ensures { Gives result (list_at own bytes.now) }
{
    let mut reader = Reader::new(bytes);
    let mut builder = Builder::new(alloc)?;
    for _ in 0..bytes.len() + 1 {
        let Some(part) = read_next_part(&mut reader, alloc, &builder, own + 1)? else {
            reader.finish()?;
            return Ok(builder.finish());
        };
        builder.add(alloc, part)?;
    }
    Err(fault(Code::Short, reader.at()))
}
