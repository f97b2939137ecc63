//! The parts of a list, one after another.

ghost use Rattle.std.specs.Prelude.{◌≡◌, ◌≤◌, length};
ghost use Rattle.field_forms.specs.Form.{read};
ghost use Rattle.field_forms.specs.Outcome.{Reads};
ghost use Rattle.display_list.specs.Parts.{end, next_part};

use crate::builder::Builder;
use crate::definitions::read_definition;
use crate::items::read_item;
use crate::tags::{CHAIN, END};
use crate::token::Part;
use field_forms::{Reader, fault};
use std::alloc::Global;
use wr_io::{Code, DecodeError};

#[tactic(auto, unfolding(crate::specs::Parts::end))]
fn read_end(reader: &mut Reader<'_>, depth: usize, at: u32) -> Result<Option<Part>, DecodeError>
    ensures { Reads result reader.new (read (end depth at) reader.old) }
{
    if depth != 0 {
        return Err(fault(Code::Nesting, at));
    }
    Ok(None)
}

/// The next part, after those that were built; none at the End. An Iframe names no pipeline below
/// `min_pipeline`.
#[inline(always)]
#[tactic(auto, unfolding(crate::specs::Parts::next_part))]
pub(crate) fn read_next_part(
    reader: &mut Reader<'_>,
    alloc: Global,
    built: &Builder,
    min_pipeline: u8,
) -> Result<Option<Part>, DecodeError>
    ensures { Reads result reader.new (read (next_part min_pipeline built.now) reader.old) }
{
    let at = reader.at();
    let tag = reader.byte()?;
    if tag == END {
        return read_end(reader, built.depth(), at);
    }
    if tag <= CHAIN {
        return Ok(Some(read_definition(reader, alloc, built, at, tag)?));
    }
    Ok(Some(Part::Item(read_item(reader, alloc, built, min_pipeline, at, tag)?)))
}
