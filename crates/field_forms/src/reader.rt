//! Fields of bytes, each with the first fault.

ghost use Rattle.std.specs.Prelude.{◌≡◌, ◌<◌, ◌^◌, ◌≤◌, length, IfOk};
ghost use Rattle.std.specs.Int.{w16, w32};
ghost use Rattle.wr_io.specs.Unread.{Unread};
ghost use Rattle.field_forms.specs.Form.{piece, read, nothing_left};
ghost use Rattle.field_forms.specs.Outcome.{Gives, Reads, ReadsBy};
ghost use Rattle.field_forms.specs.Numbers.{byte, number, signed, any_colour};

use crate::errors::fault;
use blend_rules::Px;
use std::marker::Model;
use wr_io::{Code, Cursor, DecodeError};

/// Reads fields from left to right. A method that answers an error refuses at the position of the first
/// field that isn't whole or fails a check; what the reader does then is open.
#[derive(Debug, Drop)]
pub struct Reader<'a> {
    cursor: Cursor<'a>,
}

impl<'a> Model for Reader<'a> {
    ghost use Rattle.std.specs.Prelude.{◌+◌, ◌<◌, ◌^◌, length};
    ghost use Rattle.wr_io.specs.Unread.{Unread};

    ghost Value = { Unread };

    ghost view = { λ r. r.cursor };

    ghost invariant = { λ r. r.cursor.at + length r.cursor.bytes < 2 ^ 32 };
}

impl<'a> Reader<'a> {
    /// At the first of the bytes, which are fewer than 2^32.
    pub fn new(bytes: &'a [u8]) -> Reader<'a>
        requires { length bytes.now < 2 ^ 32 }
        ensures { result ≡ record { at = 0; bytes = bytes.now } }
    {
        Reader {
            cursor: Cursor::new(bytes),
        }
    }

    /// The position of the next byte, its offset in bytes.
    #[inline(always)]
    pub fn at(&self) -> u32
        ensures { result ≡ self.now.at }
    {
        self.cursor.at() as u32
    }

    /// Nothing more is left, else the next byte is a trailing one.
    #[tactic(auto, unfolding(wr_io::specs::Reading::bytes_at))]
    pub fn finish(&mut self) -> Result<(), DecodeError>
        ensures { Gives result (nothing_left self.old) }
    {
        let at = self.at();
        match self.cursor.bytes(1) {
            Some(_) => Err(fault(Code::Trailing, at)),
            None => Ok(()),
        }
    }

    /// The next `n` bytes.
    #[inline(always)]
    #[tactic(auto, unfolding(wr_io::specs::Reading::bytes_at))]
    pub fn bytes(&mut self, n: usize) -> Result<&'a [u8], DecodeError>
        ensures { ReadsBy (λ b. b.now) result self.new (read (piece n) self.old) }
    {
        let at = self.at();
        match self.cursor.bytes(n) {
            Some(found) => Ok(found),
            None => Err(fault(Code::Short, at)),
        }
    }

    /// A byte.
    #[inline(always)]
    #[tactic(auto, unfolding(crate::specs::Numbers::byte, wr_io::specs::Reading::bytes_at))]
    pub fn byte(&mut self) -> Result<u8, DecodeError>
        ensures { Reads result self.new (read byte self.old) }
    {
        let at = self.at();
        match self.cursor.bytes(1) {
            Some(found) => Ok(found[0]),
            None => Err(fault(Code::Short, at)),
        }
    }

    /// A number of two bytes, the lowest first.
    #[inline(always)]
    #[tactic(auto, unfolding(crate::specs::Numbers::number, wr_io::specs::Reading::number_at))]
    pub fn u16(&mut self) -> Result<u16, DecodeError>
        ensures { Reads result self.new (read (number w16) self.old) }
    {
        let at = self.at();
        match self.cursor.u16() {
            Some(n) => Ok(n),
            None => Err(fault(Code::Short, at)),
        }
    }

    /// A number of four bytes, the lowest first.
    #[inline(always)]
    #[tactic(auto, unfolding(crate::specs::Numbers::number, wr_io::specs::Reading::number_at))]
    pub fn u32(&mut self) -> Result<u32, DecodeError>
        ensures { Reads result self.new (read (number w32) self.old) }
    {
        let at = self.at();
        match self.cursor.u32() {
            Some(n) => Ok(n),
            None => Err(fault(Code::Short, at)),
        }
    }

    /// A number of four bytes in two's complement, the lowest first.
    #[inline(always)]
    #[tactic(auto, unfolding(crate::specs::Numbers::signed))]
    pub fn i32(&mut self) -> Result<i32, DecodeError>
        ensures { Reads result self.new (read signed self.old) }
    {
        Ok(self.u32()?.cast_signed())
    }

    /// Blue, green, red and alpha, premultiplied or not.
    #[inline(always)]
    #[tactic(auto, unfolding(crate::specs::Numbers::any_colour, wr_io::specs::Reading::bytes_at))]
    pub fn any_colour(&mut self) -> Result<Px, DecodeError>
        ensures { Reads result self.new (read any_colour self.old) }
    {
        let at = self.at();
        match self.cursor.bytes(4) {
            Some(found) => Ok(Px {
                b: found[0],
                g: found[1],
                r: found[2],
                a: found[3],
            }),
            None => Err(fault(Code::Short, at)),
        }
    }
}
