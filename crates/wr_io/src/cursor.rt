//! Numbers and pieces from bytes, from left to right.

ghost use Rattle.std.specs.Prelude.{◌≡◌, Option};
ghost use Rattle.std.specs.Option.{option_map};
ghost use Rattle.std.specs.Int.{w16, w32};
ghost use Rattle.wr_io.specs.Reading.{Takes, byte_at, bytes_at, number_at, signed_at};

use std::marker::Model;

/// A position in some bytes, from which they are read. Each reader answers `None`, and the cursor stays,
/// exactly where fewer bytes are left than it takes.
#[derive(Debug, Drop)]
pub struct Cursor<'a> {
    rest: &'a [u8],
    at: usize,
}

impl<'a> Model for Cursor<'a> {
    ghost use Rattle.std.specs.Prelude.{◌+◌, ◌<◌, ◌^◌, length};
    ghost use Rattle.wr_io.specs.Unread.{Unread};

    ghost Value = { Unread };

    ghost view = { λ c. record { at = c.at; bytes = c.rest.now } };

    ghost invariant = { λ c. c.at + length c.rest.now < 2 ^ 64 };
}

impl<'a> Cursor<'a> {
    /// At the first of the bytes.
    pub fn new(bytes: &'a [u8]) -> Cursor<'a>
        ensures { result ≡ record { at = 0; bytes = bytes.now } }
    {
        Cursor { rest: bytes, at: 0 }
    }

    /// The position of the next byte: its offset in bytes from the first.
    pub fn at(&self) -> usize
        ensures { result ≡ self.now.at }
    {
        self.at
    }

    /// The next byte.
    #[tactic(auto, unfolding(crate::specs::Reading::byte_at))]
    pub fn u8(&mut self) -> Option<u8>
        ensures { Takes result self.old self.new (byte_at self.old) }
    {
        let (first, rest) = self.rest.split_first()?;
        self.rest = rest;
        self.at += 1;
        Some(*first)
    }

    /// A number of two bytes, the lowest first.
    #[tactic(auto, unfolding(crate::specs::Reading::number_at))]
    pub fn u16(&mut self) -> Option<u16>
        ensures { Takes result self.old self.new (number_at w16 self.old) }
    {
        if self.rest.len() < 2 {
            return None;
        }
        let (piece, rest) = self.rest.split_at(2);
        let number = u16::from_le_bytes([piece[0], piece[1]]);
        self.rest = rest;
        self.at += 2;
        Some(number)
    }

    /// A number of four bytes, the lowest first.
    #[tactic(auto, unfolding(crate::specs::Reading::number_at))]
    pub fn u32(&mut self) -> Option<u32>
        ensures { Takes result self.old self.new (number_at w32 self.old) }
    {
        if self.rest.len() < 4 {
            return None;
        }
        let (piece, rest) = self.rest.split_at(4);
        let number = u32::from_le_bytes([piece[0], piece[1], piece[2], piece[3]]);
        self.rest = rest;
        self.at += 4;
        Some(number)
    }

    /// A number of four bytes in two's complement, the lowest first.
    #[tactic(auto, unfolding(crate::specs::Reading::signed_at))]
    pub fn i32(&mut self) -> Option<i32>
        ensures { Takes result self.old self.new (signed_at self.old) }
    {
        Some(self.u32()?.cast_signed())
    }

    /// The next `n` bytes.
    #[tactic(auto, unfolding(crate::specs::Reading::bytes_at))]
    pub fn bytes(&mut self, n: usize) -> Option<&'a [u8]>
        ensures { Takes (option_map (λ piece. piece.now) result) self.old self.new (bytes_at n self.old) }
    {
        if self.rest.len() < n {
            return None;
        }
        let (piece, rest) = self.rest.split_at(n);
        self.rest = rest;
        self.at += n;
        Some(piece)
    }
}
