//! The records of frames in what was written.

/// The pixels of a frame, and how many stand in a row.
#[derive(Clone, Copy)]
pub(super) struct Shown<'a> {
    width: usize,
    pixels: &'a [u8],
}

impl<'a> Shown<'a> {
    /// The pixel at these coordinates.
    pub(super) fn pixel(self, x: usize, y: usize) -> Option<&'a [u8]> {
        let start = y
            .saturating_mul(self.width)
            .saturating_add(x)
            .saturating_mul(4);
        self.pixels.get(start..start.saturating_add(4))
    }

    /// All pixels.
    pub(super) fn bytes(self) -> &'a [u8] {
        self.pixels
    }
}

/// Width and height of the frame that these bytes begin with, and where its pixels start.
fn head(record: &[u8]) -> Option<(usize, usize, usize)> {
    match record {
        [b'F', a, b, c, d, drawn, ..] => {
            let width = usize::from(u16::from_le_bytes([*a, *b]));
            let height = usize::from(u16::from_le_bytes([*c, *d]));
            Some((
                width,
                height,
                usize::from(*drawn).saturating_mul(5).saturating_add(6),
            ))
        }
        _ => None,
    }
}

/// The length of the record that these bytes begin with.
fn length(record: &[u8]) -> Option<usize> {
    match record.first() {
        Some(b'A') => Some(1),
        Some(b'X') => Some(6),
        _ => {
            let (width, height, start) = head(record)?;
            Some(
                width
                    .saturating_mul(height)
                    .saturating_mul(4)
                    .saturating_add(start),
            )
        }
    }
}

/// The frame that answers the transaction of this number, from 0.
pub(super) fn frame_at(out: &[u8], number: usize) -> Option<Shown<'_>> {
    let mut rest = out.get(4..)?;
    for _ in 0..number {
        rest = rest.get(length(rest)?..)?;
    }
    let (width, _, start) = head(rest)?;
    let pixels = rest.get(start..length(rest)?)?;
    Some(Shown { width, pixels })
}

/// How many tiles were kept after the frame of this number, from 0, and how many of their pixels it drew. Each transaction
/// has to be answered by a frame and its statistics.
pub(super) fn statistics_at(out: &[u8], number: usize) -> Option<(u32, u64)> {
    let mut rest = out.get(4..)?;
    for _ in 0..number {
        let after = rest.get(length(rest)?..)?;
        rest = after.get(13..)?;
    }
    match rest.get(length(rest)?..)? {
        [b'S', a, b, c, d, e, f, g, h, i, j, k, l, ..] => Some((
            u32::from_le_bytes([*a, *b, *c, *d]),
            u64::from_le_bytes([*e, *f, *g, *h, *i, *j, *k, *l]),
        )),
        _ => None,
    }
}
