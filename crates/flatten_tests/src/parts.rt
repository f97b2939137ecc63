//! Display lists as bytes, part by part.

use std::alloc::{AllocError, Global};

/// Stands for no chain and for no property.
pub const NONE: u16 = 65535;

/// The bytes of a display list so far, and what the items that come next look like.
#[derive(Drop)]
pub struct ListBytes {
    bytes: Vec<u8>,
    /// The sides of their squares, in pixels.
    pub side: i32,
    /// Their colour: blue, green, red, alpha.
    pub colour: [u8; 4],
    /// The mode of contexts, by number.
    pub mode: u8,
}

impl ListBytes {
    pub fn new(alloc: Global) -> ListBytes {
        ListBytes {
            bytes: Vec::new(alloc),
            side: 2,
            colour: [9, 9, 9, 255],
            mode: 0,
        }
    }

    /// The bytes with their end.
    pub fn finish(self) -> Result<Vec<u8>, AllocError> {
        let mut bytes = self.bytes;
        bytes.push(0)?;
        Ok(bytes)
    }

    fn two(&mut self, n: u16) -> Result<(), AllocError> {
        self.bytes.extend_from_slice(&n.to_le_bytes())
    }

    fn four(&mut self, n: i32) -> Result<(), AllocError> {
        self.bytes.extend_from_slice(&n.to_le_bytes())
    }

    /// A square.
    fn square(&mut self, x: i32, y: i32) -> Result<(), AllocError> {
        self.four(x)?;
        self.four(y)?;
        self.four(x.saturating_add(self.side))?;
        self.four(y.saturating_add(self.side))
    }

    /// The colour of the items that come next.
    fn colour(&mut self) -> Result<(), AllocError> {
        let colour = self.colour;
        self.bytes.extend_from_slice(&colour)
    }

    /// A tag, a node, a chain and a square.
    fn spot(&mut self, tag: u8, node: u16, chain: u16, x: i32, y: i32) -> Result<(), AllocError> {
        self.bytes.push(tag)?;
        self.two(node)?;
        self.two(chain)?;
        self.square(x, y)
    }

    /// A reference frame, moved across.
    pub fn frame(&mut self, parent: u16, x: i32) -> Result<(), AllocError> {
        self.bytes.push(1)?;
        self.two(parent)?;
        self.four(x)?;
        self.four(0)?;
        self.two(NONE)
    }

    /// A scroll frame that can be scrolled by 990 pixels down.
    pub fn scroll_frame(&mut self, parent: u16, sid: u16) -> Result<(), AllocError> {
        self.bytes.push(2)?;
        self.two(parent)?;
        self.two(sid)?;
        for side in [10, 10, 10, 1000] {
            self.four(side)?;
        }
        Ok(())
    }

    /// A square as a clip.
    pub fn clip(&mut self, node: u16, x: i32) -> Result<(), AllocError> {
        self.bytes.push(3)?;
        self.two(node)?;
        self.square(x, 0)
    }

    /// A square with corners of one pixel as a clip, which keeps what is inside it or outside.
    pub fn round_clip(&mut self, node: u16, x: i32, is_out: bool) -> Result<(), AllocError> {
        self.bytes.push(4)?;
        self.two(node)?;
        self.bytes.push(u8::from(is_out))?;
        self.square(x, 0)?;
        for _ in 0..8 {
            self.two(1)?;
        }
        Ok(())
    }

    /// A chain of one clip.
    pub fn chain(&mut self, parent: u16, clip: u16) -> Result<(), AllocError> {
        self.bytes.push(5)?;
        self.two(parent)?;
        self.bytes.push(1)?;
        self.two(clip)
    }

    /// A chain without clips of its own.
    pub fn bare_chain(&mut self, parent: u16) -> Result<(), AllocError> {
        self.bytes.push(5)?;
        self.two(parent)?;
        self.bytes.push(0)?;
        Ok(())
    }

    pub fn solid(&mut self, node: u16, chain: u16, x: i32, y: i32) -> Result<(), AllocError> {
        self.spot(6, node, chain, x, y)?;
        self.colour()
    }

    /// The image of a key.
    pub fn image(&mut self, x: i32, key: i32) -> Result<(), AllocError> {
        self.spot(7, 0, NONE, x, 0)?;
        self.four(key)?;
        self.bytes.extend_from_slice(&[0, 0, 0, 0])
    }

    /// A text of one glyph of font 1, three pixels from its node.
    pub fn text(&mut self, node: u16, x: i32, glyph: u16) -> Result<(), AllocError> {
        self.spot(9, node, NONE, x, 0)?;
        self.bytes.extend_from_slice(&[1, 0])?;
        self.colour()?;
        self.bytes.extend_from_slice(&[1, 0])?;
        self.two(glyph)?;
        self.four(3)?;
        self.four(0)
    }

    /// A border of one pixel.
    pub fn border(&mut self, x: i32) -> Result<(), AllocError> {
        self.spot(8, 0, NONE, x, 0)?;
        self.bytes.extend_from_slice(&[1, 0, 1, 0, 1, 0, 1, 0])?;
        for _ in 0..4 {
            self.colour()?;
        }
        self.bytes.extend_from_slice(&[0; 16])
    }

    /// The beginning of a context.
    pub fn push(
        &mut self,
        node: u16,
        chain: u16,
        opacity: u8,
        property: u16,
    ) -> Result<(), AllocError> {
        self.bytes.push(10)?;
        self.two(node)?;
        self.two(chain)?;
        self.bytes.push(opacity)?;
        self.two(property)?;
        self.bytes.extend_from_slice(&[self.mode, 0])
    }

    pub fn pop(&mut self) -> Result<(), AllocError> {
        self.bytes.push(11)?;
        Ok(())
    }

    pub fn iframe(
        &mut self,
        node: u16,
        chain: u16,
        x: i32,
        pipeline: u8,
    ) -> Result<(), AllocError> {
        self.spot(12, node, chain, x, 0)?;
        self.bytes.push(pipeline)?;
        Ok(())
    }

    pub fn hit_area(&mut self) -> Result<(), AllocError> {
        self.spot(13, 0, NONE, 0, 0)?;
        self.four(7)
    }
}
