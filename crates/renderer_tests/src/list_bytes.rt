//! Display lists as bytes, part by part.

use std::alloc::{AllocError, Global};

/// Stands for no chain and for no property.
pub const NONE: u16 = 65535;

/// The bytes of a display list so far, and where the items that come next stand.
#[derive(Drop)]
pub struct ListBytes {
    bytes: Vec<u8>,
    /// Their node.
    pub node: u16,
    /// Their chain.
    pub chain: u16,
}

impl ListBytes {
    pub fn new(alloc: Global) -> ListBytes {
        ListBytes {
            bytes: Vec::new(alloc),
            node: 0,
            chain: NONE,
        }
    }

    /// The bytes with their end.
    pub fn finish(self) -> Result<Vec<u8>, AllocError> {
        let mut bytes = self.bytes;
        bytes.push(0)?;
        Ok(bytes)
    }

    fn u16(&mut self, n: u16) -> Result<(), AllocError> {
        self.bytes.extend_from_slice(&n.to_le_bytes())
    }

    fn i32(&mut self, n: i32) -> Result<(), AllocError> {
        self.bytes.extend_from_slice(&n.to_le_bytes())
    }

    /// A rectangle by its least and its greatest corner.
    fn rect(&mut self, corners: [i32; 4]) -> Result<(), AllocError> {
        for n in corners {
            self.i32(n)?;
        }
        Ok(())
    }

    fn colour(&mut self, colour: [u8; 4]) -> Result<(), AllocError> {
        self.bytes.extend_from_slice(&colour)
    }

    /// Four corners of one radius.
    fn radii(&mut self, radius: u16) -> Result<(), AllocError> {
        for _ in 0..8 {
            self.u16(radius)?;
        }
        Ok(())
    }

    /// A tag, a node, a chain and a rectangle.
    fn spot(&mut self, tag: u8, corners: [i32; 4]) -> Result<(), AllocError> {
        let (node, chain) = (self.node, self.chain);
        self.bytes.push(tag)?;
        self.u16(node)?;
        self.u16(chain)?;
        self.rect(corners)
    }

    /// A reference frame, moved across and by a property.
    pub fn frame(&mut self, parent: u16, x: i32, property: u16) -> Result<(), AllocError> {
        self.bytes.push(1)?;
        self.u16(parent)?;
        self.i32(x)?;
        self.i32(0)?;
        self.u16(property)
    }

    /// A scroll frame of this number, with the sides of its viewport and of its content.
    pub fn scroll_frame(
        &mut self,
        parent: u16,
        sid: u16,
        sides: [i32; 4],
    ) -> Result<(), AllocError> {
        self.bytes.push(2)?;
        self.u16(parent)?;
        self.u16(sid)?;
        self.rect(sides)
    }

    /// A rectangle as a clip.
    pub fn clip(&mut self, node: u16, corners: [i32; 4]) -> Result<(), AllocError> {
        self.bytes.push(3)?;
        self.u16(node)?;
        self.rect(corners)
    }

    /// A rectangle with round corners as a clip, which keeps what is inside it or outside.
    pub fn round_clip(
        &mut self,
        node: u16,
        is_out: bool,
        corners: [i32; 4],
        radius: u16,
    ) -> Result<(), AllocError> {
        self.bytes.push(4)?;
        self.u16(node)?;
        self.bytes.push(u8::from(is_out))?;
        self.rect(corners)?;
        self.radii(radius)
    }

    /// A chain of one clip.
    pub fn chain(&mut self, parent: u16, clip: u16) -> Result<(), AllocError> {
        self.bytes.push(5)?;
        self.u16(parent)?;
        self.bytes.push(1)?;
        self.u16(clip)
    }

    pub fn solid(&mut self, corners: [i32; 4], colour: [u8; 4]) -> Result<(), AllocError> {
        self.spot(6, corners)?;
        self.colour(colour)
    }

    /// The image of a key.
    pub fn image(&mut self, corners: [i32; 4], key: i32) -> Result<(), AllocError> {
        self.spot(7, corners)?;
        self.i32(key)?;
        self.bytes.extend_from_slice(&[0, 0, 0, 0])
    }

    /// A border of these widths, one colour and one radius.
    pub fn border(
        &mut self,
        corners: [i32; 4],
        width: u16,
        colour: [u8; 4],
        radius: u16,
    ) -> Result<(), AllocError> {
        self.spot(8, corners)?;
        for _ in 0..4 {
            self.u16(width)?;
        }
        for _ in 0..4 {
            self.colour(colour)?;
        }
        self.radii(radius)
    }

    /// A glyph of a text.
    fn glyph(&mut self, glyph: u16, x: i32, y: i32) -> Result<(), AllocError> {
        self.u16(glyph)?;
        self.i32(x)?;
        self.i32(y)
    }

    /// A text of two glyphs of font 1, each with the column and row where it stands.
    pub fn text(
        &mut self,
        corners: [i32; 4],
        colour: [u8; 4],
        glyphs: [(u16, i32, i32); 2],
    ) -> Result<(), AllocError> {
        self.spot(9, corners)?;
        self.u16(1)?;
        self.colour(colour)?;
        self.u16(2)?;
        for (glyph, x, y) in glyphs {
            self.glyph(glyph, x, y)?;
        }
        Ok(())
    }

    /// The beginning of a context of a mode by number.
    pub fn push(&mut self, opacity: u8, property: u16, mode: u8) -> Result<(), AllocError> {
        let (node, chain) = (self.node, self.chain);
        self.bytes.push(10)?;
        self.u16(node)?;
        self.u16(chain)?;
        self.bytes.push(opacity)?;
        self.u16(property)?;
        self.bytes.extend_from_slice(&[mode, 0])
    }

    pub fn pop(&mut self) -> Result<(), AllocError> {
        self.bytes.push(11)?;
        Ok(())
    }

    pub fn iframe(&mut self, corners: [i32; 4], pipeline: u8) -> Result<(), AllocError> {
        self.spot(12, corners)?;
        self.bytes.push(pipeline)?;
        Ok(())
    }
}
