//! Display lists with every kind of item, part by part.

use std::alloc::{AllocError, Global};

/// Stands for no chain and for no property.
const NONE: u16 = 65_535;

/// The bytes of a display list so far.
#[derive(Drop)]
pub(super) struct Items {
    bytes: Vec<u8>,
}

impl Items {
    pub(super) fn new(alloc: Global) -> Items {
        Items {
            bytes: Vec::new(alloc),
        }
    }

    /// The operation that sets this list, with epoch 1.
    pub(super) fn set_list(mut self, alloc: Global) -> Result<Vec<u8>, AllocError> {
        self.put(&[0])?;
        let size = u32::try_from(self.bytes.len()).unwrap_or(0);
        let mut operation = Vec::new(alloc);
        operation.extend_from_slice(&[1, 1, 0, 0, 0])?;
        operation.extend_from_slice(&size.to_le_bytes())?;
        operation.extend_from_slice(self.bytes.as_slice())?;
        Ok(operation)
    }

    fn put(&mut self, bytes: &[u8]) -> Result<(), AllocError> {
        self.bytes.extend_from_slice(bytes)
    }

    /// A rectangle.
    fn rect(&mut self, corners: [i32; 4]) -> Result<(), AllocError> {
        for corner in corners {
            self.put(&corner.to_le_bytes())?;
        }
        Ok(())
    }

    /// A tag, a node, a chain and a rectangle.
    fn spot(
        &mut self,
        tag: u8,
        node: u16,
        chain: u16,
        corners: [i32; 4],
    ) -> Result<(), AllocError> {
        self.put(&[tag])?;
        self.put(&node.to_le_bytes())?;
        self.put(&chain.to_le_bytes())?;
        self.rect(corners)
    }

    /// Node 1, a scroll frame of id 1 that can be scrolled by 990 pixels down; a rectangle, a rounded one and one that
    /// keeps what is outside of it as clips; a chain of each.
    pub(super) fn definitions(&mut self) -> Result<(), AllocError> {
        self.put(&[2, 0, 0, 1, 0])?;
        self.rect([10, 10, 10, 1000])?;
        self.put(&[3, 1, 0])?;
        self.rect([1, 0, 12, 6])?;
        self.put(&[4, 0, 0, 0])?;
        self.rect([2, 1, 15, 8])?;
        self.put(&[3, 0, 3, 0, 3, 0, 3, 0, 3, 0, 3, 0, 3, 0, 3, 0])?;
        self.put(&[4, 0, 0, 1])?;
        self.rect([5, 2, 9, 5])?;
        self.put(&[1, 0, 1, 0, 1, 0, 1, 0, 1, 0, 1, 0, 1, 0, 1, 0])?;
        for clip in 0..3u8 {
            self.put(&[5, 255, 255, 1, clip, 0])?;
        }
        Ok(())
    }

    pub(super) fn solid(
        &mut self,
        node: u16,
        chain: u16,
        corners: [i32; 4],
        colour: [u8; 4],
    ) -> Result<(), AllocError> {
        self.spot(6, node, chain, corners)?;
        self.put(&colour)
    }

    /// Image 9, repeated from its second texel on.
    fn image(&mut self, corners: [i32; 4]) -> Result<(), AllocError> {
        self.spot(7, 0, NONE, corners)?;
        self.put(&[9, 0, 0, 0, 1, 0, 0, 0])
    }

    /// A border of one to three pixels with round corners.
    fn border(&mut self, corners: [i32; 4]) -> Result<(), AllocError> {
        self.spot(8, 0, 1, corners)?;
        self.put(&[1, 0, 2, 0, 3, 0, 1, 0])?;
        self.put(&[90, 0, 0, 90, 0, 80, 0, 80, 0, 0, 70, 255, 10, 10, 10, 100])?;
        self.put(&[2, 0, 2, 0, 2, 0, 2, 0, 2, 0, 2, 0, 2, 0, 2, 0])
    }

    /// A text of glyph 5 of font 1 twice, the second one outside of its rectangle.
    fn text(&mut self, corners: [i32; 4]) -> Result<(), AllocError> {
        self.spot(9, 1, NONE, corners)?;
        self.put(&[1, 0, 40, 50, 60, 200, 2, 0])?;
        self.put(&[5, 0, 3, 0, 0, 0, 2, 0, 0, 0])?;
        self.put(&[5, 0, 14, 0, 0, 0, 4, 0, 0, 0])
    }

    /// The beginning of a context under a chain, with a mode and an opacity.
    fn push(&mut self, chain: u16, mode: u8, opacity: u8) -> Result<(), AllocError> {
        self.put(&[10, 0, 0])?;
        self.put(&chain.to_le_bytes())?;
        self.put(&[opacity, 255, 255, mode, 0])
    }

    /// Every kind of item, some of them in a context of a mode inside another one.
    pub(super) fn all(&mut self, mode: u8) -> Result<(), AllocError> {
        self.definitions()?;
        self.solid(0, NONE, [-3, 0, 9, 4], [10, 60, 90, 255])?;
        self.image([2, 1, 14, 7])?;
        self.push(1, mode, 255)?;
        self.solid(1, 0, [0, 0, 16, 9], [40, 0, 90, 120])?;
        self.push(NONE, 8u8.saturating_sub(mode), 130)?;
        self.text([1, 0, 13, 6])?;
        self.solid(0, 2, [3, 1, 40, 8], [70, 70, 0, 70])?;
        self.put(&[11])?;
        self.border([1, 1, 15, 9])?;
        self.put(&[11])?;
        self.spot(12, 0, 1, [3, 2, 17, 8])?;
        self.put(&[1])?;
        self.spot(13, 0, NONE, [0, 0, 4, 4])?;
        self.put(&[7, 0, 0, 0])?;
        self.solid(1, NONE, [12, 3, 17, 20], [0, 0, 0, 200])
    }
}
