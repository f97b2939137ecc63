//! Transactions as bytes, operation by operation.

use crate::list_bytes::ListBytes;
use std::alloc::{AllocError, Global};

/// The operations of a transaction so far.
#[derive(Drop)]
pub struct Ops {
    alloc: Global,
    bytes: Vec<u8>,
    pipeline: u8,
    count: u16,
}

impl Ops {
    /// No operation of a pipeline.
    pub fn new(alloc: Global, pipeline: u8) -> Ops {
        Ops {
            alloc,
            bytes: Vec::new(alloc),
            pipeline,
            count: 0,
        }
    }

    /// The bytes of the transaction, which asks for a frame or doesn't.
    pub fn finish(self, is_frame: bool) -> Result<Vec<u8>, AllocError> {
        let mut out = Vec::new(self.alloc);
        out.extend_from_slice(&[self.pipeline, u8::from(is_frame)])?;
        out.extend_from_slice(&self.count.to_le_bytes())?;
        out.extend_from_slice(self.bytes.as_slice())?;
        Ok(out)
    }

    /// The tag of another operation.
    fn begin(&mut self, tag: u8) -> Result<(), AllocError> {
        self.count = self.count.wrapping_add(1);
        self.bytes.push(tag)?;
        Ok(())
    }

    fn u16(&mut self, n: u16) -> Result<(), AllocError> {
        self.bytes.extend_from_slice(&n.to_le_bytes())
    }

    fn u32(&mut self, n: u32) -> Result<(), AllocError> {
        self.bytes.extend_from_slice(&n.to_le_bytes())
    }

    /// Sets a list of these bytes.
    pub fn set_list_bytes(&mut self, bytes: &[u8]) -> Result<(), AllocError> {
        self.begin(1)?;
        self.u32(1)?;
        self.u32(u32::try_from(bytes.len()).unwrap_or(0))?;
        self.bytes.extend_from_slice(bytes)
    }

    /// Sets a list.
    pub fn set_list(&mut self, list: ListBytes) -> Result<(), AllocError> {
        let bytes = list.finish()?;
        self.set_list_bytes(bytes.as_slice())
    }

    pub fn remove_pipeline(&mut self) -> Result<(), AllocError> {
        self.begin(2)
    }

    /// Scrolls a scroll frame down.
    pub fn scroll(&mut self, sid: u16, y: u32) -> Result<(), AllocError> {
        self.begin(3)?;
        self.u16(sid)?;
        self.u32(0)?;
        self.u32(y)
    }

    /// Sets a property that is an offset across.
    pub fn set_offset(&mut self, id: u16, x: u32) -> Result<(), AllocError> {
        self.begin(4)?;
        self.bytes.push(0)?;
        self.u16(id)?;
        self.u32(x)?;
        self.u32(0)
    }

    /// Sets a property that is an opacity.
    pub fn set_opacity(&mut self, id: u16, opacity: u8) -> Result<(), AllocError> {
        self.begin(4)?;
        self.bytes.push(1)?;
        self.u16(id)?;
        self.bytes.push(opacity)?;
        Ok(())
    }

    /// Stores an image of these sides and texels.
    pub fn add_image(&mut self, key: u32, w: u16, h: u16, texels: &[u8]) -> Result<(), AllocError> {
        self.begin(5)?;
        self.u32(key)?;
        self.u16(w)?;
        self.u16(h)?;
        self.bytes.extend_from_slice(texels)
    }

    /// Changes one texel of an image.
    pub fn update_texel(
        &mut self,
        key: u32,
        x: u16,
        y: u16,
        texel: [u8; 4],
    ) -> Result<(), AllocError> {
        self.begin(6)?;
        self.u32(key)?;
        self.u16(x)?;
        self.u16(y)?;
        self.u16(1)?;
        self.u16(1)?;
        self.bytes.extend_from_slice(&texel)
    }

    pub fn delete_image(&mut self, key: u32) -> Result<(), AllocError> {
        self.begin(7)?;
        self.u32(key)
    }

    /// Stores the mask of a glyph of font 1.
    pub fn add_glyph(&mut self, glyph: u16, w: u16, h: u16, mask: &[u8]) -> Result<(), AllocError> {
        self.begin(8)?;
        self.u16(1)?;
        self.u16(glyph)?;
        self.u16(w)?;
        self.u16(h)?;
        self.bytes.extend_from_slice(mask)
    }

    /// Gives the glyphs of font 1 up.
    pub fn delete_font(&mut self) -> Result<(), AllocError> {
        self.begin(9)?;
        self.u16(1)
    }

    /// Sets the view's sides and its colour.
    pub fn set_view(&mut self, w: u16, h: u16, clear: [u8; 4]) -> Result<(), AllocError> {
        self.begin(10)?;
        self.u16(w)?;
        self.u16(h)?;
        self.bytes.extend_from_slice(&clear)
    }

    /// Sets the side of square tiles, and how many are kept.
    pub fn set_policy(&mut self, side: u16, budget: u32) -> Result<(), AllocError> {
        self.begin(11)?;
        self.u16(side)?;
        self.u16(side)?;
        self.u32(budget)
    }

    pub fn drop_tiles(&mut self) -> Result<(), AllocError> {
        self.begin(12)
    }
}
