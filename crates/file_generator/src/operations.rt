//! Operations and payloads, as bytes.

ghost use Rattle.std.specs.Prelude.{◌≡◌, ◌++◌, ◌<◌, ◌^◌, length, OnOk};
ghost use Rattle.std.specs.List.{flat_map};
ghost use Rattle.blend_rules.specs.Colour.{colour_bytes};
ghost use Rattle.txn_format.specs.Txn.{set_view, tile_policy};
ghost use Rattle.txn_format.specs.Spelling.{op_bytes};
ghost use Rattle.file_generator.specs.Rolls.{IsPut, rolled_grey, rolled_list};
ghost use Rattle.file_generator.specs.Lists.{opaque_grey};
ghost use Rattle.file_generator.specs.Files.{first_ops, image_op, later_op, list_op, opacity_op, payload_bytes, scroll_op, texel_op, ops};

use crate::rolls::Die;
use crate::tags;
use blend_rules::Px;
use field_forms::{put_byte, put_bytes, put_colour, put_flag, put_i32, put_u16, put_u32};
use std::alloc::AllocError;

/// Appends the view's sides and clear colour.
fn put_view(out: &mut Vec<u8>) -> Result<(), AllocError>
    ensures { OnOk result (out.new.items ≡ out.old.items ++ op_bytes (set_view 256 192 (opaque_grey 255))) }
{
    put_byte(out, tags::SET_VIEW)?;
    put_u16(out, 256)?;
    put_u16(out, 192)?;
    put_colour(
        out,
        Px {
            b: 255,
            g: 255,
            r: 255,
            a: 255,
        },
    )
}

/// Appends the tile policy.
fn put_tile_policy(out: &mut Vec<u8>) -> Result<(), AllocError>
    ensures { OnOk result (out.new.items ≡ out.old.items ++ op_bytes (tile_policy 64 64 256)) }
{
    put_byte(out, tags::TILE_POLICY)?;
    put_u16(out, 64)?;
    put_u16(out, 64)?;
    put_u32(out, 256)
}

impl Die {
    /// Appends a texel.
    fn put_texel(&mut self, out: &mut Vec<u8>) -> Result<(), AllocError>
        ensures { OnOk result (IsPut colour_bytes rolled_grey out.old.items out.new.items self.old.state self.new.state) }
    {
        let texel = self.grey();
        put_colour(out, texel)
    }

    /// Appends the texels of the image.
    fn put_texels(&mut self, out: &mut Vec<u8>) -> Result<(), AllocError>
        ensures { OnOk result (IsPut (flat_map colour_bytes) (rolled_list rolled_grey 16) out.old.items out.new.items self.old.state self.new.state) }
    {
        for _ in 0..16u32 {
            self.put_texel(out)?;
        }
        Ok(())
    }

    /// Appends the image.
    fn put_image(&mut self, out: &mut Vec<u8>) -> Result<(), AllocError>
        ensures { OnOk result (IsPut op_bytes image_op out.old.items out.new.items self.old.state self.new.state) }
    {
        put_byte(out, tags::ADD_IMAGE)?;
        put_u32(out, 1)?;
        put_u16(out, 4)?;
        put_u16(out, 4)?;
        self.put_texels(out)
    }

    /// Appends a list with its epoch. `scratch` takes its bytes first.
    fn put_list(
        &mut self,
        out: &mut Vec<u8>,
        scratch: &mut Vec<u8>,
        epoch: u32,
    ) -> Result<(), AllocError>
        ensures { OnOk result (IsPut op_bytes (list_op epoch) out.old.items out.new.items self.old.state self.new.state) }
    {
        scratch.clear();
        self.put_display_list(scratch)?;
        put_byte(out, tags::SET_LIST)?;
        put_u32(out, epoch)?;
        put_u32(out, scratch.len() as u32)?;
        put_bytes(out, scratch.as_slice())
    }

    /// Appends a scroll of the page.
    fn put_scroll(&mut self, out: &mut Vec<u8>) -> Result<(), AllocError>
        ensures { OnOk result (IsPut op_bytes scroll_op out.old.items out.new.items self.old.state self.new.state) }
    {
        let y = self.roll(512);
        put_byte(out, tags::SCROLL)?;
        put_u16(out, 1)?;
        put_i32(out, 0)?;
        put_i32(out, i32::from(y))
    }

    /// Appends a change of one texel.
    fn put_update(&mut self, out: &mut Vec<u8>) -> Result<(), AllocError>
        ensures { OnOk result (IsPut op_bytes texel_op out.old.items out.new.items self.old.state self.new.state) }
    {
        let x = self.roll(4);
        let y = self.roll(4);
        put_byte(out, tags::UPDATE_IMAGE)?;
        put_u32(out, 1)?;
        put_u16(out, x)?;
        put_u16(out, y)?;
        put_u16(out, 1)?;
        put_u16(out, 1)?;
        self.put_texel(out)
    }

    /// Appends another opacity of the context.
    fn put_opacity(&mut self, out: &mut Vec<u8>) -> Result<(), AllocError>
        ensures { OnOk result (IsPut op_bytes opacity_op out.old.items out.new.items self.old.state self.new.state) }
    {
        let opacity = self.byte(255);
        put_byte(out, tags::SET_PROPERTY)?;
        put_byte(out, tags::OPACITY)?;
        put_u16(out, 1)?;
        put_byte(out, opacity)
    }

    /// Appends the operation of a kind, from 0, in transaction `k`.
    fn put_change(
        &mut self,
        out: &mut Vec<u8>,
        scratch: &mut Vec<u8>,
        kind: u16,
        k: u32,
    ) -> Result<(), AllocError>
        ensures { OnOk result (IsPut op_bytes (later_op kind k) out.old.items out.new.items self.old.state self.new.state) }
    {
        match kind {
            0 => self.put_list(out, scratch, k),
            1 => self.put_scroll(out),
            2 => self.put_update(out),
            _ => self.put_opacity(out),
        }
    }

    /// Appends the operations of the first transaction.
    fn put_first(&mut self, out: &mut Vec<u8>, scratch: &mut Vec<u8>) -> Result<(), AllocError>
        ensures { OnOk result (IsPut (flat_map op_bytes) first_ops out.old.items out.new.items self.old.state self.new.state) }
    {
        put_view(out)?;
        put_tile_policy(out)?;
        self.put_image(out)?;
        self.put_list(out, scratch, 0)
    }

    /// Appends the payload of transaction `k`, from 0.
    #[tactic(auto, unfolding(crate::specs::Files::ops))]
    pub(crate) fn put_payload(
        &mut self,
        out: &mut Vec<u8>,
        scratch: &mut Vec<u8>,
        k: u32,
    ) -> Result<(), AllocError>
        ensures { OnOk result (IsPut payload_bytes (ops k) out.old.items out.new.items self.old.state self.new.state) }
    {
        put_byte(out, 0)?;
        put_flag(out, true)?;
        if k == 0 {
            put_u16(out, 4)?;
            return self.put_first(out, scratch);
        }
        put_u16(out, 1)?;
        let kind = self.roll(4);
        self.put_change(out, scratch, kind, k)
    }
}
