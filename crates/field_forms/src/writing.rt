//! Numbers and shared fields as bytes, appended to a list of bytes.

ghost use Rattle.std.specs.Prelude.{◌≡◌, ◌++◌, ◌∷◌, [], OnOk};
ghost use Rattle.blend_rules.specs.Colour.{colour_bytes};
ghost use Rattle.field_forms.specs.Spelling.{u16_bytes, u32_bytes, i32_bytes, optional_bytes, flag_bytes, rectangle_bytes};

use crate::limits::NONE;
use blend_rules::Px;
use std::alloc::AllocError;
use wr_geom::Rect;

/// Appends a byte.
pub fn put_byte(out: &mut Vec<u8>, n: u8) -> Result<(), AllocError>
    ensures { OnOk result (out.new.items ≡ out.old.items ++ n ∷ []) }
{
    out.push(n)?;
    Ok(())
}

/// Appends bytes.
pub fn put_bytes(out: &mut Vec<u8>, bytes: &[u8]) -> Result<(), AllocError>
    ensures { OnOk result (out.new.items ≡ out.old.items ++ bytes.now) }
{
    out.extend_from_slice(bytes)
}

/// Appends a number of two bytes, the lowest first.
#[tactic(auto, unfolding(crate::specs::Spelling::u16_bytes))]
pub fn put_u16(out: &mut Vec<u8>, n: u16) -> Result<(), AllocError>
    ensures { OnOk result (out.new.items ≡ out.old.items ++ u16_bytes n) }
{
    out.extend_from_slice(&n.to_le_bytes())
}

/// Appends a number of four bytes, the lowest first.
#[tactic(auto, unfolding(crate::specs::Spelling::u32_bytes))]
pub fn put_u32(out: &mut Vec<u8>, n: u32) -> Result<(), AllocError>
    ensures { OnOk result (out.new.items ≡ out.old.items ++ u32_bytes n) }
{
    out.extend_from_slice(&n.to_le_bytes())
}

/// Appends a number of four bytes in two's complement, the lowest first.
#[tactic(auto, unfolding(crate::specs::Spelling::i32_bytes))]
pub fn put_i32(out: &mut Vec<u8>, z: i32) -> Result<(), AllocError>
    ensures { OnOk result (out.new.items ≡ out.old.items ++ i32_bytes z) }
{
    put_u32(out, z.cast_unsigned())
}

/// Appends a number of two bytes, or 65535 for none.
pub fn put_optional(out: &mut Vec<u8>, n: Option<u16>) -> Result<(), AllocError>
    ensures { OnOk result (out.new.items ≡ out.old.items ++ optional_bytes n) }
{
    match n {
        None => put_u16(out, NONE),
        Some(n) => put_u16(out, n),
    }
}

/// Appends 1 for true and 0 for false.
pub fn put_flag(out: &mut Vec<u8>, flag: bool) -> Result<(), AllocError>
    ensures { OnOk result (out.new.items ≡ out.old.items ++ flag_bytes flag) }
{
    out.push(if flag { 1 } else { 0 })?;
    Ok(())
}

/// Appends blue, green, red and alpha.
#[tactic(auto, unfolding(blend_rules::specs::Colour::colour_bytes))]
pub fn put_colour(out: &mut Vec<u8>, p: Px) -> Result<(), AllocError>
    ensures { OnOk result (out.new.items ≡ out.old.items ++ colour_bytes p) }
{
    out.extend_from_slice(&[p.b, p.g, p.r, p.a])
}

/// Appends the four coordinates of a rectangle's corners.
#[tactic(auto, unfolding(crate::specs::Spelling::rectangle_bytes))]
pub fn put_rectangle(out: &mut Vec<u8>, rect: Rect) -> Result<(), AllocError>
    ensures { OnOk result (out.new.items ≡ out.old.items ++ rectangle_bytes rect) }
{
    put_i32(out, rect.x0())?;
    put_i32(out, rect.y0())?;
    put_i32(out, rect.x1())?;
    put_i32(out, rect.y1())
}
