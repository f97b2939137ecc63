//! The fields after an operation's tag.

ghost use Rattle.std.specs.Prelude.{◌≡◌, ◌≤◌, ◌*◌, IfOk};
ghost use Rattle.field_forms.specs.Form.{piece, read};
ghost use Rattle.field_forms.specs.Outcome.{Reads, ReadsBy};
ghost use Rattle.txn_format.specs.Models.{op_model};
ghost use Rattle.txn_format.specs.Forms.{u16_between, property_id, set_list_form, scroll_form, set_offset_form, set_opacity_form, set_property_form, image_side, add_image_form, update_image_form, delete_image_form, add_glyph_form, delete_font_form, view_side, set_view_form, tile_side, tile_budget, tile_policy_form};

use crate::Op;
use crate::limits::{MAX_SIDE, MAX_TILE_PIXELS, MAX_TILE_SIDE, MAX_TILES, MIN_TILE_SIDE};
use field_forms::{NONE, Reader, fault};
use wr_io::{Code, DecodeError};

/// A number of two bytes from `low` to `high`, else it is refused with the code.
#[tactic(auto, unfolding(crate::specs::Forms::u16_between, crate::specs::Forms::is_from_to))]
fn u16_between(reader: &mut Reader<'_>, low: u16, high: u16, code: Code) -> Result<u16, DecodeError>
    ensures reads { Reads result reader.new (read (u16_between low high code) reader.old) }
    ensures at_most { IfOk result (λ n. n ≤ high) }
{
    let at = reader.at();
    let n = reader.u16()?;
    if low <= n && n <= high {
        return Ok(n);
    }
    Err(fault(code, at))
}

/// A property's id, which isn't 65535.
#[tactic(auto, unfolding(crate::specs::Forms::property_id))]
fn property_id(reader: &mut Reader<'_>) -> Result<u16, DecodeError>
    ensures { Reads result reader.new (read property_id reader.old) }
{
    let at = reader.at();
    let id = reader.u16()?;
    if id == NONE {
        return Err(fault(Code::BadNumber, at));
    }
    Ok(id)
}

/// An epoch and a list, which is borrowed.
#[tactic(auto, unfolding(crate::specs::Forms::set_list_form))]
pub fn set_list<'a>(reader: &mut Reader<'a>) -> Result<Op<'a>, DecodeError>
    ensures { ReadsBy op_model result reader.new (read set_list_form reader.old) }
{
    let epoch = reader.u32()?;
    let len = reader.u32()?;
    let bytes = reader.bytes(len as usize)?;
    Ok(Op::SetList { epoch, bytes })
}

/// A scroll number and a position.
#[tactic(auto, unfolding(crate::specs::Forms::scroll_form))]
pub fn scroll<'a>(reader: &mut Reader<'a>) -> Result<Op<'a>, DecodeError>
    ensures { ReadsBy op_model result reader.new (read scroll_form reader.old) }
{
    let sid = reader.u16()?;
    let x = reader.coordinate()?;
    let y = reader.coordinate()?;
    Ok(Op::Scroll { sid, x, y })
}

/// The value of a property that is an offset.
#[tactic(auto, unfolding(crate::specs::Forms::set_offset_form))]
fn set_offset<'a>(reader: &mut Reader<'a>, id: u16) -> Result<Op<'a>, DecodeError>
    ensures { ReadsBy op_model result reader.new (read (set_offset_form id) reader.old) }
{
    let x = reader.coordinate()?;
    let y = reader.coordinate()?;
    Ok(Op::SetOffset { id, x, y })
}

/// The value of a property that is an opacity.
#[tactic(auto, unfolding(crate::specs::Forms::set_opacity_form))]
fn set_opacity<'a>(reader: &mut Reader<'a>, id: u16) -> Result<Op<'a>, DecodeError>
    ensures { ReadsBy op_model result reader.new (read (set_opacity_form id) reader.old) }
{
    let opacity = reader.byte()?;
    Ok(Op::SetOpacity { id, opacity })
}

/// A property's kind, its id and its value.
#[tactic(auto, unfolding(crate::specs::Forms::set_property_form))]
pub fn set_property<'a>(reader: &mut Reader<'a>) -> Result<Op<'a>, DecodeError>
    ensures { ReadsBy op_model result reader.new (read set_property_form reader.old) }
{
    let is_opacity = reader.flag()?;
    let id = property_id(reader)?;
    if is_opacity {
        return set_opacity(reader, id);
    }
    set_offset(reader, id)
}

/// A side of an image or a glyph, else it is beyond a limit.
#[tactic(auto, unfolding(crate::specs::Forms::image_side))]
fn image_side(reader: &mut Reader<'_>) -> Result<u16, DecodeError>
    ensures reads { Reads result reader.new (read image_side reader.old) }
    ensures at_most { IfOk result (λ n. n ≤ 4096) }
{
    u16_between(reader, 1, MAX_SIDE, Code::Limit)
}

/// The bytes of texels, four of each.
fn texels<'a>(reader: &mut Reader<'a>, w: u16, h: u16) -> Result<&'a [u8], DecodeError>
    requires width { w ≤ 4096 }
    requires height { h ≤ 4096 }
    ensures { ReadsBy (λ bytes. bytes.now) result reader.new (read (piece (4 * (w * h))) reader.old) }
{
    reader.bytes(4 * (w as usize * h as usize))
}

/// An image, whose texels are borrowed.
#[tactic(auto, unfolding(crate::specs::Forms::add_image_form))]
pub fn add_image<'a>(reader: &mut Reader<'a>) -> Result<Op<'a>, DecodeError>
    ensures { ReadsBy op_model result reader.new (read add_image_form reader.old) }
{
    let key = reader.u32()?;
    let w = image_side(reader)?;
    let h = image_side(reader)?;
    let pixels = texels(reader, w, h)?;
    Ok(Op::AddImage { key, w, h, pixels })
}

/// A rectangle of an image, whose texels are borrowed.
#[tactic(auto, unfolding(crate::specs::Forms::update_image_form))]
pub fn update_image<'a>(reader: &mut Reader<'a>) -> Result<Op<'a>, DecodeError>
    ensures { ReadsBy op_model result reader.new (read update_image_form reader.old) }
{
    let key = reader.u32()?;
    let x = reader.u16()?;
    let y = reader.u16()?;
    let w = image_side(reader)?;
    let h = image_side(reader)?;
    let pixels = texels(reader, w, h)?;
    Ok(Op::UpdateImage {
        key,
        x,
        y,
        w,
        h,
        pixels,
    })
}

/// An image's key.
#[tactic(auto, unfolding(crate::specs::Forms::delete_image_form))]
pub fn delete_image<'a>(reader: &mut Reader<'a>) -> Result<Op<'a>, DecodeError>
    ensures { ReadsBy op_model result reader.new (read delete_image_form reader.old) }
{
    let key = reader.u32()?;
    Ok(Op::DeleteImage { key })
}

/// A glyph, whose mask is borrowed.
#[tactic(auto, unfolding(crate::specs::Forms::add_glyph_form))]
pub fn add_glyph<'a>(reader: &mut Reader<'a>) -> Result<Op<'a>, DecodeError>
    ensures { ReadsBy op_model result reader.new (read add_glyph_form reader.old) }
{
    let font = reader.u16()?;
    let glyph = reader.u16()?;
    let w = image_side(reader)?;
    let h = image_side(reader)?;
    let mask = reader.bytes(w as usize * h as usize)?;
    Ok(Op::AddGlyph {
        font,
        glyph,
        w,
        h,
        mask,
    })
}

/// A font.
#[tactic(auto, unfolding(crate::specs::Forms::delete_font_form))]
pub fn delete_font<'a>(reader: &mut Reader<'a>) -> Result<Op<'a>, DecodeError>
    ensures { ReadsBy op_model result reader.new (read delete_font_form reader.old) }
{
    let font = reader.u16()?;
    Ok(Op::DeleteFont { font })
}

/// A side of the view.
#[tactic(auto, unfolding(crate::specs::Forms::view_side))]
fn view_side(reader: &mut Reader<'_>) -> Result<u16, DecodeError>
    ensures { Reads result reader.new (read view_side reader.old) }
{
    u16_between(reader, 1, MAX_SIDE, Code::BadNumber)
}

/// The view's sides and the colour after all.
#[tactic(auto, unfolding(crate::specs::Forms::set_view_form))]
pub fn set_view<'a>(reader: &mut Reader<'a>) -> Result<Op<'a>, DecodeError>
    ensures { ReadsBy op_model result reader.new (read set_view_form reader.old) }
{
    let w = view_side(reader)?;
    let h = view_side(reader)?;
    let clear = reader.colour()?;
    Ok(Op::SetView { w, h, clear })
}

/// A side of a tile.
#[tactic(auto, unfolding(crate::specs::Forms::tile_side))]
fn tile_side(reader: &mut Reader<'_>) -> Result<u16, DecodeError>
    ensures reads { Reads result reader.new (read tile_side reader.old) }
    ensures at_most { IfOk result (λ n. n ≤ 1024) }
{
    u16_between(reader, MIN_TILE_SIDE, MAX_TILE_SIDE, Code::BadNumber)
}

/// How many tiles are kept, of few enough pixels in all.
#[tactic(auto, unfolding(crate::specs::Forms::tile_budget, crate::specs::Forms::is_from_to))]
fn tile_budget(reader: &mut Reader<'_>, tw: u16, th: u16) -> Result<u32, DecodeError>
    requires width { tw ≤ 1024 }
    requires height { th ≤ 1024 }
    ensures { Reads result reader.new (read (tile_budget tw th) reader.old) }
{
    let at = reader.at();
    let budget = reader.u32()?;
    if budget < 1 || budget > MAX_TILES {
        return Err(fault(Code::BadNumber, at));
    }
    if tw as u64 * th as u64 * budget as u64 <= MAX_TILE_PIXELS {
        return Ok(budget);
    }
    Err(fault(Code::Limit, at))
}

/// A tile's sides and how many tiles are kept.
#[tactic(auto, unfolding(crate::specs::Forms::tile_policy_form))]
pub fn tile_policy<'a>(reader: &mut Reader<'a>) -> Result<Op<'a>, DecodeError>
    ensures { ReadsBy op_model result reader.new (read tile_policy_form reader.old) }
{
    let tw = tile_side(reader)?;
    let th = tile_side(reader)?;
    let budget = tile_budget(reader, tw, th)?;
    Ok(Op::TilePolicy { tw, th, budget })
}
