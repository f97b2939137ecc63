//! The fields that several parts of a list share.

ghost use Rattle.std.specs.Prelude.{◌≡◌, ◌≤◌, IfOk};
ghost use Rattle.field_forms.specs.Form.{read};
ghost use Rattle.field_forms.specs.Outcome.{Reads};
ghost use Rattle.display_list.specs.Fields.{radius, corner, corners, corner_radii, four_widths, border_widths, scroll_side, spot, glyph};

use crate::limits::MAX_SCROLL_SIDE;
use crate::{GlyphAt, Spot};
use field_forms::{Reader, fault};
use wr_geom::{MAX_RADIUS, Radii, Rect, Widths};
use wr_io::{Code, DecodeError};

/// A corner's radius or a border's width, in pixels.
#[tactic(auto, unfolding(crate::specs::Fields::radius))]
fn read_radius(reader: &mut Reader<'_>) -> Result<u16, DecodeError>
    ensures { Reads result reader.new (read radius reader.old) }
{
    let at = reader.at();
    let n = reader.u16()?;
    if n > MAX_RADIUS {
        return Err(fault(Code::BadRadius, at));
    }
    Ok(n)
}

#[tactic(auto, unfolding(crate::specs::Fields::corner))]
fn read_corner(reader: &mut Reader<'_>) -> Result<(u16, u16), DecodeError>
    ensures { Reads result reader.new (read corner reader.old) }
{
    let across = read_radius(reader)?;
    let down = read_radius(reader)?;
    Ok((across, down))
}

#[tactic(auto, unfolding(crate::specs::Fields::corners))]
fn read_corners(reader: &mut Reader<'_>) -> Result<Radii, DecodeError>
    ensures { Reads result reader.new (read corners reader.old) }
{
    let tl = read_corner(reader)?;
    let tr = read_corner(reader)?;
    let br = read_corner(reader)?;
    let bl = read_corner(reader)?;
    Ok(Radii { tl, tr, br, bl })
}

/// The radii of a rectangle's corners.
#[tactic(auto, unfolding(crate::specs::Fields::corner_radii))]
pub(crate) fn read_corner_radii(reader: &mut Reader<'_>, rect: Rect) -> Result<Radii, DecodeError>
    ensures { Reads result reader.new (read (corner_radii rect) reader.old) }
{
    let at = reader.at();
    let radii = read_corners(reader)?;
    if radii.fit(rect) {
        return Ok(radii);
    }
    Err(fault(Code::BadRadius, at))
}

#[tactic(auto, unfolding(crate::specs::Fields::four_widths))]
fn read_widths(reader: &mut Reader<'_>) -> Result<Widths, DecodeError>
    ensures { Reads result reader.new (read four_widths reader.old) }
{
    let top = read_radius(reader)?;
    let right = read_radius(reader)?;
    let bottom = read_radius(reader)?;
    let left = read_radius(reader)?;
    Ok(Widths {
        top,
        right,
        bottom,
        left,
    })
}

/// The widths of a rectangle's border.
#[tactic(auto, unfolding(crate::specs::Fields::border_widths))]
pub(crate) fn read_border_widths(reader: &mut Reader<'_>, rect: Rect) -> Result<Widths, DecodeError>
    ensures { Reads result reader.new (read (border_widths rect) reader.old) }
{
    let at = reader.at();
    let widths = read_widths(reader)?;
    if widths.fit(rect) {
        return Ok(widths);
    }
    Err(fault(Code::BadRadius, at))
}

/// A side of a viewport or of a content, in pixels.
#[tactic(auto, unfolding(crate::specs::Fields::scroll_side))]
pub(crate) fn read_scroll_side(reader: &mut Reader<'_>) -> Result<u32, DecodeError>
    ensures { Reads result reader.new (read scroll_side reader.old) }
{
    let at = reader.at();
    let n = reader.u32()?;
    if n > MAX_SCROLL_SIDE {
        return Err(fault(Code::BadNumber, at));
    }
    Ok(n)
}

/// Where an item stands, among so many nodes with the root and so many chains.
#[inline(always)]
#[tactic(auto, unfolding(crate::specs::Fields::spot))]
pub(crate) fn read_spot(
    reader: &mut Reader<'_>,
    nodes: usize,
    chains: usize,
) -> Result<Spot, DecodeError>
    ensures { Reads result reader.new (read (spot nodes chains) reader.old) }
{
    let node = reader.reference(nodes)?;
    let chain = reader.optional_reference(chains)?;
    let rect = reader.rectangle()?;
    Ok(Spot { node, chain, rect })
}

#[tactic(auto, unfolding(crate::specs::Fields::glyph))]
pub(crate) fn read_glyph(reader: &mut Reader<'_>) -> Result<GlyphAt, DecodeError>
    ensures { Reads result reader.new (read glyph reader.old) }
{
    let glyph = reader.u16()?;
    let x = reader.coordinate()?;
    let y = reader.coordinate()?;
    Ok(GlyphAt { glyph, x, y })
}
