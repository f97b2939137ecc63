//! The fields that several formats share, each with its checks.

ghost use Rattle.std.specs.Prelude.{◌≡◌, ◌≤ℤ◌, ◌<◌, IfOk, IsTrue, false};
ghost use Rattle.wr_geom.specs.Bounds.{IsRect};
ghost use Rattle.field_forms.specs.Form.{read};
ghost use Rattle.field_forms.specs.Outcome.{Reads};
ghost use Rattle.field_forms.specs.Fields.{flag, reference, optional_reference, optional_number, is_far, coordinate, coordinate_from, rectangle, colour};
ghost use Rattle.blend_rules.specs.Colour.{IsPixel};
ghost use Rattle.field_forms.specs.Facts.{IsNear, IsRectangle, IsDefined};

use crate::errors::fault;
use crate::limits::{MAX_COORDINATE, NONE};
use crate::reader::Reader;
use blend_rules::Px;
use wr_geom::Rect;
use wr_io::{Code, DecodeError};

impl<'a> Reader<'a> {
    /// A byte that is 0 or 1, else it is a bad number.
    #[inline(always)]
    #[tactic(auto, unfolding(crate::specs::Fields::flag))]
    pub fn flag(&mut self) -> Result<bool, DecodeError>
        ensures { Reads result self.new (read flag self.old) }
    {
        let at = self.at();
        let n = self.byte()?;
        if n > 1 {
            return Err(fault(Code::BadNumber, at));
        }
        Ok(n == 1)
    }

    /// A number that names one of `count`, else it is a bad reference.
    #[inline(always)]
    #[tactic(auto, unfolding(crate::specs::Fields::reference))]
    pub fn reference(&mut self, count: usize) -> Result<u16, DecodeError>
        ensures reads { Reads result self.new (read (reference count) self.old) }
        ensures defined { IfOk result (λ n. n < count) }
    {
        let at = self.at();
        let n = self.u16()?;
        if (n as usize) < count {
            return Ok(n);
        }
        Err(fault(Code::BadRef, at))
    }

    /// The same, or none.
    #[inline(always)]
    #[tactic(auto, unfolding(crate::specs::Fields::optional_reference))]
    pub fn optional_reference(&mut self, count: usize) -> Result<Option<u16>, DecodeError>
        ensures reads { Reads result self.new (read (optional_reference count) self.old) }
        ensures defined { IfOk result (IsDefined count) }
    {
        let at = self.at();
        let n = self.u16()?;
        if n == NONE {
            return Ok(None);
        }
        if (n as usize) < count {
            return Ok(Some(n));
        }
        Err(fault(Code::BadRef, at))
    }

    /// A number of two bytes, or none.
    #[inline(always)]
    #[tactic(auto, unfolding(crate::specs::Fields::optional_number))]
    pub fn optional_number(&mut self) -> Result<Option<u16>, DecodeError>
        ensures { Reads result self.new (read optional_number self.old) }
    {
        let n = self.u16()?;
        Ok(if n == NONE { None } else { Some(n) })
    }

    /// A coordinate in pixels, within `MAX_COORDINATE` of 0, else it is a bad number.
    #[inline(always)]
    #[tactic(auto, unfolding(crate::specs::Fields::coordinate))]
    pub fn coordinate(&mut self) -> Result<i32, DecodeError>
        ensures reads { Reads result self.new (read coordinate self.old) }
        ensures near { IfOk result IsNear }
    {
        let at = self.at();
        let z = self.i32()?;
        if is_far(z) {
            return Err(fault(Code::BadNumber, at));
        }
        Ok(z)
    }

    /// A coordinate that is not below another, else it is a bad number.
    #[inline(always)]
    #[tactic(auto, unfolding(crate::specs::Fields::coordinate_from))]
    pub fn coordinate_from(&mut self, low: i32) -> Result<i32, DecodeError>
        ensures reads { Reads result self.new (read (coordinate_from low) self.old) }
        ensures near { IfOk result IsNear }
        ensures above { IfOk result (λ z. low ≤ℤ z) }
    {
        let at = self.at();
        let z = self.coordinate()?;
        if z < low {
            return Err(fault(Code::BadNumber, at));
        }
        Ok(z)
    }

    /// Four coordinates, the two corners of a rectangle in order.
    #[inline(always)]
    #[tactic(auto, unfolding(crate::specs::Fields::rectangle))]
    pub fn rectangle(&mut self) -> Result<Rect, DecodeError>
        ensures reads { Reads result self.new (read rectangle self.old) }
        ensures rectangle { IfOk result IsRectangle }
    {
        let x0 = self.coordinate()?;
        let y0 = self.coordinate()?;
        let x1 = self.coordinate_from(x0)?;
        let y1 = self.coordinate_from(y0)?;
        Ok(near_rect(x0, y0, x1, y1))
    }

    /// A premultiplied colour, else it is a bad colour.
    #[inline(always)]
    #[tactic(auto, unfolding(crate::specs::Fields::colour))]
    pub fn colour(&mut self) -> Result<Px, DecodeError>
        ensures reads { Reads result self.new (read colour self.old) }
        ensures colour { IfOk result IsPixel }
    {
        let at = self.at();
        let colour = self.any_colour()?;
        if colour.is_premultiplied() {
            return Ok(colour);
        }
        Err(fault(Code::BadColour, at))
    }
}

#[inline(always)]
#[tactic(auto, unfolding(crate::specs::Fields::is_far))]
fn is_far(z: i32) -> bool
    ensures far { result ≡ is_far z }
    ensures near { result ≡ false → IsNear z }
{
    if z < -MAX_COORDINATE {
        return true;
    }
    z > MAX_COORDINATE
}

#[inline(always)]
fn near_rect(x0: i32, y0: i32, x1: i32, y1: i32) -> Rect
    requires left { IsNear x0 }
    requires top { IsNear y0 }
    requires right { IsNear x1 }
    requires bottom { IsNear y1 }
    requires across { x0 ≤ℤ x1 }
    requires down { y0 ≤ℤ y1 }
    ensures { result ≡ record { x0 = x0; y0 = y0; x1 = x1; y1 = y1 } }
{
    Rect::new(x0, y0, x1, y1).unwrap()
}
