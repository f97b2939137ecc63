//! The display list, as bytes.

ghost use Rattle.std.specs.Prelude.{◌≡◌, ◌++◌, ◌∷◌, [], ◌≤◌, ◌<◌, ◌^◌, OnOk};
ghost use Rattle.std.specs.List.{flat_map};
ghost use Rattle.blend_rules.specs.Colour.{colour_bytes};
ghost use Rattle.field_forms.specs.Spelling.{rectangle_bytes};
ghost use Rattle.display_list.specs.Spelling.{chain_bytes, clip_bytes, corner_bytes, node_bytes, radii_bytes, spelling, spot_bytes, token_bytes, widths_bytes};
ghost use Rattle.display_list.specs.declared.token.Token.TheVariants as a_token;
ghost use Rattle.file_generator.specs.Rolls.{IsPut, rolled_list};
ghost use Rattle.file_generator.specs.Lists.{bar, context, corners, even_widths, ground, page, round_corners, rounded_chain, rounding, spot_at, square_at};
ghost use Rattle.file_generator.specs.Lists.{rolled_border, rolled_display_list, rolled_items, rolled_overlay, rolled_shape, rolled_solid, rolled_square};

use crate::rolls::Die;
use crate::tags;
use blend_rules::Px;
use field_forms::{put_byte, put_colour, put_flag, put_i32, put_optional, put_u16, put_u32};
use std::alloc::AllocError;

/// A rectangle between two corners, in pixels.
#[derive(Clone, Copy)]
struct Corners {
    x0: u16,
    y0: u16,
    x1: u16,
    y1: u16,
}

/// Appends a rectangle.
#[tactic(auto, unfolding(field_forms::specs::Spelling::rectangle_bytes))]
fn put_corners(out: &mut Vec<u8>, at: Corners) -> Result<(), AllocError>
    ensures { OnOk result (out.new.items ≡ out.old.items ++ rectangle_bytes (corners at.x0 at.y0 at.x1 at.y1)) }
{
    put_i32(out, i32::from(at.x0))?;
    put_i32(out, i32::from(at.y0))?;
    put_i32(out, i32::from(at.x1))?;
    put_i32(out, i32::from(at.y1))
}

/// A square on the page.
fn square(x: u16, y: u16, side: u16) -> Corners
    requires x { x ≤ 2 ^ 10 }
    requires y { y ≤ 2 ^ 10 }
    requires side { side ≤ 2 ^ 10 }
    ensures { corners result.x0 result.y0 result.x1 result.y1 ≡ square_at x y side }
{
    Corners {
        x0: x,
        y0: y,
        x1: x + side,
        y1: y + side,
    }
}

/// Appends a node, a chain and a rectangle.
#[tactic(auto, unfolding(display_list::specs::Spelling::spot_bytes))]
fn put_spot(out: &mut Vec<u8>, node: u16, chain: Option<u16>, at: Corners) -> Result<(), AllocError>
    ensures { OnOk result (out.new.items ≡ out.old.items ++ spot_bytes (spot_at node chain (corners at.x0 at.y0 at.x1 at.y1))) }
{
    put_u16(out, node)?;
    put_optional(out, chain)?;
    put_corners(out, at)
}

/// Appends a number twice.
#[tactic(auto, unfolding(display_list::specs::Spelling::corner_bytes))]
fn put_radius(out: &mut Vec<u8>, radius: u16) -> Result<(), AllocError>
    ensures { OnOk result (out.new.items ≡ out.old.items ++ corner_bytes (radius, radius)) }
{
    put_u16(out, radius)?;
    put_u16(out, radius)
}

/// Appends the same radius for each corner.
#[tactic(auto, unfolding(display_list::specs::Spelling::radii_bytes))]
fn put_radii(out: &mut Vec<u8>, radius: u16) -> Result<(), AllocError>
    ensures { OnOk result (out.new.items ≡ out.old.items ++ radii_bytes (round_corners radius)) }
{
    put_radius(out, radius)?;
    put_radius(out, radius)?;
    put_radius(out, radius)?;
    put_radius(out, radius)
}

/// Appends the same width for each side.
#[tactic(auto, unfolding(display_list::specs::Spelling::widths_bytes))]
fn put_widths(out: &mut Vec<u8>, width: u16) -> Result<(), AllocError>
    ensures { OnOk result (out.new.items ≡ out.old.items ++ widths_bytes (even_widths width)) }
{
    put_u16(out, width)?;
    put_u16(out, width)?;
    put_u16(out, width)?;
    put_u16(out, width)
}

/// Appends the scroll frame of the page.
fn put_page(out: &mut Vec<u8>) -> Result<(), AllocError>
    ensures { OnOk result (out.new.items ≡ out.old.items ++ node_bytes page) }
{
    put_byte(out, tags::SCROLL_FRAME)?;
    put_u16(out, 0)?;
    put_u16(out, 1)?;
    put_u32(out, 256)?;
    put_u32(out, 192)?;
    put_u32(out, 256)?;
    put_u32(out, 704)
}

/// Appends the rounded clip.
fn put_rounding(out: &mut Vec<u8>) -> Result<(), AllocError>
    ensures { OnOk result (out.new.items ≡ out.old.items ++ clip_bytes rounding) }
{
    let at = Corners {
        x0: 16,
        y0: 16,
        x1: 240,
        y1: 176,
    };
    put_byte(out, tags::ROUND_CLIP)?;
    put_u16(out, 1)?;
    put_flag(out, false)?;
    put_corners(out, at)?;
    put_radii(out, 8)
}

/// Appends the chain of that clip.
fn put_chain(out: &mut Vec<u8>) -> Result<(), AllocError>
    ensures { OnOk result (out.new.items ≡ out.old.items ++ chain_bytes rounded_chain) }
{
    put_byte(out, tags::CHAIN)?;
    put_optional(out, None)?;
    put_byte(out, 1)?;
    put_u16(out, 0)
}

/// Appends the page's ground.
fn put_ground(out: &mut Vec<u8>) -> Result<(), AllocError>
    ensures { OnOk result (out.new.items ≡ out.old.items ++ token_bytes ground) }
{
    let at = Corners {
        x0: 0,
        y0: 0,
        x1: 256,
        y1: 704,
    };
    put_byte(out, tags::SOLID)?;
    put_spot(out, 1, None, at)?;
    put_colour(
        out,
        Px {
            b: 240,
            g: 240,
            r: 240,
            a: 255,
        },
    )
}

/// Appends the bar.
fn put_bar(out: &mut Vec<u8>) -> Result<(), AllocError>
    ensures { OnOk result (out.new.items ≡ out.old.items ++ token_bytes bar) }
{
    let at = Corners {
        x0: 0,
        y0: 176,
        x1: 256,
        y1: 192,
    };
    put_byte(out, tags::SOLID)?;
    put_spot(out, 0, None, at)?;
    put_colour(
        out,
        Px {
            b: 0,
            g: 0,
            r: 0,
            a: 128,
        },
    )
}

/// Appends the beginning of a context of this mode.
fn put_context(out: &mut Vec<u8>, mode: u16) -> Result<(), AllocError>
    requires { mode < 9 }
    ensures { OnOk result (out.new.items ≡ out.old.items ++ token_bytes (context mode)) }
{
    put_byte(out, tags::PUSH_CONTEXT)?;
    put_u16(out, 1)?;
    put_optional(out, None)?;
    put_byte(out, 255)?;
    put_optional(out, Some(1))?;
    put_byte(out, mode as u8)?;
    put_flag(out, false)
}

/// Appends what stands before the items of a list.
fn put_definitions(out: &mut Vec<u8>) -> Result<(), AllocError>
    ensures { OnOk result (out.new.items ≡ out.old.items ++ (node_bytes page ++ (clip_bytes rounding ++ chain_bytes rounded_chain))) }
{
    put_page(out)?;
    put_rounding(out)?;
    put_chain(out)
}

impl Die {
    /// Appends a solid of a rolled colour.
    fn put_solid(
        &mut self,
        out: &mut Vec<u8>,
        chain: Option<u16>,
        at: Corners,
    ) -> Result<(), AllocError>
        ensures { OnOk result (IsPut token_bytes (rolled_solid (spot_at 1 chain (corners at.x0 at.y0 at.x1 at.y1))) out.old.items out.new.items self.old.state self.new.state) }
    {
        let colour = self.colour();
        put_byte(out, tags::SOLID)?;
        put_spot(out, 1, chain, at)?;
        put_colour(out, colour)
    }

    /// Appends a border of rolled colours.
    #[tactic(auto, unfolding(crate::specs::Lists::rolled_border))]
    fn put_border(&mut self, out: &mut Vec<u8>, at: Corners) -> Result<(), AllocError>
        ensures { OnOk result (IsPut token_bytes (rolled_border (spot_at 1 None (corners at.x0 at.y0 at.x1 at.y1))) out.old.items out.new.items self.old.state self.new.state) }
    {
        let top = self.colour();
        let right = self.colour();
        let bottom = self.colour();
        let left = self.colour();
        put_sides(out, at, top, right, bottom, left)
    }

    /// Appends a shape of a kind, from 0.
    fn put_shape(&mut self, out: &mut Vec<u8>, kind: u16, at: Corners) -> Result<(), AllocError>
        ensures { OnOk result (IsPut token_bytes (rolled_shape kind (corners at.x0 at.y0 at.x1 at.y1)) out.old.items out.new.items self.old.state self.new.state) }
    {
        match kind {
            0 => self.put_solid(out, None, at),
            1 => self.put_solid(out, Some(0), at),
            2 => put_image(out, at),
            _ => self.put_border(out, at),
        }
    }

    /// Appends a shape of a rolled kind at a rolled place.
    #[tactic(auto, unfolding(crate::specs::Lists::rolled_square))]
    fn put_square(&mut self, out: &mut Vec<u8>) -> Result<(), AllocError>
        ensures { OnOk result (IsPut token_bytes rolled_square out.old.items out.new.items self.old.state self.new.state) }
    {
        let kind = self.roll(4);
        let x = self.roll(224);
        let y = self.roll(672);
        self.put_shape(out, kind, square(x, y, 32))
    }

    /// Appends a larger solid at a rolled place.
    #[tactic(auto, unfolding(crate::specs::Lists::rolled_overlay))]
    fn put_overlay(&mut self, out: &mut Vec<u8>) -> Result<(), AllocError>
        ensures { OnOk result (IsPut token_bytes rolled_overlay out.old.items out.new.items self.old.state self.new.state) }
    {
        let x = self.roll(192);
        let y = self.roll(640);
        self.put_solid(out, None, square(x, y, 64))
    }

    /// Appends sixteen shapes.
    fn put_squares(&mut self, out: &mut Vec<u8>) -> Result<(), AllocError>
        ensures { OnOk result (IsPut (flat_map token_bytes) (rolled_list rolled_square 16) out.old.items out.new.items self.old.state self.new.state) }
    {
        for _ in 0..16u32 {
            self.put_square(out)?;
        }
        Ok(())
    }

    /// Appends four larger solids.
    fn put_overlays(&mut self, out: &mut Vec<u8>) -> Result<(), AllocError>
        ensures { OnOk result (IsPut (flat_map token_bytes) (rolled_list rolled_overlay 4) out.old.items out.new.items self.old.state self.new.state) }
    {
        for _ in 0..4u32 {
            self.put_overlay(out)?;
        }
        Ok(())
    }

    /// Appends the items of a list.
    #[tactic(auto, unfolding(crate::specs::Lists::rolled_items))]
    fn put_items(&mut self, out: &mut Vec<u8>) -> Result<(), AllocError>
        ensures { OnOk result (IsPut (flat_map token_bytes) rolled_items out.old.items out.new.items self.old.state self.new.state) }
    {
        put_ground(out)?;
        self.put_squares(out)?;
        let mode = self.roll(9);
        put_context(out, mode)?;
        self.put_overlays(out)?;
        put_end(out)
    }

    /// Appends a whole list.
    pub(crate) fn put_display_list(&mut self, out: &mut Vec<u8>) -> Result<(), AllocError>
        ensures { OnOk result (IsPut spelling rolled_display_list out.old.items out.new.items self.old.state self.new.state) }
    {
        put_definitions(out)?;
        self.put_items(out)?;
        put_byte(out, tags::END)
    }
}

/// Appends the end of the context, and the bar.
fn put_end(out: &mut Vec<u8>) -> Result<(), AllocError>
    ensures { OnOk result (out.new.items ≡ out.old.items ++ flat_map token_bytes (a_token.Pop ∷ (bar ∷ []))) }
{
    put_byte(out, tags::POP_CONTEXT)?;
    put_bar(out)
}

/// Appends the image.
fn put_image(out: &mut Vec<u8>, at: Corners) -> Result<(), AllocError>
    ensures { OnOk result (out.new.items ≡ out.old.items ++ token_bytes (a_token.Image (spot_at 1 None (corners at.x0 at.y0 at.x1 at.y1)) 1 0 0)) }
{
    put_byte(out, tags::IMAGE)?;
    put_spot(out, 1, None, at)?;
    put_u32(out, 1)?;
    put_u16(out, 0)?;
    put_u16(out, 0)
}

/// Appends the colours of four sides.
fn put_colours(
    out: &mut Vec<u8>,
    top: Px,
    right: Px,
    bottom: Px,
    left: Px,
) -> Result<(), AllocError>
    ensures { OnOk result (out.new.items ≡ out.old.items ++ (colour_bytes top ++ (colour_bytes right ++ (colour_bytes bottom ++ colour_bytes left)))) }
{
    put_colour(out, top)?;
    put_colour(out, right)?;
    put_colour(out, bottom)?;
    put_colour(out, left)
}

/// Appends a border of these colours.
fn put_sides(
    out: &mut Vec<u8>,
    at: Corners,
    top: Px,
    right: Px,
    bottom: Px,
    left: Px,
) -> Result<(), AllocError>
    ensures { OnOk result (out.new.items ≡ out.old.items ++ token_bytes (a_token.Border (spot_at 1 None (corners at.x0 at.y0 at.x1 at.y1)) (even_widths 2) top right bottom left (round_corners 4))) }
{
    put_byte(out, tags::BORDER)?;
    put_spot(out, 1, None, at)?;
    put_widths(out, 2)?;
    put_colours(out, top, right, bottom, left)?;
    put_radii(out, 4)
}
