ghost use Rattle.std.specs.Prelude.{◌≡◌, ◌<◌, ◌≤◌, ◌+◌, ◌*◌, ◌-◌, List, [], ℕ, length, replicate, IfOk};
ghost use Rattle.std.specs.Borrow.{sem};
ghost use Rattle.blend_rules.specs.declared.plane.Plane.{Plane};
ghost use Rattle.blend_rules.specs.declared.plane.Plane.TheVariants.{B, G, R, A};
ghost use Rattle.span_kernels.specs.PlanesModel.{plane_of, part_of, pixel_at, with_part, blank_planes, IsWhole};
ghost use Rattle.span_kernels.specs.Parts.{IsPartWritten, PartIsWritten, FittingIsWritten};

use crate::runs::fill;
use blend_rules::{Plane, Px};
use std::alloc::{AllocError, Global};
use std::marker::Model;
use wr_geom::NoMemory;

/// One row of all four planes, one byte a pixel in each.
#[derive(Clone, Copy)]
pub struct Row<'a> {
    pub b: &'a [u8],
    pub g: &'a [u8],
    pub r: &'a [u8],
    pub a: &'a [u8],
}

/// Four planes of bytes: blue, green, red and alpha of a picture, each row by row. A side may be 0.
#[derive(Drop)]
pub struct Planes {
    width: u16,
    height: u16,
    blue: Vec<u8>,
    green: Vec<u8>,
    red: Vec<u8>,
    alpha: Vec<u8>,
}

impl Model for Planes {
    ghost use Rattle.std.specs.Prelude.{◌≡◌, ◌*◌, length};
    ghost use Rattle.span_kernels.specs.PlanesModel.{PlanesModel};

    ghost Value = { PlanesModel };

    ghost view = { λ s. record {
      width = s.width;
      height = s.height;
      blue = s.blue.items;
      green = s.green.items;
      red = s.red.items;
      alpha = s.alpha.items;
    } };

    ghost invariant = { λ s. (length s.blue.items ≡ s.height * s.width) × (length s.green.items ≡ s.height * s.width)
        × (length s.red.items ≡ s.height * s.width) × (length s.alpha.items ≡ s.height * s.width) };
}

impl Planes {
    ghost use Rattle.span_kernels.specs.Lending.{LendsPart};

    /// Planes of these sides in pixels, all of whose bytes are 0. `NoMemory` where there is none for a byte of each pixel
    /// in each plane.
    pub fn new(alloc: Global, width: u16, height: u16) -> Result<Planes, NoMemory>
        ensures width { IfOk result (λ planes. planes.width ≡ width) }
        ensures height { IfOk result (λ planes. planes.height ≡ height) }
        ensures zeros { IfOk result (λ planes. (p : Plane) → plane_of p planes ≡ replicate (height * width) 0) }
    {
        let size = usize::from(height) * usize::from(width);
        Ok(Planes {
            width,
            height,
            blue: zeros(alloc, size)?,
            green: zeros(alloc, size)?,
            red: zeros(alloc, size)?,
            alpha: zeros(alloc, size)?,
        })
    }

    /// Planes without a pixel. It takes no memory.
    pub fn empty(alloc: Global) -> Planes
        ensures { result ≡ record { width = 0; height = 0; blue = []; green = []; red = []; alpha = [] } }
    {
        Planes {
            width: 0,
            height: 0,
            blue: Vec::new(alloc),
            green: Vec::new(alloc),
            red: Vec::new(alloc),
            alpha: Vec::new(alloc),
        }
    }

    /// Makes every byte 0. It takes no memory.
    pub fn clear(&mut self)
        ensures { self.new ≡ blank_planes self.old.width self.old.height }
    {
        clear_plane(&mut self.blue);
        clear_plane(&mut self.green);
        clear_plane(&mut self.red);
        clear_plane(&mut self.alpha);
    }

    /// How many pixels a row has. It takes no memory.
    pub fn width(&self) -> u16
        ensures { result ≡ self.now.width }
    {
        self.width
    }

    /// How many rows there are. It takes no memory.
    pub fn height(&self) -> u16
        ensures { result ≡ self.now.height }
    {
        self.height
    }

    /// A row of a plane, one byte a pixel. It takes no memory.
    pub fn row(&self, p: Plane, y: u16) -> &[u8]
        requires inside { y < self.now.height }
        ensures value { result.now ≡ part_of p self.now y 0 self.now.width }
        ensures len { length result.now ≡ self.now.width }
    {
        let start = usize::from(y) * usize::from(self.width);
        let end = start + usize::from(self.width);
        match p {
            Plane::B => &self.blue[start..end],
            Plane::G => &self.green[start..end],
            Plane::R => &self.red[start..end],
            Plane::A => &self.alpha[start..end],
        }
    }

    /// A row of all four planes. It takes no memory.
    pub fn rows(&self, y: u16) -> Row<'_>
        requires inside { y < self.now.height }
        ensures blue { result.b.now ≡ part_of B self.now y 0 self.now.width }
        ensures green { result.g.now ≡ part_of G self.now y 0 self.now.width }
        ensures red { result.r.now ≡ part_of R self.now y 0 self.now.width }
        ensures alpha { result.a.now ≡ part_of A self.now y 0 self.now.width }
        ensures len { (length result.b.now ≡ self.now.width) × (length result.g.now ≡ self.now.width)
            × (length result.r.now ≡ self.now.width) × (length result.a.now ≡ self.now.width) }
    {
        Row {
            b: self.row(Plane::B, y),
            g: self.row(Plane::G, y),
            r: self.row(Plane::R, y),
            a: self.row(Plane::A, y),
        }
    }

    /// The colour at a column and row. It takes no memory.
    pub fn pixel(&self, x: u16, y: u16) -> Px
        requires column { x < self.now.width }
        requires row { y < self.now.height }
        ensures { result ≡ pixel_at self.now x y }
    {
        let at = usize::from(y) * usize::from(self.width) + usize::from(x);
        Px {
            b: self.blue[at],
            g: self.green[at],
            r: self.red[at],
            a: self.alpha[at],
        }
    }

    /// Lends a row of a plane for writing, from column `x0` to before `x1`. It takes no memory.
    pub fn row_mut(&mut self, p: Plane, y: u16, x0: u16, x1: u16) -> &mut [u8]
        requires row { y < self.old.height }
        requires order { x0 ≤ x1 }
        requires inside { x1 ≤ self.old.width }
        ensures* writes_back { sem 𝓛 (LendsPart self.entry p y x0 result) }
        ensures value { result.now ≡ part_of p self.old y x0 (x1 - x0) }
        ensures len { length result.now ≡ x1 - x0 }
        ensures stays { (bytes : List ℕ) → length bytes ≡ x1 - x0
            → IsPartWritten self.old (with_part p y x0 bytes self.old) p y x0 bytes }
    {
        let row = usize::from(y) * usize::from(self.width);
        let start = row + usize::from(x0);
        let end = row + usize::from(x1);
        match p {
            Plane::B => self.blue.slice_mut(start..end),
            Plane::G => self.green.slice_mut(start..end),
            Plane::R => self.red.slice_mut(start..end),
            Plane::A => self.alpha.slice_mut(start..end),
        }
    }
}

/// What the type of planes keeps, for whoever holds some: a byte for each pixel in each plane. It does nothing.
pub fn know_planes(planes: &Planes)
    ensures { IsWhole planes.now }
{
    let _width = planes.width;
    let _height = planes.height;
}

/// What a write to a part of a row leaves, for whoever reasons about the definitions. It does nothing.
pub fn part_laws()
    ensures part { PartIsWritten }
    ensures fitting { FittingIsWritten }
{}

fn clear_plane(bytes: &mut Vec<u8>)
    ensures { bytes.new.items ≡ replicate (length bytes.old.items) 0 }
{
    fill(bytes.as_mut_slice(), 0);
}

fn zeros(alloc: Global, size: usize) -> Result<Vec<u8>, AllocError>
    ensures { IfOk result (λ bytes. bytes.items ≡ replicate size 0) }
{
    Ok(vec![in alloc; 0; size]?)
}
