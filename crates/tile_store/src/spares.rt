ghost use Rattle.std.specs.Prelude.{◌≡◌, ◌≤◌, ◌*◌, IsTrue, IfOk};
ghost use Rattle.span_kernels.specs.PlanesModel.{blank_planes};

use crate::limits::{MAX_SPARE_PIXELS, MAX_SPARE_TILES};
use span_kernels::Planes;
use std::alloc::Global;
use std::marker::Model;
use wr_geom::NoMemory;

/// Planes of tiles that were given up, all of the same sides. Their memory was written before, so it needs no first touch.
#[derive(Drop)]
pub(crate) struct Spares {
    width: u16,
    height: u16,
    planes: Vec<Planes>,
}

impl Model for Spares {
    ghost use Rattle.tile_store.specs.Spares.{SparesModel, AreSpares};

    ghost Value = { SparesModel };

    ghost view = { λ s. record { width = s.width; height = s.height; planes = s.planes.items } };

    ghost invariant = { λ s. AreSpares (record { width = s.width; height = s.height; planes = s.planes.items }) };
}

impl Spares {
    /// No spare planes, with room for `MAX_SPARE_TILES`.
    pub(crate) fn new(alloc: Global) -> Result<Spares, NoMemory> {
        Ok(Spares {
            width: 0,
            height: 0,
            planes: Vec::with_capacity(alloc, usize::from(MAX_SPARE_TILES))?,
        })
    }

    /// Planes of these sides with zeros: spare ones, or new ones. Spare planes of other sides are dropped.
    pub(crate) fn blank(
        &mut self,
        alloc: Global,
        width: u16,
        height: u16,
    ) -> Result<Planes, NoMemory>
        ensures { IfOk result (λ planes. planes ≡ blank_planes width height) }
    {
        self.fit(width, height);
        match self.planes.pop() {
            Some(mut spare) => {
                spare.clear();
                Ok(spare)
            }
            None => Planes::new(alloc, width, height),
        }
    }

    /// Keeps planes, as far as the limits allow; else they are dropped. It takes no memory.
    pub(crate) fn keep(&mut self, planes: Planes) {
        self.fit(planes.width(), planes.height());
        if are_within_limits(self.planes.len() + 1, self.width, self.height) {
            let _kept = self.planes.push(planes);
        }
    }

    /// Makes these the sides of spare planes, and drops those that have others.
    fn fit(&mut self, width: u16, height: u16)
        ensures width { self.new.width ≡ width }
        ensures height { self.new.height ≡ height }
    {
        if self.width != width || self.height != height {
            self.planes.clear();
            self.width = width;
            self.height = height;
        }
    }
}

/// Whether the limits allow so many spare planes of these sides.
fn are_within_limits(count: usize, width: u16, height: u16) -> bool
    ensures count { IsTrue result → count ≤ MAX_SPARE_TILES }
    ensures pixels { IsTrue result → count * (height * width) ≤ MAX_SPARE_PIXELS }
{
    if count > usize::from(MAX_SPARE_TILES) {
        return false;
    }
    let pixels = u64::from(height) * u64::from(width);
    count as u64 * pixels <= u64::from(MAX_SPARE_PIXELS)
}
