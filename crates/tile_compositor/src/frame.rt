ghost use Rattle.std.specs.Prelude.{◌≡◌, None};

use span_kernels::Planes;
use std::marker::Model;

/// Planes that `compose` alone changes, with the count of pixels that the store of tiles had then.
#[derive(Drop)]
pub struct Frame {
    pub(crate) planes: Planes,
    pub(crate) opened: Option<u64>,
}

impl Model for Frame {
    ghost use Rattle.tile_compositor.specs.FrameModel.{FrameModel};

    ghost Value = { FrameModel };

    ghost view = { λ s. record { planes = s.planes; opened = s.opened } };
}

impl Frame {
    /// A frame of these planes that was never composed. It takes no memory.
    pub fn new(blank: Planes) -> Frame
        ensures { result ≡ record { planes = blank; opened = None } }
    {
        Frame {
            planes: blank,
            opened: None,
        }
    }

    /// The planes. It takes no memory.
    pub fn planes(&self) -> &Planes
        ensures { result.now ≡ self.now.planes }
    {
        &self.planes
    }

    /// How many pixels of windows the store had counted from which the frame was composed; None where it never was. It takes no memory.
    pub fn opened(&self) -> Option<u64>
        ensures { result ≡ self.now.opened }
    {
        self.opened
    }
}
