use wr_geom::{Point, Rect, SliceKey};

/// A slice as it lies in a frame.
#[derive(Clone, Copy, Debug)]
pub struct Placed {
    /// The slice whose tiles are shown.
    pub key: SliceKey,
    /// Where the slice's coordinates begin in the frame, in pixels, each within 2^27 of 0.
    pub origin: Point,
    /// The part of the frame in which the slice shows, in the frame's pixels. Outside of it the slice is clear. It may be empty.
    pub shown: Rect,
}
