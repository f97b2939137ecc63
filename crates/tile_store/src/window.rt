use wr_geom::{Rect, TileKey};

/// The part of a kept tile that is open for writing.
#[derive(Clone, Copy)]
pub struct Window {
    pub key: TileKey,
    pub rect: Rect,
}

/// The open window, with the rectangle of its tile.
#[derive(Clone, Copy)]
pub(crate) struct OpenWindow {
    pub(crate) window: Window,
    pub(crate) tile: Rect,
}
