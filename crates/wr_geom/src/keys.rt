/// The key of a slice of the picture.
#[derive(Clone, Copy, Debug, PartialEq, Eq, PartialOrd, Ord, Hash)]
pub struct SliceKey {
    /// The pipeline and the scroll number of the scroll frame with which the slice moves, if any.
    pub scroll: Option<(u8, u16)>,
    /// Its number, from 0, among the slices with that scroll frame, or among those without one.
    pub nth: u8,
}

/// The key of a tile: its slice, and its column and row in the grid of that slice's tiles.
#[derive(Clone, Copy, Debug, PartialEq, Eq, PartialOrd, Ord, Hash)]
pub struct TileKey {
    pub slice: SliceKey,
    pub col: i32,
    pub row: i32,
}
