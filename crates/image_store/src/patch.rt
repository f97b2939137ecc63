/// A rectangle of an image's texels: its left column, its first row and its sides, in texels.
#[derive(Clone, Copy, Debug, PartialEq, Eq)]
pub struct Patch {
    pub x: u16,
    pub y: u16,
    pub w: u16,
    pub h: u16,
}
