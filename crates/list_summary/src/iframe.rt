//! Places where a list shows another pipeline.

/// An Iframe where it stands in its list.
#[derive(Clone, Copy, Debug, PartialEq, Eq)]
pub struct Iframe {
    /// The pipeline that it names.
    pub pipeline: u8,
    /// How many contexts of the list it stands in, at most 64.
    pub contexts: u8,
    /// How many clips its chain has with its parents'.
    pub clips: u8,
    /// The node that it stands at; 0 is the root.
    pub node: u16,
    /// Its rectangle's first corner in pixels, relative to the node.
    pub x: i32,
    pub y: i32,
}
