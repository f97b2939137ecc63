/// What a frame took.
#[derive(Clone, Copy, Debug, PartialEq, Eq)]
pub struct Report {
    /// How many tiles are kept after the frame.
    pub tiles: u32,
    /// How many pixels of tiles were drawn for it.
    pub drawn: u64,
}

/// What a transaction was answered with.
#[derive(Clone, Copy, Debug, PartialEq, Eq)]
pub enum Answer {
    /// It was applied; no frame was asked for.
    Accepted,
    /// It was applied, and its frame was drawn.
    Framed(Report),
}
