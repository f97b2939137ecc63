//! Ids.

/// What an entry is held under. Once it is given up, its id may come to stand for another entry.
#[derive(Clone, Copy, Debug, PartialEq, Eq, PartialOrd, Ord, Hash)]
pub struct Id {
    /// Its number in the interner.
    pub key: usize,
}
