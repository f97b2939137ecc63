//! Where counting stops.

/// A total that reaches this stays there: it is one more than the greatest limit of an expanded scene.
pub const COUNT_CAP: u32 = 1_048_577;
