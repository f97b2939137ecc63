//! Colours of eight-bit premultiplied channels, and the rules by which they are scaled and blended.
#![tactic(auto)]

mod colour;
mod laws;
mod mode;
mod plane;
mod rules;
mod values;

pub use colour::Px;
pub use laws::{blend_laws, know_bytes, pixel_laws, product_laws, scale_laws};
pub use mode::Mode;
pub use plane::Plane;
pub use rules::{blend, mul, scale};
