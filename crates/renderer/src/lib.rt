//! A renderer: a scene, the tiles kept between its frames, and its last frame.
//!
//! `Renderer::apply` applies one transaction. Where a frame is asked for, it draws anew what is stale of the visible tiles,
//! and puts the frame together from them.
#![tactic(auto)]

mod answer;
mod drawing;
mod drops;
mod parts;
mod preparing;
mod renderer;

pub use answer::{Answer, Report};
pub use renderer::{Renderer, know_renderer};
