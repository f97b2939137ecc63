//! Tests of tiles kept between frames.
#![tactic(auto)]

#[cfg(test)]
mod bench;
#[cfg(test)]
mod changes;
#[cfg(test)]
mod fits;
#[cfg(test)]
mod made;
#[cfg(test)]
mod pixels;
#[cfg(test)]
mod plans;
#[cfg(test)]
mod rolls;
#[cfg(test)]
mod shown;
