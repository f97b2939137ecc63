//! Tests of images and masks in stores.
#![tactic(auto)]

#[cfg(test)]
mod glyphs;
#[cfg(test)]
mod images;
#[cfg(test)]
mod made;
#[cfg(test)]
mod refusals;
#[cfg(test)]
mod stores;
#[cfg(test)]
mod updates;
