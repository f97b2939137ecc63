//! The tests of the base crates, over their public calls: geometry, colours, streams, containers, fields,
//! display lists, transactions, masks and the loop over records. They stand in a crate of their own, since a crate with tests
//! is proved twice.
#![tactic(auto)]

#[cfg(test)]
mod colours;
#[cfg(test)]
mod fields;
#[cfg(test)]
mod geometry;
#[cfg(test)]
mod lists;
#[cfg(test)]
mod masks;
#[cfg(test)]
mod payloads;
#[cfg(test)]
mod plain_values;
#[cfg(test)]
mod records;
#[cfg(test)]
mod streams;
