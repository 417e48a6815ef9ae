//! Tests of the crates below the publisher: parts of slices, rings, mailboxes, slave machines and chains of segments, many of
//! them in threads. The rows were worked out by hand, and show what no clause states. There is nothing to call. The tests have
//! a crate of their own since a crate that has tests is proved twice.
#![tactic(auto)]

#[cfg(test)]
mod buffers;
#[cfg(test)]
mod chains;
#[cfg(test)]
mod crossings;
#[cfg(test)]
mod ends;
#[cfg(test)]
mod frames;
#[cfg(test)]
mod gates;
#[cfg(test)]
mod lines;
#[cfg(test)]
mod logical;
#[cfg(test)]
mod mail;
#[cfg(test)]
mod parts;
#[cfg(test)]
mod physical;
#[cfg(test)]
mod pieces;
#[cfg(test)]
mod posting;
#[cfg(test)]
mod posts;
#[cfg(test)]
mod workers;
