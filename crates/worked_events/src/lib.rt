//! Events from the project's opening on, and frames byte by byte, in rows that were worked out by hand. There is nothing
//! to call: these are tests. They have a crate of their own since a crate that has tests is proved twice.
#![tactic(auto)]

#[cfg(test)]
mod answers;
#[cfg(test)]
mod asked;
#[cfg(test)]
mod buffers;
#[cfg(test)]
mod changed;
#[cfg(test)]
mod changed_writes;
#[cfg(test)]
mod declared;
#[cfg(test)]
mod driven;
#[cfg(test)]
mod followed;
#[cfg(test)]
mod forgotten;
#[cfg(test)]
mod frames;
#[cfg(test)]
mod further;
#[cfg(test)]
mod handed;
#[cfg(test)]
mod lines;
#[cfg(test)]
mod pieces;
#[cfg(test)]
mod several;
#[cfg(test)]
mod shared;
#[cfg(test)]
mod stages;
#[cfg(test)]
mod texts;
#[cfg(test)]
mod undisturbed;
#[cfg(test)]
mod updates;
#[cfg(test)]
mod values;
#[cfg(test)]
mod waits;
#[cfg(test)]
mod writes;
