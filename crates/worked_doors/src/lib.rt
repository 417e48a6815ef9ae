//! The examples that the pages of the crates quote, each run as a test: how a caller gets in by the crate's root.
#![tactic(auto)]

#[cfg(test)]
mod bits;
#[cfg(test)]
mod bitsum;
#[cfg(test)]
mod conductor;
#[cfg(test)]
mod cuts;
#[cfg(test)]
mod events;
#[cfg(test)]
mod exchange;
#[cfg(test)]
mod frames;
#[cfg(test)]
mod groups;
#[cfg(test)]
mod images;
#[cfg(test)]
mod lend;
#[cfg(test)]
mod line_core;
#[cfg(test)]
mod machine;
#[cfg(test)]
mod mail;
#[cfg(test)]
mod opened;
#[cfg(test)]
mod owed;
#[cfg(test)]
mod places;
#[cfg(test)]
mod plan;
#[cfg(test)]
mod program;
#[cfg(test)]
mod project;
#[cfg(test)]
mod publish;
#[cfg(test)]
mod records;
#[cfg(test)]
mod registers;
#[cfg(test)]
mod rings;
#[cfg(test)]
mod segment;
#[cfg(test)]
mod sendings;
#[cfg(test)]
mod text;
