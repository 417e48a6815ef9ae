//! Lines from their project text to what their plans answer, worked out by hand, and the crates below the plan, each by
//! itself: tests. The drawn edits are run by the exchanges of `worked_program` too.
#![tactic(auto)]

#[cfg(test)]
mod boundaries;
#[cfg(test)]
mod declared;
pub mod drawn;
#[cfg(test)]
mod found;
#[cfg(test)]
mod lines;
#[cfg(test)]
mod opened;
#[cfg(test)]
mod pieces;
#[cfg(test)]
mod prepared;
#[cfg(test)]
mod steps;
#[cfg(test)]
mod widths;
