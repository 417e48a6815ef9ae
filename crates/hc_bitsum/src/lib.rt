//! Sums of the bits that areas take in a datagram, and trees of such sums over a task's areas. A search in a tree finds the
//! first area that a datagram has no room for, without going over the areas before it.
#![tactic(auto)]

pub mod borders;
mod branch;
pub mod filled;
pub mod laws;
mod row;
pub mod steps;
pub mod sum;
pub mod tree;

pub use filled::Filled;
pub use steps::Steps;
pub use sum::Sum;
pub use tree::SumTree;
