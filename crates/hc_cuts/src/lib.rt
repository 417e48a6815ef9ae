//! The boundaries of tasks' datagrams: the areas of each of a line's eight tasks, in a tree of sums, with the keys at which its
//! datagrams begin. An edit sets the widths that it changes and repairs the boundaries of the tasks that it touches. The plan
//! has a `LineCuts`.
#![tactic(auto)]

mod applying;
pub mod areas;
pub mod cursor;
pub mod cuts;
pub mod finder;
pub mod fold;
pub mod hulls;
pub mod keeping;
pub mod laws;
pub mod line_change;
pub mod line_keeping;
pub mod next;
pub mod packing;
mod repair;
pub mod starts;
pub mod tasks;
pub mod touched;
mod walk;
mod widening;
mod widths;

pub use cuts::Cuts;
pub use fold::TooManyDatagrams;
pub use tasks::LineCuts;
