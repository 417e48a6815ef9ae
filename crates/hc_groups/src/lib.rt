//! The declared groups. An index finds a group by its alias, a slave by its station address or its position, a block by its
//! number, and a variable, without a walk. An edit is judged by itself and carried out in the groups; the plan adds the faults
//! of the whole line: datagrams and epochs.
#![tactic(auto)]

mod addresses;
mod aliases;
mod areas;
mod carrying;
pub mod changes;
pub mod faults;
pub mod index;
pub mod laws;
mod line;
mod lists;
mod owning;
pub mod prepared;
pub mod room;
mod sums;
mod variables;

pub use index::Index;
pub use prepared::Prepared;
