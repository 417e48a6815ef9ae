//! The records of an EtherCAT line that changes while it runs: declared slaves and their process data, and the limits that
//! every project keeps. `specs/` has the definitions of line, edit, packing, image and boundaries, which every crate above
//! cites.
#![tactic(auto)]

pub mod assignment;
mod conditions;
pub mod edit;
pub mod faults;
pub mod items;
pub mod keys;
pub mod laws;
pub mod limits;
pub mod line;
pub mod project;
pub mod records;
pub mod room;
pub mod setting;
pub mod slots;
pub mod task;

pub use conditions::names::add_slave_names;
pub use edit::Edit;
pub use faults::{EditFault, ProjectFault};
pub use project::Project;
pub use records::{Area, Declared, Dir, Entry, Group, Pdo, Slave, VarId};
pub use setting::Setting;
pub use task::Task;
