//! Text in and out. An input is read and cut into lines and words, and words are read as numbers; numbers and bytes are
//! printed, and a text is written to its end. `commands` defines how each command of one line is written; nothing else here
//! concerns an EtherCAT line.
#![tactic(auto)]

pub mod commands;
pub mod input;
pub mod lines;
pub mod numbers;
pub mod output;
pub mod printing;
pub mod room;
pub mod words;

pub use commands::{Command, command_in};
pub use input::{Unread, read_all};
pub use output::{WriteFailed, write_text};
