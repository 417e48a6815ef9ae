//! A mailbox hands the newest content from one thread to another: images of a task from the owner of the core to the task, and
//! posts from the task to the owner. Neither end ever waits.
//!
//! There are three buffers. Each end has one, and the third lies in the middle. One word says which buffer is in the middle,
//! and whether a content was sent since the last look. A sending exchanges the sender's buffer for the middle one in one step.
//! A look that finds a newer content does so with the receiver's buffer.
#![tactic(auto)]

pub mod boxes;
pub mod content;
pub mod holder;
pub mod image;
pub mod image_receiver;
pub mod images;
pub mod letter;
pub mod note;
pub mod opening;
pub mod post;
pub mod posts;
pub mod receiver;
pub mod sender;
pub mod steps;
pub mod table;
pub mod taker;
pub mod viewed;

pub use receiver::Receiver;
pub use sender::Sender;
