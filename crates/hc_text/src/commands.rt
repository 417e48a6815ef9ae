//! The commands. A line of an input is cut into words: the first is a command's name, and the others are its arguments. A
//! caller that carries commands out calls `command_in`, and needs no knowledge of how they are written.
ghost use Rattle.std.specs.Prelude.{◌≡◌, IfOk, map};
ghost use Rattle.hc_text.specs.Commands.{command_in, event_in, line_command_in, task_command_in};

mod edits;
mod memory;
mod post;
mod short;
mod tasks;

use edits::edit_command_in;
use hc_events::together::Together;
use hc_records::edit::Edit;
use hc_records::items::Items;
pub use memory::{Peek, Poke};
use memory::{peek_in, poke_in};
pub use post::Posting;
use post::post_in;
use short::{alone_in, arrive_in, place_in, read_in, regs_in, show_in, view_in};
use std::alloc::{AllocError, Global};
use tasks::{cycle_in, send_in};

/// A command.
#[derive(Debug, Drop)]
pub enum Command {
    /// `layout`: the datagrams of every task.
    Layout,
    /// `regs S`: the register blocks of a slave.
    Regs {
        /// Its configured station address.
        station: u16,
    },
    /// `show T D`: the frame of a datagram that would be sent next.
    Show {
        /// The task; over 7 the command is refused.
        task: u8,
        /// The datagram's number in the task.
        datagram: u8,
    },
    /// `place V`: the place of a variable.
    Place {
        /// Its number; 0 is no variable's.
        variable: u32,
    },
    /// `connect A`, `disconnect A`, `remap S A P..` or `move S A T`: an edit of the line.
    Edit(Edit),
    /// `send T..`: the process data of tasks are sent.
    Send(Together),
    /// `write`: the first owed register block is sent.
    Write,
    /// `arrive HEX`: these bytes arrive.
    Arrive(Items<u8>),
    /// `read T`: the inputs of a task.
    Read {
        /// The task; over 7 the command is refused.
        task: u8,
    },
    /// `post T V=X ..`: a task posts values for its output variables.
    Post(Posting),
    /// `take`: the posts of tasks go to the core.
    Take,
    /// `view T V`: a task's view of a variable.
    View {
        /// The task; over 7 the command is refused.
        task: u8,
        /// The variable's number; 0 is no variable's.
        variable: u32,
    },
    /// `scan`: the alias of each slave along the line.
    Scan,
    /// `name`: each slave is given its station address along the line.
    Name,
    /// `program`: owed register blocks are written along the line.
    Program,
    /// `cycle T..`: the process data of tasks go along the line.
    Cycle(Together),
    /// `poke S A HEX`: bytes are written to a machine's memory.
    Poke(Poke),
    /// `peek S A N`: bytes of a machine's memory.
    Peek(Peek),
}

/// Returns the command with a name and arguments. `None` if the name is unknown, the number of arguments is wrong, a word is
/// malformed, a number is too large for its type, or a task is named twice. `AllocError` if an allocation fails.
pub fn command_in(
    alloc: Global,
    name: &[u8],
    arguments: &[&[u8]],
) -> Result<Option<Command>, AllocError>
    ensures { IfOk result (λ command. command ≡ command_in name.now (map (λ word. word.now) arguments.now)) }
{
    if name == b"layout".as_slice() {
        Ok(alone_in(Command::Layout, arguments))
    } else if name == b"regs".as_slice() {
        Ok(regs_in(arguments))
    } else if name == b"show".as_slice() {
        Ok(show_in(arguments))
    } else if name == b"place".as_slice() {
        Ok(place_in(arguments))
    } else {
        event_in(alloc, name, arguments)
    }
}

/// Returns the command with a name and arguments, among those that send, take in arriving frames or read, and those after them.
fn event_in(alloc: Global, name: &[u8], arguments: &[&[u8]]) -> Result<Option<Command>, AllocError>
    ensures { IfOk result (λ command. command ≡ event_in name.now (map (λ word. word.now) arguments.now)) }
{
    if name == b"send".as_slice() {
        Ok(send_in(arguments))
    } else if name == b"write".as_slice() {
        Ok(alone_in(Command::Write, arguments))
    } else if name == b"arrive".as_slice() {
        arrive_in(alloc, arguments)
    } else if name == b"read".as_slice() {
        Ok(read_in(arguments))
    } else {
        task_command_in(alloc, name, arguments)
    }
}

/// Returns the command with a name and arguments, among those of tasks, and those after them.
fn task_command_in(
    alloc: Global,
    name: &[u8],
    arguments: &[&[u8]],
) -> Result<Option<Command>, AllocError>
    ensures { IfOk result (λ command. command ≡ task_command_in name.now (map (λ word. word.now) arguments.now)) }
{
    if name == b"post".as_slice() {
        post_in(alloc, arguments)
    } else if name == b"take".as_slice() {
        Ok(alone_in(Command::Take, arguments))
    } else if name == b"view".as_slice() {
        Ok(view_in(arguments))
    } else {
        line_command_in(alloc, name, arguments)
    }
}

/// Returns the command with a name and arguments, among those of the simulated line, and the edits.
fn line_command_in(
    alloc: Global,
    name: &[u8],
    arguments: &[&[u8]],
) -> Result<Option<Command>, AllocError>
    ensures { IfOk result (λ command. command ≡ line_command_in name.now (map (λ word. word.now) arguments.now)) }
{
    if name == b"scan".as_slice() {
        Ok(alone_in(Command::Scan, arguments))
    } else if name == b"name".as_slice() {
        Ok(alone_in(Command::Name, arguments))
    } else if name == b"program".as_slice() {
        Ok(alone_in(Command::Program, arguments))
    } else if name == b"cycle".as_slice() {
        Ok(cycle_in(arguments))
    } else if name == b"poke".as_slice() {
        poke_in(alloc, arguments)
    } else if name == b"peek".as_slice() {
        Ok(peek_in(arguments))
    } else {
        edit_command_in(alloc, name, arguments)
    }
}
