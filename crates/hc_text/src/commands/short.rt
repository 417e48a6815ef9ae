//! The commands of at most two arguments, each a number or bytes.
ghost use Rattle.std.specs.Prelude.{◌≡◌, IfOk, map};
ghost use Rattle.hc_text.specs.ShortCommands.{alone_in, arrive_in, place_command, read_in, regs_in, show_in, view_in};

use super::Command;
use crate::numbers::{byte_in, bytes_in, double_byte_in, quadruple_byte_in};
use hc_records::items::Items;
use std::alloc::{AllocError, Global};

/// Returns this command, which has no argument, or `None` if there is one.
pub(super) fn alone_in(command: Command, arguments: &[&[u8]]) -> Option<Command>
    ensures { result ≡ alone_in command (map (λ word. word.now) arguments.now) }
{
    if arguments.is_empty() {
        Some(command)
    } else {
        None
    }
}

/// Returns the `regs` with a station address, at most 65,535, or `None` if the arguments are others.
pub(super) fn regs_in(arguments: &[&[u8]]) -> Option<Command>
    ensures { result ≡ regs_in (map (λ word. word.now) arguments.now) }
{
    match arguments {
        [station] => match double_byte_in(station) {
            Some(station) => Some(Command::Regs { station }),
            None => None,
        },
        [] => None,
        [_, _, ..] => None,
    }
}

/// Returns the `show` with a task and the number of a datagram, each at most 255, or `None` if the arguments are others.
pub(super) fn show_in(arguments: &[&[u8]]) -> Option<Command>
    ensures { result ≡ show_in (map (λ word. word.now) arguments.now) }
{
    match arguments {
        [task, datagram] => match (byte_in(task), byte_in(datagram)) {
            (Some(task), Some(datagram)) => Some(Command::Show { task, datagram }),
            _ => None,
        },
        [] => None,
        [_] => None,
        [_, _, _, ..] => None,
    }
}

/// Returns the `place` with the number of a variable, at most 4,294,967,295, or `None` if the arguments are others.
pub(super) fn place_in(arguments: &[&[u8]]) -> Option<Command>
    ensures { result ≡ place_command (map (λ word. word.now) arguments.now) }
{
    match arguments {
        [number] => match quadruple_byte_in(number) {
            Some(variable) => Some(Command::Place { variable }),
            None => None,
        },
        [] => None,
        [_, _, ..] => None,
    }
}

/// Returns the `arrive` with the bytes that arrive, two hexadecimal digits each, or `None` if the arguments are others.
/// `AllocError` if an allocation fails.
pub(super) fn arrive_in(alloc: Global, arguments: &[&[u8]]) -> Result<Option<Command>, AllocError>
    ensures { IfOk result (λ spelt. spelt ≡ arrive_in (map (λ word. word.now) arguments.now)) }
{
    match arguments {
        [word] => match bytes_in(alloc, word)? {
            Some(bytes) => Ok(Some(Command::Arrive(Items::of(bytes)))),
            None => Ok(None),
        },
        [] => Ok(None),
        [_, _, ..] => Ok(None),
    }
}

/// Returns the `read` with a task, at most 255, or `None` if the arguments are others.
pub(super) fn read_in(arguments: &[&[u8]]) -> Option<Command>
    ensures { result ≡ read_in (map (λ word. word.now) arguments.now) }
{
    match arguments {
        [task] => match byte_in(task) {
            Some(task) => Some(Command::Read { task }),
            None => None,
        },
        [] => None,
        [_, _, ..] => None,
    }
}

/// Returns the `view` with a task, at most 255, and the number of a variable, at most 4,294,967,295, or `None` if the arguments
/// are others.
pub(super) fn view_in(arguments: &[&[u8]]) -> Option<Command>
    ensures { result ≡ view_in (map (λ word. word.now) arguments.now) }
{
    match arguments {
        [task, variable] => match (byte_in(task), quadruple_byte_in(variable)) {
            (Some(task), Some(variable)) => Some(Command::View { task, variable }),
            _ => None,
        },
        [] => None,
        [_] => None,
        [_, _, _, ..] => None,
    }
}
