//! The edits `connect A`, `disconnect A`, `remap S A P..` and `move S A T`.
ghost use Rattle.std.specs.Prelude.{◌≡◌, IfOk, map, option_map};
ghost use Rattle.hc_text.specs.declared.commands.Command.TheVariants as command;
ghost use Rattle.hc_text.specs.EditWords.{alias_in, edit_in, move_in, remap_in};
ghost use Rattle.hc_text.specs.Numbers.{numbers_in};

use super::Command;
use crate::numbers::{byte_in, double_byte_in};
use hc_records::edit::Edit;
use hc_records::items::Items;
use std::alloc::{AllocError, Global};

/// Returns the edit with a name and arguments. `None` if the name is no edit's, the number of arguments is wrong, or a number
/// is malformed or too large: aliases, station addresses and PDO indexes are at most 65,535, areas and tasks 255. `AllocError`
/// if an allocation fails.
pub(super) fn edit_command_in(
    alloc: Global,
    name: &[u8],
    arguments: &[&[u8]],
) -> Result<Option<Command>, AllocError>
    ensures { IfOk result (λ spelt. spelt ≡ option_map command.Edit (edit_in name.now (map (λ word. word.now) arguments.now))) }
{
    match edit_of(alloc, name, arguments)? {
        Some(edit) => Ok(Some(Command::Edit(edit))),
        None => Ok(None),
    }
}

/// Returns the edit with a name and arguments, or `None` if they are no edit's. `AllocError` if an allocation fails.
fn edit_of(alloc: Global, name: &[u8], arguments: &[&[u8]]) -> Result<Option<Edit>, AllocError>
    ensures { IfOk result (λ edit. edit ≡ edit_in name.now (map (λ word. word.now) arguments.now)) }
{
    if name == b"connect".as_slice() {
        Ok(alias_of(arguments).map(Edit::Connect))
    } else if name == b"disconnect".as_slice() {
        Ok(alias_of(arguments).map(Edit::Disconnect))
    } else if name == b"remap".as_slice() {
        remap_of(alloc, arguments)
    } else if name == b"move".as_slice() {
        Ok(move_of(arguments))
    } else {
        Ok(None)
    }
}

/// Returns the one argument as an alias.
fn alias_of(arguments: &[&[u8]]) -> Option<u16>
    ensures { result ≡ alias_in (map (λ word. word.now) arguments.now) }
{
    match arguments {
        [alias] => double_byte_in(alias),
        [] => None,
        [_, _, ..] => None,
    }
}

/// Returns the remap with a station address, an area and any number of PDO indexes, or `None` if they are no such numbers.
/// `AllocError` if an allocation fails.
fn remap_of(alloc: Global, arguments: &[&[u8]]) -> Result<Option<Edit>, AllocError>
    ensures { IfOk result (λ edit. edit ≡ remap_in (map (λ word. word.now) arguments.now)) }
{
    match arguments {
        [station, area, pdos @ ..] => match (double_byte_in(station), byte_in(area)) {
            (Some(station), Some(area)) => match indexes_of(alloc, pdos)? {
                Some(pdos) => Ok(Some(Edit::Remap {
                    station,
                    area,
                    pdos,
                })),
                None => Ok(None),
            },
            _ => Ok(None),
        },
        [] => Ok(None),
        [_] => Ok(None),
    }
}

/// Returns the number of each word, if each is one of at most 65,535.
fn indexes_of(alloc: Global, words: &[&[u8]]) -> Result<Option<Items<u16>>, AllocError>
    ensures { IfOk result (λ indexes. indexes ≡ numbers_in 65535 (map (λ word. word.now) words.now)) }
{
    let mut indexes = Vec::with_capacity(alloc, words.len())?;
    for word in words {
        match double_byte_in(word) {
            Some(index) => indexes.push(index)?,
            None => return Ok(None),
        }
    }
    Ok(Some(Items::of(indexes)))
}

/// Returns the move with a station address, an area and a task, or `None` if there are more or fewer words, or one is no such
/// number.
fn move_of(arguments: &[&[u8]]) -> Option<Edit>
    ensures { result ≡ move_in (map (λ word. word.now) arguments.now) }
{
    match arguments {
        [station, area, task] => match (double_byte_in(station), byte_in(area), byte_in(task)) {
            (Some(station), Some(area), Some(task)) => Some(Edit::Move {
                station,
                area,
                task,
            }),
            _ => None,
        },
        [] => None,
        [_] => None,
        [_, _] => None,
        [_, _, _, _, ..] => None,
    }
}
