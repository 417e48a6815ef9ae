//! The command `post`, whose arguments are a task and the values that it posts.
ghost use Rattle.std.specs.Prelude.{◌≡◌, [], ◌∷◌, IfOk, map};
ghost use Rattle.hc_text.specs.PostWords.{post_in, posting_in, setting_in, setting_with, settings_in};

use super::Command;
use crate::lines::split_at_byte;
use crate::numbers::{byte_in, number_in, quadruple_byte_in};
use hc_records::items::Items;
use hc_records::setting::Setting;
use std::alloc::{AllocError, Global};

/// The task and the values of the command `post`.
#[derive(Debug, Drop)]
pub struct Posting {
    /// The task; over 7 the command is refused.
    pub task: u8,
    /// The values, in the order of their words.
    pub settings: Items<Setting>,
}

/// Returns the value for a variable from two numbers.
fn setting_with(variable: &[u8], value: &[u8]) -> Option<Setting>
    ensures { result ≡ setting_with (variable.now ∷ value.now ∷ []) }
{
    match (quadruple_byte_in(variable), number_in(value, u64::MAX)) {
        (Some(variable), Some(value)) => Some(Setting { variable, value }),
        _ => None,
    }
}

/// Returns the value for a variable from a word `V=X`. `None` if it has no `=` or more than one, or a number is malformed or
/// too large: the variable's number is at most 4,294,967,295, and the value has at most 64 bits.
fn setting_of(word: &[u8]) -> Option<Setting>
    ensures { result ≡ setting_in word.now }
{
    match split_at_byte(word, b'=') {
        (variable, Some(rest)) => match split_at_byte(rest, b'=') {
            (value, None) => setting_with(variable, value),
            (_, Some(_)) => None,
        },
        (_, None) => None,
    }
}

/// Returns the value in each word, if each has one.
fn settings_of(alloc: Global, words: &[&[u8]]) -> Result<Option<Items<Setting>>, AllocError>
    ensures { IfOk result (λ settings. settings ≡ settings_in (map (λ word. word.now) words.now)) }
{
    let mut settings = Vec::with_capacity(alloc, words.len())?;
    for word in words {
        match setting_of(word) {
            Some(setting) => settings.push(setting)?,
            None => return Ok(None),
        }
    }
    Ok(Some(Items::of(settings)))
}

/// Returns the posting with a task, at most 255, and any number of words `V=X`, or `None` if a word is another. `AllocError` if
/// an allocation fails.
fn posting_of(alloc: Global, arguments: &[&[u8]]) -> Result<Option<Posting>, AllocError>
    ensures { IfOk result (λ posting. posting ≡ posting_in (map (λ word. word.now) arguments.now)) }
{
    match arguments {
        [task, words @ ..] => match byte_in(task) {
            Some(task) => match settings_of(alloc, words)? {
                Some(settings) => Ok(Some(Posting { task, settings })),
                None => Ok(None),
            },
            None => Ok(None),
        },
        [] => Ok(None),
    }
}

/// Returns the `post` with a task, at most 255, and a word `V=X` for each value, or `None` if a word is another. `AllocError`
/// if an allocation fails.
pub(super) fn post_in(alloc: Global, arguments: &[&[u8]]) -> Result<Option<Command>, AllocError>
    ensures { IfOk result (λ command. command ≡ post_in (map (λ word. word.now) arguments.now)) }
{
    match posting_of(alloc, arguments)? {
        Some(posting) => Ok(Some(Command::Post(posting))),
        None => Ok(None),
    }
}
