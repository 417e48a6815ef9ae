//! The commands `send` and `cycle`, whose arguments are the tasks that are sent together.
ghost use Rattle.std.specs.Prelude.{◌≡◌, ◌≤◌, length, map, option_map};
ghost use Rattle.hc_records.specs.declared.limits.TheConstants.{TASKS};
ghost use Rattle.hc_text.specs.Numbers.{numbers_in};
ghost use Rattle.hc_text.specs.TaskWords.{cycle_in, send_in, tasks_in};

use super::Command;
use crate::numbers::byte_in;
use arrayvec::ArrayVec;
use hc_events::together::Together;
use hc_records::limits::TASKS;

/// Returns the number of each word, if each is one of at most 255.
fn numbers_in(words: &[&[u8]]) -> Option<ArrayVec<u8, 8>>
    requires { length words.now ≤ TASKS }
    ensures { option_map (λ numbers. numbers.items) result ≡ numbers_in 255 (map (λ word. word.now) words.now) }
{
    let mut numbers = ArrayVec::new();
    for word in words {
        match byte_in(word) {
            Some(number) => numbers.push(number),
            None => return None,
        }
    }
    Some(numbers)
}

/// Returns the tasks in some words, each a number of at most 255. `None` if there is no word or more than 8, a word is no such
/// number, or a task is named twice.
fn tasks_in(words: &[&[u8]]) -> Option<Together>
    ensures { result ≡ tasks_in (map (λ word. word.now) words.now) }
{
    if words.len() > usize::from(TASKS) {
        return None;
    }
    Together::of(numbers_in(words)?.as_slice())
}

/// Returns the `send` with 1 to 8 tasks, each at most 255 and none twice, or `None` if the arguments are others.
pub(super) fn send_in(arguments: &[&[u8]]) -> Option<Command>
    ensures { result ≡ send_in (map (λ word. word.now) arguments.now) }
{
    match tasks_in(arguments) {
        Some(tasks) => Some(Command::Send(tasks)),
        None => None,
    }
}

/// Returns the `cycle` with 1 to 8 tasks, each at most 255 and none twice, or `None` if the arguments are others.
pub(super) fn cycle_in(arguments: &[&[u8]]) -> Option<Command>
    ensures { result ≡ cycle_in (map (λ word. word.now) arguments.now) }
{
    match tasks_in(arguments) {
        Some(tasks) => Some(Command::Cycle(tasks)),
        None => None,
    }
}
