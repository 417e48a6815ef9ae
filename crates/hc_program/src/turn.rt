//! The turns of a run, cut from its command lines one after another: a command line is one, and a line `declare` with
//! the lines of its document.
ghost use Rattle.std.specs.Prelude.{◌≡◌, ◌≤◌, ◌+◌, ◌∷◌, length, Some};
ghost use Rattle.std.specs.Option.{option_copied};
ghost use Rattle.hc_text.specs.Cutting.{left_in, lines_after};
ghost use Rattle.hc_text.specs.Lines.{closed_text, command_lines};
ghost use Rattle.hc_text.specs.declared.input.TheConstants.{MOST_INPUT};
ghost use Rattle.hc_program.specs.Declaring.{Declares, is_declare, turn_of, turns_of};

use hc_text::lines::{split_at_mark, split_line};
use hc_text::words::sole_word;

/// One turn of a run.
#[derive(Clone, Copy, Debug)]
pub enum Turn<'a> {
    /// A command line.
    Says {
        /// Its number.
        number: u32,
        /// Its text.
        line: &'a [u8],
    },
    /// A line `declare`.
    Declares {
        /// Its number.
        number: u32,
        /// The bytes between it and the line `%%` after it, unchanged; `None` if no later line is `%%`.
        document: Option<&'a [u8]>,
    },
}

/// A turn that was cut from the front of the command lines.
#[derive(Debug, Drop)]
pub struct CutTurn<'a> {
    /// The turn.
    pub turn: Turn<'a>,
    /// The lines after it; `None` if nothing follows it.
    pub after_it: Option<&'a [u8]>,
    /// The number of the first of them.
    pub first: u32,
}

/// Returns whether a line is the one word `declare`.
fn is_declare(line: &[u8]) -> bool
    ensures { result ≡ is_declare line.now }
{
    match sole_word(line) {
        Some(word) => word == b"declare".as_slice(),
        None => false,
    }
}

/// Returns the declaration of a line with this number, and the lines after its document.
fn split_declaration(number: u32, lines: Option<&[u8]>) -> CutTurn<'_>
    requires { number + 1 + left_in (option_copied lines) ≤ MOST_INPUT + 2 }
    ensures turn { turn_of result.turn ≡ Declares number (closed_text (lines_after (number + 1) (option_copied lines.entry))) }
    ensures after_it { lines_after result.first (option_copied result.after_it) ≡ command_lines (lines_after (number + 1) (option_copied lines.entry)) }
    ensures few { result.first + left_in (option_copied result.after_it) ≤ MOST_INPUT + 2 }
    ensures shorter { left_in (option_copied result.after_it) ≤ left_in (option_copied lines.entry) }
{
    match split_at_mark(lines, number + 1) {
        Some(sections) => CutTurn {
            turn: Turn::Declares {
                number,
                document: Some(sections.project),
            },
            after_it: sections.commands,
            first: sections.first,
        },
        None => CutTurn {
            turn: Turn::Declares {
                number,
                document: None,
            },
            after_it: None,
            first: number + 1,
        },
    }
}

/// Cuts the first turn from command lines, from a line number on.
pub fn split_turn(lines: &[u8], number: u32) -> CutTurn<'_>
    requires { number + left_in (Some lines.now) ≤ MOST_INPUT + 2 }
    ensures turn { turns_of (lines_after number (Some lines.now)) ≡ turn_of result.turn ∷ turns_of (lines_after result.first (option_copied result.after_it)) }
    ensures few { result.first + left_in (option_copied result.after_it) ≤ MOST_INPUT + 2 }
    ensures shorter { left_in (option_copied result.after_it) ≤ length lines.now }
{
    let (line, rest) = split_line(lines);
    if is_declare(line) {
        return split_declaration(number, rest);
    }
    CutTurn {
        turn: Turn::Says { number, line },
        after_it: rest,
        first: number + 1,
    }
}
