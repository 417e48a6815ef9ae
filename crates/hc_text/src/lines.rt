//! The lines of an input: the end of its project text, and its command lines.
ghost use Rattle.std.specs.Prelude.{◌≡◌, ◌≤◌, ◌<◌, ◌+◌, ◌==◌, [], ◌∷◌, length, option_map, IfNone, IfSome};
ghost use Rattle.std.specs.List.{position};
ghost use Rattle.std.specs.Option.{option_copied};
ghost use Rattle.std.specs.Str.Lines.{strip_carriage_return};
ghost use Rattle.hc_text.specs.Lines.{closed_text, command_lines, lines_of, parts_at, project_text, text_of_lines};
ghost use Rattle.hc_text.specs.Cutting.{CutsLine, bytes_after, part_joined, left_in, lines_after, parts_after};
ghost use Rattle.hc_text.specs.declared.input.TheConstants.{MOST_INPUT};

/// The line that ends the project text.
const MARK: &[u8] = b"%%";

/// Returns the index of the first byte with this value, or `None` if there is none.
fn find_byte(text: &[u8], byte: u8) -> Option<usize>
    ensures { result ≡ position (λ b. b == byte) text.now }
{
    text.iter().position(|b| *b == byte)
}

/// Returns the bytes before the first such byte, and those after it. `None` if there is no such byte.
pub fn split_at_byte(text: &[u8], byte: u8) -> (&[u8], Option<&[u8]>)
    ensures parts { parts_at byte text.now ≡ result.0.now ∷ parts_after byte (option_copied result.1) }
    ensures whole { part_joined byte result.0.now (option_copied result.1) ≡ text.now }
    ensures shorter { left_in (option_copied result.1) ≤ length text.now }
{
    match find_byte(text, byte) {
        Some(end) => (&text[..end], Some(&text[end + 1..])),
        None => (text, None),
    }
}

/// Returns the part without a carriage return at its end, if it has one.
fn strip_carriage_return(part: &[u8]) -> &[u8]
    ensures { result.now ≡ strip_carriage_return part.now }
{
    if !part.is_empty() && part[part.len() - 1] == b'\r' {
        &part[..part.len() - 1]
    } else {
        part
    }
}

/// Returns the text of a line, from its part and the bytes after the part's line feed.
#[tactic(auto, using(crate::proofs::Parts::text_of_some))]
fn text_of<'a>(part: &'a [u8], rest: Option<&[u8]>) -> &'a [u8]
    ensures { result.now ≡ text_of_lines part.now (parts_after 10 (option_copied rest.entry)) }
{
    match rest {
        None => part,
        Some(_) => strip_carriage_return(part),
    }
}

/// Returns the text of the first line, and the bytes after the line. `None` after the last line.
pub fn split_line(input: &[u8]) -> (&[u8], Option<&[u8]>)
    ensures line { CutsLine input.now result.0.now (option_copied result.1) }
    ensures shorter { left_in (option_copied result.1) ≤ length input.now }
{
    let (part, rest) = split_at_byte(input, b'\n');
    (text_of(part, rest), rest)
}

/// Lines cut at the mark.
#[derive(Debug, Drop)]
pub struct Sections<'a> {
    /// The project text: the bytes before the mark, unchanged; all bytes if there is no mark.
    pub project: &'a [u8],
    /// The lines after the mark; `None` if nothing follows it.
    pub commands: Option<&'a [u8]>,
    /// The number of the first of them.
    pub first: u32,
}

/// Cuts lines, from a line number on, at the first line `%%`. `None` if no line is that.
pub fn split_at_mark(lines: Option<&[u8]>, number: u32) -> Option<Sections<'_>>
    requires { number + left_in (option_copied lines) ≤ MOST_INPUT + 2 }
    ensures project { option_map (λ sections. sections.project.now) result ≡ closed_text (lines_after number (option_copied lines.entry)) }
    ensures commands { IfSome result (λ sections. lines_after sections.first (option_copied sections.commands) ≡ command_lines (lines_after number (option_copied lines.entry))) }
    ensures few { IfSome result (λ sections. sections.first + left_in (option_copied sections.commands) ≤ MOST_INPUT + 2) }
    ensures shorter { IfSome result (λ sections. left_in (option_copied sections.commands) < left_in (option_copied lines.entry)) }
    ensures unmarked { IfNone result (project_text (lines_after number (option_copied lines.entry)) ≡ bytes_after (option_copied lines.entry)) }
    ensures uncommanded { IfNone result (command_lines (lines_after number (option_copied lines.entry)) ≡ []) }
{
    let input = lines?;
    let mut next = number;
    let mut rest = Some(input);
    while let Some(text) = rest {
        let (line, more) = split_line(text);
        next += 1;
        if line == MARK {
            return Some(Sections {
                project: &input[..input.len() - text.len()],
                commands: more,
                first: next,
            });
        }
        rest = more;
    }
    None
}

/// Cuts an input at its first line `%%`.
pub fn split_sections(input: &[u8]) -> Sections<'_>
    requires { length input.now ≤ MOST_INPUT }
    ensures project { result.project.now ≡ project_text (lines_of input.now) }
    ensures commands { lines_after result.first (option_copied result.commands) ≡ command_lines (lines_of input.now) }
    ensures few { result.first + left_in (option_copied result.commands) ≤ MOST_INPUT + 2 }
{
    match split_at_mark(Some(input), 1) {
        Some(sections) => sections,
        None => Sections {
            project: input,
            commands: None,
            first: 1,
        },
    }
}
