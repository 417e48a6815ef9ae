//! The words of a line.
ghost use Rattle.std.specs.Prelude.{◌≡◌, IfOk, map};
ghost use Rattle.std.specs.Option.{option_copied};
ghost use Rattle.hc_text.specs.Lines.{sole, words_of};

use crate::lines::split_at_byte;
use std::alloc::{AllocError, Global};

/// Returns the words of a line: the parts between its spaces that are not empty. `AllocError` if an allocation fails.
pub fn split_words<'a>(alloc: Global, line: &'a [u8]) -> Result<Vec<&'a [u8]>, AllocError>
    ensures { IfOk result (λ words. map (λ word. word.now) words.items ≡ words_of line.now) }
{
    let mut words = Vec::new(alloc);
    let mut rest = Some(line);
    while let Some(text) = rest {
        let (part, more) = split_at_byte(text, b' ');
        if !part.is_empty() {
            words.push(part)?;
        }
        rest = more;
    }
    Ok(words)
}

/// Returns the one word of a line, or `None` if it has no word, or more.
pub fn sole_word(line: &[u8]) -> Option<&[u8]>
    ensures { option_copied result ≡ sole (words_of line.now) }
{
    let mut found: Option<&[u8]> = None;
    let mut rest = Some(line);
    while let Some(text) = rest {
        let (part, more) = split_at_byte(text, b' ');
        if !part.is_empty() && found.replace(part).is_some() {
            return None;
        }
        rest = more;
    }
    found
}
