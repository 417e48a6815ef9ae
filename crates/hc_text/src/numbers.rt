//! Numbers in commands: decimal digits, or `0x` and hexadecimal digits of either case; and bytes, two hexadecimal digits each.
ghost use Rattle.std.specs.Prelude.{◌≡◌, ◌+◌, ◌*◌, ◌≤◌, nat_le, if◌then◌else◌, IfOk, option_map};
ghost use Rattle.hc_text.specs.Numbers.{bytes_in, digit_of, digits_number, number_in};

use hex::FromHexError;
use std::alloc::{AllocError, Global};

/// Returns the value of a digit of either case, and 16 for any other byte.
fn digit_of(byte: u8) -> u8
    ensures { result ≡ digit_of byte }
{
    match byte {
        b'0'..=b'9' => byte - b'0',
        b'a'..=b'f' => byte - b'a' + 10,
        b'A'..=b'F' => byte - b'A' + 10,
        _ => 16,
    }
}

/// Returns a number with one more digit after it, if it is at most `most`.
fn with_digit(number: u64, base: u64, digit: u64, most: u64) -> Option<u64>
    ensures { result ≡ (if nat_le (number * base + digit) most then Some (number * base + digit) else None) }
{
    let number = number.checked_mul(base)?.checked_add(digit)?;
    if number <= most { Some(number) } else { None }
}

/// Returns the number of some digits of a base, at least one, if it is at most `most`.
fn digits_number(digits: &[u8], base: u64, most: u64) -> Option<u64>
    requires low { 2 ≤ base }
    requires high { base ≤ 16 }
    ensures { result ≡ digits_number base most digits.now }
{
    if digits.is_empty() {
        return None;
    }
    let mut number = 0u64;
    for byte in digits {
        let digit = u64::from(digit_of(*byte));
        if digit >= base {
            return None;
        }
        match with_digit(number, base, digit, most) {
            Some(more) => number = more,
            None => return None,
        }
    }
    Some(number)
}

/// Returns the number in a word, or `None` if the word is no number or a larger one than `most`.
pub fn number_in(word: &[u8], most: u64) -> Option<u64>
    ensures { result ≡ number_in most word.now }
{
    match word.strip_prefix(b"0x") {
        Some(digits) => digits_number(digits, 16, most),
        None => digits_number(word, 10, most),
    }
}

/// Returns the number in a word, 0 to 255, or `None` if the word is no number or a larger one.
pub fn byte_in(word: &[u8]) -> Option<u8>
    ensures { result ≡ number_in 255 word.now }
{
    match number_in(word, u64::from(u8::MAX)) {
        Some(number) => Some(number as u8),
        None => None,
    }
}

/// Returns the number in a word, 0 to 65,535, or `None` if the word is no number or a larger one.
pub fn double_byte_in(word: &[u8]) -> Option<u16>
    ensures { result ≡ number_in 65535 word.now }
{
    match number_in(word, u64::from(u16::MAX)) {
        Some(number) => Some(number as u16),
        None => None,
    }
}

/// Returns the number in a word, 0 to 4,294,967,295, or `None` if the word is no number or a larger one.
pub fn quadruple_byte_in(word: &[u8]) -> Option<u32>
    ensures { result ≡ number_in 4294967295 word.now }
{
    match number_in(word, u64::from(u32::MAX)) {
        Some(number) => Some(number as u32),
        None => None,
    }
}

/// Returns the bytes in a word, two hexadecimal digits of either case each, at least one byte. `None` if the word has another
/// character, or an odd number of them. `AllocError` if an allocation fails.
pub fn bytes_in(alloc: Global, word: &[u8]) -> Result<Option<Vec<u8>>, AllocError>
    ensures { IfOk result (λ found. option_map (λ bytes. bytes.items) found ≡ bytes_in word.now) }
{
    if word.is_empty() {
        return Ok(None);
    }
    match hex::decode(alloc, word) {
        Ok(bytes) => Ok(Some(bytes)),
        Err(FromHexError::OutOfMemory) => Err(AllocError),
        Err(_) => Ok(None),
    }
}
