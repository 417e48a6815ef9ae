//! Appending within a text's capacity, without an allocation: a text whose capacity was reserved before a change is completed
//! after it.
ghost use Rattle.std.specs.Prelude.{◌≡◌, ◌≤◌, ◌<◌, ◌+◌, ◌*◌, false, [], ◌∷◌, ◌++◌, decimal, length, string_bytes};
ghost use Rattle.std.specs.Fmt.{digit_glyph};
ghost use Rattle.hc_text.specs.Printing.{hex_byte, hex_bytes};
ghost use Rattle.std.specs.String.{string_capacity, string_len};

use itoa::Buffer;

/// The digits of the largest number that `add_number` appends.
pub const MOST_DIGITS: usize = 20;

/// Appends a text. The capacity must suffice. It allocates nothing.
pub fn add_text(text: &str, out: &mut String)
    requires { string_len out.old + length text.now ≤ string_capacity out.old }
    ensures bytes { string_bytes out.new ≡ string_bytes out.old ++ text.now }
    ensures len { string_len out.new ≡ string_len out.old + length text.now }
    ensures room { string_capacity out.old ≤ string_capacity out.new }
{
    let Ok(()) = out.push_str(text) else {
        unreachable!()
    };
}

/// Appends a number in decimal digits. The capacity must suffice for the largest, of 20 digits. It allocates nothing.
pub fn add_number(number: u64, out: &mut String)
    requires { string_len out.old + MOST_DIGITS ≤ string_capacity out.old }
    ensures bytes { string_bytes out.new ≡ string_bytes out.old ++ decimal number }
    ensures len { string_len out.new ≤ string_len out.old + MOST_DIGITS }
    ensures room { string_capacity out.old ≤ string_capacity out.new }
{
    let mut digits = Buffer::new();
    add_text(digits.format(number), out);
}

/// Appends a byte as two lower-case hexadecimal digits. The capacity must suffice. It allocates nothing.
pub fn add_byte(byte: u8, out: &mut String)
    requires { string_len out.old + 2 ≤ string_capacity out.old }
    ensures bytes { string_bytes out.new ≡ string_bytes out.old ++ hex_byte byte }
    ensures len { string_len out.new ≡ string_len out.old + 2 }
    ensures room { string_capacity out.old ≤ string_capacity out.new }
{
    add_digit(byte / 16, out);
    add_digit(byte % 16, out);
}

/// Appends a hexadecimal digit, 0 to 15.
fn add_digit(digit: u8, out: &mut String)
    requires digit { digit < 16 }
    requires room { string_len out.old + 1 ≤ string_capacity out.old }
    ensures bytes { string_bytes out.new ≡ string_bytes out.old ++ digit_glyph false digit ∷ [] }
    ensures len { string_len out.new ≡ string_len out.old + 1 }
    ensures room { string_capacity out.old ≤ string_capacity out.new }
{
    let glyph = if digit < 10 {
        b'0' + digit
    } else {
        b'a' + (digit - 10)
    };
    let Ok(()) = out.push(char::from(glyph)) else {
        unreachable!()
    };
}

/// Appends bytes as two lower-case hexadecimal digits each, without spaces. The capacity must suffice. It allocates nothing.
pub fn add_bytes(bytes: &[u8], out: &mut String)
    requires { string_len out.old + 2 * length bytes.now ≤ string_capacity out.old }
    ensures bytes { string_bytes out.new ≡ string_bytes out.old ++ hex_bytes bytes.now }
    ensures len { string_len out.new ≡ string_len out.old + 2 * length bytes.now }
    ensures room { string_capacity out.old ≤ string_capacity out.new }
{
    for byte in bytes {
        add_byte(*byte, out);
    }
}
