// Bytes as pairs of lowercase hex digits.
#![tactic(auto)]

ghost use Rattle.std.specs.Prelude.{◌≡◌, ◌+◌, ◌*◌, ◌%◌, ◌≤◌, length};
ghost use Rattle.lists.specs.Lists.{over};
ghost use Rattle.text.specs.Digits.{digits, value_of};
ghost use Rattle.text_hex.specs.Hex.{hex_pairs, pair_value, bytes_of, RightValues};

use text::digits::{HEX, digit, value_of};

// The base, as a byte: a digit's value is below it.
pub const BASE: u8 = 16;

// How many characters there are.
pub const CHARACTERS: usize = 256;

// The value of each character, 16 for one that is no hex digit: a table to be lent to a loop.
pub fn values() -> [u8; CHARACTERS]
    ensures { RightValues result }
{
    let mut table = [BASE; CHARACTERS];
    for d in 0..BASE {
        table[usize::from(digit(u32::from(d)))] = d;
    }
    table
}

// The value of a character.
pub fn value_by(table: &[u8; CHARACTERS], c: u8) -> u8
    requires { RightValues table.now }
    ensures { result ≡ value_of c }
{
    table[c as usize]
}

// The byte of two values. What is no hex digit counts as 0, so that the byte fits whatever the text is.
pub fn pair_of(high: u8, low: u8) -> u8
    ensures { result ≡ high % 16 * 16 + low % 16 }
{
    high % BASE * BASE + low % BASE
}

// The byte of a pair.
fn pair_value(c: u8, d: u8) -> u8
    ensures { result ≡ pair_value c d }
{
    pair_of(value_of(c) as u8, value_of(d) as u8)
}

// Reads the bytes of hex pairs into the front of `out`. A last character alone is left out; one that is no hex digit is read as 0.
pub fn get_pairs(out: &mut [u8], s: &[u8])
    requires { length s.now ≤ length out.old * 2 }
    ensures { out.new ≡ over 0 (bytes_of s.now) out.old }
{
    for i in 0..s.len() / 2 {
        out[i] = pair_value(s[i * 2], s[i * 2 + 1]);
    }
}

fn put_pair(out: &mut [u8], at: usize, byte: u8)
    requires { at + 2 ≤ length out.old }
    ensures { out.new ≡ over at (digits 16 2 byte) out.old }
{
    let n = u32::from(byte);
    out[at] = digit(n / HEX % HEX);
    out[at + 1] = digit(n % HEX);
}

// Writes each byte as two hex digits, from `at` on.
pub fn put_pairs(out: &mut [u8], at: usize, bytes: &[u8])
    requires { at + length bytes.now * 2 ≤ length out.old }
    ensures { out.new ≡ over at (hex_pairs bytes.now) out.old }
{
    for (i, byte) in bytes.iter().enumerate() {
        put_pair(out, at + i * 2, *byte);
    }
}
