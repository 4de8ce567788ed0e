// Numbers in decimal, without leading zeros: read where they have at most nine digits, so that each fits; written whatever they are.
ghost use Rattle.std.specs.Prelude.{◌≡◌, true, ◌+◌, ◌≤◌, length};
ghost use Rattle.lists.specs.Lists.{over};
ghost use Rattle.text.specs.Digits.{all_digits, read_on};
ghost use Rattle.text.specs.Decimal.{width, decimal, most_digits, padded, read_number};

use crate::digits::{DECIMAL, all_digits, put_digits, value_of};

// A longer text is not read.
const MOST_DIGITS: usize = 9;

// Whether a zero stands before other characters.
#[tactic(auto, using(crate::proofs::DecimalTurns::padded_turns))]
fn padded(s: &[u8]) -> bool
    ensures { result ≡ padded s.now }
{
    match s {
        [first, _, ..] => *first == b'0',
        _ => false,
    }
}

// The value of decimal digits.
fn value(s: &[u8]) -> u32
    requires { (length s.now ≤ most_digits) × (all_digits 10 s.now ≡ true) }
    ensures { result ≡ read_on 10 0 s.now }
{
    let mut v: u32 = 0;
    for c in s {
        v = v * DECIMAL + value_of(*c);
    }
    v
}

// The number that a text is: decimal, 1 to 9 digits, without leading zeros.
pub fn read_number(s: &[u8]) -> Option<u32>
    ensures { result ≡ read_number s.now }
{
    if s.is_empty() {
        return None;
    }
    if MOST_DIGITS < s.len() {
        return None;
    }
    if !all_digits(s, DECIMAL) {
        return None;
    }
    if padded(s) {
        return None;
    }
    Some(value(s))
}

// How many digits n has: one, for 0 too.
pub fn width(n: u32) -> usize
    ensures { result ≡ width n }
{
    n.max(1).ilog10() as usize + 1
}

// Writes n from `at` on, and tells how many digits it wrote.
pub fn put_decimal(out: &mut [u8], at: usize, n: u32) -> usize
    requires { at + width n ≤ length out.old }
    ensures { (result ≡ width n) × (out.new ≡ over at (decimal n) out.old) }
{
    let w = width(n);
    put_digits(out, at, DECIMAL, w, n);
    w
}
