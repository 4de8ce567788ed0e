// Digits of any base up to 16, the highest first: read, and written over a part of a slice.
ghost use Rattle.std.specs.Prelude.{◌≡◌, ◌+◌, ◌≤◌, ◌<◌, length};
ghost use Rattle.lists.specs.Lists.{over};
ghost use Rattle.text.specs.Digits.{digit, digits, value_of, all_digits, span};

pub const DECIMAL: u32 = 10;

pub const HEX: u32 = 16;

// The value of what is no digit: too great for every base.
const NO_DIGIT: u32 = 16;

// The value of a digit's character; 16 for any other, capital letters too.
pub fn value_of(c: u8) -> u32
    ensures { result ≡ value_of c }
{
    match c {
        b'0'..=b'9' => u32::from(c - b'0'),
        b'a'..=b'f' => u32::from(c - b'a') + DECIMAL,
        _ => NO_DIGIT,
    }
}

// Whether every character is a digit of the base. An empty text has none that is not.
pub fn all_digits(s: &[u8], base: u32) -> bool
    ensures { result ≡ all_digits base s.now }
{
    for c in s {
        if base <= value_of(*c) {
            return false;
        }
    }
    true
}

// How many digits of the base stand in front.
pub fn span(s: &[u8], base: u32) -> usize
    ensures { result ≡ span base s.now }
{
    s.iter()
        .position(|c| base <= value_of(*c))
        .unwrap_or(s.len())
}

// The character of a digit.
pub fn digit(d: u32) -> u8
    requires { d < 16 }
    ensures { result ≡ digit d }
{
    if d < DECIMAL {
        return d as u8 + b'0';
    }
    (d - DECIMAL) as u8 + b'a'
}

// Writes n in `width` digits from `at` on. Of a number that the digits cannot hold, the last ones are written.
pub fn put_digits(out: &mut [u8], at: usize, base: u32, width: usize, n: u32)
    requires { (at + width ≤ length out.old) × (2 ≤ base) × (base ≤ 16) }
    ensures { out.new ≡ over at (digits base width n) out.old }
{
    let mut rest = n;
    for i in (at..at + width).rev() {
        out[i] = digit(rest % base);
        rest /= base;
    }
}
