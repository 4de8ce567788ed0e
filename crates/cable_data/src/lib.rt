// A frame's data, read and divided in one pass: while a byte waits for the remainder of the one before, the next one's digits are looked up.
#![tactic(auto)]

ghost use Rattle.std.specs.Prelude.{◌≡◌, ◌*◌, ◌%◌, ◌≤◌, length};
ghost use Rattle.lists.specs.Lists.{over};
ghost use Rattle.cable_crc.specs.Crc.{RightTable};
ghost use Rattle.text_hex.specs.Hex.{bytes_of, RightValues};
ghost use Rattle.cable_data.specs.Pairs.{pairs_of};

use cable_crc::{next, remainders};
use text_hex::{BASE, CHARACTERS, pair_of, value_by, values};

// Whether every character is a hex digit, and the remainder after the bytes.
#[derive(Clone, Copy)]
pub struct Pairs {
    pub all: bool,
    pub remainder: u32,
}

// Reads the bytes of hex pairs into the front of `body`. A character that is no digit is read as 0.
pub fn read_pairs(remainder: u32, body: &mut [u8], s: &[u8]) -> Pairs
    requires { (length s.now ≤ length body.old * 2) × (length s.now % 2 ≡ 0) }
    ensures { (result ≡ pairs_of remainder s.now) × (body.new ≡ over 0 (bytes_of s.now) body.old) }
{
    let values = values();
    let table = remainders();
    let mut all = true;
    let mut rest = remainder;
    for i in 0..s.len() / 2 {
        let high = value_by(&values, s[i * 2]);
        let low = value_by(&values, s[i * 2 + 1]);
        let byte = pair_of(high, low);
        body[i] = byte;
        rest = next(&table, rest, byte);
        all = all & (high < BASE) & (low < BASE);
    }
    Pairs {
        all,
        remainder: rest,
    }
}
