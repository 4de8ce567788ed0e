// Standard input read into memory of a fixed length, and bytes and numbers written to a standard stream.
//
// No function asks anything of its caller. What can't be written is lost, and nothing is told of it; a read that fails is the end of the input.
#![tactic(auto)]

ghost use Rattle.std.specs.Prelude.{◌≤◌, length, take};
ghost use Rattle.std.specs.Io.KnownBytes.{Consumes};

use std::io::Read;

// Reads until `space` is full or the input ends. Answers how many bytes stand at the front of `space` then.
pub fn read_full<R: Read>(from: &mut R, space: &mut [u8]) -> usize
    ensures bound { result ≤ length space.new }
    ensures bytes { Consumes (R.remaining from.old) (R.remaining from.new) (take result space.new) }
{
    let mut done = 0;
    while done < space.len() {
        match from.read(&mut space[done..]) {
            Ok(n) if 0 < n => done += n,
            _ => break,
        }
    }
    done
}

pub fn write_all(to: &impl Print, bytes: &[u8]) {
    let _ = to.write_all(bytes);
}

pub fn print_decimal(to: &impl Print, n: u64) {
    let _ = print!(to; "{n}");
}

// A byte in hex, two digits.
pub fn print_hex(to: &impl Print, b: u8) {
    let _ = print!(to; "{b:02x}");
}
