// Offset fields: written and read the highest byte first, and how much they hold; one function for every width.
#![tactic(auto)]

ghost use Rattle.std.specs.Prelude.{◌≡◌, ◌+◌, ◌-◌, ◌≤◌, ◌<◌, length};
ghost use Rattle.lists.specs.Lists.{part, over};
ghost use Rattle.big_endian.specs.BigEndian.{capacity, big_endian, read_big};

const BYTE_BITS: usize = 8;

// A field of at most this many bytes is written without a loop.
const SHORT: usize = 4;

// Writes n into the field of `width` bytes at `at`. Of a number that the width cannot hold, the low bytes are written.
pub fn write(out: &mut [u8], at: usize, width: usize, n: u64)
    requires { at + width ≤ length out.old }
    ensures { out.new ≡ over at (big_endian width n) out.old }
{
    match width {
        0 => {}
        1..=SHORT => write_short(out, at, width, n),
        _ => write_long(out, at, width, n),
    }
}

// A field of any width, from the lowest byte up.
fn write_long(out: &mut [u8], at: usize, width: usize, n: u64)
    requires { at + width ≤ length out.old }
    ensures { out.new ≡ over at (big_endian width n) out.old }
{
    let mut rest = n;
    for k in (0..width).rev() {
        out[at + k] = (rest % 256) as u8;
        rest = rest / 256;
    }
}

// A field of one to four bytes, from the highest down. A byte that the width has no room for is stored at the field's first place, where the next one is
// stored over it: no branch depends on the width, which changes from field to field.
fn write_short(out: &mut [u8], at: usize, width: usize, n: u64)
    requires { (at + width ≤ length out.old) × (0 < width) × (width ≤ 4) }
    ensures { out.new ≡ over at (big_endian width n) out.old }
{
    let [.., fourth, third, second, first] = n.to_be_bytes();
    out[at] = fourth;
    out[at + width.saturating_sub(3)] = third;
    out[at + width.saturating_sub(2)] = second;
    out[at + (width - 1)] = first;
}

// The number in the field of `width` bytes at `at`.
pub fn read(s: &[u8], at: usize, width: usize) -> u64
    requires { (at + width ≤ length s.now) × (width ≤ 8) }
    ensures { result ≡ read_big (part at (at + width) s.now) }
{
    let mut n: u64 = 0;
    for byte in &s[at..at + width] {
        n = n * 256 + u64::from(*byte);
    }
    n
}

// How many numbers a field of `width` bytes holds.
pub fn capacity(width: usize) -> u64
    requires { width ≤ 7 }
    ensures { result ≡ capacity width }
{
    1u64 << (BYTE_BITS * width)
}
