// Lines of input: where one ends, and the numbers and bytes in it.
ghost use Rattle.std.specs.Prelude.{◌≤◌, ◌<◌, length};

// How many numbers are read behind a line's letter.
pub const NUMBERS: usize = 4;

// The first line, without its line feed, and what stands behind that.
pub fn split_line(input: &[u8]) -> (&[u8], &[u8])
    ensures no_more { length result.1.now ≤ length input.now }
    ensures fewer { 0 < length input.now → length result.1.now < length input.now }
{
    match input.iter().position(|b| *b == b'\n') {
        Some(end) => (&input[..end], &input[end + 1..]),
        None => (input, &[]),
    }
}

// The four numbers behind the letter that the input begins with. One that is not there means nothing.
pub fn arguments(input: &[u8]) -> [u32; NUMBERS] {
    let mut numbers: [u32; NUMBERS] = [0; NUMBERS];
    let parts = input.split(|b| *b < b'0').skip(1);
    for (n, part) in numbers.iter_mut().zip(parts) {
        *n = number(part);
    }
    numbers
}

// A number in decimal: its low 32 bits. Of a byte that is no digit the low half counts.
fn number(digits: &[u8]) -> u32 {
    digits.iter().fold(0, |n: u32, d| {
        n.wrapping_mul(10).wrapping_add(u32::from(*d % 16))
    })
}

// The value of a hex digit.
fn nibble(d: u8) -> u8
    ensures { result ≤ 15 }
{
    (d % 16 + d / 64 * 9) % 16
}

// The bytes in hex from the third byte of a line on, as far as there is space.
pub fn unhex<'a>(line: &[u8], space: &'a mut [u8]) -> &'a [u8]
    ensures { length result.now ≤ length space.old }
{
    let (pairs, _) = line.get(2..).unwrap_or(&[]).as_chunks::<2>();
    let n = pairs.len().min(space.len());
    for (byte, [high, low]) in space.iter_mut().zip(pairs) {
        *byte = nibble(*high) * 16 + nibble(*low);
    }
    &space[..n]
}
