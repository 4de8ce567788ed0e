// Lent memory, as text.
use std::fmt::Display;

// A stretch of more bytes is told by its length and its sum.
const LONG: usize = 64;

const BASE: u32 = 31;

// A number that tells bytes and their order.
fn sum_of(bytes: &[u8]) -> u32 {
    bytes.iter().fold(0, |sum: u32, b| {
        sum.wrapping_mul(BASE).wrapping_add(u32::from(*b))
    })
}

// Bytes in hex.
pub fn print_bytes(to: &impl Print, bytes: &[u8]) {
    for b in bytes {
        let _ = print!(to; "{b:02x}");
    }
}

// Bytes in hex, or of many how many and their sum.
pub fn show_bytes(to: &impl Print, name: &[u8], bytes: &[u8]) {
    streams::write_all(to, name);
    if bytes.len() <= LONG {
        print_bytes(to, bytes);
    } else {
        let _ = print!(to; "{} sum {}", bytes.len(), sum_of(bytes));
    }
    let _ = println!(to; "");
}

// Number i of a line, behind those before it.
pub fn print_next(to: &impl Print, i: usize, n: impl Display + Drop) {
    let gap = if i == 0 { "" } else { " " };
    let _ = print!(to; "{gap}{n}");
}

// Numbers in a line, of any width.
pub fn show_words<T: Display>(to: &impl Print, name: &[u8], words: &[T]) {
    streams::write_all(to, name);
    for (i, w) in words.iter().enumerate() {
        print_next(to, i, w);
    }
    let _ = println!(to; "");
}
