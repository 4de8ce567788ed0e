// Bytes and numbers, as text.

pub fn text(to: &impl Print, bytes: &[u8]) {
    streams::write_all(to, bytes);
}

// A number in decimal, behind its name.
pub fn value(to: &impl Print, name: &[u8], n: u64) {
    text(to, name);
    let _ = print!(to; "{n}");
}
