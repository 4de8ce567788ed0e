// The eight calls, each by its letter.
use crate::areas::{MOST_WORDS, at_most, filled};
use crate::lines::{NUMBERS, unhex};
use answer::ObjectId;
use report::{show_bytes, show_words};

fn put_few(to: &impl Print, line: &[u8], store: &mut [u8], records: &mut [u32]) {
    let mut space: [u8; 16] = [0; 16];
    report_calls::put(to, b"put", store, records, unhex(line, &mut space));
}

fn put_many(to: &impl Print, byte: u32, count: u32, store: &mut [u8], records: &mut [u32]) {
    let space = filled((byte % 256) as u8);
    let k = at_most(count, space.len());
    report_calls::put(to, b"put", store, records, &space[..k]);
}

fn pack(to: &impl Print, n: [u32; NUMBERS], store: &[u8], records: &[u32]) {
    let [id, copies, length, words] = n;
    let mut space = filled(0xa5);
    let mut long: [u64; MOST_WORDS] = [0xa5a5a5a5a5a5a5a5; MOST_WORDS];
    let k = at_most(length, space.len());
    let w = at_most(words, MOST_WORDS);
    let out = &mut space[..k];
    let work = &mut long[..w];
    let _ = report_calls::pack(to, store, records, ObjectId(id), copies, out, work);
    show_bytes(to, b"output=", out);
    show_words(to, b"work=", work);
}

fn show(to: &impl Print, store: &[u8], records: &[u32]) {
    show_bytes(to, b"store=", store);
    show_words(to, b"records=", records);
}

pub fn call(
    to: &impl Print,
    op: u8,
    n: [u32; NUMBERS],
    line: &[u8],
    store: &mut [u8],
    records: &mut [u32],
) {
    let [a, b, c, _] = n;
    match op {
        b's' => report_calls::start(to, store, records, a, b),
        b'o' => report_calls::open(to, store, records),
        b'p' => put_few(to, line, store, records),
        b'f' => put_many(to, a, b, store, records),
        b'k' => report_calls::link(to, b"link", store, records, a, ObjectId(b), c),
        b'e' => report_calls::close(to, store, records),
        b'd' => report_calls::drop(to, store, records),
        b't' => report_calls::tally(to, store, records),
        b'a' => pack(to, n, store, records),
        b'v' => show(to, store, records),
        _ => {}
    }
}
