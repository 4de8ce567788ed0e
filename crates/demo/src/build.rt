// The calls that build the session, each printed with what it tells.
use answer::ObjectId;

fn put(to: &impl Print, store: &mut [u8], records: &mut [u32], letter: u8) {
    let bytes: [u8; 1] = [letter];
    let _ = print!(to; "put ");
    report_calls::put(to, &bytes, store, records, &bytes);
}

fn link(to: &impl Print, store: &[u8], records: &mut [u32], child: u32) {
    let _ = print!(to; "link to {child}");
    report_calls::link(to, b"", store, records, 2, ObjectId(child), 0);
}

// S starts, O opens, a letter is put, a digit is linked to, C closes, D drops and T tallies.
fn call(to: &impl Print, step: u8, store: &mut [u8], records: &mut [u32]) {
    match step {
        b'S' => report_calls::start(to, store, records, 4, 4),
        b'O' => report_calls::open(to, store, records),
        b'C' => report_calls::close(to, store, records),
        b'D' => report_calls::drop(to, store, records),
        b'T' => report_calls::tally(to, store, records),
        b'a'..=b'e' => put(to, store, records, step),
        _ => link(to, store, records, u32::from(step % 16)),
    }
}

pub fn build(to: &impl Print, steps: &[u8], store: &mut [u8], records: &mut [u32]) {
    for step in steps {
        call(to, *step, store, records);
    }
}
