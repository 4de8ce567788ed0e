// Takes a table back from the frames of standard input and writes it to standard output, once all of them are in. Each stretch that is not the awaited
// frame is told on standard error, and so is a table that is not whole at the end. Tables of up to 65,536 bytes find room.
#![tactic(auto)]

use cable_head::feeding::{feed, is_whole};
use cable_judge::answers::NoFrame;
use std::io::Read;

// How long a head is.
const HEAD: usize = 1093;

// The longest table that finds room, and how much of the input is read at once.
const ROOM: usize = 1 << 16;

// How often standard input is read at the most: some 4 GiB of text.
const READS: usize = 65000;

// A stretch that is not taken: 10 or 17.
fn tell(errors: &impl Print, why: NoFrame) {
    let _ = println!(errors; "a stretch is told {}", u64::from(why));
}

// How many bytes reached the table with an answer.
fn heard(errors: &impl Print, answer: Result<usize, NoFrame>) -> usize {
    match answer {
        Ok(size) => size,
        Err(NoFrame::Unended) => 0,
        Err(why) => {
            tell(errors, why);
            0
        }
    }
}

// What was read is fed, stretch by stretch; tells how many bytes of the table there are then.
fn feed_all(
    errors: &impl Print,
    head: &mut [u8],
    text: &[u8],
    table: &mut [u8],
    before: usize,
) -> usize {
    let mut length = before;
    let mut rest = text;
    for _ in 0..text.len() {
        let f = feed(head, rest, table);
        length = length.saturating_add(heard(errors, f.answer));
        rest = match rest.get(f.taken..) {
            Some(left) => left,
            None => break,
        };
        if rest.is_empty() {
            break;
        }
    }
    length
}

// The input is read and fed to its end; tells how many bytes of the table there are then.
fn take_back(
    from: &mut impl Read,
    errors: &impl Print,
    head: &mut [u8],
    text: &mut [u8],
    table: &mut [u8],
) -> usize {
    let mut length = 0;
    for _ in 0..READS {
        let n = streams::read_full(from, text);
        if n == 0 {
            break;
        }
        length = feed_all(errors, head, &text[..n], table, length);
    }
    length
}

fn write(output: &impl Print, table: &[u8], length: usize) {
    if let Some(bytes) = table.get(..length) {
        streams::write_all(output, bytes);
    }
}

fn finish(rt: HostRuntime, head: &[u8], table: &[u8], length: usize) {
    if is_whole(head) {
        write(&rt.stdout(), table, length);
        return;
    }
    streams::write_all(&rt.stderr(), b"frames are missing\n");
}

fn main(rt: HostRuntime) {
    let mut input = rt.stdin();
    let errors = rt.stderr();
    let mut table: [u8; ROOM] = [0; ROOM];
    let mut head: [u8; HEAD] = [0; HEAD];
    let mut text: [u8; ROOM] = [0; ROOM];
    let length = take_back(&mut input, &errors, &mut head, &mut text, &mut table);
    finish(rt, &head, &table, length);
}
