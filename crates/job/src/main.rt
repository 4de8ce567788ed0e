// Runs the job of standard input (docs/RULES.md, section 12) and prints what it comes to: the packed table, or what was refused and of which line.
#![tactic(auto)]

use job_rules::{MOST_BYTES, MOST_TEXT, Packed, Refused};
use job_run::run_job;
use report::print_bytes;

// A byte more than a job may have is read, to know of it.
const ROOM: usize = MOST_TEXT + 1;

// The first n bytes, or all there are.
fn front(bytes: &[u8], n: usize) -> &[u8] {
    bytes.get(..n).unwrap_or(bytes)
}

fn show_packed(to: &impl Print, packed: Packed, table: &[u8]) {
    let _ = print!(to;
        "length={}\npieces={}\ntable=",
        packed.length, packed.placed
    );
    print_bytes(to, table);
    let _ = println!(to; "");
}

fn show_refused(to: &impl Print, refused: Refused) {
    let _ = println!(to; "refused={}\nline={}", refused.number, refused.line);
}

fn show(to: &impl Print, ending: Result<Packed, Refused>, out: &[u8]) {
    match ending {
        Ok(packed) => show_packed(to, packed, front(out, packed.length)),
        Err(refused) => show_refused(to, refused),
    }
}

fn main(rt: HostRuntime) {
    let mut input: [u8; ROOM] = [0; ROOM];
    let n = streams::read_full(&mut rt.stdin(), &mut input);
    let mut out: [u8; MOST_BYTES] = [0; MOST_BYTES];
    let ending = run_job(&input[..n], &mut out);
    show(&rt.stdout(), ending, &out);
}
