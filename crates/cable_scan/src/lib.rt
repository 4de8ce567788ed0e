// Where the first stretch of a text ends.
#![tactic(auto)]

ghost use Rattle.std.specs.Prelude.{◌≡◌, true};
ghost use Rattle.memchr.specs.Find.{IsFirstByte, is_byte};
ghost use Rattle.cable_frame.specs.Frame.{line_feed};
ghost use Rattle.cable_scan.specs.Scan.{line_next, line_on, scan_on};
ghost use Rattle.cable_scan.specs.Lines.{quiet};

use memchr::{memchr, memchr_iter};

// The start of the line that ends a stretch, how long it is, and what is said of a line that starts otherwise. How far a line agrees is a number since a
// head keeps it as one, and any number may stand there.
const CHECK_KEY: &[u8; 6] = b"check=";

const AGREED: u64 = 6;

const DIFFERS: u64 = 7;

// How many bytes were passed, and how far the line under way agrees with `check=`; none is under way where a stretch ended with the last of them.
#[derive(Clone, Copy)]
pub struct Scanned {
    pub taken: usize,
    pub line: Option<u64>,
}

fn line_next(line: u64, b: u8) -> u64
    ensures { result ≡ line_next line b }
{
    if b == b'\n' {
        return 0;
    }
    if AGREED <= line {
        return line;
    }
    if b == CHECK_KEY[line as usize] {
        return line + 1;
    }
    DIFFERS
}

// How far a line agrees once more of its bytes came, of which none is a line feed. Once that is settled no byte is looked at.
fn line_after(line: u64, bytes: &[u8]) -> u64
    requires { quiet bytes.now ≡ true }
    ensures { result ≡ line_on line bytes.now }
{
    let mut state = line;
    for b in bytes {
        if AGREED <= state {
            return state;
        }
        state = line_next(state, *b);
    }
    state
}

// How many bytes one look takes, without a branch, and how many at the front of a line are looked at so. What follows is a long line's, and searched by `memchr`, which is quick once it is under way.
const RUN: usize = 32;

const FRONT: usize = 16 * RUN;

// Whether no byte is a line feed.
fn run_quiet(run: &[u8]) -> bool
    ensures { result ≡ quiet run.now }
{
    run.iter().fold(true, |none, b| none & (*b != b'\n'))
}

// How many bytes of a run that has a line feed are looked at one by one before it is searched. Where lines are of one length these branches are foreseen, and the next line need not wait for the place that a search tells.
const NEAR: usize = RUN / 2;

// Where the first line feed of a run stands. Most runs have none.
fn run_feed(run: &[u8]) -> Option<usize>
    ensures { IsFirstByte (is_byte line_feed) run.now result }
{
    if run_quiet(run) {
        return None;
    }
    for (i, b) in run[..run.len().min(NEAR)].iter().enumerate() {
        if *b == b'\n' {
            return Some(i);
        }
    }
    memchr_iter(b'\n', run).next()
}

// Where the first line feed stands. A line may be empty: that is asked first.
fn first_feed(text: &[u8]) -> Option<usize>
    ensures { IsFirstByte (is_byte line_feed) text.now result }
{
    if text.first() == Some(&b'\n') {
        return Some(0);
    }
    let mut from = 0;
    for run in text[..text.len().min(FRONT)].chunks_exact(RUN) {
        if let Some(k) = run_feed(run) {
            return Some(from + k);
        }
        from += RUN;
    }
    let k = memchr(b'\n', &text[from..])?;
    Some(from + k)
}

// The scan goes line by line: to the next line feed, and then back to how the line started.
pub fn scan(line: u64, text: &[u8]) -> Scanned
    ensures { result ≡ scan_on 0 line text.now }
{
    let mut state = line;
    let mut from = 0;
    while let Some(size) = first_feed(&text[from..]) {
        let end = from + size;
        if line_after(state, &text[from..end]) == AGREED {
            return Scanned {
                taken: end + 1,
                line: None,
            };
        }
        state = 0;
        from = end + 1;
    }
    Scanned {
        taken: text.len(),
        line: Some(line_after(state, &text[from..])),
    }
}
