// The lines of a job behind its limits.
#![tactic(auto)]

ghost use Rattle.std.specs.Prelude.{◌≡◌, true, [], ◌*◌, ◌≤◌, length};
ghost use Rattle.layout.specs.Sound.{sound};
ghost use Rattle.layout.specs.Decode.{decode};
ghost use Rattle.job_rules.specs.Job.{most_text, on, piece_due, writing};
ghost use Rattle.job_header.specs.Header.{links_line, piece_line};
ghost use Rattle.job_rest.specs.Halts.{most_pieces, Halts};

use job_calls::line::{Lead, first_line, goes_on, later_line};
use job_calls::stop::Stop;
use job_header::LINKS_LINE;
use job_lines::next_line;

// The first piece line's number.
const PIECE_LINE: usize = LINKS_LINE + 1;

// What the last line that was read leads to, the place behind it, and its number.
#[derive(Clone, Copy)]
pub struct Halt {
    pub lead: Result<Lead, Stop>,
    pub at: usize,
    pub line: usize,
}

// With an object open.
fn run_rest(
    text: &[u8],
    from: usize,
    store: &mut [u8],
    records: &mut [u32],
    ids: &mut [u32],
    space: &mut [u8],
) -> Halt
    requires { (sound store.old records.old ≡ true) × (length text.now ≤ most_text) × (from ≤ length text.now) × (most_pieces ≤ length ids.old) × (most_text ≤ length space.old * 2) }
    ensures { Halts text.now piece_line from (on (writing (decode store.old records.old) [])) records.old result store.new records.new ids.new }
{
    let mut at = from;
    let mut line = PIECE_LINE;
    let mut count = 0;
    while at < text.len() {
        let part = next_line(text, at);
        let lead = later_line(part, count, store, records, ids, space);
        at += part.len();
        line += 1;
        let Some(n) = goes_on(lead) else {
            return Halt { lead, at, line };
        };
        count = n;
    }
    Halt {
        lead: Ok(Lead::On(count)),
        at,
        line,
    }
}

// In a session just started.
pub fn run_pieces(
    text: &[u8],
    from: usize,
    store: &mut [u8],
    records: &mut [u32],
    ids: &mut [u32],
    space: &mut [u8],
) -> Halt
    requires { (sound store.old records.old ≡ true) × (length text.now ≤ most_text) × (from ≤ length text.now) × (most_pieces ≤ length ids.old) × (most_text ≤ length space.old * 2) }
    ensures { Halts text.now links_line from (on (piece_due (decode store.old records.old))) records.old result store.new records.new ids.new }
{
    let part = next_line(text, from);
    let lead = first_line(part, store, records, space);
    let at = from + part.len();
    let Some(_) = goes_on(lead) else {
        return Halt {
            lead,
            at,
            line: PIECE_LINE,
        };
    };
    run_rest(text, at, store, records, ids, space)
}
