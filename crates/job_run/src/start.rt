// The session started, and the lines behind its limits.
ghost use Rattle.std.specs.Prelude.{◌≡◌, ◌≤◌, length, drop};
ghost use Rattle.job_lines.specs.Lines.{cut};
ghost use Rattle.lists.specs.Lists.{holds};
ghost use Rattle.job_rules.specs.Job.{most_text, in_job, starts, run};
ghost use Rattle.job_finish.specs.Ends.{Ends};
ghost use Rattle.job_header.specs.Header.{links_line, limits_of};
ghost use Rattle.job_run.specs.Lent.{Ranged, Lends};

use answer::Refusal;
use job_finish::finish;
use job_header::{Header, LINKS_LINE, Limits};
use job_items::PIECE_LEAST;
use job_rest::run_pieces;
use job_rules::{MOST_BYTES, MOST_LINKS, MOST_OBJECTS, MOST_TEXT, Packed, Refused};
use session::start;

// What is lent to a job's calls is enough for any job: record words and work memory for its greatest limits,
const RECORD_WORDS: usize = 4743;

const WORK_WORDS: usize = 4864;

// an id for each piece line that a text can have,
const MOST_PIECES: usize = MOST_TEXT / PIECE_LEAST + 1;

// and room for the bytes of a line's hex pairs.
const MOST_PUT: usize = MOST_TEXT / 2;

// In a byte store of just the length that the job asks for.
fn run_started(
    text: &[u8],
    header: Header,
    bytes: &mut [u8],
    records: &mut [u32],
    ids: &mut [u32],
    space: &mut [u8],
    out: &mut [u8],
    work: &mut [u64],
) -> Result<Packed, Refused>
    requires { Ranged text.now header × Lends bytes.old records.old ids.old space.old work.old }
    ensures { Ends (run (length out.old) links_line (cut (drop header.end text.now)) (starts (limits_of header.limits))) result out.old out.new }
{
    let limits = header.limits;
    let store = &mut bytes[..limits.bytes as usize];
    start(store, records, limits.objects, limits.links).map_err(|refused| Refused {
        number: refused.why.into(),
        line: LINKS_LINE,
    })?;
    let halt = run_pieces(text, header.end, store, records, ids, space);
    finish(text, halt, store, records, out, work)
}

// Whether no limit is above a job's.
fn in_job(limits: Limits) -> bool
    ensures { result ≡ holds (in_job (limits_of limits)) }
{
    if MOST_BYTES < limits.bytes as usize {
        return false;
    }
    if MOST_OBJECTS < limits.objects {
        return false;
    }
    if MOST_LINKS < limits.links {
        return false;
    }
    true
}

// 13 at the third line where a limit is above a job's.
pub fn run_limits(text: &[u8], header: Header, out: &mut [u8]) -> Result<Packed, Refused>
    requires { (length text.now ≤ most_text) × (header.end ≤ length text.now) }
    ensures { Ends (run (length out.old) links_line (cut (drop header.end text.now)) (starts (limits_of header.limits))) result out.old out.new }
{
    if !in_job(header.limits) {
        return Err(Refused {
            number: Refusal::OutOfRange.into(),
            line: LINKS_LINE,
        });
    }
    run_started(
        text,
        header,
        &mut [0; MOST_BYTES],
        &mut [0; RECORD_WORDS],
        &mut [0; MOST_PIECES],
        &mut [0; MOST_PUT],
        out,
        &mut [0; WORK_WORDS],
    )
}
