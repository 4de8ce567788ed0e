// The three lines of a job's limits.
#![tactic(auto)]

ghost use Rattle.job_header.specs.Header.{Reads};

use job_items::limit;
use job_lines::next_line;
use job_rules::Breach;

// The number of the third, which starts the session.
pub const LINKS_LINE: usize = 3;

#[derive(Clone, Copy)]
pub struct Limits {
    pub bytes: u32,
    pub objects: u32,
    pub links: u32,
}

// The limits, and the place behind them.
#[derive(Clone, Copy)]
pub struct Header {
    pub limits: Limits,
    pub end: usize,
}

// The three lines in order; else the first that is not the one due.
pub fn read_limits(text: &[u8]) -> Result<Header, Breach>
    ensures { Reads text.now result }
{
    let first = next_line(text, 0);
    let bytes = limit(b"bytes=", first).ok_or(Breach(1))?;
    let a = first.len();
    let second = next_line(text, a);
    let objects = limit(b"objects=", second).ok_or(Breach(2))?;
    let b = a + second.len();
    let third = next_line(text, b);
    let links = limit(b"links=", third).ok_or(Breach(LINKS_LINE))?;
    Ok(Header {
        limits: Limits {
            bytes,
            objects,
            links,
        },
        end: b + third.len(),
    })
}
