// Words of the record store, and how many it needs.
ghost use Rattle.std.specs.Prelude.{◌≡◌, ◌<◌, ◌^◌, length, get_or, set};
ghost use Rattle.layout.specs.Words.{need as recordsNeed};

use crate::limits::MOST_OPEN;
use model_orders::LINK_WORDS;

// The header.
pub const OBJECT_LIMIT: usize = 0;

pub const CLOSED_COUNT: usize = 1;

pub const OPEN_DEPTH: usize = 2;

// The tables of open objects: where each ends, in bytes and in links.
pub const ENDS_AT: usize = OPEN_DEPTH + 1;

pub const LINK_ENDS_AT: usize = ENDS_AT + MOST_OPEN + 1;

// The tables of closed objects: where each begins, in bytes and, as many words further on as the object limit, in links.
pub const BEGINS_AT: usize = LINK_ENDS_AT + MOST_OPEN + 1;

pub const LINK_BEGINS_AT: usize = BEGINS_AT + 1;

// The links' records, twice the object limit further on, and the words of one: its field's place, its width, its child.
pub const LINKS_AT: usize = LINK_BEGINS_AT + 1;

pub fn word(records: &[u32], i: usize) -> usize
    requires { i < length records.now }
    ensures { (result ≡ get_or records.now i 0) × (result < 2 ^ 32) }
{
    records[i] as usize
}

pub fn set_word(records: &mut [u32], i: usize, v: usize)
    requires { (i < length records.old) × (v < 2 ^ 32) }
    ensures { records.new ≡ set records.old i v }
{
    records[i] = v as u32;
}

// How many words the record store needs for these limits.
pub fn need(objects: u32, links: u32) -> usize
    ensures { result ≡ recordsNeed objects links }
{
    LINKS_AT + (objects as usize) * 2 + (links as usize) * LINK_WORDS
}
