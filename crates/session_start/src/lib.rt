// A session begun anew.
#![tactic(auto)]

ghost use Rattle.std.specs.Prelude.{◌≡◌, ◌≤◌, ◌<◌, ◌^◌, length};
ghost use Rattle.layout.specs.Words.{need as recordsNeed};
ghost use Rattle.model.specs.Told.{told_by};
ghost use Rattle.steps.specs.Steps.{start_words};
ghost use Rattle.steps.specs.Runs.{start, stores, left, step_on};

use answer::{Answer, Refusal, Tally};
use layout::limits::{MOST_BYTES, MOST_LINKS, MOST_OBJECTS};
use layout::words::{BEGINS_AT, LINK_BEGINS_AT, OBJECT_LIMIT, need, set_word};

// The needed words cleared, the limits and the store's length noted.
fn start_words(records: &mut [u32], objects: u32, links: u32, bytes: usize)
    requires { (bytes < 2 ^ 32) × (recordsNeed objects links ≤ length records.old) }
    ensures { records.new ≡ start_words (record { objects = objects; links = links; bytes = bytes }) records.old }
{
    let end = need(objects, links);
    memory::clear(records, 0, end, 0);
    let p = objects as usize;
    set_word(records, OBJECT_LIMIT, p);
    set_word(records, BEGINS_AT, bytes);
    set_word(records, LINK_BEGINS_AT + p, links as usize);
}

// 13 where a limit or a store is outside its range, or the record store is short of its need.
pub fn start(store: &mut [u8], records: &mut [u32], objects: u32, links: u32) -> Answer
    ensures { left (told_by result) store.new records.new ≡ step_on (start objects links) (stores store.old records.old) }
{
    let n = store.len();
    let fits = (1 <= objects)
        & (objects as usize <= MOST_OBJECTS)
        & (links as usize <= MOST_LINKS)
        & (1 <= n)
        & (n <= MOST_BYTES)
        & (need(objects, links) <= records.len());
    if !fits {
        return Err(Refusal::OutOfRange.with(Tally::none()));
    }
    memory::clear(store, 0, n, 0);
    start_words(records, objects, links, n);
    Ok(Tally::none())
}
