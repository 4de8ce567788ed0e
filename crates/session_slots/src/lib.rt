// Close by slots, for a session without lent words for an index: the look goes along a few slots, and only where all of them are taken through all closed objects.
#![tactic(auto)]

ghost use Rattle.std.specs.Prelude.{◌≡◌, ◌+◌, ◌≤◌, ◌<◌, ltb, length};
ghost use Rattle.lists.specs.Lists.{pick};
ghost use Rattle.model.specs.Judge.{most_objects};
ghost use Rattle.layout.specs.Words.{closed_count};
ghost use Rattle.session_slots.specs.Slots.{slots, probes, slot_from, added};
ghost use Rattle.session_slots.specs.Close.{Slotting, SlottedBy, More};

use crate::look::find_slotted;
use answer::{Closing, ObjectId};
use layout::span::innermost;
use layout::state::read;
use layout::words::{CLOSED_COUNT, word};
use session_chains::bucket_of;
use session_close::close_found;
use session_hash::{HASH_LIMIT, mix};
use session_index::look::hash_at;

pub mod look;

// The slot of an object's hash is one of so many,
pub const SLOTS: usize = 24576;

// and its id lies in one of so many from there on, or in none.
pub const PROBES: usize = 32;

// How long a table is.
pub const LENGTH: usize = SLOTS + PROBES;

// The slot of a hash.
fn slot_of(h: u64) -> usize
    ensures { (result ≡ slot_from h) × (result < slots) }
{
    bucket_of(SLOTS, mix(h % HASH_LIMIT, 0))
}

// Puts an id of hash h into the first free slot from its own on, if there is one.
fn add(table: &mut [u16], h: u64, id: usize)
    requires { (length table.old ≡ slots + probes) × (id ≤ most_objects) }
    ensures { table.new ≡ added probes (slot_from h) id table.old }
{
    let at = slot_of(h);
    if let Some(e) = table[at..at + PROBES].iter().position(|x| *x == 0) {
        table[at + e] = (id + 1) as u16;
    }
}

// Adds id c of hash h, if the count of closed objects has passed it.
fn add_new(records: &[u32], table: &mut [u16], h: u64, c: usize)
    requires { More records.now table.old c }
    ensures { table.new ≡ pick (ltb c (closed_count records.now)) (added probes (slot_from h) c table.old) table.old }
{
    if word(records, CLOSED_COUNT) <= c {
        return;
    }
    add(table, h, c);
}

// Close, and the slots kept.
pub fn close_slotted(store: &mut [u8], records: &mut [u32], table: &mut [u16]) -> Closing
    requires { Slotting store.old records.old table.old }
    ensures { SlottedBy store.old records.old store.new records.new table.new result }
{
    let s = read(store, records);
    if s.depth == 0 {
        return close_found(store, records, s, ObjectId(0));
    }
    let own = innermost(records, s);
    let h = hash_at(store, records, s.objects, own);
    let id = find_slotted(store, records, s, own, table, h);
    let a = close_found(store, records, s, id);
    add_new(records, table, h, s.closed);
    a
}
