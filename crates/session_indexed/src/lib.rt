// Close by an index: the look goes along one chain, and a new object is added to its own.
#![tactic(auto)]

ghost use Rattle.std.specs.Prelude.{◌≡◌, ltb};
ghost use Rattle.lists.specs.Lists.{pick};
ghost use Rattle.layout.specs.Words.{closed_count};
ghost use Rattle.session_chains.specs.Index.{added};
ghost use Rattle.session_indexed.specs.Close.{Keeping, Kept, More};

use answer::{Closing, ObjectId};
use layout::span::innermost;
use layout::state::read;
use layout::words::{CLOSED_COUNT, word};
use session_chains::add;
use session_close::close_found;
use session_index::look::{find_indexed, hash_at};

// Adds id c of hash h, if the count of closed objects has passed it.
fn add_new(records: &[u32], index: &mut [u64], buckets: usize, h: u64, c: usize)
    requires { More records.now index.old buckets h c }
    ensures { index.new ≡ pick (ltb c (closed_count records.now)) (added buckets h c index.old) index.old }
{
    if word(records, CLOSED_COUNT) <= c {
        return;
    }
    add(index, buckets, h, c);
}

// Close, and the index kept.
pub fn close_indexed(
    store: &mut [u8],
    records: &mut [u32],
    index: &mut [u64],
    buckets: usize,
) -> Closing
    requires { Keeping store.old records.old index.old buckets }
    ensures { Kept store.old records.old store.new records.new index.new buckets result }
{
    let s = read(store, records);
    if s.depth == 0 {
        return close_found(store, records, s, ObjectId(0));
    }
    let own = innermost(records, s);
    let h = hash_at(store, records, s.objects, own);
    let id = find_indexed(store, records, s, own, index, buckets, h);
    let a = close_found(store, records, s, id);
    add_new(records, index, buckets, h, s.closed);
    a
}
