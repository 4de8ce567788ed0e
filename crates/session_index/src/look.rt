// The index of a session's closed objects, and the look for an equal one along one chain.
ghost use Rattle.std.specs.Prelude.{◌≡◌, ◌≤◌, ◌<◌, length};
ghost use Rattle.model_orders.specs.Object.{same_object};
ghost use Rattle.layout.specs.Words.{closed_count};
ghost use Rattle.layout.specs.Decode.{object_in, closed_at, closed_to};
ghost use Rattle.layout.specs.Known.{Read};
ghost use Rattle.steps.specs.Steps.{innermost_in, twin_in};
ghost use Rattle.session_hash.specs.Hash.{hash_of};
ghost use Rattle.session_chains.specs.Index.{index_need, Indexed};
ghost use Rattle.session_index.specs.Walk.{Laid, Compared, Asked};

use answer::ObjectId;
use layout::span::{Span, closed_span};
use layout::state::State;
use session_chains::{ENTRY_WORDS, add, bucket_of};
use session_find::{Runs, equals_closed, runs_of};
use session_hash::hash_of;

// The hash of the object that lies at s, where `objects` is the object limit.
pub fn hash_at(store: &[u8], records: &[u32], objects: usize, s: Span) -> u64
    requires { Laid store.now records.now objects s }
    ensures { result ≡ hash_of (object_in store.now records.now s) }
{
    hash_of(store, records, runs_of(objects, s))
}

// Indexes all closed objects. What stood in the words plays no part.
pub fn make(store: &[u8], records: &[u32], s: State, index: &mut [u64], buckets: usize)
    requires { Read store.now records.now s × (0 < buckets) × (index_need buckets s.objects ≤ length index.old) }
    ensures { Indexed (closed_to store.now records.now (closed_count records.now)) buckets index.new }
{
    memory::clear(index, 0, buckets * ENTRY_WORDS, 0);
    for i in 0..s.closed {
        let h = hash_at(
            store,
            records,
            s.objects,
            closed_span(records, s.objects, i),
        );
        add(index, buckets, h, i);
    }
}

// Whether closed object `id`, of hash g, equals the innermost open one, of these runs and of hash h.
fn equals(store: &[u8], records: &[u32], s: State, own: Runs, id: usize, g: u64, h: u64) -> bool
    requires { Compared store.now records.now s own id g h }
    ensures { result ≡ same_object (innermost_in store.now records.now) (closed_at store.now records.now id) }
{
    g == h && equals_closed(store, records, s.objects, own, id)
}

// The lowest closed id whose object equals the innermost open one, which lies at `own` and has hash h, or the next id.
pub fn find_indexed(
    store: &[u8],
    records: &[u32],
    s: State,
    own: Span,
    index: &[u64],
    buckets: usize,
    h: u64,
) -> ObjectId
    requires { Asked store.now records.now s own index.now buckets h }
    ensures { result.0 ≡ twin_in store.now records.now }
{
    let runs = runs_of(s.objects, own);
    let mut x = index[bucket_of(buckets, h) * ENTRY_WORDS] as usize;
    while 0 < x {
        let id = x - 1;
        let at = buckets * ENTRY_WORDS + id * ENTRY_WORDS;
        if equals(store, records, s, runs, id, index[at + 1], h) {
            return ObjectId(id as u32);
        }
        x = index[at] as usize;
    }
    ObjectId(s.closed as u32)
}
