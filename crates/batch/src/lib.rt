// Many calls in one: the calls of a batch on a session in two lent stores, which is tested once.
//
// It ends and answers on any memory, and asks nothing of its caller. The other functions do its work on stores that are known to be sound.
#![tactic(auto)]

ghost use Rattle.std.specs.Prelude.{◌≡◌, true, ◌≤◌, length};
ghost use Rattle.layout.specs.Known.{Read};
ghost use Rattle.layout.specs.Sound.{sound};
ghost use Rattle.steps.specs.Runs.{stores};
ghost use Rattle.session_batch.specs.Batch.{batch_need, batch_left, batch_step};
ghost use Rattle.session_indexed.specs.Close.{Keeping};
ghost use Rattle.session_batch_turn.specs.Turn.{lent};
ghost use Rattle.batch.specs.Batch.{RanBy, told_by_batch, refused_at};

use answer::{Refusal, Tally};
use layout::state::{State, read};
use session_batch_turn::{Ending, Progress, Turn, take_turn};
use session_chains::ENTRY_WORDS;
use session_index::look::make;
use session_tally::tally_sound;
use soundness::is_sound;

// How the calls ended, how many were carried out, and how many ids were told.
#[derive(Clone, Copy)]
struct Ran {
    ending: Ending,
    calls: usize,
    told: usize,
}

// The same with the tally.
#[derive(Clone, Copy)]
pub struct Batched {
    pub ending: Ending,
    pub tally: Tally,
    pub calls: usize,
    pub told: usize,
}

// How many words of work memory a batch needs, where so many objects may be held: an entry for each bucket, of which there are as many, and each object.
pub fn need(objects: u32) -> usize
    ensures { result ≡ batch_need objects }
{
    let n = objects as usize;
    n * ENTRY_WORDS + n * ENTRY_WORDS
}

// Call by call, up to the end or to the first that is refused or is none.
fn run_calls(
    store: &mut [u8],
    records: &mut [u32],
    calls: &[u32],
    bytes: &[u8],
    ids: &mut [u32],
    index: &mut [u64],
    buckets: usize,
) -> Ran
    requires { Keeping store.old records.old index.old buckets }
    ensures { RanBy calls.now bytes.now (lent store.old records.old ids.old index.old) result (lent store.new records.new ids.new index.new) }
{
    let mut p = Progress {
        words: 0,
        bytes: 0,
        told: 0,
        calls: 0,
    };
    loop {
        let t = take_turn(store, records, calls, bytes, ids, index, buckets, p);
        match t {
            Turn::On(q) => {
                p = q;
            }
            Turn::Over(e) => {
                return Ran {
                    ending: e,
                    calls: p.calls,
                    told: p.told,
                };
            }
        }
    }
}

// The index made, and the calls run by it.
fn run_indexed(
    store: &mut [u8],
    records: &mut [u32],
    s: State,
    calls: &[u32],
    bytes: &[u8],
    ids: &mut [u32],
    index: &mut [u64],
) -> Ran
    requires { Read store.old records.old s × (batch_need s.objects ≤ length index.old) }
    ensures { RanBy calls.now bytes.now (lent store.old records.old ids.old index.old) result (lent store.new records.new ids.new index.new) }
{
    let buckets = s.objects;
    make(store, records, s, index, buckets);
    run_calls(store, records, calls, bytes, ids, index, buckets)
}

// Refused as a whole: nothing is told.
fn refused(why: Refusal) -> Batched
    ensures { result ≡ refused_at why }
{
    Batched {
        ending: Ending::Refused(why),
        tally: Tally::none(),
        calls: 0,
        told: 0,
    }
}

fn batch_sound(
    store: &mut [u8],
    records: &mut [u32],
    calls: &[u32],
    bytes: &[u8],
    ids: &mut [u32],
    work: &mut [u64],
) -> Batched
    requires { sound store.old records.old ≡ true }
    ensures { batch_left (told_by_batch result) store.new records.new ids.new work.new ≡ batch_step calls.now bytes.now ids.old work.old (stores store.old records.old) }
{
    let s = read(store, records);
    let n = need(s.objects as u32);
    if work.len() < n {
        return refused(Refusal::OutOfRange);
    }
    let r = run_indexed(store, records, s, calls, bytes, ids, &mut work[..n]);
    memory::clear(work, 0, n, 0);
    let ending = r.ending;
    Batched {
        ending,
        tally: tally_sound(store, records),
        calls: r.calls,
        told: r.told,
    }
}

// 12 where the session is not sound, 13 where the work memory is below its need: both change nothing. Else the calls in turn, up to the first that is
// refused or is none (19).
pub fn batch(
    store: &mut [u8],
    records: &mut [u32],
    calls: &[u32],
    bytes: &[u8],
    ids: &mut [u32],
    work: &mut [u64],
) -> Batched
    ensures { batch_left (told_by_batch result) store.new records.new ids.new work.new ≡ batch_step calls.now bytes.now ids.old work.old (stores store.old records.old) }
{
    if is_sound(store, records) {
        return batch_sound(store, records, calls, bytes, ids, work);
    }
    refused(Refusal::Unsound)
}
