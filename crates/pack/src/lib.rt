// The eighth call: the objects that a root reaches, packed into table bytes.
//
// It ends and answers on any memory, and asks nothing of its caller; the session never changes, and a refused call leaves the output as it was.
// The other function does its work on stores that are known to be sound; it is for proved callers.
#![tactic(auto)]

ghost use Rattle.std.specs.Prelude.{◌≡◌, true};
ghost use Rattle.layout.specs.Sound.{sound};
ghost use Rattle.model.specs.Told.{told_by_pack};
ghost use Rattle.steps.specs.Pack.{packed, pack_step};
ghost use Rattle.steps.specs.Runs.{pack, stores, pack_left, lent_step};

use answer::{ObjectId, Packing, Refusal, Tally};
use layout::state::read;
use pack_graph::pack_graph;
use session_tally::tally_of;
use soundness::test;
use work::{Areas, MOST_COPIES, clear};

pub fn pack_sound(
    store: &[u8],
    records: &[u32],
    id: ObjectId,
    copies: u32,
    out: &mut [u8],
    work: &mut [u64],
) -> Packing
    requires { sound store.now records.now ≡ true }
    ensures { packed result out.new work.new ≡ pack_step id.0 copies store.now records.now out.old work.old }
{
    let s = read(store, records);
    let t = tally_of(store.len(), s);
    if MOST_COPIES < copies {
        return Err(Refusal::OutOfRange.with(Tally::none()));
    }
    let a = Areas::with_copies(s.objects, s.links, copies as usize);
    if work.len() < a.end {
        return Err(Refusal::OutOfRange.with(Tally::none()));
    }
    if 0 < t.depth {
        return Err(Refusal::ObjectOpen.with(t));
    }
    if t.objects <= id.0 as usize {
        return Err(Refusal::NotClosed.with(t));
    }
    let answer = pack_graph(store, records, s, t, a, id, out, work);
    clear(work, a);
    answer
}

// 12 where the session is not sound, 13 too many copies or too little work memory, 9 an object open, 4 no such closed object, 11 no order fits,
// 10 the output too short.
pub fn pack(
    store: &[u8],
    records: &[u32],
    id: ObjectId,
    copies: u32,
    out: &mut [u8],
    work: &mut [u64],
) -> Packing
    ensures { pack_left (told_by_pack result) (stores store.now records.now) out.new work.new ≡ lent_step (pack id.0 copies out.old work.old) (stores store.now records.now) }
{
    test(store, records)?;
    pack_sound(store, records, id, copies, out, work)
}
