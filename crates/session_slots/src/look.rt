// The look for an equal closed object along the slots from the open one's own on.
ghost use Rattle.std.specs.Prelude.{◌≡◌, ◌&&◌, ◌-◌, ◌<◌, leb};
ghost use Rattle.model_orders.specs.Object.{same_object};
ghost use Rattle.layout.specs.Words.{closed_count};
ghost use Rattle.layout.specs.Decode.{closed_at};
ghost use Rattle.session_find.specs.Runs.{Ground};
ghost use Rattle.steps.specs.Steps.{innermost_in, twin_in};
ghost use Rattle.session_slots.specs.Close.{Asked};

use crate::{PROBES, slot_of};
use answer::ObjectId;
use layout::span::Span;
use layout::state::State;
use session_find::{Runs, equals_closed, find, runs_of};

// Whether a slot with x in it holds a closed id whose object equals the innermost open one, of these runs.
fn holds_equal(store: &[u8], records: &[u32], s: State, own: Runs, x: usize) -> bool
    requires { Ground store.now records.now s.objects s.closed own × (0 < x) }
    ensures { result ≡ (leb x (closed_count records.now) && same_object (innermost_in store.now records.now) (closed_at store.now records.now (x - 1))) }
{
    x <= s.closed && equals_closed(store, records, s.objects, own, x - 1)
}

// The lowest closed id whose object equals the innermost open one, which lies at `own` and has hash h, or the next id.
pub fn find_slotted(
    store: &[u8],
    records: &[u32],
    s: State,
    own: Span,
    table: &[u16],
    h: u64,
) -> ObjectId
    requires { Asked store.now records.now s own table.now h }
    ensures { result.0 ≡ twin_in store.now records.now }
{
    let runs = runs_of(s.objects, own);
    let at = slot_of(h);
    for slot in &table[at..at + PROBES] {
        let x = usize::from(*slot);
        if x == 0 {
            return ObjectId(s.closed as u32);
        }
        if holds_equal(store, records, s, runs, x) {
            return ObjectId((x - 1) as u32);
        }
    }
    find(store, records, s, own)
}
