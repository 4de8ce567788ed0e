// The innermost open object closed: it gets the next id, or the id of the closed object that it equals.
#![tactic(auto)]

ghost use Rattle.std.specs.Prelude.{◌≡◌, true, ◌<◌};
ghost use Rattle.layout.specs.Sound.{sound};
ghost use Rattle.layout.specs.Known.{Read};
ghost use Rattle.steps.specs.Steps.{closing, twin_in, close_step};

use answer::{Closed, Closing, ObjectId, Refusal};
use layout::span::innermost;
use layout::state::{State, read};
use layout::words::LINKS_AT;
use session_drop::forget;
use session_find::find;
use session_seal::seal;
use session_tally::tally_of;
use sound_fields::span_hopeless;

// Close, the look being done: `id` is what it told, where an object is open.
pub fn close_found(store: &mut [u8], records: &mut [u32], s: State, id: ObjectId) -> Closing
    requires { Read store.old records.old s × (0 < s.depth → id.0 ≡ twin_in store.old records.old) }
    ensures { closing result store.new records.new ≡ close_step store.old records.old }
{
    let t = tally_of(store.len(), s);
    if s.depth == 0 {
        return Err(Refusal::NothingOpen.with(t));
    }
    let own = innermost(records, s);
    if own.to == own.from {
        return Err(Refusal::EmptyObject.with(t));
    }
    if span_hopeless(records, LINKS_AT + s.objects * 2, own) {
        return Err(Refusal::Hopeless.with(t));
    }
    if (id.0 as usize) < s.closed {
        forget(store, records, s, own);
        return Ok(Closed {
            id,
            tally: t.release(own.to - own.from, own.last - own.first),
        });
    }
    if s.objects <= s.closed {
        return Err(Refusal::ObjectsFull.with(t));
    }
    seal(store, records, s, own);
    Ok(Closed { id, tally: t.add() })
}

// The look for the innermost open object, where there is one.
fn look(store: &[u8], records: &[u32], s: State) -> ObjectId
    requires { Read store.now records.now s }
    ensures { 0 < s.depth → result.0 ≡ twin_in store.now records.now }
{
    if s.depth == 0 {
        return ObjectId(0);
    }
    find(store, records, s, innermost(records, s))
}

pub fn close_sound(store: &mut [u8], records: &mut [u32]) -> Closing
    requires { sound store.old records.old ≡ true }
    ensures { closing result store.new records.new ≡ close_step store.old records.old }
{
    let s = read(store, records);
    let id = look(store, records, s);
    close_found(store, records, s, id)
}
