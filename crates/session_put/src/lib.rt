// Bytes appended to the innermost open object.
#![tactic(auto)]

ghost use Rattle.std.specs.Prelude.{◌≡◌, true};
ghost use Rattle.layout.specs.Sound.{sound};
ghost use Rattle.steps.specs.Steps.{outcome, put_step};

use answer::{Answer, Refusal};
use layout::state::read;
use layout::words::{ENDS_AT, set_word};
use session_tally::tally_of;

pub fn put_sound(store: &mut [u8], records: &mut [u32], bytes: &[u8]) -> Answer
    requires { sound store.old records.old ≡ true }
    ensures { outcome result store.new records.new ≡ put_step bytes.now store.old records.old }
{
    let s = read(store, records);
    let t = tally_of(store.len(), s);
    let d = s.depth;
    if d == 0 {
        return Err(Refusal::NothingOpen.with(t));
    }
    if store.len() - t.bytes < bytes.len() {
        return Err(Refusal::StoreFull.with(t));
    }
    let top = s.top;
    memory_copy::copy(store, top, bytes);
    set_word(records, ENDS_AT + d, top + bytes.len());
    Ok(t.grow(bytes.len(), 0))
}
