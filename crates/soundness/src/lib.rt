// The soundness test, whole.
#![tactic(auto)]

ghost use Rattle.std.specs.Prelude.{◌≡◌};
ghost use Rattle.layout.specs.Sound.{sound};
ghost use Rattle.soundness.specs.Tested.{tested};

use answer::{Refusal, Refused, Tally};
use layout::words::{BEGINS_AT, CLOSED_COUNT, ENDS_AT, OPEN_DEPTH, word};
use sound_fields::{closed_ok, opens_ok};
use sound_tables::{head_ok, tables_ok};

// Whether the two stores are a sound session.
pub fn is_sound(store: &[u8], records: &[u32]) -> bool
    ensures { result ≡ sound store.now records.now }
{
    if !head_ok(store.len(), records) {
        return false;
    }
    if !tables_ok(records) {
        return false;
    }
    let top = word(records, ENDS_AT + word(records, OPEN_DEPTH));
    let low = word(records, BEGINS_AT + word(records, CLOSED_COUNT));
    if !memory_compare::all_zero(&store[top..low]) {
        return false;
    }
    if !opens_ok(store, records) {
        return false;
    }
    closed_ok(store, records)
}

// The same as what a call tells: 12 where they are none.
pub fn test(store: &[u8], records: &[u32]) -> Result<(), Refused>
    ensures { result ≡ tested (sound store.now records.now) }
{
    if is_sound(store, records) {
        return Ok(());
    }
    Err(Refusal::Unsound.with(Tally::none()))
}
