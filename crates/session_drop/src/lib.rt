// The innermost open object forgotten.
#![tactic(auto)]

ghost use Rattle.std.specs.Prelude.{◌≡◌, true, length};
ghost use Rattle.layout.specs.Sound.{sound};
ghost use Rattle.layout.specs.Words.{store_length};
ghost use Rattle.layout.specs.Known.{Innermost};
ghost use Rattle.steps.specs.Steps.{outcome, drop_step, dropped_bytes, dropped_words};

use answer::{Answer, Refusal};
use layout::span::{Span, innermost};
use layout::state::{State, read};
use layout::words::{OPEN_DEPTH, set_word};
use session_tally::tally_of;

// Its bytes become zero, and one object less is open.
pub fn forget(store: &mut [u8], records: &mut [u32], s: State, own: Span)
    requires { Innermost records.old s own × (store_length records.old ≡ length store.old) }
    ensures bytes { store.new ≡ dropped_bytes store.old records.old }
    ensures words { records.new ≡ dropped_words records.old }
{
    memory::clear(store, own.from, own.to, 0);
    set_word(records, OPEN_DEPTH, s.depth - 1);
}

pub fn drop_sound(store: &mut [u8], records: &mut [u32]) -> Answer
    requires { sound store.old records.old ≡ true }
    ensures { outcome result store.new records.new ≡ drop_step store.old records.old }
{
    let s = read(store, records);
    let t = tally_of(store.len(), s);
    if s.depth == 0 {
        return Err(Refusal::NothingOpen.with(t));
    }
    let own = innermost(records, s);
    forget(store, records, s, own);
    Ok(t.release(own.to - own.from, own.last - own.first))
}
