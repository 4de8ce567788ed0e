// One more open object.
#![tactic(auto)]

ghost use Rattle.std.specs.Prelude.{◌≡◌, true};
ghost use Rattle.layout.specs.Sound.{sound};
ghost use Rattle.steps.specs.Steps.{outcome, open_step};

use answer::{Answer, Refusal};
use layout::limits::MOST_OPEN;
use layout::state::read;
use layout::words::{ENDS_AT, LINK_ENDS_AT, OPEN_DEPTH, set_word};
use session_tally::tally_of;

pub fn open_sound(store: &[u8], records: &mut [u32]) -> Answer
    requires { sound store.now records.old ≡ true }
    ensures { outcome result store.now records.new ≡ open_step store.now records.old }
{
    let s = read(store, records);
    let t = tally_of(store.len(), s);
    let d = s.depth;
    if MOST_OPEN <= d {
        return Err(Refusal::DepthFull.with(t));
    }
    set_word(records, ENDS_AT + d + 1, s.top);
    set_word(records, LINK_ENDS_AT + d + 1, s.link_top);
    set_word(records, OPEN_DEPTH, d + 1);
    Ok(t.open())
}
