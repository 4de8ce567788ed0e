// One call of a batch other than close, carried out on sound stores.
#![tactic(auto)]

ghost use Rattle.std.specs.Prelude.{◌≡◌, true};
ghost use Rattle.layout.specs.Sound.{sound};
ghost use Rattle.session_batch_calls.specs.Carried.{call_by, CallOk, CarriedBy};

use answer::{Answer, ObjectId};
use session_batch_words::{Call, Next, NoCall};
use session_drop::drop_sound;
use session_link::link_sound;
use session_open::open_sound;
use session_put::put_sound;
use session_tally::tally_sound;

// `bytes` are those that are left. What is no such call changes nothing.
pub fn carry(store: &mut [u8], records: &mut [u32], bytes: &[u8], n: Next) -> Answer
    requires { (sound store.old records.old ≡ true) × CallOk bytes.now n }
    ensures { CarriedBy (call_by bytes.now n) store.old records.old result store.new records.new }
{
    match n {
        Ok(Some(c)) => match c {
            Call::Open => open_sound(store, records),
            Call::Put(k) => put_sound(store, records, &bytes[..k]),
            Call::Link(width, id, inner) => link_sound(store, records, width, ObjectId(id), inner),
            Call::Drop => drop_sound(store, records),
            Call::Close => Ok(tally_sound(store, records)),
        },
        Ok(None) => Ok(tally_sound(store, records)),
        Err(NoCall) => Ok(tally_sound(store, records)),
    }
}
