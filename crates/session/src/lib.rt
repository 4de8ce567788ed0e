// The calls on a session in two lent stores: start, open, put, link, close, drop, tally.
//
// Every call ends and answers on any memory, and none asks anything of its caller. A refused call leaves both stores as they were.
// Each is the soundness test and then the work on stores known to be sound: the functions `.._sound`, which are for proved callers too.
#![tactic(auto)]

ghost use Rattle.std.specs.Prelude.{◌≡◌};
ghost use Rattle.model.specs.Told.{told_by, told_by_close};
ghost use Rattle.steps.specs.Runs.{open', put, link, close, drop, tally, stores, left, step_on};

use answer::{Answer, Closing, ObjectId};
pub use session_close::close_sound;
pub use session_drop::drop_sound;
pub use session_link::link_sound;
pub use session_open::open_sound;
pub use session_put::put_sound;
pub use session_start::start;
pub use session_tally::tally_sound;
use soundness::test;

// 12 where the session is not sound, 2 where 64 objects are open.
pub fn open(store: &[u8], records: &mut [u32]) -> Answer
    ensures { left (told_by result) store.now records.new ≡ step_on open' (stores store.now records.old) }
{
    test(store, records)?;
    open_sound(store, records)
}

// 12 where the session is not sound, 1 where nothing is open, 6 where the bytes find no room: they are then not read.
pub fn put(store: &mut [u8], records: &mut [u32], bytes: &[u8]) -> Answer
    ensures { left (told_by result) store.new records.new ≡ step_on (put bytes.now) (stores store.old records.old) }
{
    test(store, records)?;
    put_sound(store, records, bytes)
}

// 12 where the session is not sound, 1 nothing open, 3 a width that no field has or an inner start past the field, 4 no such closed object, 7 no room for a link, 6 none for its field.
pub fn link(store: &[u8], records: &mut [u32], width: u32, id: ObjectId, inner: u32) -> Answer
    ensures { left (told_by result) store.now records.new ≡ step_on (link width id.0 inner) (stores store.now records.old) }
{
    test(store, records)?;
    link_sound(store, records, width, id, inner)
}

// 12 where the session is not sound, 1 nothing open, 5 no bytes, 16 a field that no order can fill, 8 a new object past the limit.
pub fn close(store: &mut [u8], records: &mut [u32]) -> Closing
    ensures { left (told_by_close result) store.new records.new ≡ step_on close (stores store.old records.old) }
{
    test(store, records)?;
    close_sound(store, records)
}

// 12 where the session is not sound, 1 where nothing is open.
pub fn drop(store: &mut [u8], records: &mut [u32]) -> Answer
    ensures { left (told_by result) store.new records.new ≡ step_on drop (stores store.old records.old) }
{
    test(store, records)?;
    drop_sound(store, records)
}

// 12 where the session is not sound.
pub fn tally(store: &[u8], records: &[u32]) -> Answer
    ensures { left (told_by result) store.now records.now ≡ step_on tally (stores store.now records.now) }
{
    test(store, records)?;
    Ok(tally_sound(store, records))
}
