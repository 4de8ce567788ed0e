// The moves of a walk, made on a session. Each call leaves sound stores, so none tests them again.
ghost use Rattle.std.specs.Prelude.{◌≡◌, true, [], ◌∷◌, ℕ, ◌+◌, ◌≤◌, length};
ghost use Rattle.lists.specs.Lists.{part};
ghost use Rattle.layout.specs.Sound.{sound};
ghost use Rattle.steps.specs.Runs.{stores};
ghost use Rattle.gsub.specs.Ops.{begin as beginOp, put as put_op, link as link_op, end as endOp};
ghost use Rattle.gsub.specs.Promote.{new_bytes};
ghost use Rattle.gsub_read.specs.Perform.{PerformedBy, ops_of, MoveOk};

use crate::answers::Unread;
use answer::ObjectId;
use gsub::NEW;
use gsub_walk::walk::Move;
use session::{close_sound, link_sound, open_sound, put_sound};

// What moves came to: the id of the object closed last, or why they were refused. Only a close tells another id.
pub type Performed = Result<ObjectId, Unread>;

// An object opened.
pub fn begin(store: &[u8], records: &mut [u32], last: ObjectId) -> Performed
    requires { sound store.now records.old ≡ true }
    ensures { PerformedBy (beginOp ∷ []) last.0 (stores store.now records.old) result (stores store.now records.new) }
{
    open_sound(store, records)?;
    Ok(last)
}

// Bytes appended to it.
fn put(store: &mut [u8], records: &mut [u32], bytes: &[u8], last: ObjectId) -> Performed
    requires { sound store.old records.old ≡ true }
    ensures { PerformedBy (put_op bytes.now ∷ []) last.0 (stores store.old records.old) result (stores store.new records.new) }
{
    put_sound(store, records, bytes)?;
    Ok(last)
}

// A link to the object closed last; a table's offsets count from its own first byte.
fn link(store: &[u8], records: &mut [u32], width: u32, last: ObjectId) -> Performed
    requires { sound store.now records.old ≡ true }
    ensures { PerformedBy (link_op width ∷ []) last.0 (stores store.now records.old) result (stores store.now records.new) }
{
    link_sound(store, records, width, last, 0)?;
    Ok(last)
}

// The object closed: its id is the last one then.
fn end(store: &mut [u8], records: &mut [u32]) -> Performed
    requires { sound store.old records.old ≡ true }
    ensures { (i : ℕ) → PerformedBy (endOp ∷ []) i (stores store.old records.old) result (stores store.new records.new) }
{
    let closed = close_sound(store, records)?;
    Ok(closed.id)
}

// Bytes that stand in no table.
fn put_new(
    store: &mut [u8],
    records: &mut [u32],
    at: usize,
    width: usize,
    last: ObjectId,
) -> Performed
    requires { (sound store.old records.old ≡ true) × (at + width ≤ length new_bytes) }
    ensures { PerformedBy (put_op (part at (at + width) new_bytes) ∷ []) last.0 (stores store.old records.old) result (stores store.new records.new) }
{
    let to = at + width;
    let new = NEW;
    put(store, records, &new[at..to], last)
}

// A move of a walk through the table.
pub fn perform(
    store: &mut [u8],
    records: &mut [u32],
    table: &[u8],
    m: Move,
    last: ObjectId,
) -> Performed
    requires { (sound store.old records.old ≡ true) × MoveOk table.now m }
    ensures { PerformedBy (ops_of table.now m) last.0 (stores store.old records.old) result (stores store.new records.new) }
{
    match m {
        Move::Begin => begin(store, records, last),
        Move::Put(at, width) => {
            let to = at + width;
            put(store, records, &table[at..to], last)
        }
        Move::New(at, width) => put_new(store, records, at, width, last),
        Move::Link(width) => link(store, records, width as u32, last),
        Move::End => end(store, records),
        Move::Stop(p) => Err(Unread::BadTable(p)),
        Move::Done => Ok(last),
    }
}
