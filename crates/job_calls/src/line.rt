// The lines behind the limits, each with its calls.
ghost use Rattle.std.specs.Prelude.{◌≡◌, true, List, ℕ, ◌+◌, ◌*◌, ◌≤◌, ◌<◌, length, take};
ghost use Rattle.layout.specs.Sound.{sound};
ghost use Rattle.layout.specs.Decode.{decode};
ghost use Rattle.text_hex.specs.Hex.{bytes_of};
ghost use Rattle.job_items.specs.Item.{piece_least};
ghost use Rattle.job_rules.specs.Job.{child_at, turn, piece_due, writing, piece_turn, link_turn, end_turn};
ghost use Rattle.job_calls.specs.Leads.{Leads, goes_on, count_of};

use crate::piece::write_piece;
use crate::stop::Stop;
use answer::ObjectId;
use job_items::{Item, item_of, pairs};
use job_rules::MOST_OBJECTS;
use session::{close_sound, link_sound};

// A job's offsets count from the first byte of their object.
const INNER_START: u32 = 0;

// What a line leads to: the next, with so many ids known; or the packing of a root.
#[derive(Clone, Copy)]
pub enum Lead {
    On(usize),
    Packs(ObjectId),
}

// How many ids are known, where another line follows.
pub fn goes_on(lead: Result<Lead, Stop>) -> Option<usize>
    ensures { result ≡ goes_on lead }
{
    match lead {
        Ok(Lead::On(n)) => Some(n),
        Ok(Lead::Packs(_)) => None,
        Err(_) => None,
    }
}

// The line behind the limits, which is a breach unless it is a piece line.
pub fn first_line(
    line: &[u8],
    store: &mut [u8],
    records: &mut [u32],
    space: &mut [u8],
) -> Result<Lead, Stop>
    requires { (sound store.old records.old ≡ true) × (length line.now ≤ length space.old * 2) }
    ensures { (ids : List ℕ) → Leads (turn line.now (piece_due (decode store.old records.old))) 0 records.old result store.new records.new ids }
{
    if item_of(line) != Some(Item::Piece) {
        return Err(Stop::Breach);
    }
    write_piece(pairs(line), store, records, space)?;
    Ok(Lead::On(0))
}

// The object before closed, and the next one opened.
fn piece_line(
    pairs: &[u8],
    count: usize,
    store: &mut [u8],
    records: &mut [u32],
    ids: &mut [u32],
    space: &mut [u8],
) -> Result<Lead, Stop>
    requires { (sound store.old records.old ≡ true) × (length pairs.now ≤ length space.old * 2) × (count < length ids.old) }
    ensures { Leads (piece_turn (bytes_of pairs.now) (decode store.old records.old) (take count ids.old)) (count + 1) records.old result store.new records.new ids.new }
{
    let closed = close_sound(store, records)?;
    ids[count] = closed.id.0;
    write_piece(pairs, store, records, space)?;
    Ok(Lead::On(count + 1))
}

// The id of an earlier piece line's object; else one that no object of a job has.
fn child_at(ids: &[u32], count: usize, i: u32) -> u32
    requires { count ≤ length ids.now }
    ensures { result ≡ child_at (take count ids.now) i }
{
    let known = &ids[..count];
    known.get(i as usize).copied().unwrap_or(MOST_OBJECTS)
}

fn link_line(
    width: u32,
    i: u32,
    count: usize,
    store: &[u8],
    records: &mut [u32],
    ids: &[u32],
) -> Result<Lead, Stop>
    requires { (sound store.now records.old ≡ true) × (count ≤ length ids.now) }
    ensures { Leads (link_turn width i (decode store.now records.old) (take count ids.now)) count records.old result store.now records.new ids.now }
{
    let child = child_at(ids, count, i);
    link_sound(store, records, width, ObjectId(child), INNER_START)?;
    Ok(Lead::On(count))
}

fn end_line(
    n: u32,
    count: usize,
    store: &mut [u8],
    records: &mut [u32],
    ids: &[u32],
) -> Result<Lead, Stop>
    requires { (sound store.old records.old ≡ true) × (count < length ids.now) }
    ensures { Leads (end_turn n (decode store.old records.old) (take count ids.now)) 0 records.old result store.new records.new ids.now }
{
    if n as usize != count + 1 {
        return Err(Stop::Breach);
    }
    let closed = close_sound(store, records)?;
    Ok(Lead::Packs(closed.id))
}

// Any other line. Ids are known for no more than one piece line in each six characters.
pub fn later_line(
    line: &[u8],
    count: usize,
    store: &mut [u8],
    records: &mut [u32],
    ids: &mut [u32],
    space: &mut [u8],
) -> Result<Lead, Stop>
    requires { (sound store.old records.old ≡ true) × (length line.now ≤ length space.old * 2) × (count < length ids.old) }
    ensures { (count_of result * piece_least ≤ count * piece_least + length line.now) × Leads (turn line.now (writing (decode store.old records.old) (take count ids.old))) (count + 1) records.old result store.new records.new ids.new }
{
    match item_of(line) {
        Some(Item::Piece) => piece_line(pairs(line), count, store, records, ids, space),
        Some(Item::Link(w, i)) => link_line(w, i, count, store, records, ids),
        Some(Item::End(n)) => end_line(n, count, store, records, ids),
        None => Err(Stop::Breach),
    }
}
