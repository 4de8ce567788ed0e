// An answer and a promotion's as twelve numbers, a read's and a batch's as seven, a send's as two and a feed's as four. Values that a call does not have are 0.
#![tactic(auto)]

mod batches;
mod cable;
mod promotes;
mod reads;

ghost use Rattle.std.specs.Prelude.{◌≡◌};
ghost use Rattle.model.specs.Told.{refused_told, told_by, told_by_close, told_by_pack};
ghost use Rattle.capi_answer.specs.Numbers.{told_in};

use answer::{
    Answer, Closed, Closing, Overflow, Packed, PackedTable, Packing, Refusal, Refused, Tally,
    named_by, no_table, nowhere,
};
pub use batches::{BatchNumbers, tell_batch};
pub use cable::{FedNumbers, SentNumbers, tell_fed, tell_sent};
pub use promotes::{PromoteNumbers, tell_promote};
pub use reads::{ReadNumbers, tell_read};

#[repr(C)]
#[derive(Clone, Copy)]
pub struct Numbers {
    pub number: u64,
    pub bytes: u64,
    pub links: u64,
    pub objects: u64,
    pub depth: u64,
    pub id: u64,
    pub length: u64,
    pub parent: u64,
    pub field: u64,
    pub needed: u64,
    pub copies: u64,
    pub placed: u64,
}

fn as_numbers(number: u64, t: Tally, id: u64, made: PackedTable, o: Overflow) -> Numbers
    ensures { told_in result ≡ record { number = number; tally = t; id = id; length = made.length; copies = made.copies; placed = made.placed; overflow = o } }
{
    let parent = o.parent;
    Numbers {
        number,
        bytes: t.bytes as u64,
        links: t.links as u64,
        objects: t.objects as u64,
        depth: t.depth as u64,
        id,
        length: made.length as u64,
        parent: parent.0 as u64,
        field: o.field as u64,
        needed: o.needed as u64,
        copies: made.copies as u64,
        placed: made.placed as u64,
    }
}

fn tell_refused(why: Refusal, t: Tally) -> Numbers
    ensures { told_in result ≡ refused_told why t }
{
    as_numbers(u64::from(why), t, 0, no_table(), named_by(why))
}

pub fn tell(a: Answer) -> Numbers
    ensures { told_in result ≡ told_by a }
{
    match a {
        Ok(t) => as_numbers(0, t, 0, no_table(), nowhere()),
        Err(Refused { why, tally: t }) => tell_refused(why, t),
    }
}

pub fn tell_close(a: Closing) -> Numbers
    ensures { told_in result ≡ told_by_close a }
{
    match a {
        Ok(Closed { id, tally: t }) => as_numbers(0, t, id.0 as u64, no_table(), nowhere()),
        Err(Refused { why, tally: t }) => tell_refused(why, t),
    }
}

pub fn tell_pack(a: Packing) -> Numbers
    ensures { told_in result ≡ told_by_pack a }
{
    match a {
        Ok(Packed { table: p, tally: t }) => as_numbers(0, t, 0, p, nowhere()),
        Err(Refused { why, tally: t }) => tell_refused(why, t),
    }
}
