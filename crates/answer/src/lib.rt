// What the calls answer with: ids, counts, refusals.
#![tactic(auto)]

mod refusals;
mod shown;
mod tally;

pub use refusals::{named_by, no_table, nowhere};
pub use tally::Tally;

// A closed object, numbered from 0 in the order of closing.
#[derive(Clone, Copy)]
pub struct ObjectId(pub u32);

// A link whose offset does not fit its field: the object that has the field, the field's place in it, and the offset needed.
#[derive(Clone, Copy)]
pub struct Overflow {
    pub parent: ObjectId,
    pub field: usize,
    pub needed: usize,
}

#[derive(Clone, Copy)]
pub enum Refusal {
    NothingOpen,
    DepthFull,
    BadField,
    NotClosed,
    EmptyObject,
    StoreFull,
    LinksFull,
    ObjectsFull,
    ObjectOpen,
    OutputShort,
    Overflow(Overflow),
    Unsound,
    OutOfRange,
    Hopeless,
}

// Of every call but close and pack: what the session holds then, and why if it is refused.
pub type Answer = Result<Tally, Refused>;

// Of close.
pub type Closing = Result<Closed, Refused>;

// Of pack.
pub type Packing = Result<Packed, Refused>;

// Why a call is refused, and what the session holds.
#[derive(Clone, Copy)]
pub struct Refused {
    pub why: Refusal,
    pub tally: Tally,
}

// The closed object's id, and what the session holds then.
#[derive(Clone, Copy)]
pub struct Closed {
    pub id: ObjectId,
    pub tally: Tally,
}

// A table: its length, how many of its objects are copies, and how many it has, copies among them.
#[derive(Clone, Copy)]
pub struct PackedTable {
    pub length: usize,
    pub copies: usize,
    pub placed: usize,
}

// A table, and what the session holds.
#[derive(Clone, Copy)]
pub struct Packed {
    pub table: PackedTable,
    pub tally: Tally,
}
