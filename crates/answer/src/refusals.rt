// A refusal's number, and the link that it names; and no table, which stands beside it.
ghost use Rattle.std.specs.Prelude.{◌≡◌};
ghost use Rattle.answer.specs.Number.{number, named, no_overflow, no_table};

use crate::{ObjectId, Overflow, PackedTable, Refusal, Refused, Tally};

impl Refusal {
    // Of a call that is refused while the session holds so much.
    pub fn with(self, tally: Tally) -> Refused
        ensures { result ≡ record { why = self; tally = tally } }
    {
        Refused { why: self, tally }
    }
}

// Its number (docs/RULES.md, section 6).
impl From<Refusal> for u64 {
    ghost from_gives = { λ why n. n ≡ number why };

    fn from(why: Refusal) -> u64 {
        match why {
            Refusal::NothingOpen => 1,
            Refusal::DepthFull => 2,
            Refusal::BadField => 3,
            Refusal::NotClosed => 4,
            Refusal::EmptyObject => 5,
            Refusal::StoreFull => 6,
            Refusal::LinksFull => 7,
            Refusal::ObjectsFull => 8,
            Refusal::ObjectOpen => 9,
            Refusal::OutputShort => 10,
            Refusal::Overflow(_) => 11,
            Refusal::Unsound => 12,
            Refusal::OutOfRange => 13,
            Refusal::Hopeless => 16,
        }
    }
}

// No link is named.
pub fn nowhere() -> Overflow
    ensures { result ≡ no_overflow }
{
    Overflow {
        parent: ObjectId(0),
        field: 0,
        needed: 0,
    }
}

// No table was packed.
pub fn no_table() -> PackedTable
    ensures { result ≡ no_table }
{
    PackedTable {
        length: 0,
        copies: 0,
        placed: 0,
    }
}

// The link that a refusal names: only 11 names one.
pub fn named_by(why: Refusal) -> Overflow
    ensures { result ≡ named why }
{
    let Refusal::Overflow(o) = why else {
        return nowhere();
    };
    o
}
