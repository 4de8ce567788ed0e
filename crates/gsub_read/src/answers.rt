// What a read answers with.
ghost use Rattle.std.specs.Prelude.{◌≡◌};
ghost use Rattle.gsub_read.specs.declared.answers.Unread.TheVariants.{Refused as refused};
ghost use Rattle.gsub_read.specs.Answers.{unread_number, unread_place};

use answer::{ObjectId, Refusal, Refused, Tally};

// The number of a field that is not read.
const BAD_TABLE: u64 = 15;

// Why a table is not read: the place of the field that no such table has there; or a session refusal.
#[derive(Clone, Copy)]
pub enum Unread {
    BadTable(usize),
    Refused(Refusal),
}

// The root's id, and what the session holds.
#[derive(Clone, Copy)]
pub struct Read {
    pub root: ObjectId,
    pub tally: Tally,
}

pub type ReadAnswer = Result<Read, Unread>;

impl From<Refused> for Unread {
    ghost from_gives = { λ r u. u ≡ refused r.why };

    fn from(r: Refused) -> Unread {
        Unread::Refused(r.why)
    }
}

// Its number (docs/RULES.md, 11.6).
impl From<Unread> for u64 {
    ghost from_gives = { λ u n. n ≡ unread_number u };

    fn from(u: Unread) -> u64 {
        match u {
            Unread::BadTable(_) => BAD_TABLE,
            Unread::Refused(why) => u64::from(why),
        }
    }
}

impl Unread {
    // The place that it tells: only 15 has one.
    pub fn place(self) -> usize
        ensures { result ≡ unread_place self }
    {
        match self {
            Unread::BadTable(at) => at,
            Unread::Refused(_) => 0,
        }
    }
}
