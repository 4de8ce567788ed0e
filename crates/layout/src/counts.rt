// The counts in the header of the record store.
ghost use Rattle.layout.specs.Words.{store_length};
ghost use Rattle.layout.specs.Known.{Head};
ghost use Rattle.layout.specs.Counted.{Counted};

use crate::words::{CLOSED_COUNT, OBJECT_LIMIT, OPEN_DEPTH, word};

// The limit of objects, and how many are closed and open.
#[derive(Clone, Copy)]
pub struct Counts {
    pub objects: usize,
    pub closed: usize,
    pub depth: usize,
}

pub fn read_counts(records: &[u32]) -> Counts
    requires { Head (store_length records.now) records.now }
    ensures { Counted records.now result }
{
    Counts {
        objects: word(records, OBJECT_LIMIT),
        closed: word(records, CLOSED_COUNT),
        depth: word(records, OPEN_DEPTH),
    }
}
