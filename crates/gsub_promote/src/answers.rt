// What a promotion answers with.
use answer::{ObjectId, Tally};
use gsub_read::Unread;

// How many lookups are promoted, the root's id and the table's length; and what the session holds of the table.
#[derive(Clone, Copy)]
pub struct Promoted {
    pub lookups: usize,
    pub root: ObjectId,
    pub length: usize,
    pub tally: Tally,
}

pub type PromoteAnswer = Result<Promoted, Unread>;
