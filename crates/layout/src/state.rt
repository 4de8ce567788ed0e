// What sound stores hold, by number.
ghost use Rattle.std.specs.Prelude.{◌≡◌, true};
ghost use Rattle.layout.specs.Sound.{sound};
ghost use Rattle.layout.specs.Known.{Read};

use crate::words::{
    BEGINS_AT, CLOSED_COUNT, ENDS_AT, LINK_BEGINS_AT, LINK_ENDS_AT, OBJECT_LIMIT, OPEN_DEPTH, word,
};

// The counts, and where open bytes and links end and closed ones begin.
#[derive(Clone, Copy)]
pub struct State {
    pub objects: usize,
    pub links: usize,
    pub closed: usize,
    pub depth: usize,
    pub top: usize,
    pub low: usize,
    pub link_top: usize,
    pub link_low: usize,
}

pub fn read(store: &[u8], records: &[u32]) -> State
    requires { sound store.now records.now ≡ true }
    ensures { Read store.now records.now result }
{
    let p = word(records, OBJECT_LIMIT);
    let c = word(records, CLOSED_COUNT);
    let d = word(records, OPEN_DEPTH);
    State {
        objects: p,
        links: word(records, LINK_BEGINS_AT + p),
        closed: c,
        depth: d,
        top: word(records, ENDS_AT + d),
        low: word(records, BEGINS_AT + c),
        link_top: word(records, LINK_ENDS_AT + d),
        link_low: word(records, LINK_BEGINS_AT + p + c),
    }
}
