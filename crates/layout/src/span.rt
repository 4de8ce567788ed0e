// Where objects lie in the two stores, as the tables have it.
ghost use Rattle.std.specs.Prelude.{◌≡◌, ◌<◌};
ghost use Rattle.layout.specs.Words.{object_limit, closed_count, open_depth};
ghost use Rattle.layout.specs.Spans.{open_span, closed_span, Lies};
ghost use Rattle.layout.specs.Known.{Tested, WordsRead, Innermost};

use crate::state::State;
use crate::words::{BEGINS_AT, ENDS_AT, LINK_BEGINS_AT, LINK_ENDS_AT, word};

// An object's bytes from `from` up to `to`, and its links from number `first` up to number `last`.
#[derive(Clone, Copy)]
pub struct Span {
    pub from: usize,
    pub to: usize,
    pub first: usize,
    pub last: usize,
}

// Of open object d, the oldest being 0.
pub fn open_span(records: &[u32], d: usize) -> Span
    requires { Tested records.now × (d < open_depth records.now) }
    ensures { Lies records.now (open_span records.now d) result }
{
    Span {
        from: word(records, ENDS_AT + d),
        to: word(records, ENDS_AT + d + 1),
        first: word(records, LINK_ENDS_AT + d),
        last: word(records, LINK_ENDS_AT + d + 1),
    }
}

// Of closed object i, where p is the object limit.
pub fn closed_span(records: &[u32], p: usize, i: usize) -> Span
    requires { Tested records.now × (p ≡ object_limit records.now) × (i < closed_count records.now) }
    ensures { Lies records.now (closed_span records.now i) result }
{
    let at = LINK_BEGINS_AT + p;
    Span {
        to: word(records, BEGINS_AT + i),
        from: word(records, BEGINS_AT + i + 1),
        last: word(records, at + i),
        first: word(records, at + i + 1),
    }
}

// Of the innermost open object: it ends where the open ones end.
pub fn innermost(records: &[u32], s: State) -> Span
    requires { WordsRead records.now s × (0 < s.depth) }
    ensures { Innermost records.now s result }
{
    let d = s.depth - 1;
    Span {
        from: word(records, ENDS_AT + d),
        to: s.top,
        first: word(records, LINK_ENDS_AT + d),
        last: s.link_top,
    }
}
