// The look for an equal closed object.
#![tactic(auto)]

ghost use Rattle.std.specs.Prelude.{◌≡◌, ◌&&◌, ◌+◌, ◌^◌, ◌≤◌, ◌<◌, eqb, length};
ghost use Rattle.lists.specs.Lists.{part, same_list};
ghost use Rattle.model_orders.specs.Object.{same_object};
ghost use Rattle.layout.specs.Words.{need, closed_count};
ghost use Rattle.layout.specs.Decode.{closed_at};
ghost use Rattle.layout.specs.Known.{Read, Innermost};
ghost use Rattle.steps.specs.Steps.{innermost_in, twin_in};
ghost use Rattle.session_find.specs.Runs.{runs_of, Ground};

use answer::ObjectId;
use layout::span::{Span, closed_span};
use layout::state::State;
use layout::words::LINKS_AT;
use memory_compare::equal;
use model_orders::LINK_WORDS;

// An object as runs of the two stores: its bytes, and the words of its links.
#[derive(Clone, Copy)]
pub struct Runs {
    pub from: usize,
    pub size: usize,
    pub at: usize,
    pub words: usize,
}

impl Runs {
    #[inline(always)]
    pub fn bytes(self, store: &[u8]) -> &[u8]
        requires { self.from + self.size ≤ length store.now }
        ensures { result.now ≡ part self.from (self.from + self.size) store.now }
    {
        &store[self.from..self.from + self.size]
    }

    #[inline(always)]
    pub fn links(self, records: &[u32]) -> &[u32]
        requires { self.at + self.words ≤ length records.now }
        ensures { result.now ≡ part self.at (self.at + self.words) records.now }
    {
        &records[self.at..self.at + self.words]
    }
}

#[inline(always)]
pub fn runs_of(objects: usize, s: Span) -> Runs
    requires { (s.from ≤ s.to) × (s.first ≤ s.last) × (need objects s.last < 2 ^ 64) }
    ensures { result ≡ runs_of objects s }
{
    Runs {
        from: s.from,
        size: s.to - s.from,
        at: LINKS_AT + objects * 2 + s.first * LINK_WORDS,
        words: (s.last - s.first) * LINK_WORDS,
    }
}

// Whether two objects are the same: by their sizes first, which tell most apart, then by their bytes and the words of their links.
#[inline(always)]
pub fn same_runs(store: &[u8], records: &[u32], r: Runs, s: Runs) -> bool
    requires { (r.from + r.size ≤ length store.now) × (r.at + r.words ≤ length records.now) × (s.from + s.size ≤ length store.now) × (s.at + s.words ≤ length records.now) }
    ensures { result ≡ (same_list eqb (part r.from (r.from + r.size) store.now) (part s.from (s.from + s.size) store.now) && same_list eqb (part r.at (r.at + r.words) records.now) (part s.at (s.at + s.words) records.now)) }
{
    r.size == s.size
        && r.words == s.words
        && equal(r.bytes(store), s.bytes(store))
        && equal(r.links(records), s.links(records))
}

// Whether closed object `id` equals the innermost open one, of these runs, where `objects` is the object limit.
#[inline(always)]
pub fn equals_closed(store: &[u8], records: &[u32], objects: usize, own: Runs, id: usize) -> bool
    requires { Ground store.now records.now objects (closed_count records.now) own × (id < closed_count records.now) }
    ensures { result ≡ same_object (innermost_in store.now records.now) (closed_at store.now records.now id) }
{
    same_runs(
        store,
        records,
        own,
        runs_of(objects, closed_span(records, objects, id)),
    )
}

// The lowest id of a closed object that equals the innermost open one, which lies at `own`, or the next id.
pub fn find(store: &[u8], records: &[u32], s: State, own: Span) -> ObjectId
    requires { Read store.now records.now s × Innermost records.now s own }
    ensures { result.0 ≡ twin_in store.now records.now }
{
    let runs = runs_of(s.objects, own);
    for id in 0..s.closed {
        if equals_closed(store, records, s.objects, runs, id) {
            return ObjectId(id as u32);
        }
    }
    ObjectId(s.closed as u32)
}
