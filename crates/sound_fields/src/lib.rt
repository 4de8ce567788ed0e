// Tests of objects: whether the fields of every open and every closed one are right, and whether an order can fill those of the closed ones.
#![tactic(auto)]

mod hopeless;

ghost use Rattle.std.specs.Prelude.{◌≡◌, true, length};
ghost use Rattle.lists.specs.Lists.{holds};
ghost use Rattle.layout.specs.Words.{open_depth, closed_count, links_at};
ghost use Rattle.layout.specs.Fields.{object_ok, closed_ok};
ghost use Rattle.layout.specs.Tables.{for_all};
ghost use Rattle.layout.specs.Decode.{object_in, open_at, closed_at};
ghost use Rattle.layout.specs.Sound.{table_tests};
ghost use Rattle.layout.specs.Spans.{Within};
ghost use Rattle.layout.specs.Known.{Head};

pub use hopeless::span_hopeless;
use layout::counts::read_counts;
use layout::span::{Span, closed_span, open_span};
use layout::words::LINKS_AT;
use model_orders::LINK_WORDS;
use sound_object::object_ok;

// The fields of the object that lies there, the links' records beginning at index `base`.
fn span_ok(store: &[u8], records: &[u32], base: usize, s: Span, kids: usize) -> bool
    requires { (base ≡ links_at records.now) × Head (length store.now) records.now × Within records.now s }
    ensures { result ≡ object_ok kids (object_in store.now records.now s) }
{
    let begin = base + s.first * LINK_WORDS;
    let end = base + s.last * LINK_WORDS;
    object_ok(&store[s.from..s.to], &records[begin..end], kids)
}

// The same of a closed object: an order can fill them too. Without links it is right: that is asked first, so that no slices are made of it.
fn closed_span_ok(store: &[u8], records: &[u32], base: usize, s: Span, kids: usize) -> bool
    requires { (base ≡ links_at records.now) × Head (length store.now) records.now × Within records.now s }
    ensures { result ≡ closed_ok kids (object_in store.now records.now s) }
{
    s.first == s.last
        || (span_ok(store, records, base, s, kids) && !span_hopeless(records, base, s))
}

// The fields of every open object.
pub fn opens_ok(store: &[u8], records: &[u32]) -> bool
    requires { Head (length store.now) records.now × (holds (table_tests records.now) ≡ true) }
    ensures { result ≡ for_all (λ d. object_ok (closed_count records.now) (open_at store.now records.now d)) (open_depth records.now) }
{
    let k = read_counts(records);
    let kids = k.closed;
    let base = LINKS_AT + k.objects * 2;
    for d in (0..k.depth).rev() {
        if !span_ok(store, records, base, open_span(records, d), kids) {
            return false;
        }
    }
    true
}

// The fields of every closed object: its children are below it.
pub fn closed_ok(store: &[u8], records: &[u32]) -> bool
    requires { Head (length store.now) records.now × (holds (table_tests records.now) ≡ true) }
    ensures { result ≡ for_all (λ i. closed_ok i (closed_at store.now records.now i)) (closed_count records.now) }
{
    let k = read_counts(records);
    let p = k.objects;
    let base = LINKS_AT + p * 2;
    for i in (0..k.closed).rev() {
        if !closed_span_ok(store, records, base, closed_span(records, p, i), i) {
            return false;
        }
    }
    true
}
