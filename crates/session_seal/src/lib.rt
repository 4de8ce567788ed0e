// The innermost open object added to the closed ones.
#![tactic(auto)]

ghost use Rattle.std.specs.Prelude.{◌≡◌, true, ◌-◌, ◌≤◌, ◌<◌, length, replicate};
ghost use Rattle.lists.specs.Lists.{part, over, zeros};
ghost use Rattle.layout.specs.Known.{Read, Innermost};
ghost use Rattle.steps.specs.Steps.{sealed_bytes, sealed_words};

use layout::span::Span;
use layout::state::State;
use layout::words::{BEGINS_AT, CLOSED_COUNT, LINK_BEGINS_AT, LINKS_AT, OPEN_DEPTH, set_word};
use model_orders::LINK_WORDS;

// The bytes from `from` up to `top` moved up to end at `low`, zeros below them. Up to `low` zeros stand already: only what the bytes left is cleared.
fn seal_bytes(store: &mut [u8], from: usize, top: usize, low: usize)
    requires { (from ≤ top) × (top ≤ low) × (low ≤ length store.old) × (zeros (part top low store.old) ≡ true) }
    ensures { store.new ≡ over from (replicate (low - (top - from) - from) 0) (over (low - (top - from)) (part from top store.old) store.old) }
{
    let n = top - from;
    let to = low - n;
    memory::move_up(store, from, to, n);
    memory::clear(store, from, top.min(to), 0);
}

// Its links' records moved up, one entry more in both tables of closed objects, and the counts.
fn seal_words(records: &mut [u32], s: State, own: Span)
    requires { Innermost records.old s own × (s.closed < s.objects) }
    ensures { records.new ≡ sealed_words records.old }
{
    let p = s.objects;
    let c = s.closed;
    let low = s.low - (own.to - own.from);
    let links = own.last - own.first;
    let link_low = s.link_low - links;
    let base = LINKS_AT + p * 2;
    memory::move_up(
        records,
        base + own.first * LINK_WORDS,
        base + link_low * LINK_WORDS,
        links * LINK_WORDS,
    );
    set_word(records, BEGINS_AT + c + 1, low);
    set_word(records, LINK_BEGINS_AT + p + c + 1, link_low);
    set_word(records, CLOSED_COUNT, c + 1);
    set_word(records, OPEN_DEPTH, s.depth - 1);
}

// It lies at `own`, and there is room for one more closed object. The time goes by its size and its links, not by the stores' length.
pub fn seal(store: &mut [u8], records: &mut [u32], s: State, own: Span)
    requires { Read store.old records.old s × Innermost records.old s own × (s.closed < s.objects) }
    ensures bytes { store.new ≡ sealed_bytes store.old records.old }
    ensures words { records.new ≡ sealed_words records.old }
{
    seal_words(records, s, own);
    seal_bytes(store, own.from, own.to, s.low);
}
