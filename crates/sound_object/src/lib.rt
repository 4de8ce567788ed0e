// Tests of one object: whether its fields are right.
#![tactic(auto)]

ghost use Rattle.std.specs.Prelude.{◌≡◌, ◌+◌, ◌*◌, ◌≤◌, length};
ghost use Rattle.lists.specs.Lists.{part, holds, zeros};
ghost use Rattle.model_orders.specs.Object.{narrowest, widest, slot_ok};
ghost use Rattle.layout.specs.Words.{links_of};
ghost use Rattle.layout.specs.Fields.{field_tests, fields_ok};
ghost use Rattle.layout.specs.Links.{link_in, InWords};

use layout::link::{Link, link_at};
use model_orders::{LINK_WORDS, NARROWEST, WIDEST};

// A width and an inner start that a field may have.
pub fn slot_ok(l: Link) -> bool
    ensures { result ≡ slot_ok (link_in l).slot }
{
    (NARROWEST <= l.width) & (l.width <= WIDEST) & (l.inner <= l.at)
}

// Whether a field's bytes, from `at` up to `end`, are zero: its first two and its last two are all of them, so that no branch depends on the width.
fn field_zero(bytes: &[u8], at: usize, end: usize) -> bool
    requires { (at + narrowest ≤ end) × (end ≤ at + widest) × (end ≤ length bytes.now) }
    ensures { result ≡ zeros (part at end bytes.now) }
{
    let last = end - NARROWEST;
    (bytes[at] == 0) & (bytes[at + 1] == 0) & (bytes[last] == 0) & (bytes[last + 1] == 0)
}

// One link's field.
fn field_ok(bytes: &[u8], l: Link, from: usize, kids: usize) -> bool
    requires { InWords l }
    ensures { result ≡ holds (field_tests kids from bytes.now (link_in l)) }
{
    let end = l.at + l.width;
    if l.at < from {
        return false;
    }
    if !slot_ok(l) {
        return false;
    }
    if bytes.len() < end {
        return false;
    }
    if kids <= l.child {
        return false;
    }
    field_zero(bytes, l.at, end)
}

// Every field of an object of these bytes and these links' words, whose children are below `kids`.
pub fn object_ok(bytes: &[u8], links: &[u32], kids: usize) -> bool
    ensures { result ≡ fields_ok kids 0 bytes.now (links_of links.now) }
{
    let mut from = 0;
    for words in links.chunks_exact(LINK_WORDS) {
        let l = link_at(words, 0);
        if !field_ok(bytes, l, from, kids) {
            return false;
        }
        from = l.at + l.width;
    }
    true
}
