// Fields that no order can fill: the object's own bytes are already too many between a field's inner start and its child.
ghost use Rattle.std.specs.Prelude.{◌≡◌, true, ◌-◌};
ghost use Rattle.model_orders.specs.Object.{slot_ok, hopeless, any_hopeless, slots_of};
ghost use Rattle.layout.specs.Words.{links_of, links_at, store_length};
ghost use Rattle.layout.specs.Decode.{links_from};
ghost use Rattle.layout.specs.Fields.{slots_ok};
ghost use Rattle.layout.specs.Links.{link_in, InWords};
ghost use Rattle.layout.specs.Spans.{Within};
ghost use Rattle.layout.specs.Known.{Head};

use big_endian::capacity;
use layout::link::{Link, link_at};
use layout::span::Span;
use model_orders::{LINK_WORDS, NARROWEST};

// One link's field, in an object of n bytes.
fn field_hopeless(l: Link, n: u64) -> bool
    requires { InWords l × (slot_ok (link_in l).slot ≡ true) }
    ensures { result ≡ hopeless n (link_in l).slot }
{
    capacity(l.width) + (l.inner as u64) <= n
}

// One of the fields, by their links' words, in an object of `size` bytes. One smaller than what the narrowest field holds has none: its links are not looked at.
fn any_hopeless(links: &[u32], size: usize) -> bool
    requires { slots_ok (slots_of (links_of links.now)) ≡ true }
    ensures { result ≡ any_hopeless size (slots_of (links_of links.now)) }
{
    let n = size as u64;
    if n < capacity(NARROWEST) {
        return false;
    }
    for words in links.chunks_exact(LINK_WORDS) {
        if field_hopeless(link_at(words, 0), n) {
            return true;
        }
    }
    false
}

// One of the fields of the object that lies there, the links' records beginning at index `base`.
pub fn span_hopeless(records: &[u32], base: usize, s: Span) -> bool
    requires { (base ≡ links_at records.now) × Head (store_length records.now) records.now × Within records.now s × (slots_ok (slots_of (links_from records.now s.first s.last)) ≡ true) }
    ensures { result ≡ any_hopeless (s.to - s.from) (slots_of (links_from records.now s.first s.last)) }
{
    let begin = base + s.first * LINK_WORDS;
    let end = base + s.last * LINK_WORDS;
    any_hopeless(&records[begin..end], s.to - s.from)
}
