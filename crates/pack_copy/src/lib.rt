// The closed objects of a session as a graph in the work memory.
#![tactic(auto)]

ghost use Rattle.std.specs.Prelude.{◌+◌, ◌*◌, ◌<◌, length, get_or};
ghost use Rattle.work.specs.Packed.{packed_words, Halves};
ghost use Rattle.pack_copy.specs.Copy.{Copyable, Copied, NodesCopied, LinksCopied};

use layout::span::closed_span;
use layout::state::State;
use layout::words::LINKS_AT;
use work::{Areas, MOST_HALF, PACKED_WORDS};

// Each closed object's size, first link and link count.
fn copy_nodes(records: &[u32], s: State, a: Areas, work: &mut [u64])
    requires { Copyable records.now s a work.old }
    ensures { NodesCopied a s.closed records.now work.old work.new }
{
    for i in 0..s.closed {
        let o = closed_span(records, s.objects, i);
        work[i] = (o.to - o.from) as u64;
        work[a.firsts + i] = o.first as u64;
        work[a.counts + i] = (o.last - o.first) as u64;
    }
}

// Word i of the record store and the next, as halves of one.
fn pair(records: &[u32], i: usize) -> u64
    requires { i + 1 < length records.now }
    ensures { Halves (get_or records.now i 0) (get_or records.now (i + 1) 0) result }
{
    u64::from(records[i]) + u64::from(records[i + 1]) * MOST_HALF
}

// The links' records, all of them, behind the nodes: two words in one.
fn copy_links(records: &[u32], s: State, a: Areas, work: &mut [u64])
    requires { Copyable records.now s a work.old }
    ensures { LinksCopied a (s.links * packed_words) records.now work.old work.new }
{
    let base = LINKS_AT + s.objects * 2;
    for i in 0..s.links * PACKED_WORDS {
        work[a.links + i] = pair(records, base + i * 2);
    }
}

// The graph in the first words; what stood there plays no part.
pub fn copy_graph(records: &[u32], s: State, a: Areas, work: &mut [u64])
    requires { Copyable records.now s a work.old }
    ensures { Copied records.now s a work.old work.new }
{
    copy_nodes(records, s, a, work);
    copy_links(records, s, a, work);
}
