// The graph grown by one node.
#![tactic(auto)]

ghost use Rattle.std.specs.Prelude.{◌≡◌, ◌≤◌, ◌<◌, length};
ghost use Rattle.work.specs.Areas.{Apart};
ghost use Rattle.order_grow.specs.Grow.{node_set, Appending, LinksCopied, NodeAppended, Leading, LinkLed};

use order_graph::{link_count, links_at, words_at};
use regions::copy;
use work::{Areas, MOST_HALF, PACKED_WORDS};

// The words of x's links copied behind those of all others.
fn copy_links(work: &mut [u64], a: Areas, nodes: usize, links: usize, x: usize)
    requires { Appending a nodes links x work.old }
    ensures { LinksCopied a links x work.old work.new }
{
    let count = link_count(work, a, nodes, x);
    let from = links_at(work, a, nodes, x);
    let to = a.links + links * PACKED_WORDS;
    copy(work, from, to, count * PACKED_WORDS);
}

// The three words of node i.
fn set_node(work: &mut [u64], a: Areas, i: usize, size: u64, first: usize, count: usize)
    requires { Apart a × (i < a.nodes) × (a.end ≤ length work.old) }
    ensures { work.new ≡ node_set a i size first count work.old }
{
    work[i] = size;
    work[a.firsts + i] = first as u64;
    work[a.counts + i] = count as u64;
}

// Node `nodes` becomes like x; the answer is how many links are taken then.
pub fn append_node(work: &mut [u64], a: Areas, nodes: usize, links: usize, x: usize) -> usize
    requires { Appending a nodes links x work.old }
    ensures { NodeAppended a nodes links x result work.old work.new }
{
    let count = link_count(work, a, nodes, x);
    copy_links(work, a, nodes, links, x);
    let size = work[x];
    set_node(work, a, nodes, size, links, count);
    links + count
}

// Link t of node p gets the child y. Its inner start, the other half of that word, stands.
pub fn lead_link(work: &mut [u64], a: Areas, n: usize, p: usize, t: usize, y: usize)
    requires { Leading a n p t y work.old }
    ensures { LinkLed a n p t y work.old work.new }
{
    let j = words_at(work, a, n, p, t) + 1;
    work[j] = work[j] % MOST_HALF + y as u64 * MOST_HALF;
}
