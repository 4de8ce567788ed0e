// Reading the graph in the first words of the work memory.
#![tactic(auto)]

ghost use Rattle.std.specs.Prelude.{◌≡◌, ◌+◌, ◌*◌, ◌≤◌, ◌<◌, take};
ghost use Rattle.work.specs.Packed.{packed_words};
ghost use Rattle.work.specs.Views.{origin_in};
ghost use Rattle.order_graph.specs.Graph.{AtNode, AtLink, FromLink, FieldOf, EdgeOf, Owned, HasOrigin, link_by, links_at, link_count, object_of, most_nodes};

use answer::ObjectId;
use big_endian::capacity;
use work::{Areas, MOST_HALF, PACKED_WORDS};

pub mod run;

// A link: its field's place and width, and the child.
#[derive(Clone, Copy)]
pub struct Field {
    pub at: usize,
    pub width: usize,
    pub inner: usize,
    pub child: usize,
}

// A link's child and weight.
#[derive(Clone, Copy)]
pub struct Edge {
    pub child: usize,
    pub weight: u64,
}

// The id of object i.
pub fn object_of(i: usize) -> ObjectId
    requires { i < most_nodes }
    ensures { result ≡ object_of i }
{
    ObjectId(i as u32)
}

// The number of the object of node i, where the first n nodes are the objects: its own, or that of the object it is a copy of.
pub fn origin_at(work: &[u64], a: Areas, n: usize, i: usize) -> usize
    requires { HasOrigin a n i work.now }
    ensures { result ≡ origin_in a n work.now i }
{
    if i < n {
        return i;
    }
    let at = a.origins + (i - n);
    work[at] as usize
}

// The id of that object.
pub fn origin_of(work: &[u64], a: Areas, n: usize, nodes: usize, i: usize) -> ObjectId
    requires { AtNode a nodes i work.now × Owned a n nodes work.now }
    ensures { result ≡ object_of (origin_in a n work.now i) }
{
    let origin = origin_at(work, a, n, i);
    object_of(origin)
}

// How many links node i has.
pub fn link_count(work: &[u64], a: Areas, n: usize, i: usize) -> usize
    requires { AtNode a n i work.now }
    ensures { result ≡ link_count a (take a.keys work.now) i }
{
    let at = a.counts + i;
    work[at] as usize
}

// Where the words of node i's links begin.
pub fn links_at(work: &[u64], a: Areas, n: usize, i: usize) -> usize
    requires { AtNode a n i work.now }
    ensures { result ≡ links_at a (take a.keys work.now) i }
{
    let at = a.firsts + i;
    let first = work[at] as usize;
    a.links + first * PACKED_WORDS
}

// Where the words of link t of node i begin.
pub fn words_at(work: &[u64], a: Areas, n: usize, i: usize, t: usize) -> usize
    requires { AtLink a n i t work.now }
    ensures { (result + packed_words ≤ a.keys) × (result ≡ links_at a (take a.keys work.now) i + t * packed_words) }
{
    links_at(work, a, n, i) + t * PACKED_WORDS
}

// Link t of node i.
pub fn field_at(work: &[u64], a: Areas, n: usize, i: usize, t: usize) -> Field
    requires { AtLink a n i t work.now }
    ensures { FieldOf a n (take a.keys work.now) i t (link_by result) }
{
    field_from(work, a, n, i, t, links_at(work, a, n, i))
}

// Link t of node i, whose links' words begin at `from`: a loop that writes reads that once.
pub fn field_from(work: &[u64], a: Areas, n: usize, i: usize, t: usize, from: usize) -> Field
    requires { FromLink a n i t from work.now }
    ensures { FieldOf a n (take a.keys work.now) i t (link_by result) }
{
    let j = from + t * PACKED_WORDS;
    let slot = work[j];
    let target = work[j + 1];
    Field {
        at: (slot % MOST_HALF) as usize,
        width: (slot / MOST_HALF) as usize,
        inner: (target % MOST_HALF) as usize,
        child: (target / MOST_HALF) as usize,
    }
}

// The child and the weight of link t of node i, likewise.
pub fn edge_from(work: &[u64], a: Areas, n: usize, i: usize, t: usize, from: usize) -> Edge
    requires { FromLink a n i t from work.now }
    ensures { EdgeOf a n (take a.keys work.now) i t result.child result.weight }
{
    let f = field_from(work, a, n, i, t, from);
    let child = f.child;
    Edge {
        child,
        weight: work[child] + capacity(f.width),
    }
}
