// The order by spaces, tried again with one copy more as long as some link does not fit in it, its child has another link, and copies are left. It knows nothing of
// sessions: the graph lies in front, and its first n nodes are the objects.
#![tactic(auto)]

ghost use Rattle.std.specs.Prelude.{◌≡◌};
ghost use Rattle.order_graph.specs.Graph.{graph_on, AtNode, Owned};
ghost use Rattle.order_copies.specs.Copy.{AtField};
ghost use Rattle.order_resolve.specs.Resolve.{told_in, can_copy, Arranging, Distances, Spaces, Arranges, by_spaces};

use answer::Overflow;
use order::{By, Try, try_order};
use order_copies::{copy_child, is_shared};
use order_graph::origin_of;
use order_survey::find_distances;
use work::Areas;

// The objects' graph, of so many nodes, whose links are the first ones: what is to be placed from its root, how many bytes long its table is, and how many copies may be made.
#[derive(Clone, Copy)]
pub struct Objects {
    pub nodes: usize,
    pub links: usize,
    pub root: usize,
    pub size: u64,
    pub copies: usize,
}

// How many nodes the graph has with its copies, how long its table is, how many nodes are placed, and the link that does not fit, told of the object that has it.
#[derive(Clone, Copy)]
pub struct Arranged {
    pub nodes: usize,
    pub length: u64,
    pub placed: usize,
    pub look: Result<(), Overflow>,
}

// A link of one of the nodes as it is told: of the object that has it, of which there are n.
fn told(work: &[u64], a: Areas, n: usize, nodes: usize, u: Overflow) -> Overflow
    requires { AtNode a nodes u.parent.0 work.now × Owned a n nodes work.now }
    ensures { result ≡ told_in a n work.now u }
{
    Overflow {
        parent: origin_of(work, a, n, nodes, u.parent.0 as usize),
        ..u
    }
}

// Whether the reported link can be given a copy of its child.
fn can_copy(work: &[u64], a: Areas, nodes: usize, u: Overflow, left: usize) -> bool
    requires { AtField a nodes u.parent.0 u.field work.now }
    ensures { result ≡ can_copy a nodes work.now u left }
{
    left != 0 && is_shared(work, a, nodes, u.parent.0 as usize, u.field)
}

pub fn resolve(work: &mut [u64], a: Areas, o: Objects) -> Arranged
    requires { Arranging a o work.old × Distances a o.nodes o.root work.old × Spaces a o.nodes o.root work.old }
    ensures { Arranges a o.nodes (by_spaces o.copies (graph_on a o.nodes work.old) o.nodes o.root) result work.old work.new }
{
    let mut nodes = o.nodes;
    let mut links = o.links;
    let mut length = o.size;
    let mut left = o.copies;
    loop {
        let Try { placed, look } = try_order(work, a, nodes, o.root, By::Space);
        let Err(u) = look else {
            return Arranged {
                nodes,
                length,
                placed,
                look,
            };
        };
        if !can_copy(work, a, nodes, u, left) {
            let look = Err(told(work, a, o.nodes, nodes, u));
            return Arranged {
                nodes,
                length,
                placed,
                look,
            };
        }
        let p = u.parent.0 as usize;
        let c = copy_child(work, a, o.nodes, nodes, links, placed, p, u.field);
        nodes += 1;
        links = c.links;
        length += c.size;
        left -= 1;
        find_distances(work, a, nodes, o.root, placed + 1);
    }
}
