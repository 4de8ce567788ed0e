// The link of a node whose field is at a place.
ghost use Rattle.order_copies.specs.Copy.{AtField};
ghost use Rattle.order_copies.specs.Steps.{LinkFound};

use order_graph::field_at;
use work::Areas;

// The number of the first link of node p whose field is there. There is one, so that no end is looked for.
pub fn find_link(work: &[u64], a: Areas, nodes: usize, p: usize, at: usize) -> usize
    requires { AtField a nodes p at work.now }
    ensures { LinkFound a nodes p at result work.now }
{
    let mut t = 0;
    while field_at(work, a, nodes, p, t).at != at {
        t += 1;
    }
    t
}
