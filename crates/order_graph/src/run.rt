// Links in a row that lead to one child.
ghost use Rattle.std.specs.Prelude.{take};
ghost use Rattle.order_graph.specs.Graph.{FromLink, RunFrom};

use crate::{field_from, link_count};
use work::Areas;

// Links in a row to one child, up to number `end`, and the width of the narrowest.
#[derive(Clone, Copy)]
pub struct Run {
    pub end: usize,
    pub child: usize,
    pub width: usize,
}

// The links of node i from link t on, as long as they lead to one child. The words of the node's links begin at `from`.
pub fn run_from(work: &[u64], a: Areas, n: usize, i: usize, t: usize, from: usize) -> Run
    requires { FromLink a n i t from work.now }
    ensures { RunFrom a n (take a.keys work.now) i t result.end result.child result.width }
{
    let count = link_count(work, a, n, i);
    let first = field_from(work, a, n, i, t, from);
    let child = first.child;
    let mut width = first.width;
    for end in t + 1..count {
        let f = field_from(work, a, n, i, end, from);
        if f.child != child {
            return Run { end, child, width };
        }
        width = width.min(f.width);
    }
    Run {
        end: count,
        child,
        width,
    }
}
