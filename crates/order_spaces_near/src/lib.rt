// Space 0: each node's position in the order, and position 0, the root's, for all that narrow links alone lead to from the root.
#![tactic(auto)]

ghost use Rattle.std.specs.Prelude.{◌≡◌, ◌+◌, get_or};
ghost use Rattle.order_graph.specs.Graph.{AtNode};
ghost use Rattle.order_spaces_near.specs.Near.{Ordered, SpotsSet, SpottedAlong, ClearedLinks, ClearedAlong, Marked};

use model_orders::WIDEST;
use order_graph::{field_from, link_count, links_at};
use regions::fill;
use work::Areas;

// Stores the position of each node of the order.
fn spot_along(work: &mut [u64], a: Areas, n: usize, r: usize)
    requires { Ordered a n r work.old }
    ensures { SpottedAlong a r work.old work.new }
{
    for t in 0..r {
        let i = work[a.order + t] as usize;
        work[a.spots + i] = t as u64;
    }
}

// Stores the position of each node of the order, and 0 for every other node.
fn set_spots(work: &mut [u64], a: Areas, n: usize, r: usize)
    requires { Ordered a n r work.old }
    ensures { SpotsSet a r work.old work.new }
{
    fill(work, a.spots, a.nodes, 0);
    spot_along(work, a, n, r);
}

// The children of node i, which is at position 0, by narrow links get position 0. For a link that is not narrow node i gets it again: which links are narrow no processor can
// foretell.
fn clear_links(work: &mut [u64], a: Areas, n: usize, i: usize)
    requires { AtNode a n i work.old × (get_or work.old (a.spots + i) 0 ≡ 0) }
    ensures { ClearedLinks a n i work.old work.new }
{
    let count = link_count(work, a, n, i);
    let from = links_at(work, a, n, i);
    for t in 0..count {
        let f = field_from(work, a, n, i, t, from);
        let x = if f.width == WIDEST { i } else { f.child };
        work[a.spots + x] = 0;
    }
}

// Along the order, with every node at position 0, its children by narrow links.
fn clear_along(work: &mut [u64], a: Areas, n: usize, r: usize)
    requires { Ordered a n r work.old }
    ensures { ClearedAlong a n r work.old work.new }
{
    for t in 0..r {
        let i = work[a.order + t] as usize;
        if work[a.spots + i] == 0 {
            clear_links(work, a, n, i);
        }
    }
}

// The positions, with space 0 at position 0.
pub fn mark_near(work: &mut [u64], a: Areas, n: usize, r: usize)
    requires { Ordered a n r work.old }
    ensures { Marked a n r work.old work.new }
{
    set_spots(work, a, n, r);
    clear_along(work, a, n, r);
}
