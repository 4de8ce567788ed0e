// The orders tried in turn until one fits: the kahn order, the shortest-distance order, the order by spaces; and copies made while the last one does not
// fit. It knows nothing of sessions: the graph lies in front, its first n nodes are the objects, and the survey of the root is done.
#![tactic(auto)]

ghost use Rattle.std.specs.Prelude.{◌≡◌};
ghost use Rattle.model_orders.specs.Copies.{arranged};
ghost use Rattle.order_graph.specs.Graph.{graph_on};
ghost use Rattle.order_resolve.specs.Resolve.{Arranging, Distances, Arranges};
ghost use Rattle.order_arrange.specs.Arrange.{by_later};

use order::{By, Try, try_order};
use order_resolve::{Arranged, Objects, resolve};
use order_spaces::number_spaces;
use order_survey::find_distances;
use work::Areas;

// What an order without copies comes to.
fn uncopied(o: Objects, t: Try) -> Arranged
    ensures { result ≡ record { nodes = o.nodes; length = o.size; placed = t.placed; look = t.look } }
{
    Arranged {
        nodes: o.nodes,
        length: o.size,
        placed: t.placed,
        look: t.look,
    }
}

// By the shortest-distance order, or where some offset does not fit in it by spaces and with copies. The distances are known.
fn arrange_later(work: &mut [u64], a: Areas, o: Objects) -> Arranged
    requires { Arranging a o work.old × Distances a o.nodes o.root work.old }
    ensures { Arranges a o.nodes (by_later o.copies (graph_on a o.nodes work.old) o.nodes o.root) result work.old work.new }
{
    let tried = try_order(work, a, o.nodes, o.root, By::Distance);
    if tried.look.is_ok() {
        return uncopied(o, tried);
    }
    number_spaces(work, a, o.nodes, tried.placed, o.root);
    resolve(work, a, o)
}

// By the kahn order, or where some offset does not fit in it by a later one. Distances are found along the kahn order, and only then.
pub fn arrange(work: &mut [u64], a: Areas, o: Objects) -> Arranged
    requires { Arranging a o work.old }
    ensures { Arranges a o.nodes (arranged o.copies (graph_on a o.nodes work.old) o.nodes o.root) result work.old work.new }
{
    let tried = try_order(work, a, o.nodes, o.root, By::Readiness);
    if tried.look.is_ok() {
        return uncopied(o, tried);
    }
    find_distances(work, a, o.nodes, o.root, tried.placed);
    arrange_later(work, a, o)
}
