// One order of the nodes to place from a root, tried in lent work memory: by its keys, placed, and the first link that does not fit.
//
// It knows nothing of sessions: the graph lies in front, and the survey of the root is done.
#![tactic(auto)]

ghost use Rattle.order.specs.Try.{Keying, Keyed, Trying, Ordered, Tried};
ghost use Rattle.order.specs.declared.By.TheVariants as By;

use answer::Overflow;
use order_fit::{look_all, set_places};
use order_place::{place_by_keys, place_in_turn};
use regions::copy;
use work::Areas;

// What the number of a space weighs beside a distance.
const SPACE_WEIGHT: u64 = 4294967296;

// By what the next of the ready nodes is chosen: the longest ready, the nearest, or the nearest of the lowest space.
#[derive(Clone, Copy)]
pub enum By {
    Readiness,
    Distance,
    Space,
}

#[derive(Clone, Copy)]
pub struct Try {
    pub placed: usize,
    pub look: Result<(), Overflow>,
}

// The keys of the order by spaces.
fn weigh_spaces(work: &mut [u64], a: Areas)
    requires { Keying a work.old }
    ensures { Keyed a By.Space work.old work.new }
{
    for i in 0..a.nodes {
        work[a.keys + i] = work[a.distances + i] + work[a.spaces + i] * SPACE_WEIGHT;
    }
}

// Places the nodes in the order chosen; the answer is how many.
fn place(work: &mut [u64], a: Areas, n: usize, root: usize, by: By) -> usize
    requires { Trying a n root by work.old }
    ensures { Ordered a n root by result work.old work.new }
{
    match by {
        By::Readiness => return place_in_turn(work, a, n, root),
        By::Distance => copy(work, a.distances, a.keys, a.nodes),
        By::Space => weigh_spaces(work, a),
    }
    place_by_keys(work, a, n, root)
}

pub fn try_order(work: &mut [u64], a: Areas, n: usize, root: usize, by: By) -> Try
    requires { Trying a n root by work.old }
    ensures { Tried a n root by result.placed result.look work.old work.new }
{
    let placed = place(work, a, n, root, by);
    set_places(work, a, n, placed);
    let look = look_all(work, a, n, placed);
    Try { placed, look }
}
