// The spaces of a graph in the work memory, over an order of its nodes that stands there: space 0 marked, the sets outside it joined, all of them
// numbered.
#![tactic(auto)]

ghost use Rattle.order_spaces.specs.Spaces.{Spacing, Spaced};

use number::number_sets;
use order_spaces_join::join_sets;
use order_spaces_near::mark_near;
use work::Areas;

mod number;

// The number of each node's space, over the order of r nodes from the root. The order stands, and all behind it but these numbers.
pub fn number_spaces(work: &mut [u64], a: Areas, n: usize, r: usize, root: usize)
    requires { Spacing a n r root work.old }
    ensures { Spaced a n r root work.old work.new }
{
    mark_near(work, a, n, r);
    join_sets(work, a, n, r);
    number_sets(work, a, n, r);
}
