// The sets numbered from 0 by their earliest positions.
ghost use Rattle.std.specs.Prelude.{◌≡◌, ◌<◌};
ghost use Rattle.work.specs.Views.{order_in, bosses_in, spaces_in};
ghost use Rattle.order_spaces.specs.Spaces.{number_by, Bossed, Numbering, NumberedAlong};

use regions::fill;
use work::Areas;

// The number of position t: the next one if it is its own boss, else its boss's, which stands before it.
fn number_of(work: &[u64], a: Areas, n: usize, r: usize, t: usize, next: u64) -> u64
    requires { (t < r) × Bossed a n r work.now }
    ensures { result ≡ number_by (bosses_in a r work.now) (order_in a r work.now) (spaces_in a work.now) t next }
{
    let b = work[a.bosses + t] as usize;
    if b == t {
        return next;
    }
    let i = work[a.order + b] as usize;
    work[a.spaces + i]
}

// Numbers the sets along the order, and stores each node's number.
fn number_along(work: &mut [u64], a: Areas, n: usize, r: usize)
    requires { Numbering a n r work.old }
    ensures { NumberedAlong a r work.old work.new }
{
    let mut next = 0;
    for t in 0..r {
        let i = work[a.order + t] as usize;
        let v = number_of(work, a, n, r, t, next);
        work[a.spaces + i] = v;
        next = next.max(v + 1);
    }
}

// Each node's number, and 0 for every node that is not of the order.
pub fn number_sets(work: &mut [u64], a: Areas, n: usize, r: usize)
    requires { Bossed a n r work.old }
    ensures { NumberedAlong a r work.old work.new }
{
    fill(work, a.spaces, a.nodes, 0);
    number_along(work, a, n, r);
}
