// The links of a placed node taken off: who becomes ready by it, and when. Those that have become ready stand one behind the other in an area of the caller's choice.
#![tactic(auto)]

ghost use Rattle.std.specs.Prelude.{◌≤◌, ◌<◌};
ghost use Rattle.order_release.specs.Release.{released, Arrives, Releasing, Live, ReleasedAll};

use order_graph::{field_from, link_count, links_at};
use work::Areas;

// One incoming link of c less; the answer is how many have arrived then. c is stored behind those in any case, and counted if it is ready: no processor can foretell which
// nodes are.
fn release(work: &mut [u64], a: Areas, at: usize, c: usize, m: usize) -> usize
    requires { Releasing a at m c work.old }
    ensures { (m ≤ result) × (result ≤ a.nodes) × Arrives a at m result (released c) work.old work.new }
{
    let j = a.waiting + c;
    let v = work[j];
    if v == 0 {
        return m;
    }
    work[j] = v - 1;
    work[at + m] = c as u64;
    m + usize::from(v == 1)
}

// Every link of node i, which is placed; the answer is how many have arrived then.
pub fn release_all(work: &mut [u64], a: Areas, at: usize, n: usize, i: usize, m: usize) -> usize
    requires { (i < n) × Live a at n m work.old }
    ensures { ReleasedAll a at n i m result work.old work.new }
{
    let count = link_count(work, a, n, i);
    let from = links_at(work, a, n, i);
    let mut arrived = m;
    for t in 0..count {
        let f = field_from(work, a, n, i, t, from);
        arrived = release(work, a, at, f.child, arrived);
    }
    arrived
}
