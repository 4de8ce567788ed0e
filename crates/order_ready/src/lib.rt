// The ready nodes in the heap of the work memory.
#![tactic(auto)]

ghost use Rattle.std.specs.Prelude.{◌+◌, ◌<◌};
ghost use Rattle.order_ready.specs.Ready.{InHeap, TookLeast, Pushing, PushedAll};

use order_heap::{arrival_of, pop, push, stamp_of};
use work::Areas;

// Takes the ready node of least key out of the heap of k, the longest ready of equal ones. m have become ready.
pub fn take_least(work: &mut [u64], a: Areas, n: usize, m: usize, k: usize) -> usize
    requires { (0 < k) × InHeap a n m k work.old }
    ensures { TookLeast a n m k result work.old work.new }
{
    let stamp = pop(&mut work[a.heap..a.order], k);
    let at = a.arrived + arrival_of(stamp);
    work[at] as usize
}

// The node that became ready after m others goes into the heap of k.
fn push_arrival(work: &mut [u64], a: Areas, n: usize, m: usize, k: usize)
    requires { Pushing a n m (m + 1) k work.old }
    ensures { PushedAll a m (m + 1) k work.old work.new }
{
    let j = a.arrived + m;
    let i = work[j] as usize;
    let at = a.keys + i;
    let stamp = stamp_of(work[at], m);
    push(&mut work[a.heap..a.order], k, stamp);
}

// Those that became ready after `from` others, up to `to`, go into the heap of k.
pub fn push_arrivals(work: &mut [u64], a: Areas, n: usize, from: usize, to: usize, k: usize)
    requires { Pushing a n from to k work.old }
    ensures { PushedAll a from to k work.old work.new }
{
    for j in from..to {
        push_arrival(work, a, n, j, k + (j - from));
    }
}
