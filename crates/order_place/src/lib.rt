// The order of placing: as the nodes become ready, or by keys, where a heap has the next one.
#![tactic(auto)]

ghost use Rattle.work.specs.Views.{key_in};
ghost use Rattle.order_release.specs.Release.{Arriving};
ghost use Rattle.order_ready.specs.Ready.{SmallKeys};
ghost use Rattle.order_place.specs.Place.{Starting, Begun, RootReady, RootInHeap, OrderFound, same_key};

use order_ready::{push_arrivals, take_least};
use order_release::release_all;
use regions::copy;
use work::Areas;

// Each node waits for its incoming fields, and the root alone has become ready.
fn begin(work: &mut [u64], a: Areas, at: usize, n: usize, root: usize)
    requires { Starting a n root work.old × Arriving a at }
    ensures { Begun a at root work.old work.new }
{
    copy(work, a.incoming, a.waiting, a.nodes);
    work[at] = root as u64;
}

// Places every node as it becomes ready, from the root on; the answer is how many. The order itself is the queue of the ready ones.
fn place_queue(work: &mut [u64], a: Areas, n: usize, root: usize) -> usize
    requires { RootReady a a.order n root work.old }
    ensures { OrderFound a n root same_key result work.old work.new }
{
    let mut m = 1;
    let mut q = 0;
    // m grows on the way, so that the range is not known before
    while q < m {
        let i = work[a.order + q] as usize;
        m = release_all(work, a, a.order, n, i, m);
        q += 1;
    }
    q
}

// The order of placing from the root where all keys are alike; the answer is how many are placed.
pub fn place_in_turn(work: &mut [u64], a: Areas, n: usize, root: usize) -> usize
    requires { Starting a n root work.old }
    ensures { OrderFound a n root same_key result work.old work.new }
{
    begin(work, a, a.order, n, root);
    place_queue(work, a, n, root)
}

// Places the ready node of least key until none is left, from the root on, which is in the heap; the answer is how many.
fn place_heap(work: &mut [u64], a: Areas, n: usize, root: usize) -> usize
    requires { RootInHeap a n root work.old }
    ensures { OrderFound a n root (key_in a work.old) result work.old work.new }
{
    let mut m = 1;
    let mut q = 0;
    while q < m {
        let k = m - q;
        let i = take_least(work, a, n, m, k);
        work[a.order + q] = i as u64;
        let more = release_all(work, a, a.arrived, n, i, m);
        push_arrivals(work, a, n, m, more, k - 1);
        m = more;
        q += 1;
    }
    q
}

// The order of placing from the root by the keys; the answer is how many are placed.
pub fn place_by_keys(work: &mut [u64], a: Areas, n: usize, root: usize) -> usize
    requires { Starting a n root work.old × SmallKeys a work.old }
    ensures { OrderFound a n root (key_in a work.old) result work.old work.new }
{
    begin(work, a, a.arrived, n, root);
    push_arrivals(work, a, n, 0, 1, 0);
    place_heap(work, a, n, root)
}
