// A binary min-heap of numbers in the first words of a lent slice, whose count the caller keeps, and the numbers that a heap of ready
// nodes holds.
#![tactic(auto)]

ghost use Rattle.std.specs.Prelude.{◌≡◌, ◌^◌, ◌≤◌, ◌<◌, length, take};
ghost use Rattle.order_heap.specs.Heap.{Heaped, Pushed, Popped};
ghost use Rattle.order_heap.specs.Stamps.{most_arrivals, stamp, arrival_of};

use sift::{replace, sift_up};

mod sift;

// How many nodes may become ready while an order is found. A power of two, so that a stamp costs no division.
pub const MOST_ARRIVALS: u64 = 32768;

// Adds v to the k numbers. Words from k + 1 on stay.
pub fn push(h: &mut [u64], k: usize, v: u64)
    requires { (k < length h.old) × Heaped (take k h.old) }
    ensures { Pushed k v h.old h.new }
{
    sift_up(&mut h[..k + 1], k, v);
}

// Takes the least of the k numbers out. Words from k - 1 on stay.
pub fn pop(h: &mut [u64], k: usize) -> u64
    requires { (0 < k) × (k ≤ length h.old) × Heaped (take k h.old) }
    ensures { Popped k result h.old h.new }
{
    let n = k - 1;
    let least = h[0];
    if n == 0 {
        return least;
    }
    let last = h[n];
    replace(&mut h[..n], last);
    least
}

// What is pushed for the node of a key that becomes ready after `arrival` others.
pub fn stamp_of(key: u64, arrival: usize) -> u64
    requires { (key < 2 ^ 49) × (arrival < most_arrivals) }
    ensures { result ≡ stamp key arrival }
{
    key * MOST_ARRIVALS + arrival as u64
}

// The arrival that stamp t is for.
pub fn arrival_of(t: u64) -> usize
    ensures { (result < most_arrivals) × (result ≡ arrival_of t) }
{
    (t % MOST_ARRIVALS) as usize
}
