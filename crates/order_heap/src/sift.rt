// A heap with a hole, which moves down or up to where a number fits.
ghost use Rattle.std.specs.Prelude.{◌+◌, ◌<◌, length};
ghost use Rattle.order_heap.specs.Heap.{Heaped, Hollow, Filled, Moved, Lesser};

// The lesser of the children at c and c + 1. It has no branch, since no processor can foretell which is less.
fn lesser(h: &[u64], c: usize) -> usize
    requires { c + 1 < length h.now }
    ensures { Lesser c result h.now }
{
    c + usize::from(h[c + 1] < h[c])
}

// Fills the hole at a leaf with v: greater parents come down first.
pub fn sift_up(h: &mut [u64], leaf: usize, v: u64)
    requires { Hollow leaf h.old }
    ensures { Heaped h.new × Filled leaf v h.old h.new }
{
    let mut i = leaf;
    while 0 < i {
        let p = (i - 1) / 2;
        let x = h[p];
        if x <= v {
            h[i] = v;
            return;
        }
        h[i] = x;
        i = p;
    }
    h[i] = v;
}

// Moves the hole at the root down to a leaf, the lesser child up each time. The answer is that leaf.
fn sift_down(h: &mut [u64]) -> usize
    requires { (0 < length h.old) × Heaped h.old }
    ensures { Hollow result h.new × Moved 0 result h.old h.new }
{
    let n = h.len();
    let pairs = (n - 1) / 2;
    let mut i = 0;
    while i < pairs {
        let c = lesser(h, i * 2 + 1);
        h[i] = h[c];
        i = c;
    }
    if i < n / 2 {
        h[i] = h[n - 1];
        return n - 1;
    }
    i
}

// Puts v in the place of the least.
pub fn replace(h: &mut [u64], v: u64)
    requires { (0 < length h.old) × Heaped h.old }
    ensures { Heaped h.new × Filled 0 v h.old h.new }
{
    let leaf = sift_down(h);
    sift_up(h, leaf, v);
}
