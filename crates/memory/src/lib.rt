// Parts of lent slices: cleared, and moved up over themselves.
#![tactic(auto)]

ghost use Rattle.std.specs.Prelude.{◌≡◌, ◌+◌, ◌-◌, ◌≤◌, ◌++◌, length, take, drop, replicate};

// Writes `zero` over the elements from `from` up to `end`.
pub fn clear<T: Copy>(s: &mut [T], from: usize, end: usize, zero: T)
    requires { (from ≤ end) × (end ≤ length s.old) }
    ensures { s.new ≡ take from s.old ++ (replicate (end - from) zero ++ drop end s.old) }
{
    for x in s[from..end].iter_mut() {
        *x = zero;
    }
}

// Copies the n elements from `from` on up to `to`, from the last one down: the two runs may overlap.
pub fn move_up<T: Copy>(s: &mut [T], from: usize, to: usize, n: usize)
    requires { (from ≤ to) × (to + n ≤ length s.old) }
    ensures { s.new ≡ take to s.old ++ (take n (drop from s.old) ++ drop (to + n) s.old) }
{
    for i in (0..n).rev() {
        s[to + i] = s[from + i];
    }
}
