// Parts of one lent slice at fixed offsets.
#![tactic(auto)]

ghost use Rattle.std.specs.Prelude.{◌+◌, ◌≤◌, length};
ghost use Rattle.regions.specs.Region.{Filling, Away, Copying};

// Stores v into the n words from a on.
pub fn fill(work: &mut [u64], a: usize, n: usize, v: u64)
    requires { a + n ≤ length work.old }
    ensures { Filling a n v n work.old work.new }
{
    work[a..a + n].fill(v);
}

// Copies the n words from one place on to another place and on, apart from them.
pub fn copy(work: &mut [u64], from: usize, to: usize, n: usize)
    requires { Away from to n × (from + n ≤ length work.old) × (to + n ≤ length work.old) }
    ensures { Copying from to n n work.old work.new }
{
    work.copy_within(from..from + n, to);
}
