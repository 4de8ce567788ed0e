// Sets of positions in a lent slice: each position's boss stands at or below it, and the earliest of a set, its root, is its own boss.
#![tactic(auto)]

ghost use Rattle.std.specs.Prelude.{◌<◌, length};
ghost use Rattle.order_merge.specs.Bosses.{Falls, Finds, Joins};

// The root of position i. On the way every second boss is passed over, so that the next way is half as long.
fn find(boss: &mut [u64], i: usize) -> usize
    requires { (i < length boss.old) × Falls boss.old }
    ensures { Finds i result boss.old boss.new }
{
    let mut j = i;
    let mut up = boss[j] as usize;
    while up < j {
        let next = boss[up];
        boss[j] = next;
        j = next as usize;
        up = boss[j] as usize;
    }
    j
}

// The sets of positions a and b become one, whose root is the lower of their roots.
pub fn join(boss: &mut [u64], a: usize, b: usize)
    requires { (a < length boss.old) × (b < length boss.old) × Falls boss.old }
    ensures { Joins a b boss.old boss.new }
{
    let x = find(boss, a);
    let y = find(boss, b);
    boss[x.max(y)] = x.min(y) as u64;
}
