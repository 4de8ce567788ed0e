// What stands in the work memory beside the graph, brought up to date for a copy.
ghost use Rattle.order_copies.specs.Steps.{Noting, CopyNoted, CountingCopy, CopyCounted, Inserting, Inserted};

use order_graph::origin_at;
use order_survey::count_links;
use work::Areas;

// Node `nodes`, a copy of x, is in x's space, and a copy of x's object.
pub fn note_copy(work: &mut [u64], a: Areas, n: usize, nodes: usize, x: usize)
    requires { Noting a n nodes x work.old }
    ensures { CopyNoted a n nodes x work.old work.new }
{
    let origin = origin_at(work, a, n, x);
    work[a.origins + (nodes - n)] = origin as u64;
    work[a.spaces + nodes] = work[a.spaces + x];
}

// One field leads to node `nodes` instead of x, and the copy's own fields lead to its children.
pub fn count_copy(work: &mut [u64], a: Areas, nodes: usize, x: usize)
    requires { CountingCopy a nodes x work.old }
    ensures { CopyCounted a nodes x work.old work.new }
{
    work[a.incoming + x] -= 1;
    work[a.incoming + nodes] += 1;
    count_links(work, a, nodes + 1, nodes);
}

// y put in right behind x in the order of r nodes: those behind x move up by one, the last first, until x is met.
pub fn put_behind(work: &mut [u64], a: Areas, r: usize, x: usize, y: usize)
    requires { Inserting a r x y work.old }
    ensures { Inserted a r x y work.old work.new }
{
    let mut i = r;
    while work[a.order + i - 1] != x as u64 {
        work[a.order + i] = work[a.order + i - 1];
        i -= 1;
    }
    work[a.order + i] = y as u64;
}
