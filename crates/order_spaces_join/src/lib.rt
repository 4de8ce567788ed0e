// The sets outside space 0, by bosses of positions: at first each position is a set of its own, and all of space 0 is one.
#![tactic(auto)]

ghost use Rattle.std.specs.Prelude.{◌+◌, ◌≤◌, ◌<◌, length};
ghost use Rattle.regions.specs.Region.{region};
ghost use Rattle.order_merge.specs.Bosses.{Falls};
ghost use Rattle.order_spaces_near.specs.Near.{Ordered};
ghost use Rattle.order_spaces_join.specs.Join.{Joining, Tying, BossesSet, JoinedAt, TiedLinks, TiedAlong, SetsJoined};

use model_orders::WIDEST;
use order_graph::run::run_from;
use order_graph::{link_count, links_at};
use order_merge::join;
use work::Areas;

// The first boss of each position: itself, or in space 0 position 0.
fn set_bosses(work: &mut [u64], a: Areas, n: usize, r: usize)
    requires { Ordered a n r work.old }
    ensures { BossesSet a r work.old work.new }
{
    for t in 0..r {
        let i = work[a.order + t] as usize;
        work[a.bosses + t] = work[a.spots + i];
    }
}

// Joins the sets of positions x and y, whose bosses are the r words from b on.
fn join_at(work: &mut [u64], b: usize, r: usize, x: usize, y: usize)
    requires { (x < r) × (y < r) × (b + r ≤ length work.old) × Falls (region b r work.old) }
    ensures { JoinedAt b r x y work.old work.new }
{
    join(&mut work[b..b + r], x, y);
}

// Joins node i, at position x, with its children by narrow links that are outside space 0, and once with a child that several links in a row lead to.
fn join_links(work: &mut [u64], a: Areas, n: usize, r: usize, i: usize, x: usize)
    requires { (i < n) × (x < r) × Tying a n r work.old }
    ensures { TiedLinks a n r i x work.old work.new }
{
    let count = link_count(work, a, n, i);
    let from = links_at(work, a, n, i);
    let mut t = 0;
    while t < count {
        let run = run_from(work, a, n, i, t, from);
        t = run.end;
        if run.width == WIDEST {
            continue;
        }
        let y = work[a.spots + run.child] as usize;
        if y == 0 {
            continue;
        }
        join_at(work, a.bosses, r, x, y);
    }
}

// Joins every node outside space 0 with its children by narrow links that are outside too.
fn join_along(work: &mut [u64], a: Areas, n: usize, r: usize)
    requires { Tying a n r work.old }
    ensures { TiedAlong a n r work.old work.new }
{
    for t in 0..r {
        let i = work[a.order + t] as usize;
        let x = work[a.spots + i] as usize;
        if x != 0 {
            join_links(work, a, n, r, i, x);
        }
    }
}

// The sets of positions that narrow links join.
pub fn join_sets(work: &mut [u64], a: Areas, n: usize, r: usize)
    requires { Joining a n r work.old }
    ensures { SetsJoined a n r work.old work.new }
{
    set_bosses(work, a, n, r);
    join_along(work, a, n, r);
}
