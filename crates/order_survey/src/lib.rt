// What every order of a root starts from, found once: the line of the nodes that the root reaches, parents before their children; how many fields
// of those lead to each node; and the length of the table. Then the distances, for the orders that go by them.
#![tactic(auto)]

ghost use Rattle.std.specs.Prelude.{◌≡◌, ◌+◌, ◌≤◌, ◌<◌};
ghost use Rattle.lists.specs.Lists.{total};
ghost use Rattle.regions.specs.Region.{ceiling};
ghost use Rattle.model_orders.specs.Graph.{Acyclic};
ghost use Rattle.work.specs.Views.{line_in, distances_in};
ghost use Rattle.order_graph.specs.Graph.{graph_on, AtNode};
ghost use Rattle.order_survey.specs.Survey.{unlined, lined_of, far_away};
ghost use Rattle.order_survey.specs.Survey.{Counting, CountedAll, Lining, LineFound, Along, LoweredAlong, DistancesSet, Measured, Lines, DistancesFound};

use lower::{ByRuns, LinkByLink, Lower, runs_are_common};
use order_graph::{field_from, link_count, links_at};
use regions::fill;
use work::Areas;

mod lower;

// Beyond any distance.
const FAR_AWAY: u64 = 281474976710656;

// The fields of node i, which joined the line, counted.
pub fn count_links(work: &mut [u64], a: Areas, n: usize, i: usize)
    requires { Counting a n i work.old }
    ensures { CountedAll a n i work.old work.new }
{
    let count = link_count(work, a, n, i);
    let from = links_at(work, a, n, i);
    for t in 0..count {
        let f = field_from(work, a, n, i, t, from);
        work[a.incoming + f.child] += 1;
    }
}

// The nodes that the root reaches, from the root down; the answer is how many. The root counts as led to.
fn find_line(work: &mut [u64], a: Areas, n: usize, root: usize) -> usize
    requires { AtNode a n root work.old }
    ensures { LineFound a n root result (unlined a.nodes root) work.old work.new }
{
    fill(work, a.incoming, a.nodes, 0);
    work[a.incoming + root] = 1;
    line_down(work, a, n, root)
}

// The nodes from the root down that a field leads to, by the counts that stand there; the answer is how many.
fn line_down(work: &mut [u64], a: Areas, n: usize, root: usize) -> usize
    requires { Lining a n root work.old }
    ensures { LineFound a n root result (lined_of a 0 work.old) work.old work.new }
{
    let mut r = 0;
    for i in (0..root + 1).rev() {
        if work[a.incoming + i] != 0 {
            work[a.line + r] = i as u64;
            count_links(work, a, n, i);
            r += 1;
        }
    }
    r
}

// The distances from the root, along the r nodes of the line.
fn set_distances(work: &mut [u64], a: Areas, n: usize, root: usize, r: usize)
    requires { (root < n) × Along a n r work.old }
    ensures { DistancesSet a n root r work.old work.new }
{
    let runs = runs_are_common(work, a, n, r);
    fill(work, a.distances, a.nodes, FAR_AWAY);
    work[a.distances + root] = 0;
    if runs {
        lower_along::<ByRuns>(work, a, n, r);
    } else {
        lower_along::<LinkByLink>(work, a, n, r);
    }
}

// Each node of the line in turn lowers its children's distances.
fn lower_along<L: Lower>(work: &mut [u64], a: Areas, n: usize, r: usize)
    requires { Along a n r work.old × (ceiling (distances_in a work.old) ≤ far_away + 1) }
    ensures { LoweredAlong a n r work.old work.new }
{
    for t in 0..r {
        let i = work[a.line + t] as usize;
        let d = work[a.distances + i];
        L::lower_links(work, a, n, i, d);
    }
}

// The sum of the sizes of the r nodes in the line.
fn line_length(work: &[u64], a: Areas, n: usize, r: usize) -> u64
    requires { Along a n r work.now }
    ensures { result ≡ total (graph_on a n work.now).size (line_in a r work.now) }
{
    let mut sum = 0;
    for i in &work[a.line..a.line + r] {
        sum += work[*i as usize];
    }
    sum
}

// Line and incoming fields from the root; the answer is the length of a table without copies.
pub fn survey(work: &mut [u64], a: Areas, n: usize, root: usize) -> u64
    requires { AtNode a n root work.old × Acyclic (graph_on a n work.old) }
    ensures { Measured a n root result work.old work.new }
{
    let r = find_line(work, a, n, root);
    work[a.incoming + root] = 0;
    line_length(work, a, n, r)
}

// The distances from the root, along the r nodes of a line.
pub fn find_distances(work: &mut [u64], a: Areas, n: usize, root: usize, r: usize)
    requires { Lines a n root r work.old }
    ensures { DistancesFound a n root r work.old work.new }
{
    set_distances(work, a, n, root, r);
}
