// One node's distance lowers its children's: link by link, or by runs of links that lead to one child.
//
// Link by link, a child that the link before led to has its distance read again right after it was stored, and the next link waits for it. By runs it is read and stored once; but
// where only some links in a row lead to one child, no processor can foretell where a run ends.
ghost use Rattle.order_survey.specs.Survey.{Lowering, Lowered, Along};

use big_endian::capacity;
use order_graph::run::run_from;
use order_graph::{edge_from, field_from, link_count, links_at};
use work::Areas;

// At most so many nodes of a line are looked at for runs.
const SAMPLES: usize = 16;

// A run has at least so many links.
const SEVERAL: usize = 2;

// A way to lower the distances of a node's children.
pub trait Lower {
    // Node i's distance d taken up in its children's.
    fn lower_links(work: &mut [u64], a: Areas, n: usize, i: usize, d: u64)
        requires { Lowering a n i d work.old }
        ensures { Lowered a n i d work.old work.new };
}

pub struct ByRuns;

impl Lower for ByRuns {
    fn lower_links(work: &mut [u64], a: Areas, n: usize, i: usize, d: u64) {
        let count = link_count(work, a, n, i);
        let from = links_at(work, a, n, i);
        let mut t = 0;
        while t < count {
            let run = run_from(work, a, n, i, t, from);
            let weight = work[run.child] + capacity(run.width);
            let j = a.distances + run.child;
            work[j] = work[j].min(d + weight);
            t = run.end;
        }
    }
}

pub struct LinkByLink;

impl Lower for LinkByLink {
    fn lower_links(work: &mut [u64], a: Areas, n: usize, i: usize, d: u64) {
        let count = link_count(work, a, n, i);
        let from = links_at(work, a, n, i);
        for t in 0..count {
            let e = edge_from(work, a, n, i, t, from);
            let j = a.distances + e.child;
            work[j] = work[j].min(d + e.weight);
        }
    }
}

// Whether most nodes with several links seem to begin with a run: of those looked at, some do, and at most one does not, as the root may. It decides how long distances take, not
// which they are.
pub fn runs_are_common(work: &[u64], a: Areas, n: usize, r: usize) -> bool
    requires { Along a n r work.now }
{
    let step = r / SAMPLES + 1;
    let mut common = false;
    let mut other = false;
    for t in (0..r).step_by(step) {
        let i = work[a.line + t] as usize;
        if link_count(work, a, n, i) < SEVERAL {
            continue;
        }
        let from = links_at(work, a, n, i);
        let first = field_from(work, a, n, i, 0, from);
        let second = field_from(work, a, n, i, 1, from);
        if first.child == second.child {
            common = true;
            continue;
        }
        if other {
            return false;
        }
        other = true;
    }
    common
}
