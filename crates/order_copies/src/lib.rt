// One copy: the child of a link copied, and that link alone led to the copy. What stands in the work memory beside the graph follows: spaces, origins,
// the counts of incoming fields, and the order, in which the copy comes right behind its original.
#![tactic(auto)]

ghost use Rattle.std.specs.Prelude.{◌≡◌, ltb, get_or};
ghost use Rattle.work.specs.Views.{incoming_in};
ghost use Rattle.order_copies.specs.Copy.{child_in, AtField, CopyingChild, ChildCopied};

use find::find_link;
use note::{count_copy, note_copy, put_behind};
use order_graph::field_at;
use order_grow::{append_node, lead_link};
use work::Areas;

mod find;
mod note;

// The copy's size, and how many links are taken with it.
#[derive(Clone, Copy)]
pub struct Copied {
    pub size: u64,
    pub links: usize,
}

// Whether more than one link leads to the child of the field at a place in node p.
pub fn is_shared(work: &[u64], a: Areas, nodes: usize, p: usize, at: usize) -> bool
    requires { AtField a nodes p at work.now }
    ensures { result ≡ ltb 1 (get_or (incoming_in a work.now) (child_in a nodes work.now p at) 0) }
{
    let t = find_link(work, a, nodes, p, at);
    let f = field_at(work, a, nodes, p, t);
    1 < work[a.incoming + f.child]
}

// The copy becomes node `nodes`. r nodes stand in the order.
pub fn copy_child(
    work: &mut [u64],
    a: Areas,
    n: usize,
    nodes: usize,
    links: usize,
    r: usize,
    p: usize,
    at: usize,
) -> Copied
    requires { CopyingChild a n nodes links r p at work.old }
    ensures { ChildCopied a n nodes links r p at result.size result.links work.old work.new }
{
    let t = find_link(work, a, nodes, p, at);
    let f = field_at(work, a, nodes, p, t);
    let x = f.child;
    let size = work[x];
    let more = append_node(work, a, nodes, links, x);
    lead_link(work, a, nodes + 1, p, t, nodes);
    note_copy(work, a, n, nodes, x);
    count_copy(work, a, nodes, x);
    put_behind(work, a, r, x, nodes);
    Copied { size, links: more }
}
