// Places, offsets, and the first link that does not fit.
#![tactic(auto)]

ghost use Rattle.std.specs.Prelude.{◌≡◌, ◌-◌, ◌<◌, get_or};
ghost use Rattle.order_graph.specs.Graph.{AtNode, graph_on, link_by};
ghost use Rattle.work.specs.Views.{order_in, places_in};
ghost use Rattle.order_fit.specs.Fit.{Placing, PlacedAt, offset_by, look_links, look};

use answer::Overflow;
use big_endian::capacity;
use order_graph::{Field, field_at, link_count, object_of};
use work::Areas;

// The node that is placed at number t of the r.
pub fn node_at(work: &[u64], a: Areas, n: usize, r: usize, t: usize) -> usize
    requires { (t < r) × Placing a n r work.now }
    ensures { (result < n) × (result ≡ get_or (order_in a r work.now) t 0) }
{
    work[a.order + t] as usize
}

// The places of the r placed nodes.
pub fn set_places(work: &mut [u64], a: Areas, n: usize, r: usize)
    requires { Placing a n r work.old }
    ensures { PlacedAt a n r work.old work.new }
{
    let mut at = 0;
    for t in 0..r {
        let i = node_at(work, a, n, r, t);
        let size = work[i];
        work[a.places + i] = at;
        at += size;
    }
}

// The offset that a field of node i needs, by the places.
pub fn offset_at(work: &[u64], a: Areas, n: usize, i: usize, f: Field) -> u64
    requires { AtNode a n i work.now × (f.child < n) }
    ensures { result ≡ offset_by (places_in a work.now) i (link_by f) }
{
    let own = work[a.places + i];
    work[a.places + f.child]
        .saturating_sub(own)
        .saturating_sub(f.inner as u64)
}

// The first link of node i that does not fit.
fn look_links(work: &[u64], a: Areas, n: usize, i: usize) -> Result<(), Overflow>
    requires { AtNode a n i work.now }
    ensures { result ≡ look_links (places_in a work.now) i ((graph_on a n work.now).links i) }
{
    for t in 0..link_count(work, a, n, i) {
        let f = field_at(work, a, n, i, t);
        let needed = offset_at(work, a, n, i, f);
        if capacity(f.width) <= needed {
            return Err(Overflow {
                parent: object_of(i),
                field: f.at,
                needed: needed as usize,
            });
        }
    }
    Ok(())
}

// The first link, in placing order, that does not fit.
pub fn look_all(work: &[u64], a: Areas, n: usize, r: usize) -> Result<(), Overflow>
    requires { Placing a n r work.now }
    ensures { result ≡ look (graph_on a n work.now) (places_in a work.now) (order_in a r work.now) }
{
    for t in 0..r {
        look_links(work, a, n, node_at(work, a, n, r, t))?;
    }
    Ok(())
}
