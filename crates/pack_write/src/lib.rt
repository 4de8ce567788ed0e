// Table bytes from the order and the places in the work memory.
#![tactic(auto)]

ghost use Rattle.std.specs.Prelude.{◌≡◌, ◌-◌, ◌≤◌, length};
ghost use Rattle.lists.specs.Lists.{over};
ghost use Rattle.model_orders.specs.Table.{filled, FieldsIn};
ghost use Rattle.work.specs.Views.{places_in};
ghost use Rattle.order_graph.specs.Graph.{graph_on, AtNode};
ghost use Rattle.order_fit.specs.Fit.{offset_by};
ghost use Rattle.pack_write.specs.Write.{Writing, table_for};

use layout::span::closed_span;
use layout::state::State;
use memory_copy::WIDE;
use order_fit::{node_at, offset_at};
use order_graph::{field_from, link_count, links_at, origin_of};
use order_resolve::Arranged;
use work::Areas;

// Fills the fields of node i, whose bytes stand at the front of `part`.
fn write_fields(part: &mut [u8], work: &[u64], a: Areas, n: usize, i: usize)
    requires { AtNode a n i work.now × FieldsIn 0 (length part.old) ((graph_on a n work.now).links i) }
    ensures { part.new ≡ filled (offset_by (places_in a work.now) i) ((graph_on a n work.now).links i) part.old }
{
    let from = links_at(work, a, n, i);
    for t in 0..link_count(work, a, n, i) {
        let f = field_from(work, a, n, i, t, from);
        let offset = offset_at(work, a, n, i, f);
        big_endian::write(part, f.at, f.width, offset);
    }
}

// Node i, of these bytes, at the front of its part of the output.
fn write_object(part: &mut [u8], bytes: &[u8], work: &[u64], a: Areas, n: usize, i: usize)
    requires { AtNode a n i work.now × (length bytes.now ≤ length part.old) × FieldsIn 0 (length bytes.now) ((graph_on a n work.now).links i) }
    ensures { part.new ≡ over 0 (filled (offset_by (places_in a work.now) i) ((graph_on a n work.now).links i) bytes.now) part.old }
{
    memory_copy::copy(part, 0, bytes);
    write_fields(part, work, a, n, i);
}

// Where the bytes end that are copied for an object from `from` up to `to`, of a store of so many: behind it, where there is room for as many bytes as are copied most quickly.
fn wide_end(from: usize, to: usize, stored: usize, room: usize) -> usize
    requires { (from ≤ to) × (to ≤ stored) × (to - from ≤ room) }
    ensures { (to ≤ result) × (result ≤ stored) × (result - from ≤ room) }
{
    if WIDE < to - from || stored - from < WIDE || room < WIDE {
        return to;
    }
    from + WIDE
}

// The placed nodes, each lent its part of the output from its place on; a copy has the bytes of its original. What is copied behind a node's own bytes is overwritten by
// the nodes behind it.
pub fn write_table(
    out: &mut [u8],
    store: &[u8],
    records: &[u32],
    s: State,
    a: Areas,
    r: Arranged,
    work: &[u64],
)
    requires { Writing store.now records.now s a r work.now × (r.length ≤ length out.old) }
    ensures { out.new ≡ over 0 (table_for store.now records.now a s.closed r.nodes r.placed work.now) out.old }
{
    for t in 0..r.placed {
        let i = node_at(work, a, r.nodes, r.placed, t);
        let place = work[a.places + i] as usize;
        let id = origin_of(work, a, s.closed, r.nodes, i);
        let o = closed_span(records, s.objects, id.0 as usize);
        let to = wide_end(o.from, o.to, store.len(), r.length as usize - place);
        write_object(&mut out[place..], &store[o.from..to], work, a, r.nodes, i);
    }
}
