// The graph of a sound session packed, where no refusal that ranks before 11 applies.
#![tactic(auto)]

ghost use Rattle.pack_graph.specs.Packable.{Packable, Fitting, Written, Answered};

use answer::{ObjectId, Packed, PackedTable, Packing, Refusal, Tally};
use layout::state::State;
use order_arrange::arrange;
use order_resolve::{Arranged, Objects};
use order_survey::survey;
use pack_copy::copy_graph;
use pack_write::write_table;
use work::Areas;

// What an arrangement comes to where every offset fits: its table in front of the output, if that has room.
fn write_fitting(
    store: &[u8],
    records: &[u32],
    s: State,
    t: Tally,
    a: Areas,
    r: Arranged,
    out: &mut [u8],
    work: &[u64],
) -> Packing
    requires { Fitting store.now records.now s a r work.now }
    ensures { Written store.now records.now s t a r result out.old out.new work.now }
{
    let size = r.length as usize;
    if out.len() < size {
        return Err(Refusal::OutputShort.with(t));
    }
    write_table(out, store, records, s, a, r, work);
    let made = PackedTable {
        length: size,
        copies: r.nodes - s.closed,
        placed: r.placed,
    };
    Ok(Packed {
        table: made,
        tally: t,
    })
}

// The graph copied and arranged, and its table written where the output has room for it. The needed work memory is left as it comes.
pub fn pack_graph(
    store: &[u8],
    records: &[u32],
    s: State,
    t: Tally,
    a: Areas,
    id: ObjectId,
    out: &mut [u8],
    work: &mut [u64],
) -> Packing
    requires { Packable store.now records.now s t a id.0 work.old }
    ensures { Answered store.now records.now a id.0 result out.old out.new work.old work.new }
{
    copy_graph(records, s, a, work);
    let root = id.0 as usize;
    let size = survey(work, a, s.closed, root);
    let objects = Objects {
        nodes: s.closed,
        links: s.links,
        root,
        size,
        copies: a.copies,
    };
    let r = arrange(work, a, objects);
    match r.look {
        Ok(()) => write_fitting(store, records, s, t, a, r, out, work),
        Err(o) => Err(Refusal::Overflow(o).with(t)),
    }
}
