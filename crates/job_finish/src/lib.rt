// The root packed, once the last line is read.
#![tactic(auto)]

ghost use Rattle.std.specs.Prelude.{length, drop};
ghost use Rattle.job_lines.specs.Lines.{cut};
ghost use Rattle.layout.specs.Decode.{decode};
ghost use Rattle.job_rules.specs.Job.{packs, run};
ghost use Rattle.job_finish.specs.Ends.{Ends, Packable, Finishing, Finishes};

use answer::ObjectId;
use job_calls::line::Lead;
use job_rest::Halt;
use job_rules::{Breach, Packed, Refused};
use pack::pack_sound;

// No copy is made for a job.
const COPIES: u32 = 0;

// The line led to this root, and the text behind it begins at `at`.
fn pack_root(
    text: &[u8],
    at: usize,
    line: usize,
    root: ObjectId,
    store: &[u8],
    records: &[u32],
    out: &mut [u8],
    work: &mut [u64],
) -> Result<Packed, Refused>
    requires { Packable line store.now records.now work.old }
    ensures { Ends (run (length out.old) line (cut (drop at text.now)) (packs (decode store.now records.now) root.0)) result out.old out.new }
{
    let packing = pack_sound(store, records, root, COPIES, out, work);
    let packed = packing.map_err(|refused| Refused {
        number: refused.why.into(),
        line,
    })?;
    if at < text.len() {
        return Err(Breach(line + 1).into());
    }
    Ok(Packed {
        length: packed.table.length,
        placed: packed.table.placed,
    })
}

pub fn finish(
    text: &[u8],
    halt: Halt,
    store: &[u8],
    records: &[u32],
    out: &mut [u8],
    work: &mut [u64],
) -> Result<Packed, Refused>
    requires { Finishing text.now halt store.now records.now work.old }
    ensures { Finishes text.now halt store.now records.now result out.old out.new }
{
    let Halt { lead, at, line } = halt;
    match lead {
        Ok(Lead::On(_)) => Err(Breach(line + 1).into()),
        Ok(Lead::Packs(root)) => pack_root(text, at, line, root, store, records, out, work),
        Err(stop) => Err(Refused {
            number: stop.into(),
            line,
        }),
    }
}
