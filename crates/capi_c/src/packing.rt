// The eighth call.
ghost use Rattle.std.specs.Prelude.{◌≡◌};
ghost use Rattle.steps.specs.Runs.{pack, stores, pack_left, lent_step};
ghost use Rattle.capi_answer.specs.Numbers.{told_in};

use capi_answer::Numbers;

#[unsafe(no_mangle)]
pub extern "C" fn scoterlime_pack(
    store: &[u8],
    records: &[u32],
    id: u32,
    copies: u32,
    out: &mut [u8],
    work: &mut [u64],
) -> Numbers
    ensures { pack_left (told_in result) (stores store.now records.now) out.new work.new ≡ lent_step (pack id copies out.old work.old) (stores store.now records.now) }
{
    capi::scoterlime_pack(store, records, id, copies, out, work)
}
