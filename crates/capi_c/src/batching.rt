// Many calls in one.
ghost use Rattle.std.specs.Prelude.{◌≡◌};
ghost use Rattle.steps.specs.Runs.{stores};
ghost use Rattle.session_batch.specs.Batch.{batch_left, batch_step};
ghost use Rattle.capi_answer.specs.Batch.{told_in_batch};

use capi_answer::BatchNumbers;

#[unsafe(no_mangle)]
pub extern "C" fn scoterlime_batch(
    store: &mut [u8],
    records: &mut [u32],
    calls: &[u32],
    bytes: &[u8],
    ids: &mut [u32],
    work: &mut [u64],
) -> BatchNumbers
    ensures { batch_left (told_in_batch result) store.new records.new ids.new work.new ≡ batch_step calls.now bytes.now ids.old work.old (stores store.old records.old) }
{
    capi::scoterlime_batch(store, records, calls, bytes, ids, work)
}
