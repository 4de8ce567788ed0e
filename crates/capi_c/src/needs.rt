// How many words to lend for given limits, to a pack for so many copies, and to a batch.
ghost use Rattle.std.specs.Prelude.{◌≡◌, min};
ghost use Rattle.model.specs.Judge.{most_copies};
ghost use Rattle.layout.specs.Words.{need};
ghost use Rattle.work.specs.Areas.{work_need};
ghost use Rattle.session_batch.specs.Batch.{batch_need};

// Of u32, for the record store.
#[unsafe(no_mangle)]
pub extern "C" fn scoterlime_records_need(objects: u32, links: u32) -> u64
    ensures { result ≡ need objects links }
{
    capi::scoterlime_records_need(objects, links)
}

// Of u64, for a pack's work memory; for more copies than may be allowed, as many as for the most.
#[unsafe(no_mangle)]
pub extern "C" fn scoterlime_work_need(objects: u32, links: u32, copies: u32) -> u64
    ensures { result ≡ work_need objects links (min copies most_copies) }
{
    capi::scoterlime_work_need(objects, links, copies)
}

// Of u64, for a batch's work memory; the link limit plays no part.
#[unsafe(no_mangle)]
pub extern "C" fn scoterlime_batch_need(objects: u32, links: u32) -> u64
    ensures { result ≡ batch_need objects }
{
    capi::scoterlime_batch_need(objects, links)
}
