// The tenth call: a GSUB table read with as many of its last lookups promoted as its pack needs, and packed.
ghost use Rattle.std.specs.Prelude.{◌≡◌};
ghost use Rattle.steps.specs.Runs.{stores};
ghost use Rattle.gsub.specs.declared.Scope.TheVariants.{Single, Whole};
ghost use Rattle.gsub_promote.specs.Search.{lent, promote_left, promote_step};
ghost use Rattle.capi_answer.specs.Promote.{told_in_promote};

use capi_answer::PromoteNumbers;

#[unsafe(no_mangle)]
pub extern "C" fn scoterlime_promote_gsub(
    store: &mut [u8],
    records: &mut [u32],
    objects: u32,
    links: u32,
    table: &[u8],
    out: &mut [u8],
    work: &mut [u64],
) -> PromoteNumbers
    ensures { promote_left (told_in_promote result) (stores store.new records.new) out.new work.new ≡ promote_step Single table.now objects links (lent (stores store.old records.old) out.old work.old) }
{
    capi::scoterlime_promote_gsub(store, records, objects, links, table, out, work)
}

#[unsafe(no_mangle)]
pub extern "C" fn scoterlime_promote_gsub_whole(
    store: &mut [u8],
    records: &mut [u32],
    objects: u32,
    links: u32,
    table: &[u8],
    out: &mut [u8],
    work: &mut [u64],
) -> PromoteNumbers
    ensures { promote_left (told_in_promote result) (stores store.new records.new) out.new work.new ≡ promote_step Whole table.now objects links (lent (stores store.old records.old) out.old work.old) }
{
    capi::scoterlime_promote_gsub_whole(store, records, objects, links, table, out, work)
}
