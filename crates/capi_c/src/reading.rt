// The ninth call: a GSUB table read into a session, with single substitution alone or whole.
ghost use Rattle.std.specs.Prelude.{◌≡◌};
ghost use Rattle.steps.specs.Runs.{stores};
ghost use Rattle.gsub.specs.declared.Scope.TheVariants.{Single, Whole};
ghost use Rattle.gsub_read.specs.Read.{read_left, read_step};
ghost use Rattle.capi_answer.specs.Numbers.{told_in_read};

use capi_answer::ReadNumbers;

#[unsafe(no_mangle)]
pub extern "C" fn scoterlime_read_gsub(
    store: &mut [u8],
    records: &mut [u32],
    objects: u32,
    links: u32,
    table: &[u8],
) -> ReadNumbers
    ensures { read_left (told_in_read result) store.new records.new ≡ read_step Single table.now objects links (stores store.old records.old) }
{
    capi::scoterlime_read_gsub(store, records, objects, links, table)
}

#[unsafe(no_mangle)]
pub extern "C" fn scoterlime_read_gsub_whole(
    store: &mut [u8],
    records: &mut [u32],
    objects: u32,
    links: u32,
    table: &[u8],
) -> ReadNumbers
    ensures { read_left (told_in_read result) store.new records.new ≡ read_step Whole table.now objects links (stores store.old records.old) }
{
    capi::scoterlime_read_gsub_whole(store, records, objects, links, table)
}
