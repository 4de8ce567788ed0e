// The calls on the two stores.
ghost use Rattle.std.specs.Prelude.{◌≡◌};
ghost use Rattle.steps.specs.Runs.{start, open', put, link, close, drop, tally, stores, left, step_on};
ghost use Rattle.capi_answer.specs.Numbers.{told_in};

use capi_answer::Numbers;

#[unsafe(no_mangle)]
pub extern "C" fn scoterlime_start(
    store: &mut [u8],
    records: &mut [u32],
    objects: u32,
    links: u32,
) -> Numbers
    ensures { left (told_in result) store.new records.new ≡ step_on (start objects links) (stores store.old records.old) }
{
    capi::scoterlime_start(store, records, objects, links)
}

#[unsafe(no_mangle)]
pub extern "C" fn scoterlime_open(store: &mut [u8], records: &mut [u32]) -> Numbers
    ensures { left (told_in result) store.new records.new ≡ step_on open' (stores store.old records.old) }
{
    capi::scoterlime_open(store, records)
}

#[unsafe(no_mangle)]
pub extern "C" fn scoterlime_put(store: &mut [u8], records: &mut [u32], bytes: &[u8]) -> Numbers
    ensures { left (told_in result) store.new records.new ≡ step_on (put bytes.now) (stores store.old records.old) }
{
    capi::scoterlime_put(store, records, bytes)
}

#[unsafe(no_mangle)]
pub extern "C" fn scoterlime_link(
    store: &mut [u8],
    records: &mut [u32],
    width: u32,
    id: u32,
    inner: u32,
) -> Numbers
    ensures { left (told_in result) store.new records.new ≡ step_on (link width id inner) (stores store.old records.old) }
{
    capi::scoterlime_link(store, records, width, id, inner)
}

#[unsafe(no_mangle)]
pub extern "C" fn scoterlime_close(store: &mut [u8], records: &mut [u32]) -> Numbers
    ensures { left (told_in result) store.new records.new ≡ step_on close (stores store.old records.old) }
{
    capi::scoterlime_close(store, records)
}

#[unsafe(no_mangle)]
pub extern "C" fn scoterlime_drop(store: &mut [u8], records: &mut [u32]) -> Numbers
    ensures { left (told_in result) store.new records.new ≡ step_on drop (stores store.old records.old) }
{
    capi::scoterlime_drop(store, records)
}

#[unsafe(no_mangle)]
pub extern "C" fn scoterlime_tally(store: &[u8], records: &[u32]) -> Numbers
    ensures { left (told_in result) store.now records.now ≡ step_on tally (stores store.now records.now) }
{
    capi::scoterlime_tally(store, records)
}
