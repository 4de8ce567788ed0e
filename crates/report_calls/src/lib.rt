// Each of the eight calls, made and printed with what it told.
//
// No function asks anything of its caller. A put and a link are printed under a name of the caller's.
#![tactic(auto)]

use answer::{ObjectId, Packing};
use report::{tell, tell_close, tell_pack};

pub fn start(to: &impl Print, store: &mut [u8], records: &mut [u32], objects: u32, links: u32) {
    let told = session::start(store, records, objects, links);
    tell(to, b"start", told);
}

pub fn open(to: &impl Print, store: &[u8], records: &mut [u32]) {
    let told = session::open(store, records);
    tell(to, b"open", told);
}

pub fn put(to: &impl Print, name: &[u8], store: &mut [u8], records: &mut [u32], bytes: &[u8]) {
    let told = session::put(store, records, bytes);
    tell(to, name, told);
}

pub fn link(
    to: &impl Print,
    name: &[u8],
    store: &[u8],
    records: &mut [u32],
    width: u32,
    id: ObjectId,
    inner: u32,
) {
    let told = session::link(store, records, width, id, inner);
    tell(to, name, told);
}

pub fn close(to: &impl Print, store: &mut [u8], records: &mut [u32]) {
    let told = session::close(store, records);
    tell_close(to, told);
}

pub fn drop(to: &impl Print, store: &mut [u8], records: &mut [u32]) {
    let told = session::drop(store, records);
    tell(to, b"drop", told);
}

pub fn tally(to: &impl Print, store: &[u8], records: &[u32]) {
    let told = session::tally(store, records);
    tell(to, b"tally", told);
}

pub fn pack(
    to: &impl Print,
    store: &[u8],
    records: &[u32],
    id: ObjectId,
    copies: u32,
    out: &mut [u8],
    work: &mut [u64],
) -> Packing {
    let told = pack::pack(store, records, id, copies, out, work);
    tell_pack(to, told);
    told
}
