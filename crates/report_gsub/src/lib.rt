// A GSUB table of standard input, packed with as many of its last lookups promoted as that needs, in memory of fixed lengths; and what came of it, as text.
//
// No function asks anything of its caller. What can't be written is lost, and nothing is told of it.
#![tactic(auto)]

use gsub_promote::{PromoteAnswer, promote_gsub_whole};
use gsub_read::Unread;
use layout::words::LINKS_AT;
use model_orders::LINK_WORDS;
use std::io::Read;

// How long a table may be, and its packed one: some lookups have to be promoted only where a table is longer than an offset of two bytes can count.
pub const LONGEST: usize = 1 << 18;

// The session's limits: enough for any table of that length that was met.
const OBJECTS: usize = 1 << 14;

const LINKS: usize = 1 << 15;

const RECORDS: usize = LINKS_AT + OBJECTS * 2 + LINKS * LINK_WORDS;

// Eleven words for each object, two for each link.
const WORK: usize = OBJECTS * 11 + LINKS * 2;

// Whether the input has a byte more.
pub fn goes_on(from: &mut impl Read) -> bool {
    let mut one: [u8; 1] = [0; 1];
    0 < streams::read_full(from, &mut one)
}

// Packs the table into `out`, in a session of its own.
pub fn repack(table: &[u8], out: &mut [u8]) -> PromoteAnswer {
    let mut store: [u8; LONGEST] = [0; LONGEST];
    let mut records: [u32; RECORDS] = [0; RECORDS];
    let mut work: [u64; WORK] = [0; WORK];
    promote_gsub_whole(
        &mut store,
        &mut records,
        OBJECTS as u32,
        LINKS as u32,
        table,
        out,
        &mut work,
    )
}

fn line(to: &impl Print, name: &[u8], n: u64) {
    streams::write_all(to, name);
    streams::print_decimal(to, n);
    streams::write_all(to, b"\n");
}

// A refusal; nothing of a table that was packed.
pub fn tell(to: &impl Print, a: PromoteAnswer) {
    match a {
        Ok(_) => {}
        Err(Unread::BadTable(place)) => line(to, b"refused 15 at ", place as u64),
        Err(Unread::Refused(why)) => line(to, b"refused ", u64::from(why)),
    }
}

// How many lookups are promoted; nothing where none is.
pub fn tell_promoted(to: &impl Print, lookups: usize) {
    if lookups == 0 {
        return;
    }
    streams::write_all(to, b"promoted: ");
    streams::print_decimal(to, lookups as u64);
    streams::write_all(to, b" lookups\n");
}

// Standard input is no table of this length.
pub fn tell_too_long(to: &impl Print) {
    streams::write_all(to, b"longer than 262,144 bytes\n");
}
