// Shows the GSUB table of standard input: its scripts, features and lookups, how many lookups are promoted, what stays of it where equal objects are kept
// once, and that the packed table, read again, packs to the same bytes and substitutes the same.
#![tactic(auto)]

mod names;
mod substitutes;
mod visits;

use gsub_promote::Promoted;
use names::{features, scripts};
use report::{text, value};
use report_gsub::{LONGEST, goes_on, tell, tell_promoted, tell_too_long};
use substitutes::{differing, lookups};
use visits::visits;

fn objects(to: &impl Print, name: &[u8], n: u64, bytes: u64) {
    value(to, name, n);
    value(to, b" objects, ", bytes);
    text(to, b" bytes\n");
}

// The table as it stands, and what the session holds of it, the Extensions of promoted lookups among it.
fn kept(to: &impl Print, table: &[u8], promoted: Promoted) {
    let v = visits(table);
    objects(to, b"read: ", v.objects, v.bytes);
    tell_promoted(to, promoted.lookups);
    let held = promoted.tally;
    objects(
        to,
        b"equal ones kept once: ",
        held.objects as u64,
        held.bytes as u64,
    );
}

fn compare(to: &impl Print, table: &[u8], packed: &[u8]) {
    let n = differing(table, packed);
    if n == 0 {
        text(
            to,
            b"read again: every single substitution is the same for every glyph\n",
        );
        return;
    }
    value(to, b"read again: ", n);
    text(to, b" single substitutes differ\n");
}

// In a second session.
fn read_again(to: &impl Print, table: &[u8], packed: &[u8]) {
    let mut out: [u8; LONGEST] = [0; LONGEST];
    let told = report_gsub::repack(packed, &mut out);
    let Ok(again) = told else {
        text(to, b"read again: ");
        tell(to, told);
        return;
    };
    if again.length == packed.len() && out.starts_with(packed) {
        text(to, b"packed again: the same bytes\n");
    } else {
        text(to, b"packed again: OTHER BYTES\n");
    }
    compare(to, table, packed);
}

// The table that a pack left at the front of its output.
fn show_packed(to: &impl Print, table: &[u8], out: &[u8], length: usize) {
    value(to, b"packed: ", length as u64);
    text(to, b" bytes\n");
    if let Some(packed) = out.get(..length) {
        read_again(to, table, packed);
    }
}

fn show(to: &impl Print, table: &[u8]) {
    let mut out: [u8; LONGEST] = [0; LONGEST];
    let told = report_gsub::repack(table, &mut out);
    let Ok(promoted) = told else {
        tell(to, told);
        return;
    };
    scripts(to, table);
    features(to, table);
    lookups(to, table);
    kept(to, table, promoted);
    show_packed(to, table, &out, promoted.length);
}

fn main(rt: HostRuntime) {
    let to = &rt.stdout();
    let mut from = rt.stdin();
    let mut input: [u8; LONGEST] = [0; LONGEST];
    let n = streams::read_full(&mut from, &mut input);
    if goes_on(&mut from) {
        tell_too_long(to);
        return;
    }
    value(to, b"table: ", n as u64);
    text(to, b" bytes\n");
    show(to, &input[..n]);
}
