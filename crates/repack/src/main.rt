// Packs the GSUB table of standard input: the packed table's bytes go to standard output; how many lookups are promoted, or a refusal, to standard error.
#![tactic(auto)]

use report_gsub::{LONGEST, goes_on, tell, tell_promoted, tell_too_long};

// The table that a pack left at the front of its output.
fn write(output: &impl Print, out: &[u8], length: usize) {
    if length <= out.len() {
        streams::write_all(output, &out[0..length]);
    }
}

fn repack(rt: HostRuntime, table: &[u8]) {
    let mut out: [u8; LONGEST] = [0; LONGEST];
    let told = report_gsub::repack(table, &mut out);
    let Ok(promoted) = told else {
        tell(&rt.stderr(), told);
        return;
    };
    tell_promoted(&rt.stderr(), promoted.lookups);
    write(&rt.stdout(), &out, promoted.length);
}

fn main(rt: HostRuntime) {
    let mut from = rt.stdin();
    let mut input: [u8; LONGEST] = [0; LONGEST];
    let n = streams::read_full(&mut from, &mut input);
    if goes_on(&mut from) {
        tell_too_long(&rt.stderr());
        return;
    }
    repack(rt, &input[..n]);
}
