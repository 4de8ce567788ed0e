// Writes the table of standard input as frames of text to standard output; a refusal goes to standard error.
#![tactic(auto)]

use cable_send::sending::send;
use std::io::Read;

// The longest table that is taken.
const LONGEST: usize = 1 << 16;

// Room for the text of the longest table: 128 frames, of at most 1,066 characters each.
const TEXT: usize = 128 * 1066;

// Whether the input has a byte more.
fn goes_on(from: &mut impl Read) -> bool {
    let mut one: [u8; 1] = [0; 1];
    0 < streams::read_full(from, &mut one)
}

fn write(output: &impl Print, text: &[u8], length: usize) {
    if let Some(sent) = text.get(..length) {
        streams::write_all(output, sent);
    }
}

fn send_table(rt: HostRuntime, table: &[u8]) {
    let mut text: [u8; TEXT] = [0; TEXT];
    match send(table, &mut text) {
        Ok(length) => write(&rt.stdout(), &text, length),
        Err(why) => {
            let _ = println!(&rt.stderr(); "refused {}", u64::from(why));
        }
    }
}

fn main(rt: HostRuntime) {
    let mut input = rt.stdin();
    let mut table: [u8; LONGEST] = [0; LONGEST];
    let n = streams::read_full(&mut input, &mut table);
    if goes_on(&mut input) {
        streams::write_all(&rt.stderr(), b"longer than 65,536 bytes\n");
        return;
    }
    send_table(rt, &table[..n]);
}
