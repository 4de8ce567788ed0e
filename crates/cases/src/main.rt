// Runs the calls that standard input names, a line each, and prints what every one tells and what it leaves in lent memory.
//
// A line is one letter and its arguments: `c` a case's name, `l` behind it the lengths of the two stores lent to the case, `s` start with
// two limits, `o` open, `p` put with bytes in hex, `f` put of one byte many times, `k` link with width, id and inner start, `e` close, `d` drop,
// `t` tally, `a` pack with the root's id, the copies allowed and the lengths of the output and the work memory, `v` both stores.
#![tactic(auto)]

mod areas;
mod calls;
mod lines;

ghost use Rattle.std.specs.Prelude.{◌≤◌, length};

use areas::{MOST_WORDS, at_most, filled};
use calls::call;
use lines::{arguments, split_line};

// How much of standard input is taken.
const INPUT: usize = 1 << 16;

// The lines up to the next case. Answers what is left from that on.
fn run_lines<'a>(
    to: &impl Print,
    input: &'a [u8],
    store: &mut [u8],
    records: &mut [u32],
) -> &'a [u8]
    ensures { length result.now ≤ length input.now }
{
    let mut rest = input;
    while let Some(op) = rest.first() {
        if *op == b'c' {
            break;
        }
        let (line, after) = split_line(rest);
        call(to, *op, arguments(rest), line, store, records);
        rest = after;
    }
    rest
}

// In stores of the lengths that the first line names, with nothing of a session in them.
fn run_lent<'a>(to: &impl Print, input: &'a [u8]) -> &'a [u8]
    ensures { length result.now ≤ length input.now }
{
    let [length, words, ..] = arguments(input);
    let mut store = filled(0xa5);
    let mut records: [u32; MOST_WORDS] = [0xa5a5a5a5; MOST_WORDS];
    let n = at_most(length, store.len());
    let r = at_most(words, MOST_WORDS);
    run_lines(to, input, &mut store[..n], &mut records[..r])
}

// A case, from its name on. Answers what is left behind it.
fn run_case<'a>(to: &impl Print, named: &'a [u8]) -> &'a [u8]
    ensures { length result.now ≤ length named.now }
{
    let (name, lines) = split_line(named);
    let _ = print!(to; "case");
    streams::write_all(to, name);
    let _ = println!(to; "");
    run_lent(to, lines)
}

// Each case is one letter, its name behind it, and its lines.
fn run(to: &impl Print, input: &[u8]) {
    let mut rest = input;
    while let Some((_, named)) = rest.split_first() {
        rest = run_case(to, named);
    }
}

fn main(rt: HostRuntime) {
    let mut input: [u8; INPUT] = [0; INPUT];
    let n = streams::read_full(&mut rt.stdin(), &mut input);
    run(&rt.stdout(), &input[..n]);
}
