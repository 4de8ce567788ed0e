// One turn of a batch: its next call read and carried out.
#![tactic(auto)]

ghost use Rattle.std.specs.Prelude.{◌≡◌};
ghost use Rattle.session_batch_turn.specs.Turn.{Inside, lent, Ready, NextSays, end_number, CallReady, CallTurned, CloseReady, CloseTurned, Turned};

use answer::{Closed, Refusal, Refused};
use session_batch_calls::carry;
use session_batch_words::{Call, Next, NoCall, bytes_taken, read_call, words_taken};
use session_indexed::close_indexed;

// How far a batch is: the words and the bytes behind it, the ids told, the calls carried out.
#[derive(Clone, Copy)]
pub struct Progress {
    pub words: usize,
    pub bytes: usize,
    pub told: usize,
    pub calls: usize,
}

// How a batch ended: its words are at their end; they are no call; a call is refused.
#[derive(Clone, Copy)]
pub enum Ending {
    Done,
    NoCall,
    Refused(Refusal),
}

// A turn leads on, or is the last.
#[derive(Clone, Copy)]
pub enum Turn {
    On(Progress),
    Over(Ending),
}

// Told where the next words are no call.
const NO_CALL: u64 = 19;

// The number that an ending is told by (docs/RULES.md, 14.3 to 14.5).
pub fn end_number(e: Ending) -> u64
    ensures { result ≡ end_number e }
{
    match e {
        Ending::Done => 0,
        Ending::NoCall => NO_CALL,
        Ending::Refused(why) => u64::from(why),
    }
}

// The next call, of what is left.
fn next_call(calls: &[u32], bytes: &[u8], ids: &[u32], p: Progress) -> Next
    requires { Inside calls.now bytes.now ids.now p }
    ensures { NextSays calls.now bytes.now ids.now p result }
{
    let left = bytes.len() - p.bytes;
    read_call(&calls[p.words..], left, &ids[..p.told], ids.len())
}

// A call other than close.
fn call_turn(store: &mut [u8], records: &mut [u32], bytes: &[u8], n: Next, p: Progress) -> Turn
    requires { CallReady store.old records.old bytes.now n p }
    ensures { CallTurned store.old records.old bytes.now n p result store.new records.new }
{
    match carry(store, records, &bytes[p.bytes..], n) {
        Ok(_) => Turn::On(Progress {
            words: p.words + words_taken(n),
            bytes: p.bytes + bytes_taken(n),
            told: p.told,
            calls: p.calls + 1,
        }),
        Err(Refused { why, .. }) => Turn::Over(Ending::Refused(why)),
    }
}

// A close. Its id is written behind those told.
fn close_turn(
    store: &mut [u8],
    records: &mut [u32],
    ids: &mut [u32],
    index: &mut [u64],
    buckets: usize,
    p: Progress,
) -> Turn
    requires { CloseReady buckets (lent store.old records.old ids.old index.old) p }
    ensures { CloseTurned buckets (lent store.old records.old ids.old index.old) p result (lent store.new records.new ids.new index.new) }
{
    let at = p.told;
    let a = close_indexed(store, records, index, buckets);
    match a {
        Ok(Closed { id, .. }) => {
            ids[at] = id.0;
            Turn::On(Progress {
                words: p.words + 1,
                bytes: p.bytes,
                told: at + 1,
                calls: p.calls + 1,
            })
        }
        Err(Refused { why, .. }) => Turn::Over(Ending::Refused(why)),
    }
}

// The next call, carried out, unless the words are at their end or say none.
pub fn take_turn(
    store: &mut [u8],
    records: &mut [u32],
    calls: &[u32],
    bytes: &[u8],
    ids: &mut [u32],
    index: &mut [u64],
    buckets: usize,
    p: Progress,
) -> Turn
    requires { Ready calls.now bytes.now buckets (lent store.old records.old ids.old index.old) p }
    ensures { Turned calls.now bytes.now buckets (lent store.old records.old ids.old index.old) p result (lent store.new records.new ids.new index.new) }
{
    let n = next_call(calls, bytes, ids, p);
    match n {
        Ok(None) => Turn::Over(Ending::Done),
        Err(NoCall) => Turn::Over(Ending::NoCall),
        Ok(Some(c)) => match c {
            Call::Close => close_turn(store, records, ids, index, buckets, p),
            _ => call_turn(store, records, bytes, n, p),
        },
    }
}
