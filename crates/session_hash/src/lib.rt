// A number for the contents of an object, by which most objects that differ are told apart.
#![tactic(auto)]

ghost use Rattle.std.specs.Prelude.{◌≡◌, ◌+◌, ◌^◌, ◌≤◌, ◌<◌, length};
ghost use Rattle.lists.specs.Lists.{part};
ghost use Rattle.session_hash.specs.Hash.{hash_limit, mix, mixed, gathered, four_at, hash_bytes, hash_by};

use session_find::Runs;

pub const HASH_LIMIT: u64 = 1 << 40;

// What is mixed in is below this.
const WORD_LIMIT: u64 = 1 << 32;

// With it no product passes a u64, and every word moves the high bits.
const HASH_FACTOR: u64 = 10368889;

pub fn mix(h: u64, x: u64) -> u64
    requires { (h < hash_limit) × (x < 2 ^ 32) }
    ensures { (result ≡ mix h x) × (result < hash_limit) }
{
    (h + x) * HASH_FACTOR % HASH_LIMIT
}

// Four bytes as one word.
fn four(w: [u8; 4]) -> u64
    ensures { (result ≡ four_at 0 w) × (result < 2 ^ 32) }
{
    u64::from(u32::from_le_bytes(w))
}

// Bytes one by one.
fn mix_rest(from: u64, s: &[u8]) -> u64
    requires { from < hash_limit }
    ensures { (result ≡ mixed from s.now) × (result < hash_limit) }
{
    let mut h = from;
    for x in s {
        h = mix(h, u64::from(*x));
    }
    h
}

// By fours, then those left over.
fn mix_fours(from: u64, s: &[u8]) -> u64
    requires { from < hash_limit }
    ensures { (result ≡ mixed from (gathered s.now)) × (result < hash_limit) }
{
    let mut h = from;
    let mut left = s;
    while let Some((w, rest)) = left.split_first_chunk::<4>() {
        h = mix(h, four(*w));
        left = rest;
    }
    mix_rest(h, left)
}

// By eights, four to each of two numbers, so that one product is made while the other is waited for.
fn mix_bytes(s: &[u8]) -> u64
    ensures { (result ≡ hash_bytes s.now) × (result < hash_limit) }
{
    let mut h = 1;
    let mut g = 1;
    let mut left = s;
    while let Some((w, rest)) = left.split_first_chunk::<8>() {
        h = mix(h, four([w[0], w[1], w[2], w[3]]));
        g = mix(g, four([w[4], w[5], w[6], w[7]]));
        left = rest;
    }
    mix_fours(mix(h, g % WORD_LIMIT), left)
}

fn mix_words(from: u64, s: &[u32]) -> u64
    requires { from < hash_limit }
    ensures { (result ≡ mixed from s.now) × (result < hash_limit) }
{
    let mut h = from;
    for x in s {
        h = mix(h, u64::from(*x));
    }
    h
}

// The hash of the object that has these runs.
pub fn hash_of(store: &[u8], records: &[u32], r: Runs) -> u64
    requires { (r.from + r.size ≤ length store.now) × (r.at + r.words ≤ length records.now) }
    ensures { result ≡ hash_by (part r.from (r.from + r.size) store.now) (part r.at (r.at + r.words) records.now) }
{
    mix_words(mix_bytes(r.bytes(store)), r.links(records))
}
