// Chains of ids in lent words: one more at the end of its chain.
#![tactic(auto)]

ghost use Rattle.std.specs.Prelude.{◌≡◌, ◌<◌, ◌^◌};
ghost use Rattle.session_hash.specs.Hash.{bucket_of};
ghost use Rattle.session_chains.specs.Index.{next_at, leader_at, added, Room};

// A bucket has an entry of so many words, and each id.
pub const ENTRY_WORDS: usize = 2;

// What of a hash its bucket does not go by.
const LOW_PART: u64 = 1 << 24;

pub fn bucket_of(buckets: usize, h: u64) -> usize
    requires { 0 < buckets }
    ensures { (result ≡ bucket_of buckets h) × (result < buckets) }
{
    (h / LOW_PART) as usize % buckets
}

// Where the word stands that comes to lead to the next id, x leading to the last one.
fn leader_at(buckets: usize, k: usize, x: usize) -> usize
    requires { (k < buckets) × (next_at buckets x < 2 ^ 64) }
    ensures { (result ≡ leader_at buckets k x) × (result < next_at buckets x) }
{
    if x == 0 {
        return k * ENTRY_WORDS;
    }
    buckets * ENTRY_WORDS + (x - 1) * ENTRY_WORDS
}

// Adds an id of hash h, all lower ones being in.
pub fn add(index: &mut [u64], buckets: usize, h: u64, id: usize)
    requires { Room buckets h id index.old }
    ensures { index.new ≡ added buckets h id index.old }
{
    let k = bucket_of(buckets, h);
    let at = leader_at(buckets, k, index[k * ENTRY_WORDS + 1] as usize);
    let x = (id + 1) as u64;
    index[at] = x;
    index[k * ENTRY_WORDS + 1] = x;
    index[buckets * ENTRY_WORDS + id * ENTRY_WORDS] = 0;
    index[buckets * ENTRY_WORDS + id * ENTRY_WORDS + 1] = h;
}
