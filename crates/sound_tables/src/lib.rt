// Tests of the record store: limits, lengths and counts, and the four tables.
#![tactic(auto)]

ghost use Rattle.std.specs.Prelude.{◌≡◌, ◌+◌, ◌≤◌, ◌<◌, ◌&&◌, ◌-◌, length, get_or, leb, eqb};
ghost use Rattle.lists.specs.Lists.{holds};
ghost use Rattle.model.specs.Judge.{in_range, most_open};
ghost use Rattle.layout.specs.Words.{object_limit, closed_count, open_depth, ends_at, link_ends_at, link_begins_at, need as recordsNeed, store_length, link_limit, limits_in};
ghost use Rattle.layout.specs.Sound.{head_ok, table_tests};
ghost use Rattle.layout.specs.Known.{Head};

use layout::counts::read_counts;
use layout::limits::{MOST_BYTES, MOST_LINKS, MOST_OBJECTS, MOST_OPEN};
use layout::words::{
    BEGINS_AT, CLOSED_COUNT, ENDS_AT, LINK_BEGINS_AT, LINK_ENDS_AT, LINKS_AT, OBJECT_LIMIT,
    OPEN_DEPTH, need, word,
};

// The limits, and the lengths of both stores. Each test is one comparison: they are joined without a branch.
fn limits_ok(n: usize, records: &[u32]) -> bool
    requires { link_begins_at records.now < length records.now }
    ensures { result ≡ (holds (in_range (limits_in records.now)) && leb (recordsNeed (object_limit records.now) (link_limit records.now)) (length records.now) && eqb (store_length records.now) n) }
{
    let p = word(records, OBJECT_LIMIT);
    let l = word(records, LINK_BEGINS_AT + p);
    let s = word(records, BEGINS_AT);
    (1 <= p)
        & (p <= MOST_OBJECTS)
        & (l <= MOST_LINKS)
        & (1 <= s)
        & (s <= MOST_BYTES)
        & (need(p as u32, l as u32) <= records.len())
        & (s == n)
}

// The counts, and the first entries of the open objects' tables.
fn counts_ok(records: &[u32]) -> bool
    requires { link_ends_at < length records.now }
    ensures { result ≡ (leb (closed_count records.now) (object_limit records.now) && leb (open_depth records.now) most_open && eqb (get_or records.now ends_at 0) 0 && eqb (get_or records.now link_ends_at 0) 0) }
{
    (word(records, CLOSED_COUNT) <= word(records, OBJECT_LIMIT))
        & (word(records, OPEN_DEPTH) <= MOST_OPEN)
        & (word(records, ENDS_AT) == 0)
        & (word(records, LINK_ENDS_AT) == 0)
}

// Limits, lengths and counts, for a byte store of n bytes.
pub fn head_ok(n: usize, records: &[u32]) -> bool
    ensures { result ≡ head_ok n records.now }
{
    if records.len() < LINKS_AT {
        return false;
    }
    if records.len() < LINKS_AT + word(records, OBJECT_LIMIT) * 2 {
        return false;
    }
    limits_ok(n, records) & counts_ok(records)
}

// Whether open and closed objects do not meet, by these tables' last entries.
fn apart(ends: &[u32], begins: &[u32]) -> bool
    requires { (0 < length ends.now) × (0 < length begins.now) }
    ensures { result ≡ leb (get_or ends.now (length ends.now - 1) 0) (get_or begins.now (length begins.now - 1) 0) }
{
    ends[ends.len() - 1] <= begins[begins.len() - 1]
}

// The four tables, and that open and closed do not meet.
pub fn tables_ok(records: &[u32]) -> bool
    requires { Head (store_length records.now) records.now }
    ensures { result ≡ holds (table_tests records.now) }
{
    let k = read_counts(records);
    let at = LINK_BEGINS_AT + k.objects;
    let ends = &records[ENDS_AT..ENDS_AT + k.depth + 1];
    let link_ends = &records[LINK_ENDS_AT..LINK_ENDS_AT + k.depth + 1];
    let begins = &records[BEGINS_AT..BEGINS_AT + k.closed + 1];
    let link_begins = &records[at..at + k.closed + 1];
    ends.is_sorted()
        & link_ends.is_sorted()
        & begins.is_sorted_by(|a, b| b < a)
        & link_begins.is_sorted_by(|a, b| b <= a)
        & (apart(ends, begins) & apart(link_ends, link_begins))
}
