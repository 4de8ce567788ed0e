// The lookups of a table, glyph by glyph.
ghost use Rattle.std.specs.Prelude.{◌≤◌, ◌<◌};
ghost use Rattle.big_endian.specs.BigEndian.{capacity};

use gsub::word_at;
use gsub_substitute::substitute;
use report::{text, value};

// Where the Header has the offset of its LookupList.
const LOOKUP_LIST: usize = 8;

// The lookup types of single substitution and of an Extension, behind which it may stand.
const SINGLE: usize = 1;

const EXTENSION: usize = 7;

// For how many glyphs the lookup has another.
fn substituted(table: &[u8], lookup: usize) -> u64 {
    let others = (0..=u16::MAX).filter(|glyph| substitute(table, lookup, *glyph) != *glyph);
    others.count() as u64
}

// Only single substitution is shown glyph by glyph.
fn is_single(number: usize) -> bool {
    number == SINGLE || number == EXTENSION
}

fn show_lookup(to: &impl Print, table: &[u8], list: usize, lookup: usize)
    requires { (list < capacity 2) × (lookup < capacity 2) }
{
    let place = list + word_at(table, list + (2 + 2 * lookup));
    let number = word_at(table, place);
    value(to, b"lookup ", lookup as u64);
    value(to, b": type ", number as u64);
    value(to, b", subtables ", word_at(table, place + 4) as u64);
    if is_single(number) {
        value(to, b", single substitutes ", substituted(table, lookup));
    }
    text(to, b"\n");
}

pub fn lookups(to: &impl Print, table: &[u8]) {
    let list = word_at(table, LOOKUP_LIST);
    let count = word_at(table, list);
    value(to, b"lookups: ", count as u64);
    text(to, b"\n");
    for lookup in 0..count {
        show_lookup(to, table, list, lookup);
    }
}

// The type of a lookup.
fn type_of(table: &[u8], lookup: usize) -> usize
    requires { lookup < capacity 2 }
{
    let list = word_at(table, LOOKUP_LIST);
    word_at(table, list + word_at(table, list + (2 + 2 * lookup)))
}

// For how many glyphs two tables have different substitutes in a lookup.
fn differing_glyphs(table: &[u8], other: &[u8], lookup: usize) -> u64
    ensures { result ≤ capacity 2 }
{
    let differing = (0..=u16::MAX).filter(|glyph| substitute(table, lookup, *glyph)
        != substitute(other, lookup, *glyph));
    differing.count() as u64
}

// In a lookup that may have single substitution.
fn differing_in(table: &[u8], other: &[u8], lookup: usize) -> u64
    requires { lookup < capacity 2 }
    ensures { result ≤ capacity 2 }
{
    if is_single(type_of(table, lookup)) {
        return differing_glyphs(table, other, lookup);
    }
    0
}

// In all lookups of the first.
pub fn differing(table: &[u8], other: &[u8]) -> u64 {
    let mut n: u64 = 0;
    for lookup in 0..word_at(table, word_at(table, LOOKUP_LIST)) {
        n += differing_in(table, other, lookup);
    }
    n
}
