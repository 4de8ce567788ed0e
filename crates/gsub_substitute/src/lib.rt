// What a lookup substitutes for a glyph, from the table's bytes alone. A damaged table is no exception: past its end it reads as zeros.
#![tactic(auto)]

ghost use Rattle.std.specs.Prelude.{◌≡◌, ◌+◌, ◌*◌, ◌≤◌, ◌<◌};
ghost use Rattle.big_endian.specs.BigEndian.{capacity};
ghost use Rattle.gsub.specs.Substitute.{in_glyphs, in_ranges, coverage_index, single as singleIn, subtable, type_of, by_subtables, word_from, child_from, far_from, substitute_from};
ghost use Rattle.gsub_substitute.specs.Found.{farthest, BySubtable};

use gsub::word_at;

// How many numbers a glyph's 16 bits hold.
const GLYPHS: usize = 1 << 16;

// What the first half of a 32-bit number counts.
const HIGH: usize = 1 << 16;

// The lookup types of single substitution and of an Extension.
const SINGLE: usize = 1;

const EXTENSION: usize = 7;

// The table that the offset at `at` of the table at `place` leads to.
fn child(table: &[u8], place: usize, at: usize) -> usize
    requires { (place ≤ farthest) × (at ≤ 4 * capacity 2) }
    ensures { (result ≡ child_from table.now place at) × (result < place + capacity 2) }
{
    place + word_at(table, place + at)
}

// The table that the offset of four bytes there leads to.
fn far_child(table: &[u8], place: usize, at: usize) -> usize
    requires { (place ≤ 3 * capacity 2) × (at ≤ 4 * capacity 2) }
    ensures { (result ≡ far_from table.now place at) × (result ≤ farthest) }
{
    let from = place + at;
    place + (word_at(table, from) * HIGH + word_at(table, from + 2))
}

// A glyph's coverage index in a Coverage of format 1: the number of the first glyph there that it is.
fn in_glyphs(table: &[u8], coverage: usize, glyph: usize) -> Option<usize>
    requires { coverage ≤ farthest + capacity 2 }
    ensures { result ≡ in_glyphs (word_from table.now) (child_from table.now) coverage glyph 0 (word_from table.now coverage 2) }
{
    for i in 0..word_at(table, coverage + 2) {
        if word_at(table, coverage + (4 + 2 * i)) == glyph {
            return Some(i);
        }
    }
    None
}

// In one of format 2: by the first range that holds it.
fn in_ranges(table: &[u8], coverage: usize, glyph: usize) -> Option<usize>
    requires { (coverage ≤ farthest + capacity 2) × (glyph < capacity 2) }
    ensures { result ≡ in_ranges (word_from table.now) (child_from table.now) coverage glyph 0 (word_from table.now coverage 2) }
{
    for i in 0..word_at(table, coverage + 2) {
        let start = word_at(table, coverage + (4 + 6 * i));
        let end = word_at(table, coverage + (6 + 6 * i));
        if (start..=end).contains(&glyph) {
            return Some(word_at(table, coverage + (8 + 6 * i)) + (glyph - start));
        }
    }
    None
}

// In one of either format.
#[tactic(auto, unfolding(gsub::specs::Substitute::coverage_index))]
fn coverage_index(table: &[u8], coverage: usize, glyph: usize) -> Option<usize>
    requires { (coverage ≤ farthest + capacity 2) × (glyph < capacity 2) }
    ensures { result ≡ coverage_index (word_from table.now) (child_from table.now) coverage glyph }
{
    if word_at(table, coverage) == 1 {
        return in_glyphs(table, coverage, glyph);
    }
    in_ranges(table, coverage, glyph)
}

// The substitute of a glyph that the subtable covers.
fn single(table: &[u8], subtable: usize, glyph: usize, index: usize) -> usize
    requires { (subtable ≤ farthest) × (glyph < capacity 2) }
    ensures { (result ≡ singleIn (word_from table.now) (child_from table.now) subtable glyph index) × (result < capacity 2) }
{
    let third = word_at(table, subtable + 4);
    if word_at(table, subtable) == 1 {
        return (glyph + third) % GLYPHS;
    }
    if third <= index {
        return glyph;
    }
    word_at(table, subtable + (6 + 2 * index))
}

// The subtable of number i of a Lookup, behind an Extension where its type is 7.
#[tactic(auto, unfolding(gsub::specs::Substitute::subtable))]
fn subtable_of(table: &[u8], lookup: usize, i: usize) -> usize
    requires { (lookup ≤ 2 * capacity 2) × (i < capacity 2) }
    ensures { (result ≡ subtable (word_from table.now) (child_from table.now) (far_from table.now) lookup i) × (result ≤ farthest) }
{
    let place = child(table, lookup, 6 + 2 * i);
    if word_at(table, lookup) == EXTENSION {
        return far_child(table, place, 4);
    }
    place
}

// Its type, which is the Extension's there.
#[tactic(auto, unfolding(gsub::specs::Substitute::type_of))]
fn type_of(table: &[u8], lookup: usize, i: usize) -> usize
    requires { (lookup ≤ 2 * capacity 2) × (i < capacity 2) }
    ensures { result ≡ type_of (word_from table.now) (child_from table.now) lookup i }
{
    let place = child(table, lookup, 6 + 2 * i);
    let of = word_at(table, lookup);
    if of == EXTENSION {
        return word_at(table, place + 2);
    }
    of
}

// What the subtable of number i makes of the glyph, if it is of type 1 and covers it.
fn by_subtable(table: &[u8], lookup: usize, i: usize, glyph: usize) -> Option<usize>
    requires { (lookup ≤ 2 * capacity 2) × (i < capacity 2) × (glyph < capacity 2) }
    ensures { BySubtable table.now lookup i glyph result }
{
    if type_of(table, lookup, i) != SINGLE {
        return None;
    }
    let subtable = subtable_of(table, lookup, i);
    let index = coverage_index(table, child(table, subtable, 2), glyph)?;
    Some(single(table, subtable, glyph, index))
}

// By the first subtable of a Lookup that is of type 1 and covers the glyph.
fn by_subtables(table: &[u8], lookup: usize, glyph: usize) -> usize
    requires { (lookup ≤ 2 * capacity 2) × (glyph < capacity 2) }
    ensures { (result ≡ by_subtables (word_from table.now) (child_from table.now) (far_from table.now) lookup glyph 0 (word_from table.now lookup 4)) × (result < capacity 2) }
{
    for i in 0..word_at(table, lookup + 4) {
        if let Some(substitute) = by_subtable(table, lookup, i, glyph) {
            return substitute;
        }
    }
    glyph
}

// The glyph that stands for `glyph` after the lookup of this number; the glyph itself where no subtable covers it, or where there is no such lookup.
#[tactic(auto, unfolding(gsub::specs::Substitute::substitute_in))]
pub fn substitute(table: &[u8], lookup: usize, glyph: u16) -> u16
    ensures { result ≡ substitute_from table.now lookup glyph }
{
    let list = child(table, 0, 8);
    if word_at(table, list) <= lookup {
        return glyph;
    }
    let place = child(table, list, 2 + 2 * lookup);
    by_subtables(table, place, glyph as usize) as u16
}
