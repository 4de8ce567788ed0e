// The fields of a table, by the numbers in it.
ghost use Rattle.std.specs.Prelude.{◌≡◌, ◌+◌, ◌<◌, ◌≤◌, ◌^◌};
ghost use Rattle.big_endian.specs.BigEndian.{capacity};
ghost use Rattle.gsub.specs.Tables.{word_at, fields_at, often as oftenOf, laid};
ghost use Rattle.gsub.specs.declared.Mode.TheVariants.{Promoted};
ghost use Rattle.gsub.specs.Promote.{bytes_in, place_in};
ghost use Rattle.gsub_rows.specs.Fields.{Found, IsLookup, Fits, farthest};
ghost use Rattle.gsub_rows.specs.Rows.{as_times, shape_of, RightRow};

use crate::rows::row_of;
use crate::runs::{Run, Times};
use gsub::{EXTENSION_SIZE, Field, Kind, Mode, NEW, word_at};

// The bytes of a count.
const COUNT: usize = 2;

// Where a table's second number stands.
const SECOND: usize = 2;

// Where lookupFlag stands in a Lookup, and its bit USE_MARK_FILTERING_SET.
const LOOKUP_FLAG: usize = 2;

const USE_MARK_FILTERING_SET: usize = 16;

// The lookupType of a promoted Lookup.
const EXTENSION_TYPE: usize = 7;

// How often the fields of a run stand at `at` of the table at `place`.
#[tactic(auto, unfolding(gsub::specs::Tables::often))]
fn often(table: &[u8], place: usize, at: usize, by: Times) -> usize
    requires { (place ≤ farthest) × (at ≤ 2 ^ 32) }
    ensures { (result ≡ oftenOf (λ i. word_at table.now (place + i)) at (as_times by)) × (result < capacity 2) }
{
    match by {
        Times::Once => 1,
        Times::Count(from, fewer) => {
            let count = word_at(table, place + usize::from(from));
            count.saturating_sub(usize::from(fewer))
        }
        Times::Before(fewer) => {
            let count = word_at(table, place + at.saturating_sub(COUNT));
            count.saturating_sub(usize::from(fewer))
        }
        Times::Marked => word_at(table, place + LOOKUP_FLAG) / USE_MARK_FILTERING_SET % 2,
    }
}

// The field of number `index` of the runs of a row, which begin the table at `place`.
fn in_runs(table: &[u8], place: usize, row: &[Run], index: usize) -> Option<Field>
    requires { (place ≤ farthest) × RightRow row.now }
    ensures { Found (laid (λ i. word_at table.now (place + i)) 0 (shape_of row.now)) index result }
{
    let mut at = 0;
    let mut left = index;
    for run in row {
        let n = often(table, place, at, run.by);
        let fields = n * run.each.len();
        if left < fields {
            return Some(run.each[left % run.each.len()]);
        }
        left -= fields;
        at += n * run.size;
    }
    None
}

// The field of number `index` of the table of this kind at `place`.
fn next_field(table: &[u8], kind: Kind, place: usize, index: usize) -> Option<Field>
    requires { place ≤ farthest }
    ensures { Found (fields_at table.now kind place) index result }
{
    let row = row_of(kind, word_at(table, place), word_at(table, place + SECOND));
    in_runs(table, place, row, index)
}

// The lookupType of a promoted Lookup at `place`: as the bytes that it is read from have it, which are none past the slice's end.
fn promoted_type(table: &[u8], place: usize) -> usize
    requires { place ≤ farthest }
    ensures { result ≡ word_at (bytes_in table.now Promoted place) place }
{
    if table.len() < place + SECOND {
        return 0;
    }
    EXTENSION_TYPE
}

// Of a promoted Lookup.
fn next_promoted(table: &[u8], kind: Kind, place: usize, index: usize) -> Option<Field>
    requires { (place ≤ farthest) × IsLookup kind }
    ensures { Found (fields_at (bytes_in table.now Promoted place) kind place) index result }
{
    let row = row_of(
        kind,
        promoted_type(table, place),
        word_at(table, place + SECOND),
    );
    in_runs(table, place, row, index)
}

// Of the table as it is read in this mode.
#[tactic(auto, unfolding(crate::specs::Fields::Fits))]
pub fn next_in(table: &[u8], mode: Mode, kind: Kind, place: usize, index: usize) -> Option<Field>
    requires { (place ≤ farthest) × Fits mode kind }
    ensures { Found (fields_at (bytes_in table.now mode place) kind (place_in mode place)) index result }
{
    match mode {
        Mode::Plain | Mode::Last(_) => next_field(table, kind, place, index),
        Mode::Promoted => next_promoted(table, kind, place, index),
        Mode::New(number) => next_field(&NEW, kind, EXTENSION_SIZE * number, index),
    }
}
