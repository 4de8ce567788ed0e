// How a child is read, by how its parent is.
ghost use Rattle.std.specs.Prelude.{◌≡◌, ◌&&◌, ◌≤◌};
ghost use Rattle.lists.specs.Lists.{pick};
ghost use Rattle.gsub.specs.Tables.{word_at};
ghost use Rattle.gsub.specs.Promote.{promotes as promotedOf, is_last, child_mode};
ghost use Rattle.gsub.specs.declared.Mode.TheVariants.{Plain, Promoted};
ghost use Rattle.gsub_rows.specs.Fields.{farthest};

use gsub::{Kind, Mode, Scope, word_at};

// The type of single substitution, the one that is not promoted, and the last.
const SINGLE: usize = 1;

const EXTENSION: usize = 7;

const LAST_TYPE: usize = 8;

// A lookup of this type is promoted.
#[tactic(auto, unfolding(gsub::specs::Promote::promotes))]
fn promotes(scope: Scope, number: usize) -> bool
    ensures { result ≡ promotedOf scope number }
{
    match scope {
        Scope::Single => number == SINGLE,
        Scope::Whole => number != EXTENSION && (SINGLE..=LAST_TYPE).contains(&number),
    }
}

// A Lookup of the list at `place`, whose offset stands at `at`.
fn in_list(table: &[u8], scope: Scope, last: usize, place: usize, at: usize, lookup: usize) -> Mode
    requires { (place ≤ farthest) × (lookup ≤ farthest) }
    ensures { result ≡ pick (is_last last table.now place at && promotedOf scope (word_at table.now lookup)) Promoted Plain }
{
    if at < 2 + 2 * word_at(table, place).saturating_sub(last) {
        return Mode::Plain;
    }
    if promotes(scope, word_at(table, lookup)) {
        return Mode::Promoted;
    }
    Mode::Plain
}

// A child of this kind of a table in a mode.
#[tactic(auto, unfolding(gsub::specs::Promote::by_kind))]
pub fn child_mode(
    table: &[u8],
    mode: Mode,
    place: usize,
    at: usize,
    kind: Kind,
    child: usize,
) -> Mode
    requires { (place ≤ farthest) × (child ≤ farthest) }
    ensures { result ≡ child_mode table.now mode place at kind child }
{
    match mode {
        Mode::Plain | Mode::New(_) => Mode::Plain,
        Mode::Last(n) => match kind {
            Kind::LookupList(_) => mode,
            Kind::Lookup(scope) => in_list(table, scope, n, place, at, child),
            _ => Mode::Plain,
        },
        Mode::Promoted => Mode::New(word_at(table, place)),
    }
}
