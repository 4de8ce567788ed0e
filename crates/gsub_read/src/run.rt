// A table's walk, made on a session move by move.
ghost use Rattle.std.specs.Prelude.{◌≡◌, true};
ghost use Rattle.layout.specs.Sound.{sound};
ghost use Rattle.steps.specs.Runs.{stores};
ghost use Rattle.gsub_walk.specs.Rest.{Standing, rest_of};
ghost use Rattle.gsub_read.specs.Perform.{RanBy};
ghost use Rattle.gsub.specs.declared.Kind.TheVariants.{Header};
ghost use Rattle.gsub.specs.Meaning.{deepest};
ghost use Rattle.gsub.specs.Promote.{mode_ops};
ghost use Rattle.gsub_rows.specs.Fields.{Fits};

use crate::perform::{Performed, begin, perform};
use answer::ObjectId;
use gsub::{Kind, Mode, Scope};
use gsub_walk::walk::{Walk, begun, step};

// To the walk's end, or to the first refusal.
fn run(
    store: &mut [u8],
    records: &mut [u32],
    table: &[u8],
    mut walk: Walk,
    first: ObjectId,
) -> Performed
    requires { (sound store.old records.old ≡ true) × Standing walk }
    ensures { RanBy (rest_of table.now walk) first.0 (stores store.old records.old) result (stores store.new records.new) }
{
    let mut last = first;
    while 0 < walk.depth {
        let m = step(table, &mut walk);
        last = perform(store, records, table, m, last)?;
    }
    Ok(last)
}

// The whole table in a mode, into a session that is begun.
pub fn read_begun(
    store: &mut [u8],
    records: &mut [u32],
    table: &[u8],
    scope: Scope,
    mode: Mode,
) -> Performed
    requires { (sound store.old records.old ≡ true) × Fits mode (Header scope) }
    ensures { RanBy (mode_ops deepest table.now mode (Header scope) 0) 0 (stores store.old records.old) result (stores store.new records.new) }
{
    let id = begin(store, records, ObjectId(0))?;
    let w = begun(mode, Kind::Header(scope), 0);
    run(store, records, table, w, id)
}
