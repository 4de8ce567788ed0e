// A GSUB table read into a session, one object for each of its tables.
//
// It ends and answers on any memory and any table, and asks nothing of its caller. The other functions do its work on stores that are known to
// be sound.
#![tactic(auto)]

mod answers;
mod perform;
mod run;

ghost use Rattle.std.specs.Prelude.{◌≡◌};
ghost use Rattle.steps.specs.Runs.{stores};
ghost use Rattle.gsub.specs.declared.Scope.TheVariants.{Single, Whole};
ghost use Rattle.gsub.specs.declared.Kind.TheVariants.{Header};
ghost use Rattle.gsub.specs.Meaning.{deepest};
ghost use Rattle.gsub.specs.Promote.{mode_ops};
ghost use Rattle.gsub_rows.specs.Fields.{Fits};
ghost use Rattle.gsub_read.specs.Read.{told_by_read, read_left, ops_step, read_step};

pub use answers::{Read, ReadAnswer, Unread};
use gsub::{Mode, Scope};
use run::read_begun;
use session::{start, tally_sound};

// A read in a scope and a mode, for proved callers.
pub fn read_in(
    store: &mut [u8],
    records: &mut [u32],
    objects: u32,
    links: u32,
    table: &[u8],
    scope: Scope,
    mode: Mode,
) -> ReadAnswer
    requires { Fits mode (Header scope) }
    ensures { read_left (told_by_read result) store.new records.new ≡ ops_step (mode_ops deepest table.now mode (Header scope) 0) objects links (stores store.old records.old) }
{
    start(store, records, objects, links)?;
    match read_begun(store, records, table, scope, mode) {
        Ok(root) => Ok(Read {
            root,
            tally: tally_sound(store, records),
        }),
        Err(why) => {
            let _ = start(store, records, objects, links);
            Err(why)
        }
    }
}

// The session is started with these limits, and the table read into it: of version 1.0, with single substitution alone. 13 as start tells it; 15 with the
// place of the first field that no such table has there; 6, 7, 8 and 16 as the session tells them. After any refusal but 13 the session is as freshly started.
pub fn read_gsub(
    store: &mut [u8],
    records: &mut [u32],
    objects: u32,
    links: u32,
    table: &[u8],
) -> ReadAnswer
    ensures { read_left (told_by_read result) store.new records.new ≡ read_step Single table.now objects links (stores store.old records.old) }
{
    read_in(
        store,
        records,
        objects,
        links,
        table,
        Scope::Single,
        Mode::Plain,
    )
}

// The same of versions 1.0 and 1.1, with every lookup type.
pub fn read_gsub_whole(
    store: &mut [u8],
    records: &mut [u32],
    objects: u32,
    links: u32,
    table: &[u8],
) -> ReadAnswer
    ensures { read_left (told_by_read result) store.new records.new ≡ read_step Whole table.now objects links (stores store.old records.old) }
{
    read_in(
        store,
        records,
        objects,
        links,
        table,
        Scope::Whole,
        Mode::Plain,
    )
}
