// The least number of last lookups of a GSUB table whose promotion packs.
//
// It ends and answers on any memory and any table, and asks nothing of its caller. The other functions do its work.
#![tactic(auto)]

mod answers;
mod trial;

ghost use Rattle.std.specs.Prelude.{◌≡◌, ◌&&◌, eqb, ltb};
ghost use Rattle.answer.specs.Number.{number};
ghost use Rattle.steps.specs.Runs.{stores};
ghost use Rattle.gsub.specs.declared.Scope.TheVariants.{Single, Whole};
ghost use Rattle.gsub_promote.specs.Search.{lent, promote_left, promote_step};
ghost use Rattle.gsub_promote.specs.Tried.{told_by_promote};

use answer::Refusal;
pub use answers::{PromoteAnswer, Promoted};
use gsub::{Scope, word_at};
use gsub_read::Unread;
use session::start;
use trial::try_last;

// Where the Header has the offset of its LookupList.
const LOOKUP_LIST: usize = 8;

// Whether a pack that was refused so is tried again, with one lookup more than n promoted: only 11, and while there is one.
fn goes_on(why: Refusal, n: usize, most: usize) -> bool
    ensures { result ≡ (eqb (number why) 11 && ltb n most) }
{
    let Refusal::Overflow(_) = why else {
        return false;
    };
    n < most
}

// A promotion in a scope: the table is read with none, one, .. all of its last lookups promoted, each time into a session that is started anew, and packed
// without copies, until a pack is not refused 11.
fn promote_in(
    store: &mut [u8],
    records: &mut [u32],
    objects: u32,
    links: u32,
    table: &[u8],
    scope: Scope,
    out: &mut [u8],
    work: &mut [u64],
) -> PromoteAnswer
    ensures { promote_left (told_by_promote result) (stores store.new records.new) out.new work.new ≡ promote_step scope table.now objects links (lent (stores store.old records.old) out.old work.old) }
{
    let most = word_at(table, word_at(table, LOOKUP_LIST));
    let mut n = 0;
    loop {
        match try_last(store, records, objects, links, table, scope, n, out, work)? {
            Ok(promoted) => return Ok(promoted),
            Err(why) if goes_on(why, n, most) => n += 1,
            Err(why) => {
                let _ = start(store, records, objects, links);
                return Err(Unread::Refused(why));
            }
        }
    }
}

// Of version 1.0, with single substitution alone. 13, 15, 6, 7, 8 and 16 as a read tells them, and 13, 11 and 10 as the pack. After a refusal the session is
// as freshly started; where that is the start's own 13, all is as it was.
pub fn promote_gsub(
    store: &mut [u8],
    records: &mut [u32],
    objects: u32,
    links: u32,
    table: &[u8],
    out: &mut [u8],
    work: &mut [u64],
) -> PromoteAnswer
    ensures { promote_left (told_by_promote result) (stores store.new records.new) out.new work.new ≡ promote_step Single table.now objects links (lent (stores store.old records.old) out.old work.old) }
{
    promote_in(
        store,
        records,
        objects,
        links,
        table,
        Scope::Single,
        out,
        work,
    )
}

// The same of versions 1.0 and 1.1, with every lookup type.
pub fn promote_gsub_whole(
    store: &mut [u8],
    records: &mut [u32],
    objects: u32,
    links: u32,
    table: &[u8],
    out: &mut [u8],
    work: &mut [u64],
) -> PromoteAnswer
    ensures { promote_left (told_by_promote result) (stores store.new records.new) out.new work.new ≡ promote_step Whole table.now objects links (lent (stores store.old records.old) out.old work.old) }
{
    promote_in(
        store,
        records,
        objects,
        links,
        table,
        Scope::Whole,
        out,
        work,
    )
}
