// One trial: a read with the last n lookups promoted, and the pack of its root.
ghost use Rattle.std.specs.Prelude.{◌≡◌};
ghost use Rattle.steps.specs.Runs.{stores};
ghost use Rattle.gsub_promote.specs.Search.{lent, trial};
ghost use Rattle.gsub_promote.specs.Tried.{TriedBy};

use crate::answers::Promoted;
use answer::Refusal;
use gsub::{Mode, Scope};
use gsub_read::{Unread, read_in};
use pack::pack_sound;

// No copies are made.
const COPIES: u32 = 0;

// The read's refusal, with the session as it is to stay; or the pack's, which leaves the table in the session.
pub type Tried = Result<Result<Promoted, Refusal>, Unread>;

pub fn try_last(
    store: &mut [u8],
    records: &mut [u32],
    objects: u32,
    links: u32,
    table: &[u8],
    scope: Scope,
    n: usize,
    out: &mut [u8],
    work: &mut [u64],
) -> Tried
    ensures { TriedBy objects links n (lent (stores store.old records.old) out.old work.old) (trial scope table.now objects links n (lent (stores store.old records.old) out.old work.old)) result (lent (stores store.new records.new) out.new work.new) }
{
    let read = read_in(store, records, objects, links, table, scope, Mode::Last(n))?;
    match pack_sound(store, records, read.root, COPIES, out, work) {
        Ok(packed) => Ok(Ok(Promoted {
            lookups: n,
            root: read.root,
            length: packed.table.length,
            tally: read.tally,
        })),
        Err(refused) => Ok(Err(refused.why)),
    }
}
