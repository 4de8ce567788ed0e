// A promotion's answer as twelve numbers.
ghost use Rattle.std.specs.Prelude.{◌≡◌};
ghost use Rattle.gsub_promote.specs.Tried.{told_by_promote, unread_overflow};
ghost use Rattle.gsub_promote.specs.Search.{done_promote, refused_promote};
ghost use Rattle.capi_answer.specs.Promote.{told_in_promote};

use answer::{Overflow, Tally, named_by, nowhere};
use gsub_promote::PromoteAnswer;
use gsub_read::Unread;

#[repr(C)]
#[derive(Clone, Copy)]
pub struct PromoteNumbers {
    pub number: u64,
    pub bytes: u64,
    pub links: u64,
    pub objects: u64,
    pub depth: u64,
    pub id: u64,
    pub length: u64,
    pub parent: u64,
    pub field: u64,
    pub needed: u64,
    pub place: u64,
    pub promoted: u64,
}

fn done(lookups: u64, id: u64, length: u64, t: Tally) -> PromoteNumbers
    ensures { told_in_promote result ≡ done_promote lookups id length t }
{
    PromoteNumbers {
        number: 0,
        bytes: t.bytes as u64,
        links: t.links as u64,
        objects: t.objects as u64,
        depth: t.depth as u64,
        id,
        length,
        parent: 0,
        field: 0,
        needed: 0,
        place: 0,
        promoted: lookups,
    }
}

fn refused(number: u64, o: Overflow, place: u64) -> PromoteNumbers
    ensures { told_in_promote result ≡ refused_promote number o place }
{
    let parent = o.parent;
    PromoteNumbers {
        number,
        bytes: 0,
        links: 0,
        objects: 0,
        depth: 0,
        id: 0,
        length: 0,
        parent: parent.0 as u64,
        field: o.field as u64,
        needed: o.needed as u64,
        place,
        promoted: 0,
    }
}

// The link that it names: only 11 names one.
fn link_of(why: Unread) -> Overflow
    ensures { result ≡ unread_overflow why }
{
    match why {
        Unread::BadTable(_) => nowhere(),
        Unread::Refused(why) => named_by(why),
    }
}

pub fn tell_promote(a: PromoteAnswer) -> PromoteNumbers
    ensures { told_in_promote result ≡ told_by_promote a }
{
    match a {
        Ok(p) => done(p.lookups as u64, p.root.0 as u64, p.length as u64, p.tally),
        Err(why) => refused(u64::from(why), link_of(why), why.place() as u64),
    }
}
