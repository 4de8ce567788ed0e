// A read's answer as seven numbers.
ghost use Rattle.std.specs.Prelude.{◌≡◌};
ghost use Rattle.gsub_read.specs.Read.{told_by_read};
ghost use Rattle.capi_answer.specs.Numbers.{told_in_read};

use answer::Tally;
use gsub_read::ReadAnswer;

#[repr(C)]
#[derive(Clone, Copy)]
pub struct ReadNumbers {
    pub number: u64,
    pub bytes: u64,
    pub links: u64,
    pub objects: u64,
    pub depth: u64,
    pub id: u64,
    pub place: u64,
}

fn as_read(number: u64, t: Tally, id: u64, place: u64) -> ReadNumbers
    ensures { told_in_read result ≡ record { number = number; id = id; place = place; tally = t } }
{
    ReadNumbers {
        number,
        bytes: t.bytes as u64,
        links: t.links as u64,
        objects: t.objects as u64,
        depth: t.depth as u64,
        id,
        place,
    }
}

pub fn tell_read(a: ReadAnswer) -> ReadNumbers
    ensures { told_in_read result ≡ told_by_read a }
{
    match a {
        Ok(read) => as_read(0, read.tally, read.root.0 as u64, 0),
        Err(why) => as_read(u64::from(why), Tally::none(), 0, why.place() as u64),
    }
}
