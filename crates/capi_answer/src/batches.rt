// A batch's answer as seven numbers.
ghost use Rattle.std.specs.Prelude.{◌≡◌};
ghost use Rattle.batch.specs.Batch.{told_by_batch};
ghost use Rattle.capi_answer.specs.Batch.{told_in_batch};

use batch::Batched;
use session_batch_turn::end_number;

#[repr(C)]
#[derive(Clone, Copy)]
pub struct BatchNumbers {
    pub number: u64,
    pub bytes: u64,
    pub links: u64,
    pub objects: u64,
    pub depth: u64,
    pub calls: u64,
    pub ids: u64,
}

pub fn tell_batch(a: Batched) -> BatchNumbers
    ensures { told_in_batch result ≡ told_by_batch a }
{
    let ending = a.ending;
    let t = a.tally;
    BatchNumbers {
        number: end_number(ending),
        bytes: t.bytes as u64,
        links: t.links as u64,
        objects: t.objects as u64,
        depth: t.depth as u64,
        calls: a.calls as u64,
        ids: a.told as u64,
    }
}
