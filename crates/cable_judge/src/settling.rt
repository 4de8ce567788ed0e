// A whole stretch answered.
ghost use Rattle.std.specs.Prelude.{◌≡◌};
ghost use Rattle.cable_judge.specs.Judge.{verdict};
ghost use Rattle.cable_judge.specs.Judged.{still, settled_of};

use crate::answers::NoFrame;
use crate::judging::judge;
use cable_send::sending::FRAME;

// The number of the awaited frame, and how many frames there are: 0 before one is accepted, as a head keeps it.
#[derive(Clone, Copy)]
pub struct Awaiting {
    pub number: u64,
    pub count: u64,
}

// The answer to a stretch, which is how many bytes an accepted frame has, and what is awaited after it.
#[derive(Clone, Copy)]
pub struct Settled {
    pub answer: Result<usize, NoFrame>,
    pub awaiting: Awaiting,
}

impl Awaiting {
    // The same frame is awaited still.
    fn still(self, why: NoFrame) -> Settled
        ensures { result ≡ still self why }
    {
        Settled {
            answer: Err(why),
            awaiting: self,
        }
    }
}

// Answers a whole stretch; an accepted frame's data go to their place in the output.
pub fn settle(awaiting: Awaiting, s: &[u8], out: &mut [u8]) -> Settled
    ensures { (result ≡ settled_of (verdict awaiting.number awaiting.count out.old s.now)) × (out.new ≡ (verdict awaiting.number awaiting.count out.old s.now).out) }
{
    let mut body = [0u8; FRAME];
    let Some(told) = judge(awaiting, s, &mut body) else {
        return awaiting.still(NoFrame::NotAwaited);
    };
    let size = told.size;
    let at = awaiting.number as usize * FRAME;
    if out.len() < at + size {
        return awaiting.still(NoFrame::OutputShort);
    }
    memory_copy::copy(out, at, &body[..size]);
    Settled {
        answer: Ok(size),
        awaiting: Awaiting {
            number: awaiting.number + 1,
            count: u64::from(told.count),
        },
    }
}
