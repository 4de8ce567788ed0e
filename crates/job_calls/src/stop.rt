// Why no line follows a line.
ghost use Rattle.std.specs.Prelude.{◌≡◌};
ghost use Rattle.job_calls.specs.Stops.{number_of};
ghost use Rattle.job_calls.specs.declared.stop.Stop.TheVariants.{Call};

use answer::{Refusal, Refused};
use job_rules::BREACH;

// It breaks the layout, or one of its calls is refused.
#[derive(Clone, Copy)]
pub enum Stop {
    Breach,
    Call(Refusal),
}

impl From<Refused> for Stop {
    ghost from_gives = { λ r s. s ≡ Call r.why };

    fn from(r: Refused) -> Stop {
        Stop::Call(r.why)
    }
}

// The number that is told of it.
impl From<Stop> for u64 {
    ghost from_gives = { λ s n. n ≡ number_of s };

    fn from(s: Stop) -> u64 {
        match s {
            Stop::Breach => BREACH,
            Stop::Call(why) => why.into(),
        }
    }
}
