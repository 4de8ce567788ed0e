// Lent slices compared, and looked through for anything but zero.
#![tactic(auto)]

ghost use Rattle.std.specs.Prelude.{◌≡◌};
ghost use Rattle.lists.specs.Lists.{same_list, zeros};

// Whether two slices are the same: their lengths and their last elements first, since objects that begin alike mostly differ there.
pub fn equal<T: PartialEq>(s: &[T], t: &[T]) -> bool
    ensures { result ≡ same_list T.eq s.now t.now }
{
    s.len() == t.len() && s.last() == t.last() && s == t
}

// How many bytes are looked at without a branch.
const RUN: usize = 4096;

// Whether every byte is zero: in runs without a branch, so that each is quick and the look still ends early.
pub fn all_zero(s: &[u8]) -> bool
    ensures { result ≡ zeros s.now }
{
    for run in s.chunks(RUN) {
        if !run_zero(run) {
            return false;
        }
    }
    true
}

// By the bits of all bytes together: quicker than a flag, which asks of each byte whether it is zero.
fn run_zero(run: &[u8]) -> bool
    ensures { result ≡ zeros run.now }
{
    run.iter().fold(0, |all, x| all | *x) == 0
}
