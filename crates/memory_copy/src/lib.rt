// Bytes copied from one slice to another.
#![tactic(auto)]

ghost use Rattle.std.specs.Prelude.{◌≡◌, ◌+◌, ◌≤◌, ◌<◌, length, take, drop};
ghost use Rattle.lists.specs.Lists.{over};

// N bytes of `src` from i on, to where they belong if all of it is written from `at` on. All are read before one is written, so that they are one
// wide move.
fn step<const N: usize>(s: &mut [u8], at: usize, src: &[u8], i: usize)
    requires { (at + length src.now ≤ length s.old) × (i + N ≤ length src.now) }
    ensures { s.new ≡ over (at + i) (take N (drop i src.now)) s.old }
{
    let mut bytes = [0u8; N];
    bytes.copy_from_slice(&src[i..i + N]);
    s[at + i..at + i + N].copy_from_slice(&bytes);
}

// Four to eight bytes in two steps, which may overlap.
fn copy_4(s: &mut [u8], at: usize, src: &[u8])
    requires { (at + length src.now ≤ length s.old) × (4 ≤ length src.now) × (length src.now ≤ 8) }
    ensures { s.new ≡ over at src.now s.old }
{
    step::<4>(s, at, src, 0);
    step::<4>(s, at, src, src.len() - 4);
}

// Eight to 32 bytes in four steps, which may overlap: so that no branch goes by how many there are.
fn copy_8(s: &mut [u8], at: usize, src: &[u8])
    requires { (at + length src.now ≤ length s.old) × (8 ≤ length src.now) × (length src.now ≤ 32) }
    ensures { s.new ≡ over at src.now s.old }
{
    let last = src.len() - 8;
    step::<8>(s, at, src, 0);
    step::<8>(s, at, src, last.min(8));
    step::<8>(s, at, src, last.min(16));
    step::<8>(s, at, src, last);
}

// So many bytes are copied most quickly: no branch and no step goes by how many there are.
pub const WIDE: usize = 48;

// N bytes or more in steps of N, of which the last may overlap the one before.
fn copy_more<const N: usize>(s: &mut [u8], at: usize, src: &[u8])
    requires { (at + length src.now ≤ length s.old) × (0 < N) × (N ≤ length src.now) }
    ensures { s.new ≡ over at src.now s.old }
{
    let last = src.len() - N;
    for i in (0..last).step_by(N) {
        step::<N>(s, at, src, i);
    }
    step::<N>(s, at, src, last);
}

// How many bytes are copied in steps of eight at most, and how many a step has where there are more.
const MANY: usize = 128;

const LONG: usize = 32;

// Writes all of `src` over the bytes from `at` on. A few bytes go in steps: where a loop over them ends is hard to foretell.
#[inline(never)]
pub fn copy(s: &mut [u8], at: usize, src: &[u8])
    requires { at + length src.now ≤ length s.old }
    ensures { s.new ≡ over at src.now s.old }
{
    match src.len() {
        WIDE => step::<WIDE>(s, at, src, 0),
        0..4 => {
            for (i, b) in src.iter().enumerate() {
                s[at + i] = *b;
            }
        }
        4..8 => copy_4(s, at, src),
        8..=32 => copy_8(s, at, src),
        33..=MANY => copy_more::<8>(s, at, src),
        _ => copy_more::<LONG>(s, at, src),
    }
}
