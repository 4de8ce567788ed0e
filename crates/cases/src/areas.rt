// Memory to lend from.
ghost use Rattle.std.specs.Prelude.{◌≡◌, ◌≤◌, length};

// The longest byte store, output or put.
const MOST_BYTES: usize = 196608;

// The longest records and work memory.
pub const MOST_WORDS: usize = 512;

// n, or the most that there is.
pub fn at_most(n: u32, most: usize) -> usize
    ensures { result ≤ most }
{
    most.min(n as usize)
}

// Of one byte, as long as any of them may be.
pub fn filled(v: u8) -> [u8; MOST_BYTES]
    ensures { MOST_BYTES ≡ length result }
{
    [v; MOST_BYTES]
}
