// The head's bytes: four numbers, then the text that is held of the stretch under way.
ghost use Rattle.std.specs.Prelude.{◌≡◌, [], ◌+◌, ◌≤◌, length};
ghost use Rattle.lists.specs.Lists.{over};
ghost use Rattle.cable_head.specs.Feed.{number_size, held_at, head_need, number_at, len_of, awaiting_in, numbers, head_with, stretch_with, head_on};

use cable_judge::settling::Awaiting;

// How wide a number is, and where each stands.
const NUMBER: usize = 4;

const LEN_AT: usize = 0;

pub const LINE_AT: usize = 4;

const AWAITED_AT: usize = 8;

const COUNT_AT: usize = 12;

// Where the held text stands, how many bytes of a stretch are held, more than any frame has, and how long a head is at least.
pub const HELD_AT: usize = 16;

pub const HELD: usize = 1077;

pub const NEED: usize = HELD_AT + HELD;

pub fn number_at(head: &[u8], at: usize) -> u64
    requires { at + number_size ≤ length head.now }
    ensures { result ≡ number_at at head.now }
{
    big_endian::read(head, at, NUMBER)
}

// How many bytes are held: a greater number than there is room for counts as all of it.
pub fn len_of(head: &[u8]) -> usize
    requires { head_need ≤ length head.now }
    ensures { result ≡ len_of head.now }
{
    number_at(head, LEN_AT).min(HELD as u64) as usize
}

pub fn awaiting_of(head: &[u8]) -> Awaiting
    requires { held_at ≤ length head.now }
    ensures { result ≡ awaiting_in head.now }
{
    Awaiting {
        number: number_at(head, AWAITED_AT),
        count: number_at(head, COUNT_AT),
    }
}

fn put_numbers(head: &mut [u8], len: usize, line: u64, awaiting: Awaiting)
    requires { held_at ≤ length head.old }
    ensures { head.new ≡ over 0 (numbers len line awaiting.number awaiting.count) head.old }
{
    big_endian::write(head, LEN_AT, NUMBER, len as u64);
    big_endian::write(head, LINE_AT, NUMBER, line);
    big_endian::write(head, AWAITED_AT, NUMBER, awaiting.number);
    big_endian::write(head, COUNT_AT, NUMBER, awaiting.count);
}

// Holds t behind what is held, as far as there is room; tells how many bytes are then held.
fn keep(head: &mut [u8], t: &[u8]) -> usize
    requires { head_need ≤ length head.old }
    ensures { (result ≡ length (stretch_with head.old t.now)) × (head.new ≡ over held_at (stretch_with head.old t.now) head.old) }
{
    let len = len_of(head);
    let more = t.len().min(HELD - len);
    memory_copy::copy(head, HELD_AT + len, &t[..more]);
    len + more
}

// The stretch goes on with t, its last line as `line` says.
pub fn hold(head: &mut [u8], t: &[u8], line: u64)
    requires { head_need ≤ length head.old }
    ensures { head.new ≡ head_on line t.now head.old }
{
    let awaiting = awaiting_of(head);
    let end = keep(head, t);
    put_numbers(head, end, line, awaiting);
}

// The next stretch begins. The held text stands as it was: none of it counts.
pub fn begin(head: &mut [u8], awaiting: Awaiting)
    requires { head_need ≤ length head.old }
    ensures { head.new ≡ head_with [] 0 awaiting.number awaiting.count head.old }
{
    put_numbers(head, 0, 0, awaiting);
}
