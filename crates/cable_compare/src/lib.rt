// A stretch compared with a frame as sending writes it: its lines with the ones that sending writes, but for the data's, whose digits are only looked at
// as they are read.
#![tactic(auto)]

ghost use Rattle.std.specs.Prelude.{◌≡◌, ◌+◌, ◌*◌, ◌≤◌, eqb, length};
ghost use Rattle.lists.specs.Lists.{same_list};
ghost use Rattle.cable_frame.specs.Frame.{frame_size};
ghost use Rattle.cable_compare.specs.Compare.{behind_data, data_from, front_of, behind_with, Compares};

use cable_data::read_pairs;
use cable_frame::framing::Place;
use cable_frame::lines::{put_check, put_number};

// How many characters stand before the count besides the number, between the count and the data, and behind the data.
pub const BEFORE_COUNT: usize = 10;

const BEFORE_DATA: usize = 6;

pub const BEHIND_DATA: usize = 16;

// How many characters stand before the data at most.
const FRONT: usize = 36;

// Where the data stand in a frame.
pub fn data_from(place: Place) -> usize
    ensures { result ≡ data_from place.number place.count }
{
    text::decimal::width(place.number)
        + BEFORE_COUNT
        + text::decimal::width(place.count)
        + BEFORE_DATA
}

// Whether what stands before the data in a frame is what stands in front of a stretch.
fn is_front(front: &[u8], place: Place) -> bool
    ensures { result ≡ same_list eqb front.now (front_of place.number place.count) }
{
    let mut again = [0u8; FRONT];
    let a = put_number(&mut again, 0, b"frame=", place.number);
    let b = put_number(&mut again, a, b"of=", place.count);
    let key = b"data=";
    memory_copy::copy(&mut again, b, key);
    let end = b + key.len();
    memory_compare::equal(front, &again[..end])
}

// Whether a line feed and the check's line are what stands behind the data in a stretch.
fn is_behind(behind: &[u8], check: u32) -> bool
    ensures { result ≡ same_list eqb behind.now (behind_with check) }
{
    let mut again = [0u8; BEHIND_DATA];
    again[0] = b'\n';
    put_check(&mut again, 1, check);
    memory_compare::equal(behind, &again)
}

// Whether a stretch is the frame at a place with its data of `size` bytes, as sending writes it; if so the data go to the front of `body`.
pub fn is_text(s: &[u8], place: Place, size: usize, body: &mut [u8]) -> bool
    requires { (data_from place.number place.count + size * 2 + behind_data ≤ length s.now) × (size ≤ frame_size) × (frame_size ≤ length body.old) }
    ensures { Compares place.number place.count size s.now result body.new }
{
    let at = data_from(place);
    let end = at + size * 2;
    if !is_front(&s[..at], place) {
        return false;
    }
    let p = read_pairs(place.check_begun(), body, &s[at..end]);
    if !p.all {
        return false;
    }
    is_behind(&s[end..], cable_crc::finish(p.remainder))
}
