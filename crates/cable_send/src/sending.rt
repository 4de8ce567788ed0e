// A whole table sent as text.
ghost use Rattle.std.specs.Prelude.{◌≡◌, ◌≤◌, length};
ghost use Rattle.lists.specs.Lists.{over};
ghost use Rattle.cable_frame.specs.Frame.{frame_count, most_bytes, sent};
ghost use Rattle.cable_send.specs.Send.{send_of, send_out};

use answer::Refusal;
use cable_frame::framing::Place;

// How many bytes of a table a frame holds, how many frames there are at most, and how many bytes these hold.
pub const FRAME: usize = 512;

pub const MOST_FRAMES: usize = 32768;

const MOST_BYTES: usize = MOST_FRAMES * FRAME;

// How long a table's text is.
fn text_length(table: &[u8], count: u32) -> usize
    requires { (length table.now ≤ most_bytes) × (count ≡ frame_count table.now) }
    ensures { result ≡ length (sent table.now) }
{
    let mut sum = 0;
    for (i, part) in table.chunks(FRAME).enumerate() {
        let number = i as u32;
        sum += Place { number, count }.length_of(part.len());
    }
    sum
}

// Writes a table's text over the front of `out`.
fn put_frames(table: &[u8], count: u32, out: &mut [u8])
    requires { (length table.now ≤ most_bytes) × (count ≡ frame_count table.now) × (length (sent table.now) ≤ length out.old) }
    ensures { out.new ≡ over 0 (sent table.now) out.old }
{
    let mut at = 0;
    for (i, part) in table.chunks(FRAME).enumerate() {
        let number = i as u32;
        at = Place { number, count }.put_frame(out, at, part);
    }
}

// Sends a table over the front of `out`, and tells how long its text is. An empty one or one of more bytes than all frames hold is out of range, told
// first; a text that `out` has no room for is told too. Both write nothing.
#[tactic(auto, unfolding(crate::specs::Send::send_of, crate::specs::Send::send_out))]
pub fn send(table: &[u8], out: &mut [u8]) -> Result<usize, Refusal>
    ensures { (result ≡ send_of table.now (length out.old)) × (out.new ≡ send_out table.now out.old) }
{
    if table.is_empty() || MOST_BYTES < table.len() {
        return Err(Refusal::OutOfRange);
    }
    let count = table.len().div_ceil(FRAME) as u32;
    let need = text_length(table, count);
    if out.len() < need {
        return Err(Refusal::OutputShort);
    }
    put_frames(table, count, out);
    Ok(need)
}
