// A whole stretch judged: whether it is the awaited frame as sending writes it. What it tells is read; then it is compared with that frame.
ghost use Rattle.std.specs.Prelude.{◌≡◌, ◌≤◌, ◌<◌, length};
ghost use Rattle.cable_frame.specs.Frame.{frame_size};
ghost use Rattle.cable_judge.specs.Judge.{told_count, told_size, agrees, right_size};
ghost use Rattle.cable_judge.specs.Judged.{weighed, Judges};

use crate::settling::Awaiting;
use cable_compare::{BEFORE_COUNT, BEHIND_DATA, data_from, is_text};
use cable_frame::framing::Place;
use cable_send::sending::{FRAME, MOST_FRAMES};

// What the awaited frame tells: how many frames there are, and how many bytes of data it has.
#[derive(Clone, Copy)]
pub struct Judged {
    pub count: u32,
    pub size: usize,
}

// The count that a stretch tells as frame n, 0 where there is none.
fn told_count(n: u32, s: &[u8]) -> u32
    ensures { result ≡ told_count n s.now }
{
    let Some(rest) = s.get(text::decimal::width(n) + BEFORE_COUNT..) else {
        return 0;
    };
    let end = text::digits::span(rest, text::digits::DECIMAL);
    text::decimal::read_number(&rest[..end]).unwrap_or(0)
}

// How many bytes of data a stretch has as the frame at a place.
fn told_size(place: Place, s: &[u8]) -> usize
    ensures { result ≡ told_size place.number place.count s.now }
{
    s.len().saturating_sub(data_from(place) + BEHIND_DATA) / 2
}

fn agreed(count: u64, m: u64) -> bool
    ensures { result ≡ agrees count m }
{
    count == 0 || count == m
}

fn right_size(place: Place, size: usize) -> bool
    requires { place.number < place.count }
    ensures { result ≡ right_size place.number place.count size }
{
    1 <= size && size <= FRAME && (size == FRAME || place.number + 1 == place.count)
}

// What a stretch tells as frame n, where count and size are right.
#[tactic(auto, unfolding(crate::specs::Judged::weighed, lists::specs::Lists::holds))]
fn weigh(number: u32, count: u64, s: &[u8]) -> Option<Judged>
    ensures { result ≡ weighed number count s.now }
{
    let m = told_count(number, s);
    if m <= number || MOST_FRAMES < m as usize {
        return None;
    }
    let place = Place { number, count: m };
    let size = told_size(place, s);
    (agreed(count, u64::from(m)) && right_size(place, size)).then_some(Judged { count: m, size })
}

fn judge_as(number: u32, count: u64, s: &[u8], body: &mut [u8]) -> Option<Judged>
    requires { frame_size ≤ length body.old }
    ensures { Judges number count s.now result body.new }
{
    let told = weigh(number, count, s)?;
    let place = Place {
        number,
        count: told.count,
    };
    is_text(s, place, told.size, body).then_some(told)
}

// Judges a stretch as the awaited frame; its data go to the front of `body`. A number that no frame has is not awaited by any.
pub fn judge(awaiting: Awaiting, s: &[u8], body: &mut [u8]) -> Option<Judged>
    requires { frame_size ≤ length body.old }
    ensures { Judges awaiting.number awaiting.count s.now result body.new }
{
    if MOST_FRAMES as u64 <= awaiting.number {
        return None;
    }
    judge_as(awaiting.number as u32, awaiting.count, s, body)
}
