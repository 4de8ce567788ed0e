// A line of a job, taken apart: `key=value` and a line feed.
//
// No function asks anything of its caller: any bytes are a line that says something, or a breach, which is None.
#![tactic(auto)]

ghost use Rattle.std.specs.Prelude.{◌≡◌, ◌==◌, position};
ghost use Rattle.job_items.specs.Item.{is_line, value, limit, pairs, piece_item, comma, link_item, end_item, item};

use job_lines::LINE_FEED;
use text::decimal::read_number;
use text::digits::{HEX, all_digits};

// How long a piece line is at the least.
pub const PIECE_LEAST: usize = 6;

const PIECE: [u8; PIECE_LEAST] = *b"piece=";

const LINK: [u8; 5] = *b"link=";

const END: [u8; 4] = *b"end=";

// What the lines behind the limits say.
#[derive(Clone, Copy, PartialEq, Eq)]
pub enum Item {
    Piece,
    Link(u32, u32),
    End(u32),
}

fn is_line(line: &[u8]) -> bool
    ensures { result ≡ is_line line.now }
{
    match line {
        [.., last] => *last == LINE_FEED,
        [] => false,
    }
}

// What stands between a key and the line feed.
fn value<'a>(key: &[u8], line: &'a [u8]) -> &'a [u8]
    ensures { result.now ≡ value key.now line.now }
{
    let end = line.len().saturating_sub(1);
    line.get(key.len()..end).unwrap_or(&[])
}

// The number behind a key, if the line has that key and a number there.
pub fn limit(key: &[u8], line: &[u8]) -> Option<u32>
    ensures { result ≡ limit key.now line.now }
{
    if !is_line(line) {
        return None;
    }
    if !line.starts_with(key) {
        return None;
    }
    read_number(value(key, line))
}

// The hex pairs of a piece line.
pub fn pairs(line: &[u8]) -> &[u8]
    ensures { result.now ≡ pairs line.now }
{
    value(&PIECE, line)
}

fn piece_item(v: &[u8]) -> Option<Item>
    ensures { result ≡ piece_item v.now }
{
    if v.len() % 2 != 0 {
        return None;
    }
    if !all_digits(v, HEX) {
        return None;
    }
    Some(Item::Piece)
}

// Where the first comma stands.
fn comma(v: &[u8]) -> Option<usize>
    ensures { result ≡ position (λ c. c == comma) v.now }
{
    v.iter().position(|c| *c == b',')
}

// The numbers before and behind the first comma.
fn link_item(v: &[u8]) -> Option<Item>
    ensures { result ≡ link_item v.now }
{
    let k = comma(v)?;
    let width = read_number(&v[..k])?;
    let number = read_number(&v[k + 1..])?;
    Some(Item::Link(width, number))
}

fn end_item(v: &[u8]) -> Option<Item>
    ensures { result ≡ end_item v.now }
{
    read_number(v).map(Item::End)
}

// What a line behind the limits says; None where it is a breach.
pub fn item_of(line: &[u8]) -> Option<Item>
    ensures { result ≡ item line.now }
{
    if !is_line(line) {
        return None;
    }
    if line.starts_with(&PIECE) {
        return piece_item(pairs(line));
    }
    if line.starts_with(&LINK) {
        return link_item(value(&LINK, line));
    }
    if line.starts_with(&END) {
        return end_item(value(&END, line));
    }
    None
}
