// The tags of scripts and features.
ghost use Rattle.std.specs.Prelude.{◌*◌, ◌≤◌, ◌<◌};
ghost use Rattle.big_endian.specs.BigEndian.{capacity};

use gsub::word_at;
use report::text;

// Where the Header has the offsets of its lists.
const SCRIPT_LIST: usize = 4;

const FEATURE_LIST: usize = 6;

// A tag and an offset.
const RECORD: usize = 6;

// A letter of a tag; a question mark where there is none.
fn letter(byte: usize) -> u8 {
    match byte {
        32..=126 => byte as u8,
        _ => b'?',
    }
}

fn tag(to: &impl Print, table: &[u8], at: usize)
    requires { at ≤ 8 * capacity 2 }
{
    let first = word_at(table, at);
    let last = word_at(table, at + 2);
    let four: [u8; 4] = [
        letter(first / 256),
        letter(first % 256),
        letter(last / 256),
        letter(last % 256),
    ];
    text(to, b" ");
    text(to, &four);
}

// The tags of the list at `list`, whose records stand behind their count.
fn tags(to: &impl Print, table: &[u8], list: usize)
    requires { list < capacity 2 }
{
    for i in 0..word_at(table, list) {
        tag(to, table, list + (2 + RECORD * i));
    }
    text(to, b"\n");
}

pub fn scripts(to: &impl Print, table: &[u8]) {
    text(to, b"scripts:");
    tags(to, table, word_at(table, SCRIPT_LIST));
}

pub fn features(to: &impl Print, table: &[u8]) {
    text(to, b"features:");
    tags(to, table, word_at(table, FEATURE_LIST));
}
