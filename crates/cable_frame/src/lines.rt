// The lines of a frame, each written over a part of a slice. Each tells where the next begins.
ghost use Rattle.std.specs.Prelude.{◌≡◌, ◌+◌, ◌≤◌, length};
ghost use Rattle.lists.specs.Lists.{over};
ghost use Rattle.text.specs.Decimal.{decimal};
ghost use Rattle.text_hex.specs.Hex.{hex_word, hex_pairs};
ghost use Rattle.cable_frame.specs.Frame.{data_key, check_key, line_of, number_length, body_length, check_length};

const CHECK_DIGITS: usize = 8;

// A key and a number in decimal.
pub fn put_number(out: &mut [u8], at: usize, key: &[u8], n: u32) -> usize
    requires { at + number_length (length key.now) n ≤ length out.old }
    ensures { (result ≡ at + number_length (length key.now) n) × (out.new ≡ over at (line_of key.now (decimal n)) out.old) }
{
    memory_copy::copy(out, at, key);
    let from = at + key.len();
    let w = text::decimal::put_decimal(out, from, n);
    let end = from + w;
    out[end] = b'\n';
    end + 1
}

// The data as hex pairs.
pub fn put_body(out: &mut [u8], at: usize, body: &[u8]) -> usize
    requires { at + body_length (length body.now) ≤ length out.old }
    ensures { (result ≡ at + body_length (length body.now)) × (out.new ≡ over at (line_of data_key (hex_pairs body.now)) out.old) }
{
    let key = b"data=";
    memory_copy::copy(out, at, key);
    let from = at + key.len();
    text_hex::put_pairs(out, from, body);
    let end = from + body.len() * 2;
    out[end] = b'\n';
    end + 1
}

// The check as hex digits.
pub fn put_check(out: &mut [u8], at: usize, n: u32) -> usize
    requires { at + check_length ≤ length out.old }
    ensures { (result ≡ at + check_length) × (out.new ≡ over at (line_of check_key (hex_word n)) out.old) }
{
    let key = b"check=";
    memory_copy::copy(out, at, key);
    let from = at + key.len();
    text::digits::put_digits(out, from, text::digits::HEX, CHECK_DIGITS, n);
    let end = from + CHECK_DIGITS;
    out[end] = b'\n';
    end + 1
}
