// The numbers in a table.
ghost use Rattle.std.specs.Prelude.{◌≡◌, ◌+◌, ◌<◌, ◌^◌, get_or};
ghost use Rattle.big_endian.specs.BigEndian.{capacity};
ghost use Rattle.gsub.specs.Tables.{word_at};

// A byte, zero past the slice's end.
fn byte_at(table: &[u8], at: usize) -> usize
    ensures { (result ≡ get_or table.now at 0) × (result < 256) }
{
    table.get(at).copied().unwrap_or(0).into()
}

// The 16-bit number at a place, zeros past the slice's end.
pub fn word_at(table: &[u8], at: usize) -> usize
    requires { at + 1 < 2 ^ 64 }
    ensures { (result ≡ word_at table.now at) × (result < capacity 2) }
{
    byte_at(table, at) * 256 + byte_at(table, at + 1)
}
