// A packed table drawn: its bytes, and for each offset an arrow from the object that holds it to where it leads.
ghost use Rattle.std.specs.Prelude.{◌+◌, ◌≤◌, ◌<◌, length};

use answer::Packing;

fn places(to: &impl Print, table: &[u8]) {
    for i in 0..table.len() {
        let _ = print!(to; " {i:>2}");
    }
}

fn bytes(to: &impl Print, table: &[u8]) {
    for b in table {
        let _ = print!(to; " {b:02x}");
    }
}

// A short text, n times.
fn repeat(to: &impl Print, text: &str, n: usize) {
    for _ in 0..n {
        let _ = print!(to; "{text}");
    }
}

// Three columns for each byte: from the first digit of one to the second of another, and on to the end of the table.
fn arrow(to: &impl Print, place: usize, offset: usize, after: usize) {
    let _ = print!(to; "\n      ");
    repeat(to, "   ", place);
    let _ = print!(to; "+");
    repeat(to, "---", offset);
    let _ = print!(to; "^");
    repeat(to, "   ", after);
}

fn sum(to: &impl Print, place: usize, at: usize, offset: usize, child: usize) {
    let _ = print!(to; "offset at {at}: {place} + {offset} = {child}");
}

fn stands(to: &impl Print, found: u8, linked: u8) {
    let _ = print!(to; ", there stands {found:02x}");
    if found == linked {
        let _ = print!(to; ", as linked");
    }
}

// The offset in the field at `at` of the object at `place`: 0 where the field lies outside the table or the offset leads out of it.
fn offset_at(table: &[u8], place: usize, at: usize) -> usize
    requires { (place < length table.now) × (at ≤ 3) }
    ensures { place + result < length table.now }
{
    let room = table.len() - place;
    if room < at + 2 {
        return 0;
    }
    let offset = big_endian::read(table, place + at, 2) as usize;
    if room <= offset {
        return 0;
    }
    offset
}

// Draws the offset, and answers the place that it leads to.
fn follow(to: &impl Print, table: &[u8], place: usize, at: usize, linked: u8) -> usize
    requires { (place < length table.now) × (at ≤ 3) }
    ensures { result < length table.now }
{
    let offset = offset_at(table, place, at);
    let child = place + offset;
    arrow(to, place, offset, table.len() - child);
    sum(to, place, place + at, offset, child);
    stands(to, table[child], linked);
    child
}

// From the root on, as a reader of the table goes.
fn arrows(to: &impl Print, table: &[u8]) {
    if table.is_empty() {
        return;
    }
    let b = follow(to, table, 0, 1, b'b');
    let c = follow(to, table, 0, 3, b'c');
    follow(to, table, b, 1, b'd');
    follow(to, table, c, 1, b'd');
}

fn draw_table(to: &impl Print, table: &[u8]) {
    let _ = print!(to; "place");
    places(to, table);
    let _ = print!(to; "\ntable");
    bytes(to, table);
    arrows(to, table);
    let _ = println!(to; "");
}

// The table that a pack left at the front of its output.
pub fn draw(to: &impl Print, out: &[u8], told: Packing) {
    let Ok(packed) = told else {
        return;
    };
    if let Some(table) = out.get(..packed.table.length) {
        draw_table(to, table);
    }
}
