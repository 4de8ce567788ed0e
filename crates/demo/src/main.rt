// Packs one small table through the eight calls, and draws where its offsets lead: a to b and c, and both of these to d.
#![tactic(auto)]

mod build;
mod draw;

use answer::ObjectId;
use build::build;
use draw::draw;

// The root is the last object closed.
fn pack_and_draw(to: &impl Print, store: &[u8], records: &[u32]) {
    let mut out: [u8; 16] = [0; 16];
    let mut work: [u64; 52] = [0; 52];
    let told = report_calls::pack(to, store, records, ObjectId(3), 0, &mut out, &mut work);
    let _ = println!(to;
        "\nThe packed table in hex: a is 61, d is 64. An offset counts from the first byte of the object that holds it.\n"
    );
    draw(to, &out, told);
}

// The memory that a session of 4 objects and 4 links needs, with room for 16 bytes.
fn main(rt: HostRuntime) {
    let to = &rt.stdout();
    let mut store: [u8; 16] = [0; 16];
    let mut records: [u32; 159] = [0; 159];
    let _ = println!(to;
        "Four objects of one letter each: a links to b and c, and both link to d. d is written twice and kept once.\n\
After each call: its number (0 is done, 4 no such closed object), the bytes and links held, the objects closed and open.\n"
    );
    // d, b over it, d a second time, c over it, and a over b and c. The link to 9 is refused and changes nothing, and e is dropped.
    build(to, b"SOdCOb0COdCOc0COa192COeDT", &mut store, &mut records);
    pack_and_draw(to, &store, &records);
}
