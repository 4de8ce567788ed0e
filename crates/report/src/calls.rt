// What the calls tell: a line each, every value behind its name.
use answer::{Answer, Closing, ObjectId, Packing, named_by, no_table, nowhere};

pub fn tell(to: &impl Print, name: &[u8], a: Answer) {
    let (n, t) = match a {
        Ok(t) => (0, t),
        Err(refused) => (u64::from(refused.why), refused.tally),
    };
    streams::write_all(to, name);
    let _ = println!(to; " number={n} {t}");
}

pub fn tell_close(to: &impl Print, a: Closing) {
    let (n, t, id) = match a {
        Ok(closed) => (0, closed.tally, closed.id),
        Err(refused) => (u64::from(refused.why), refused.tally, ObjectId(0)),
    };
    let _ = println!(to; "close number={n} {t} id={}", id.0);
}

pub fn tell_pack(to: &impl Print, a: Packing) {
    let (n, t, table, o) = match a {
        Ok(packed) => (0, packed.tally, packed.table, nowhere()),
        Err(refused) => (
            u64::from(refused.why),
            refused.tally,
            no_table(),
            named_by(refused.why),
        ),
    };
    let _ = println!(to;
        "pack number={n} {t} length={} {o} copies={} placed={}",
        table.length, table.copies, table.placed
    );
}
