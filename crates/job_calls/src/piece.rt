// The object of a piece line: opened, and its first bytes put.
ghost use Rattle.std.specs.Prelude.{◌≡◌, true, ◌*◌, ◌≤◌, length};
ghost use Rattle.text_hex.specs.Hex.{bytes_of};
ghost use Rattle.layout.specs.Sound.{sound};
ghost use Rattle.model.specs.Told.{told_by};
ghost use Rattle.steps.specs.Steps.{outcome, put_step};
ghost use Rattle.job_calls.specs.Leads.{Writes};

use answer::Answer;
use session::{open_sound, put_sound};
use text_hex::get_pairs;

// The bytes of hex pairs put. They are read into the space that is lent for them.
fn put_hex(pairs: &[u8], store: &mut [u8], records: &mut [u32], space: &mut [u8]) -> Answer
    requires { (sound store.old records.old ≡ true) × (length pairs.now ≤ length space.old * 2) }
    ensures { outcome result store.new records.new ≡ put_step (bytes_of pairs.now) store.old records.old }
{
    get_pairs(space, pairs);
    let n = pairs.len() / 2;
    put_sound(store, records, &space[..n])
}

pub fn write_piece(pairs: &[u8], store: &mut [u8], records: &mut [u32], space: &mut [u8]) -> Answer
    requires { (sound store.old records.old ≡ true) × (length pairs.now ≤ length space.old * 2) }
    ensures { Writes (bytes_of pairs.now) store.old records.old (told_by result).number store.new records.new }
{
    open_sound(store, records)?;
    put_hex(pairs, store, records, space)
}
