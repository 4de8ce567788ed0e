// A link appended to the innermost open object, with its own field.
#![tactic(auto)]

ghost use Rattle.std.specs.Prelude.{◌≡◌, true, ◌≤◌, ◌<◌};
ghost use Rattle.model_orders.specs.Object.{widest};
ghost use Rattle.layout.specs.Sound.{sound};
ghost use Rattle.layout.specs.Known.{WordsRead};
ghost use Rattle.layout.specs.Links.{link_in, InWords};
ghost use Rattle.steps.specs.Steps.{outcome, link_step, link_words_of};
ghost use Rattle.session_link.specs.Made.{Made};

use answer::{Answer, ObjectId, Refusal};
use layout::link::{Link, set_link};
use layout::span::innermost;
use layout::state::{State, read};
use layout::words::{ENDS_AT, LINK_ENDS_AT, LINKS_AT, set_word};
use model_orders::LINK_WORDS;
use session_tally::tally_of;
use sound_object::slot_ok;

// The link that is asked for: its field begins where the innermost open object ends.
fn made_link(records: &[u32], s: State, width: u32, id: ObjectId, inner: u32) -> Link
    requires { WordsRead records.now s × (0 < s.depth) }
    ensures { Made width id.0 inner records.now result }
{
    let own = innermost(records, s);
    Link {
        at: own.to - own.from,
        width: width as usize,
        inner: inner as usize,
        child: id.0 as usize,
    }
}

// The field's zero bytes stand there already: only words change.
fn append_link(records: &mut [u32], s: State, l: Link)
    requires { WordsRead records.old s × (s.link_top < s.link_low) × InWords l × (l.width ≤ widest) }
    ensures { records.new ≡ link_words_of (link_in l) records.old }
{
    let d = s.depth;
    let width = l.width;
    set_link(
        records,
        LINKS_AT + s.objects * 2 + s.link_top * LINK_WORDS,
        l,
    );
    set_word(records, ENDS_AT + d, s.top + width);
    set_word(records, LINK_ENDS_AT + d, s.link_top + 1);
}

pub fn link_sound(store: &[u8], records: &mut [u32], width: u32, id: ObjectId, inner: u32) -> Answer
    requires { sound store.now records.old ≡ true }
    ensures { outcome result store.now records.new ≡ link_step width id.0 inner store.now records.old }
{
    let s = read(store, records);
    let t = tally_of(store.len(), s);
    if s.depth == 0 {
        return Err(Refusal::NothingOpen.with(t));
    }
    let l = made_link(records, s, width, id, inner);
    let k = l.width;
    if !slot_ok(l) {
        return Err(Refusal::BadField.with(t));
    }
    if t.objects <= l.child {
        return Err(Refusal::NotClosed.with(t));
    }
    if s.links <= t.links {
        return Err(Refusal::LinksFull.with(t));
    }
    if store.len() - t.bytes < k {
        return Err(Refusal::StoreFull.with(t));
    }
    append_link(records, s, l);
    Ok(t.grow(k, 1))
}
