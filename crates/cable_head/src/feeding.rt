// The head, fed text in any cuts.
ghost use Rattle.std.specs.Prelude.{◌≡◌, ◌≤◌, length};
ghost use Rattle.cable_judge.specs.Judge.{verdict};
ghost use Rattle.cable_judge.specs.Judged.{settled_of};
ghost use Rattle.cable_head.specs.Feed.{head_need, stretch_with, verdict_with, Concludes, fed_left, feed_step, is_whole};

use crate::answers::Fed;
use crate::holding::{HELD, HELD_AT, LINE_AT, NEED, awaiting_of, begin, hold, len_of, number_at};
use cable_judge::answers::NoFrame;
use cable_judge::settling::{Awaiting, Settled, settle};
use cable_scan::scan;

// Answers the stretch that is held in the head and ends with t: the two are joined first.
fn answer_joined(head: &[u8], t: &[u8], awaiting: Awaiting, out: &mut [u8]) -> Settled
    requires { head_need ≤ length head.now }
    ensures { (result ≡ settled_of (verdict awaiting.number awaiting.count out.old (stretch_with head.now t.now))) × (out.new ≡ (verdict awaiting.number awaiting.count out.old (stretch_with head.now t.now)).out) }
{
    let len = len_of(head);
    let more = t.len().min(HELD - len);
    let mut whole = [0u8; HELD];
    memory_copy::copy(&mut whole, 0, &head[HELD_AT..HELD_AT + len]);
    memory_copy::copy(&mut whole, len, &t[..more]);
    settle(awaiting, &whole[..len + more], out)
}

// Answers the stretch that ends with t. One that is all in t is not copied.
fn answer_to(head: &[u8], t: &[u8], out: &mut [u8]) -> Settled
    requires { head_need ≤ length head.now }
    ensures { (result ≡ settled_of (verdict_with head.now t.now out.old)) × (out.new ≡ (verdict_with head.now t.now out.old).out) }
{
    let awaiting = awaiting_of(head);
    if len_of(head) == 0 {
        let most = t.len().min(HELD);
        return settle(awaiting, &t[..most], out);
    }
    answer_joined(head, t, awaiting, out)
}

// The same, and the head then begins the next stretch.
fn conclude(head: &mut [u8], t: &[u8], out: &mut [u8]) -> Result<usize, NoFrame>
    requires { head_need ≤ length head.old }
    ensures { Concludes head.old t.now out.old result head.new out.new }
{
    let v = answer_to(head, t, out);
    begin(head, v.awaiting);
    v.answer
}

// How long a head is at least. Before the first feed its first 16 bytes are 0.
pub fn head_need() -> usize
    ensures { result ≡ head_need }
{
    NEED
}

// Whether all frames are in: how many there are is known, and as many were accepted.
#[tactic(auto, unfolding(crate::specs::Feed::is_whole))]
pub fn is_whole(head: &[u8]) -> bool
    ensures { result ≡ is_whole head.now }
{
    if head.len() < NEED {
        return false;
    }
    let awaiting = awaiting_of(head);
    awaiting.count != 0 && awaiting.number == awaiting.count
}

// Feeds the head: it stops at the first stretch's end, with that stretch's answer, or takes all of the text. Whatever a head of the right length holds,
// only its own bytes and an accepted frame's place in the output change. A head that is too short takes nothing.
pub fn feed(head: &mut [u8], text: &[u8], out: &mut [u8]) -> Fed
    ensures { fed_left result head.new out.new ≡ feed_step head.old text.now out.old }
{
    if head.len() < NEED {
        return Fed {
            answer: Err(NoFrame::HeadShort),
            taken: 0,
        };
    }
    let s = scan(number_at(head, LINE_AT), text);
    let taken = s.taken;
    let Some(line) = s.line else {
        let answer = conclude(head, &text[..taken], out);
        return Fed { answer, taken };
    };
    hold(head, &text[..taken], line);
    Fed {
        answer: Err(NoFrame::Unended),
        taken,
    }
}
