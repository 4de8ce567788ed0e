// A table sent down the cable as frames of text, and the head that takes it back.
ghost use Rattle.std.specs.Prelude.{◌≡◌, length};
ghost use Rattle.cable_send.specs.Send.{send_of, send_out};
ghost use Rattle.cable_head.specs.Feed.{head_need, feed_step};
ghost use Rattle.capi_answer.specs.Cable.{sent_numbers, fed_left, in_numbers};

use cable_head::feeding::{feed, head_need};
use cable_send::sending::send;
use capi_answer::{FedNumbers, SentNumbers, tell_fed, tell_sent};

#[unsafe(no_mangle)]
pub extern "C" fn scoterlime_send(table: &[u8], out: &mut [u8]) -> SentNumbers
    ensures { (result ≡ sent_numbers (send_of table.now (length out.old))) × (out.new ≡ send_out table.now out.old) }
{
    tell_sent(send(table, out))
}

// How many bytes a head has at least.
#[unsafe(no_mangle)]
pub extern "C" fn scoterlime_head_need() -> u64
    ensures { result ≡ head_need }
{
    head_need() as u64
}

#[unsafe(no_mangle)]
pub extern "C" fn scoterlime_feed(head: &mut [u8], text: &[u8], out: &mut [u8]) -> FedNumbers
    ensures { fed_left result head.new out.new ≡ in_numbers (feed_step head.old text.now out.old) }
{
    let told = feed(head, text, out);
    tell_fed(told, head)
}
