// A table sent down the cable as frames of text, and the head that takes it back.
ghost use Rattle.std.specs.Prelude.{◌≡◌, length};
ghost use Rattle.cable_send.specs.Send.{send_of, send_out};
ghost use Rattle.cable_head.specs.Feed.{head_need, feed_step};
ghost use Rattle.capi_answer.specs.Cable.{sent_numbers, fed_left, in_numbers};

use capi_answer::{FedNumbers, SentNumbers};

#[unsafe(no_mangle)]
pub extern "C" fn scoterlime_send(table: &[u8], out: &mut [u8]) -> SentNumbers
    ensures { (result ≡ sent_numbers (send_of table.now (length out.old))) × (out.new ≡ send_out table.now out.old) }
{
    capi::scoterlime_send(table, out)
}

// How many bytes a head has at least.
#[unsafe(no_mangle)]
pub extern "C" fn scoterlime_head_need() -> u64
    ensures { result ≡ head_need }
{
    capi::scoterlime_head_need()
}

#[unsafe(no_mangle)]
pub extern "C" fn scoterlime_feed(head: &mut [u8], text: &[u8], out: &mut [u8]) -> FedNumbers
    ensures { fed_left result head.new out.new ≡ in_numbers (feed_step head.old text.now out.old) }
{
    capi::scoterlime_feed(head, text, out)
}
