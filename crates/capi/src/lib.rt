// The eight calls, many of them in one, the read of a GSUB table, its promotion, frames and the needs for callers in C, as include/scoterlime.h declares them.
//
// Each is one proved call and its answer turned into numbers. None asks anything of the lent memory's contents; that a pointer is good for
// its length, and that lent areas do not overlap, is the caller's part.
#![tactic(auto)]

mod batching;
mod cable;
mod calls;
mod needs;
mod packing;
mod promoting;
mod reading;

pub use batching::scoterlime_batch;
pub use cable::{scoterlime_feed, scoterlime_head_need, scoterlime_send};
pub use calls::{
    scoterlime_close, scoterlime_drop, scoterlime_link, scoterlime_open, scoterlime_put,
    scoterlime_start, scoterlime_tally,
};
pub use needs::{scoterlime_batch_need, scoterlime_records_need, scoterlime_work_need};
pub use packing::scoterlime_pack;
pub use promoting::{scoterlime_promote_gsub, scoterlime_promote_gsub_whole};
pub use reading::{scoterlime_read_gsub, scoterlime_read_gsub_whole};
