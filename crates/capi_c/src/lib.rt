// The C interface as an archive: each export is one function of crate capi, with its clauses. include/scoterlime.h declares them.
#![tactic(auto)]

mod batching;
mod cable;
mod calls;
mod needs;
mod packing;
mod promoting;
mod reading;
