// What the calls tell, and lent memory, as text on a standard stream.
//
// No function asks anything of its caller. What can't be written is lost, and nothing is told of it.
#![tactic(auto)]

mod calls;
mod lent;
mod print;

pub use calls::{tell, tell_close, tell_pack};
pub use lent::{print_bytes, print_next, show_bytes, show_words};
pub use print::{text, value};
