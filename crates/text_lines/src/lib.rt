// The rehearsal program's input (document 01, "House table by hand"): how it is cut into lines, and what a line asks
// for. What is printed: crate `text_prints`.
#![tactic(auto)]

mod cutting;
mod parsing;
mod short;

pub use cutting::{Line, Piece, Stop, cut};
pub use parsing::{Mode, Request, parse};
pub use short::{Short, front};
