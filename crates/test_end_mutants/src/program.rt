//! The calls that the program makes for what it prints.

mod asked;
mod dissected;
mod judged;

pub use asked::ask_server;
pub use dissected::tell_piece;
pub use judged::judge_a_server;
