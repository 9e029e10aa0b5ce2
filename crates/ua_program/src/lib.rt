//! What the program `ua` does: the words of its commands, files, sockets, the clock, and its
//! output. `ua_cli` gives its words and streams to [`run`].
//!
//! ```
//! let mut input: &[u8] = &[]; // read where FILE is `-`
//! let mut out = Vec::new(alloc);
//! let mut err = Vec::new(alloc);
//! let status = run(&rt, &["ua", "dissect", "data/hello.bin"], &mut input, &mut out, &mut err);
//! // 0, and the output for the bytes of that file in `out`
//! ```
#![tactic(auto)]

mod ask;
mod asking;
mod blame;
mod dissect;
mod judge;
mod lifetime;
mod line_task;
mod loop_line;
mod looping;
mod program;
mod script;
mod talk;
mod tasks;
mod turns;
mod version;

pub use program::{refuse_words, run};
