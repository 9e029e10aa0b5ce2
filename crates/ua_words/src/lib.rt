//! The words of the command line of `ua`: the table of its commands, and what the words of each ask
//! for.
//!
//! ```
//! let parsed = parse(alloc, &["ua", "read", "4840", "ns=1;s=Pump"])?;
//! // parsed.task: the task `Read` of these words, or the word that is not valid at its place
//! ```
#![tactic(auto)]

mod arguments;
mod ask_words;
mod commands;
mod number;

pub use arguments::{
    ALL_CONNECTIONS, Address, BadWord, Dissect, JudgeRecord, ListEndpoints, Loop, Parsed,
    ReadNodes, Serve, Task, WriteNode, parse,
};
pub use ask_words::{AskServer, Asked, Rounds};
pub use number::parse_size;
