//! What the program `ua` tells, and what it reads: the faults of its commands, with the reasons that
//! are known of them, its output, files, hexadecimal digits, and connections of which it is kept why
//! they failed.
//!
//! ```
//! let telling = Telling { alloc, why: true, aloud: false };
//! let stop = cannot_read("nodes.txt", error);
//! // 1; and to `err`: `ua: cannot read nodes.txt`, and a line of what the system says
//! let status = telling.tell(&stop, &mut err);
//! ```
#![tactic(auto)]

mod digit_place;
mod fault;
mod heard;
mod hex_pieces;
mod input;
mod known;
mod loop_fault;
mod output;
mod reason;
mod record;
mod refusal_reader;
mod tell;
mod watched;

pub use fault::Fault;
pub use heard::Heard;
pub use hex_pieces::HexPieces;
pub use input::{
    exact_form, load_nodes, open_file, parse_nodes, read_file, read_lines, read_nodes,
};
pub use loop_fault::LoopFault;
pub use output::{Stop, say, say_lines, write_text};
pub use reason::{
    Reason, blame, blame_line, blame_step, blame_text, cannot_connect, cannot_listen, cannot_read,
    names_node, push_word,
};
pub use record::write_record;
pub use tell::{Telling, print};
pub use watched::Watched;
