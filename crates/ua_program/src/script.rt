//! A script that is run over nodes: a client sends a server the requests of its lines, both within
//! this process.
//!
//! The bytes in each direction and the text are functions of the nodes and the lines of the script,
//! however the bytes are fragmented; or the request of a line is the first that a client does not
//! send.

mod lines;
mod looped;
mod printed;

pub(crate) use lines::parse_lines;
pub(crate) use looped::{Looped, run_lines};
