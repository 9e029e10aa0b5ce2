//! Chunks of messages (OPC 10000-6, 6.7): their layouts, the splitting of a body into chunks, and
//! an assembler that reassembles messages from interleaved chunks without a copy of their bodies.
//!
//! The main contract is that of [`Assembler`]: whatever chunks arrived, it has returned what their
//! list delivers, each message at its last chunk, complete and once; a refusal is the first reason
//! that applies.
//!
//! ```
//! let mut assembler = Assembler::new(alloc, most_octets, most_chunks, last_number);
//! match assembler.accept(read_chunk(frame))? {
//!     Some(Delivered::Whole(request, message)) => read(request, &mut message.source()),
//!     Some(Delivered::Aborted(request, code, reason)) => give_up(request, code, reason),
//!     None => {} // more chunks of the message follow
//! }
//! let next = cut(&lane, &body, number, request, &mut out)?; // the number after its chunks
//! ```
#![tactic(auto)]

mod abort;
mod assembler;
mod chunk;
mod cutting;
mod delivered;
mod fault;
mod fields;
mod flag;
mod held_parts;
mod in_place;
mod lane;
pub mod laws;
mod message;
mod open_chunk;
mod pending;

pub use abort::abort_octets;
pub use assembler::{Assembler, MOST_OPEN};
pub use chunk::{Chunk, read_chunk};
pub use cutting::{CHUNK_HEADERS, cut, next_number};
pub use delivered::Delivered;
pub use fault::{AssembleFault, CutFault, OpenFault};
pub use flag::Flag;
pub use in_place::cut_in_place;
pub use lane::Lane;
pub use message::Message;
pub use open_chunk::{NONE_POLICY, OpenChunk, read_open};
