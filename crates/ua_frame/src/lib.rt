//! UA TCP messages (OPC 10000-6, 7.1), called frames here: a reader of frames from a byte stream,
//! however it is fragmented, the HEL, ACK and ERR messages, and the answer of a server to a HEL.
//!
//! The main contract is that of [`FrameReader::take`]: it returns the frames of the bytes so far,
//! each once and in order, or the first fault of a header, as soon as its eight bytes have arrived.
//!
//! ```
//! let gate = Gate::new(65535).taking(Kind::Msg).taking(Kind::Clo);
//! let mut reader = FrameReader::new(alloc, gate);
//! let mut rest = piece;
//! while !rest.is_empty() {
//!     let (size, frame) = reader.take(rest)?; // after a fault it returns `Closed`
//!     rest = &rest[size..];
//!     if let Some(frame) = frame {
//!         frames.push(frame)?; // complete, and of a size that the filter accepts
//!     }
//! }
//! ```
#![tactic(auto)]

mod ack;
mod agreement;
mod error;
mod fault;
mod frame;
mod gate;
mod header;
mod hello;
mod kind;
pub mod laws;
mod limits;
mod reader;
mod unfinished;

pub use ack::{Ack, ack_octets};
pub use agreement::agree;
pub use error::{ErrorFrame, error_frame};
pub use fault::FrameFault;
pub use frame::Frame;
pub use gate::Gate;
pub use header::{HEADER_LEN, header_octets};
pub use hello::Hello;
pub use kind::Kind;
pub use limits::{LEAST_BUFFER_SIZE, Limits};
pub use reader::FrameReader;
