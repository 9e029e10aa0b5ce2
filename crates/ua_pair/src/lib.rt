//! The dissector: prints the bytes that one side of a connection sent as human-readable lines, by
//! UA TCP message and by reassembled message.
//!
//! The contract is that of [`Dissector`]: for every byte sequence, however fragmented, exactly its
//! lines are appended; the output is defined for every byte sequence and unique (`laws`).
//! [`dissect`] takes all bytes at once.
//!
//! ```
//! let mut dissector = Dissector::new(alloc, DissectOptions::plain(Side::Client));
//! let mut text = String::new(alloc);
//! for piece in pieces {
//!     dissector.take(piece, &mut text)?; // on an error the text is unchanged
//!     show(&text)?; // `188 MSG F 159 channel 1 token 1 sequence 2 request 2`, ..
//!     text.clear();
//! }
//! dissector.finish(&mut text)?; // the last line: `end P`, `rest N`, or `refused CODE at P`
//! ```
//!
//! `ua_fields` prints the fields of messages; its calls for whole messages are re-exported.
#![tactic(auto)]

mod delivered;
mod dissector;
mod encoding;
mod encodings;
mod fault;
pub mod laws;
mod line;
mod name;
mod options;
mod pending;
mod reader;
mod stream;
mod teller;

pub use dissector::Dissector;
pub use encoding::encoding_name;
pub use options::{DissectOptions, MOST_FIELD_OCTETS};
pub use stream::dissect;
pub use ua_fields::{BodyKind, Side, push_body_fields};
