//! The messages of OPC UA Binary that open and close a SecureChannel: arrays, the headers of
//! requests and responses, the ServiceFault, and the OpenSecureChannel and CloseSecureChannel
//! messages (OPC 10000-6, 5.2.5, 5.2.6 and 5.2.9; OPC 10000-4, 5.6 and 7).
//!
//! A structure is encoded as its fields in order, and has the contract of [`ua_builtin::Wire`]. The
//! contract of the readers of bodies: Ok only for a body that is the encoding of one message, of at
//! most nesting depth 100, with nothing after it. Writers append the one canonical encoding, and
//! `laws` states that decoding gives back what was encoded.
//!
//! ```
//! let request = OpenRequest::issue(moment, handle, lifetime); // asks for a channel and a token
//! let mut body = empty_body(alloc);
//! write_open_request(&request, &mut body)?; // on an error `body` is unchanged
//! match read_open_response(alloc, &mut Octets::new(&answer))? {
//!     OpenAnswer::Open(opened) => use_token(opened.channel_id, opened.token_id),
//!     OpenAnswer::Fault(fault) => give_up(fault.response_header.service_result),
//! }
//! ```
#![tactic(auto)]

mod array;
mod fields;
mod header;
mod header_wire;
pub mod laws;
mod message;
mod open;
mod secure_channel;
mod secure_channel_wire;

pub use array::{UaArray, read_array};
pub use header::{RequestHeader, ResponseHeader, ServiceFault};
pub use message::{append_message, empty_body, read_whole, standard_number};
pub use open::{
    OpenAnswer, read_open_request, read_open_response, write_close_request, write_open_request,
    write_open_response,
};
pub use secure_channel::{CloseRequest, OpenRequest, OpenResponse};
