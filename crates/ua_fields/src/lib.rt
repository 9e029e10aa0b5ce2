//! The fields of messages as lines of text, one line for each field: of requests and responses, of
//! the SecureChannel messages, and of bodies that are decoded as such.
//!
//! A message is a tree of its fields, and its lines are those of the tree, which are defined once.
//! A structure gives its fields by their names, in the standard's order.
//!
//! ```
//! let mut out = String::new(alloc);
//! push_body_fields(alloc, BodyKind::Response, true, &mut src, &mut out)?; // one line each
//! ```
//!
//! [`push_body`] appends them in any style, [`push_header`] those of the header alone.
#![tactic(auto)]

mod array;
mod attribute;
mod body;
mod discovery;
mod header;
mod identity;
mod leaves;
mod lines;
mod message;
mod null;
mod opened;
mod path;
mod secure_channel;
mod security_token;
mod session;
mod side;
mod style;
mod text;
mod value;

pub use body::{BodyKind, push_body, push_body_fields, push_header};
pub use opened::skip_open_response;
pub use side::Side;
pub use style::FieldStyle;
pub use text::push_node;
