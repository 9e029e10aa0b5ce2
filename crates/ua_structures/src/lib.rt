//! The structures of the services of OPC UA Binary, decoded and encoded (OPC 10000-6, 5.2.5 and
//! 5.2.6; OPC 10000-4, 5 and 7).
//!
//! A structure is encoded as its fields in order, and has the contract of [`ua_builtin::Wire`].
//!
//! ```
//! let header = RequestHeader::new(token, moment, handle);
//! let item = ReadValueId::new(node);
//! let request = ReadRequest::with_item(alloc, header, item)?;
//! request.write(&mut out)?; // its fields in order
//! let mut src = Octets::new(out.as_slice());
//! let read = ReadRequest::read(alloc, &mut src, MOST_LEVELS)?;
//! for item in read.nodes_to_read.as_items().unwrap_or(&[]) {
//!     // null and no items differ: `as_items` is `None` for null
//! }
//! ```
#![tactic(auto)]

mod attribute;
mod attribute_skip;
mod attribute_wire;
mod data_values;
mod discovery;
mod discovery_skip;
mod discovery_wire;
mod session;
mod session_skip;
mod session_wire;
mod signature;
mod skip;
mod thin;

pub use attribute::{
    ReadRequest, ReadResponse, ReadResults, ReadValueId, VALUE_ATTRIBUTE, WriteRequest,
    WriteResponse, WriteValue,
};
pub use discovery::{
    ApplicationDescription, EndpointDescription, GetEndpointsRequest, GetEndpointsResponse,
    UserTokenPolicy,
};
pub use session::{
    ActivateSessionRequest, ActivateSessionResponse, AnonymousIdentityToken, CloseSessionRequest,
    CloseSessionResponse, CreateSessionRequest, CreateSessionResponse,
};
pub use signature::{SignatureData, SignedSoftwareCertificate};
pub use thin::{TakesTypes, ValueType};
pub use ua_opening::{
    CloseRequest, OpenRequest, OpenResponse, RequestHeader, ResponseHeader, ServiceFault, UaArray,
    read_array,
};
