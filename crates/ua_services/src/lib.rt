//! The messages of OPC UA Binary: requests and responses, each identified by the NodeId of its
//! encoding (OPC 10000-6, 5.2.9; OPC 10000-4, 5).
//!
//! The contract of the readers: Ok only for a body that is the encoding of one message, of at most
//! nesting depth 100, with nothing after it; for any other body, the error that says why. Writers
//! append the one canonical encoding, and `laws` states that decoding gives back what was encoded.
//!
//! ```
//! match read_request(alloc, &mut src) {
//!     Ok(Request::Read(read)) => answer_read(read),
//!     Ok(request) => answer(request.kind(), request.header()),
//!     Err(RequestFault::Unsupported(handle)) => no_service(handle),
//!     Err(RequestFault::Unreadable(handle)) => no_request(handle),
//!     Err(RequestFault::OutOfMemory) => no_memory(),
//! }
//! write_response(&response, &mut out)?; // on an error `out` is unchanged
//! ```
#![tactic(auto)]

mod fault;
mod identity;
mod kinds;
pub mod laws;
mod policy;
mod request;
mod response;
pub mod session_requests;

pub use fault::{RequestFault, ResponseFault};
pub use identity::{read_identity, write_identity};
pub use policy::chosen_id;
pub use request::{
    Request, RequestKind, read_read_request, read_request, read_request_kind, read_request_of_kind,
    read_write_request_for, request_body, skip_request, write_request,
};
pub use response::{
    Response, ResponseKind, read_response, response_body, skip_response, write_response,
};
pub use ua_opening::{
    CloseRequest, OpenAnswer, OpenRequest, OpenResponse, RequestHeader, ResponseHeader,
    ServiceFault, UaArray, empty_body, read_array, read_open_request, read_open_response,
    write_close_request, write_open_request, write_open_response,
};
pub use ua_structures::{
    ActivateSessionRequest, ActivateSessionResponse, AnonymousIdentityToken,
    ApplicationDescription, CloseSessionRequest, CloseSessionResponse, CreateSessionRequest,
    CreateSessionResponse, EndpointDescription, GetEndpointsRequest, GetEndpointsResponse,
    ReadRequest, ReadResponse, ReadValueId, SignatureData, SignedSoftwareCertificate, TakesTypes,
    UserTokenPolicy, ValueType, WriteRequest, WriteResponse, WriteValue,
};
