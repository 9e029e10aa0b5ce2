//! The reasons why a body is no message.

use thiserror::Error;

/// The reason why a body is no request.
#[derive(Clone, Copy, PartialEq, Eq, Debug, Error)]
pub enum RequestFault {
    /// The NodeId at the start of the body is not that of a request. The number is the
    /// RequestHandle, or 0 if the header after the NodeId cannot be decoded.
    #[error("the request {0} is not supported")]
    Unsupported(u32),
    /// The body is not the encoding of a request. The number is the RequestHandle, or 0 if the
    /// header cannot be decoded.
    #[error("the request {0} cannot be read")]
    Unreadable(u32),
    /// An allocation failed.
    #[error("out of memory")]
    OutOfMemory,
}

/// The reason why a body is no response.
#[derive(Clone, Copy, PartialEq, Eq, Debug, Error)]
pub enum ResponseFault {
    /// The NodeId at the start of the body is not that of a response.
    #[error("the response is unknown")]
    Unknown,
    /// The body is not the encoding of a response.
    #[error("the response cannot be read")]
    Unreadable,
    /// An allocation failed.
    #[error("out of memory")]
    OutOfMemory,
}
