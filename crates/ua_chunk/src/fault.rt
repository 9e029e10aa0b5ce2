//! Why chunks are refused.

use thiserror::Error;

/// Why a chunk is not accepted. Of several reasons it is the first in this order.
#[derive(Clone, Copy, PartialEq, Eq, Debug, Error)]
pub enum AssembleFault {
    /// Its SequenceNumber does not follow the last one.
    #[error("the sequence number does not follow")]
    Sequence,
    /// It is an abort chunk whose body is not exactly a StatusCode and a reason.
    #[error("the body of the abort is unreadable")]
    Unreadable,
    /// More than 4 messages would be unfinished.
    #[error("too many unfinished messages")]
    TooManyOpen,
    /// Its message would have more bytes than the limit.
    #[error("the message has too many octets")]
    MessageTooLarge,
    /// Its message would have more chunks than the limit.
    #[error("the message has too many chunks")]
    TooManyChunks,
    /// An allocation failed.
    #[error("out of memory")]
    OutOfMemory,
    /// The assembler refused an earlier chunk.
    #[error("the assembler is closed")]
    Closed,
}

/// Why an OPN frame is not accepted.
#[derive(Clone, Copy, PartialEq, Eq, Debug, Error)]
pub enum OpenFault {
    /// Its security header or its sequence header cannot be decoded.
    #[error("the headers are unreadable")]
    Unreadable,
    /// Its security header can be decoded and names another SecurityPolicy than None, whatever
    /// follows.
    #[error("the security policy is not None")]
    Policy,
    /// An allocation failed. Reading an OPN allocates nothing, so this does not occur.
    #[error("out of memory")]
    OutOfMemory,
}

/// Why a body is not split into chunks. Of several reasons it is the first in this order.
#[derive(Clone, Copy, PartialEq, Eq, Debug, Error)]
pub enum CutFault {
    /// It has more bytes than the limit.
    #[error("the body has too many octets")]
    TooManyOctets,
    /// It has more chunks than the limit.
    #[error("the body has too many chunks")]
    TooManyChunks,
    /// An allocation failed.
    #[error("out of memory")]
    OutOfMemory,
}
