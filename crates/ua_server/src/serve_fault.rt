//! Why a server stops serving a transport.

use thiserror::Error;

/// Why a server stops serving a transport before the connection ended.
#[derive(Clone, Copy, PartialEq, Eq, Debug, Error)]
pub enum ServeFault {
    /// A read of the transport failed.
    #[error("the line cannot be read")]
    Read,
    /// A write to the transport failed, after this many bytes in all; the count stops at its
    /// greatest value.
    #[error("the line cannot be written behind {0} octets")]
    Write(u64),
    /// An allocation failed. Nothing more was written.
    #[error("out of memory")]
    OutOfMemory,
    /// The transport was read 18446744073709551615 times.
    #[error("too many reads")]
    TooLong,
}
