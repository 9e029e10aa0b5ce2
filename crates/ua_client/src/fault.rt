//! Faults of a client.

use std::alloc::AllocError;
use thiserror::Error;
use ua_builtin::{NodeId, StatusCode};

/// Why a call of a client failed. After all of these but `Service`, `TooLarge`, `NotWritable`,
/// `Exhausted` and `TooManyTokens` the client is done, and returns `Closed`.
#[derive(Clone, Copy, PartialEq, Eq, Debug, Error)]
pub enum ClientFault {
    /// A read of the transport failed.
    #[error("a read of the line failed")]
    Read,
    /// A write of the transport failed.
    #[error("a write of the line failed")]
    Write,
    /// The transport's input ended before all that was waited for had arrived.
    #[error("the input ended")]
    Ended,
    /// The server refused the connection by an ERR message with this StatusCode.
    #[error("the server refused the connection: {code:08X}", code = .0.code)]
    Peer(StatusCode),
    /// This end refused what the server sent, for the reason of this StatusCode.
    #[error("what the server sent was refused: {code:08X}", code = .0.code)]
    Refused(StatusCode),
    /// A reply is no response, or neither of its request's own kind nor a ServiceFault.
    #[error("the response is unknown")]
    UnknownResponse,
    /// The server did not begin a session: the StatusCode of a ServiceFault, of a reply that it
    /// aborted, or of a bad ServiceResult.
    #[error("the service failed: {code:08X}", code = .0.code)]
    Service(StatusCode),
    /// The server does not accept a request of this many bytes or chunks.
    #[error("the request is too large")]
    TooLarge,
    /// A request cannot be encoded.
    #[error("the request cannot be encoded")]
    NotWritable,
    /// All RequestIds were used.
    #[error("the request ids are exhausted")]
    Exhausted,
    /// The client failed or was closed.
    #[error("closed")]
    Closed,
    /// An allocation failed.
    #[error("out of memory")]
    OutOfMemory,
    /// A call made the maximum number of reads, 18446744073709551615; the transport delivered at
    /// least as many bytes.
    #[error("too many reads")]
    TooLong,
    /// The client holds 16 tokens, from the last one that the server used to the newest.
    #[error("too many tokens are held")]
    TooManyTokens,
}

impl ClientFault {
    ghost use Rattle.std.specs.Prelude.{◌≡◌};
    ghost use Rattle.ua_client.specs.Client.{ends_client};

    /// Whether a client is done after this fault: after all but those found before anything is
    /// sent, and a service that failed.
    pub(crate) fn ends(self) -> bool
        ensures { result ≡ ends_client self }
    {
        !matches!(
            self,
            ClientFault::Service(_)
                | ClientFault::TooLarge
                | ClientFault::NotWritable
                | ClientFault::Exhausted
                | ClientFault::TooManyTokens
        )
    }
}

/// Which of several requests was not answered, and why.
///
/// After `TooLarge`, `NotWritable` and `Exhausted` it is the first request to which a reason
/// applies, after any other fault the first that has no reply.
#[derive(Clone, Copy, PartialEq, Eq, Debug, Error)]
#[error("request {request}: {fault}")]
pub struct CallsFault {
    /// The index of the request among all, from 0.
    pub request: usize,
    /// Why it was not answered.
    pub fault: ClientFault,
}

impl CallsFault {
    ghost use Rattle.std.specs.Prelude.{◌≡◌, ◌+◌, ◌<◌, ◌^◌};

    /// The same fault, where this many requests come before those among which it has its index.
    pub(crate) fn behind(self, before: usize) -> CallsFault
        requires { before + self.request < 2 ^ 64 }
        ensures request { result.request ≡ before + self.request }
        ensures fault { result.fault ≡ self.fault }
    {
        CallsFault {
            request: before + self.request,
            fault: self.fault,
        }
    }
}

/// Why a session was not begun, and which session was created by then.
#[derive(Debug, Drop, Error)]
#[error("{fault}")]
pub struct SessionFault {
    /// The AuthenticationToken that CreateSession brought. Its session stays at the server until it
    /// is closed under this token, or times out. `None` where CreateSession brought none.
    pub token: Option<NodeId>,
    /// Why the session was not begun.
    pub fault: ClientFault,
}

impl From<AllocError> for ClientFault {
    ghost use Rattle.std.specs.Prelude.{◌≡◌};
    ghost use Rattle.ua_client.specs.declared.fault.ClientFault.TheVariants.{OutOfMemory};

    ghost from_gives = { λ _ e. e ≡ OutOfMemory };

    fn from(_: AllocError) -> ClientFault {
        ClientFault::OutOfMemory
    }
}
