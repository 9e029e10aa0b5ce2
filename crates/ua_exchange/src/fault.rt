//! Why two ends make no exchange.

use std::alloc::AllocError;
use thiserror::Error;
use ua_channel::AskFault;
use ua_client::ClientFault;

/// Why there is no transcript. An operation is named by its place, counted from 0: it is the first
/// one that is not accepted.
#[derive(Clone, Copy, PartialEq, Eq, Debug, Error)]
pub enum PairFault {
    /// This operation is not asked, for this reason.
    #[error("turn {0} is refused: {1}")]
    Request(usize, AskFault),
    /// The request of this operation has no encoding.
    #[error("the request of turn {0} can't be encoded")]
    NotWritable(usize),
    /// An allocation failed, of the client or of its server.
    #[error("out of memory")]
    OutOfMemory,
}

impl PairFault {
    ghost use Rattle.std.specs.Prelude.{◌≡◌};
    ghost use Rattle.ua_loopback.specs.Faults.{FailsAtStage};
    ghost use Rattle.ua_loopback.specs.declared.stage.Stage.{Stage};
    ghost use Rattle.ua_exchange.specs.Accepted.{fault_at};

    /// Why a client does not perform the operation at this place. A transport to a server in the
    /// same process fails where an allocation of the server fails; apart from that only the
    /// client's own failed allocations fail it.
    pub(crate) fn from_client(place: usize, fault: ClientFault) -> PairFault
        requires { (stage : Stage) × FailsAtStage stage fault }
        ensures { result ≡ fault_at place fault }
    {
        match fault {
            ClientFault::NotWritable => PairFault::NotWritable(place),
            ClientFault::Exhausted => PairFault::Request(place, AskFault::Exhausted),
            ClientFault::TooLarge => PairFault::Request(place, AskFault::RequestTooLarge),
            ClientFault::TooManyTokens => PairFault::Request(place, AskFault::TooManyTokens),
            ClientFault::OutOfMemory | ClientFault::Read | ClientFault::Write => {
                PairFault::OutOfMemory
            }
            ClientFault::Peer(_)
            | ClientFault::Refused(_)
            | ClientFault::Service(_)
            | ClientFault::Ended
            | ClientFault::TooLong
            | ClientFault::UnknownResponse
            | ClientFault::Closed => unreachable!(),
        }
    }
}

impl From<AllocError> for PairFault {
    ghost use Rattle.std.specs.Prelude.{◌≡◌};
    ghost use Rattle.ua_exchange.specs.declared.fault.PairFault.TheVariants.{OutOfMemory};

    ghost from_gives = { λ _ e. e ≡ OutOfMemory };

    fn from(_: AllocError) -> PairFault {
        PairFault::OutOfMemory
    }
}
