//! Faults of a client's channel.

use std::alloc::AllocError;
use thiserror::Error;
use ua_chunk::CutFault;

/// Why bytes were not taken.
#[derive(Clone, Copy, PartialEq, Eq, Debug, Error)]
pub enum ClientTakeFault {
    /// The channel failed or was closed.
    #[error("closed")]
    Closed,
    /// An allocation failed. The channel is closed.
    #[error("out of memory")]
    OutOfMemory,
}

/// Why nothing was sent. Of several reasons it is the first in this order.
#[derive(Clone, Copy, PartialEq, Eq, Debug, Error)]
pub enum AskFault {
    /// No channel is open.
    #[error("the channel is not open")]
    NotOpen,
    /// 64 calls are unanswered.
    #[error("too many calls are pending")]
    TooManyPending,
    /// A renewal is unanswered.
    #[error("a renewal is pending")]
    RenewPending,
    /// 16 tokens are held.
    #[error("too many tokens are held")]
    TooManyTokens,
    /// All RequestIds were used.
    #[error("the request ids are exhausted")]
    Exhausted,
    /// The server does not accept a message of so many bytes or chunks.
    #[error("the request is too large")]
    RequestTooLarge,
    /// An allocation failed.
    #[error("out of memory")]
    OutOfMemory,
}

impl AskFault {
    ghost use Rattle.std.specs.Prelude.{◌≡◌};
    ghost use Rattle.ua_channel.specs.inside.ClientAsking.{of_cut_fault};

    /// The fault of splitting a body, as a fault of a call.
    pub(crate) fn from_cut(fault: CutFault) -> AskFault
        ensures { result ≡ of_cut_fault fault }
    {
        match fault {
            CutFault::TooManyOctets | CutFault::TooManyChunks => AskFault::RequestTooLarge,
            CutFault::OutOfMemory => AskFault::OutOfMemory,
        }
    }
}

impl From<AllocError> for AskFault {
    ghost use Rattle.std.specs.Prelude.{◌≡◌};
    ghost use Rattle.ua_channel.specs.declared.client.fault.AskFault.TheVariants.{OutOfMemory};

    ghost from_gives = { λ _ e. e ≡ OutOfMemory };

    fn from(_: AllocError) -> AskFault {
        AskFault::OutOfMemory
    }
}
