//! The reasons why a UA TCP message has no lines.

ghost use Rattle.std.specs.Prelude.{◌≡◌};
ghost use Rattle.ua_pair.specs.Telling.{chunk_fault, opening_fault};

use std::alloc::AllocError;
use thiserror::Error;
use ua_builtin::StatusCode;
use ua_chunk::{AssembleFault, OpenFault};
use ua_fields::Side;

/// The reason why a UA TCP message has no lines.
#[derive(Clone, Copy, PartialEq, Eq, Debug, Error)]
pub enum DissectFault {
    /// The UA TCP message is rejected with this StatusCode.
    #[error("refused: {code:08X}", code = .0.code)]
    Refused(StatusCode),
    /// An allocation failed.
    #[error("out of memory")]
    OutOfMemory,
}

impl DissectFault {
    /// The error on this side that results from an error of the assembler.
    pub fn from_chunk(side: Side, fault: AssembleFault) -> DissectFault
        ensures { result ≡ chunk_fault side fault }
    {
        let code = match fault {
            AssembleFault::Sequence => StatusCode::BAD_SEQUENCE_NUMBER_INVALID,
            AssembleFault::Unreadable => StatusCode::BAD_DECODING_ERROR,
            AssembleFault::TooManyOpen => StatusCode::BAD_TCP_NOT_ENOUGH_RESOURCES,
            AssembleFault::MessageTooLarge | AssembleFault::TooManyChunks => match side {
                Side::Client => StatusCode::BAD_REQUEST_TOO_LARGE,
                Side::Server => StatusCode::BAD_RESPONSE_TOO_LARGE,
            },
            AssembleFault::OutOfMemory | AssembleFault::Closed => {
                return DissectFault::OutOfMemory;
            }
        };
        DissectFault::Refused(code)
    }

    /// The error that results from an error in the headers of an OPN.
    pub(crate) fn from_opening(fault: OpenFault) -> DissectFault
        ensures { result ≡ opening_fault fault }
    {
        match fault {
            OpenFault::Unreadable => DissectFault::Refused(StatusCode::BAD_DECODING_ERROR),
            OpenFault::Policy => DissectFault::Refused(StatusCode::BAD_SECURITY_POLICY_REJECTED),
            OpenFault::OutOfMemory => DissectFault::OutOfMemory,
        }
    }
}

impl From<AllocError> for DissectFault {
    ghost use Rattle.ua_pair.specs.declared.fault.DissectFault.TheVariants.{OutOfMemory};

    ghost from_gives = { λ _ fault. fault ≡ OutOfMemory };

    fn from(_: AllocError) -> DissectFault {
        DissectFault::OutOfMemory
    }
}
