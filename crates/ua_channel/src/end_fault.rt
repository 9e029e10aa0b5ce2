//! Why an end does not take a frame, whichever end it is.

ghost use Rattle.std.specs.Prelude.{◌≡◌};

use std::alloc::AllocError;
use ua_builtin::StatusCode;
use ua_chunk::{AssembleFault, OpenFault};
use ua_frame::FrameFault;

/// Why a frame is not taken.
#[derive(Clone, Copy)]
pub enum EndFault {
    /// This end refuses it.
    Refused(StatusCode),
    /// It is an ERR, by which the server refuses: of a client alone.
    Peer(StatusCode),
    /// The channel is closed.
    Closed,
    /// An allocation failed.
    OutOfMemory,
}

impl EndFault {
    ghost use Rattle.ua_channel.specs.inside.EndFaults.{of_frame_fault, of_open_fault, of_chunk_fault, least_at};

    /// The fault of the frame reader, as one of an end.
    pub(crate) fn from_frame(fault: FrameFault) -> EndFault
        ensures { result ≡ of_frame_fault fault }
    {
        match fault.code() {
            Some(code) => EndFault::Refused(code),
            None if matches!(fault, FrameFault::Closed) => EndFault::Closed,
            None => EndFault::OutOfMemory,
        }
    }

    /// The minimum number of bytes that are taken at this fault, if there are any.
    pub(crate) fn least(&self) -> usize
        ensures { result ≡ least_at self.now }
    {
        match self {
            EndFault::OutOfMemory => 0,
            EndFault::Refused(_) | EndFault::Peer(_) | EndFault::Closed => 1,
        }
    }

    /// The fault of an OPN's headers, as one of an end.
    pub(crate) fn from_open(fault: OpenFault) -> EndFault
        ensures { result ≡ of_open_fault fault }
    {
        match fault {
            OpenFault::Unreadable => EndFault::Refused(StatusCode::BAD_DECODING_ERROR),
            OpenFault::Policy => EndFault::Refused(StatusCode::BAD_SECURITY_POLICY_REJECTED),
            OpenFault::OutOfMemory => EndFault::OutOfMemory,
        }
    }

    /// The fault of the assembler, as one of an end, where this is the StatusCode of a message that
    /// is too large.
    pub(crate) fn from_chunk(fault: AssembleFault, too_large: StatusCode) -> EndFault
        ensures { result ≡ of_chunk_fault too_large.code fault }
    {
        match fault {
            AssembleFault::Sequence => EndFault::Refused(StatusCode::BAD_SEQUENCE_NUMBER_INVALID),
            AssembleFault::Unreadable => EndFault::Refused(StatusCode::BAD_DECODING_ERROR),
            AssembleFault::TooManyOpen => {
                EndFault::Refused(StatusCode::BAD_TCP_NOT_ENOUGH_RESOURCES)
            }
            AssembleFault::MessageTooLarge | AssembleFault::TooManyChunks => {
                EndFault::Refused(too_large)
            }
            AssembleFault::OutOfMemory => EndFault::OutOfMemory,
            AssembleFault::Closed => EndFault::Closed,
        }
    }
}

impl From<AllocError> for EndFault {
    ghost use Rattle.ua_channel.specs.declared.end_fault.EndFault.TheVariants.{OutOfMemory};

    ghost from_gives = { λ _ e. e ≡ OutOfMemory };

    fn from(_: AllocError) -> EndFault {
        EndFault::OutOfMemory
    }
}
