//! Faults of a server's channel.

ghost use Rattle.std.specs.Prelude.{◌≡◌};

use crate::end_fault::EndFault;
use thiserror::Error;
use ua_builtin::StatusCode;
use ua_frame::error_frame;

/// Why a server's channel ended. It takes nothing more.
#[derive(Clone, Copy, PartialEq, Eq, Debug, Error)]
pub enum ChannelFault {
    /// The bytes are refused with this StatusCode, and this ERR message is to be sent.
    #[error("refused: {code:08X}", code = .code.code)]
    Refused {
        code: StatusCode,
        err_frame: [u8; 16],
    },
    /// The channel was closed, or an earlier call failed.
    #[error("closed")]
    Closed,
    /// An allocation failed.
    #[error("out of memory")]
    OutOfMemory,
}

/// Why there is no reply.
#[derive(Clone, Copy, PartialEq, Eq, Debug, Error)]
pub enum ReplyFault {
    /// No channel is open: there was no OPN yet, or the channel was closed or failed.
    #[error("no channel is open")]
    NotOpen,
    /// An allocation failed. The channel has failed.
    #[error("out of memory")]
    OutOfMemory,
}

impl ChannelFault {
    ghost use Rattle.ua_channel.specs.inside.EndFaults.{of_end_fault};

    /// The fault of an end, as one of the channel.
    pub(crate) fn from_end(fault: EndFault) -> ChannelFault
        ensures { result ≡ of_end_fault fault }
    {
        match fault {
            EndFault::Refused(code) | EndFault::Peer(code) => ChannelFault::Refused {
                code,
                err_frame: error_frame(code),
            },
            EndFault::Closed => ChannelFault::Closed,
            EndFault::OutOfMemory => ChannelFault::OutOfMemory,
        }
    }
}
