//! Faults of reading frames.

ghost use Rattle.std.specs.Prelude.{◌≡◌};

use thiserror::Error;
use ua_builtin::StatusCode;

/// Why no frame was read. The first four faults are checked, in this order, as soon as the eight
/// header bytes have arrived.
#[derive(Clone, Copy, PartialEq, Eq, Debug, Error)]
pub enum FrameFault {
    /// The MessageType is unknown, or the fourth byte is not valid for it.
    #[error("unknown type of frame")]
    UnknownType,
    /// The frame filter does not accept this kind of frame.
    #[error("frame out of place")]
    OutOfPlace,
    /// The MessageSize is above the maximum of the frame filter.
    #[error("frame too large")]
    TooLarge,
    /// The MessageSize is below the minimum for this kind of frame.
    #[error("frame too small")]
    TooSmall,
    /// An allocation failed.
    #[error("out of memory")]
    OutOfMemory,
    /// An earlier call failed.
    #[error("closed")]
    Closed,
}

impl FrameFault {
    ghost use Rattle.std.specs.Prelude.{option_map};
    ghost use Rattle.ua_frame.specs.Frames.{header_code};

    /// The StatusCode of a header fault; `None` for the last two faults.
    pub fn code(self) -> Option<StatusCode>
        ensures { option_map (λ status. status.code) result ≡ header_code self }
    {
        match self {
            FrameFault::UnknownType | FrameFault::OutOfPlace => {
                Some(StatusCode::BAD_TCP_MESSAGE_TYPE_INVALID)
            }
            FrameFault::TooLarge => Some(StatusCode::BAD_TCP_MESSAGE_TOO_LARGE),
            FrameFault::TooSmall => Some(StatusCode::BAD_DECODING_ERROR),
            FrameFault::OutOfMemory | FrameFault::Closed => None,
        }
    }
}
