//! The limits that the two ends of a recorded connection named.

ghost use Rattle.std.specs.Prelude.{◌≡◌};
ghost use Rattle.ua_judge.specs.SidesLimits.{HasLimits, or_most};

use ua_frame::{LEAST_BUFFER_SIZE, Limits};

/// A limit of messages, where 0 is none.
fn or_most(limit: u32) -> u32
    ensures { result ≡ or_most limit }
{
    if limit == 0 { u32::MAX } else { limit }
}

/// Limits of these numbers as an end names them: 0 is no limit of messages, and a buffer below the
/// least size, which the other end judges, has the least.
pub(crate) fn limits_with(receive: u32, send: u32, message: u32, chunks: u32) -> Limits
    ensures { HasLimits result receive send message chunks }
{
    Limits {
        receive_buffer_size: receive.max(LEAST_BUFFER_SIZE),
        send_buffer_size: send.max(LEAST_BUFFER_SIZE),
        max_message_size: or_most(message),
        max_chunk_count: or_most(chunks),
        max_response_size: 0,
    }
}
