//! What a server answers to a Hello.

ghost use Rattle.std.specs.Prelude.{◌≡◌};
ghost use Rattle.ua_frame.specs.Agreement.{agreed};

use crate::ack::Ack;
use crate::hello::Hello;
use crate::limits::{LEAST_BUFFER_SIZE, Limits};
use ua_builtin::StatusCode;

/// The least length, in bytes, of an endpoint URL that is too long.
const LONG_URL: usize = 4096;

/// Returns the Acknowledge of a server with these limits, or the StatusCode with which it refuses
/// the Hello. Every protocol version of the client is accepted (OPC 10000-6, 7.1.2.3 and 7.1.2.4).
/// The function allocates nothing.
pub fn agree(hello: &Hello, limits: &Limits) -> Result<Ack, StatusCode>
    ensures { result ≡ agreed hello.now limits.now }
{
    let url_length = match hello.endpoint_url.as_str() {
        Some(url) => url.len(),
        None => 0,
    };
    if url_length >= LONG_URL {
        return Err(StatusCode::BAD_TCP_ENDPOINT_URL_INVALID);
    }
    if hello.receive_buffer_size < LEAST_BUFFER_SIZE || hello.send_buffer_size < LEAST_BUFFER_SIZE {
        return Err(StatusCode::BAD_TCP_NOT_ENOUGH_RESOURCES);
    }
    Ok(Ack {
        protocol_version: 0,
        receive_buffer_size: limits.receive_buffer_size.min(hello.send_buffer_size),
        send_buffer_size: limits.send_buffer_size.min(hello.receive_buffer_size),
        max_message_size: limits.max_message_size,
        max_chunk_count: limits.max_chunk_count,
    })
}
