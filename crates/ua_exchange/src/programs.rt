//! The two ends: those of the program `ua`.

ghost use Rattle.std.specs.Prelude.{◌≡◌, Some, IfOk};
ghost use Rattle.ua_exchange.specs.Programs.{AreOurs, url as server_url, endpoint as server_endpoint};

use std::alloc::{AllocError, Global};
use ua_builtin::UaString;
use ua_frame::Limits;
use ua_server::Endpoint;

/// The most bytes of a frame, each way.
const FRAME_SIZE: u32 = 65535;

/// The most bytes of a message of the program.
pub const MESSAGE_SIZE: u32 = 1_048_576;

/// The most chunks of a message.
const CHUNK_COUNT: u32 = 256;

/// The URL of the server.
const URL: &str = "opc.tcp://localhost:4840";

/// The limits of the program, at either end: frames of 65535 bytes each way, messages of 1048576
/// bytes and 256 chunks.
pub fn limits() -> Limits
    ensures { AreOurs result }
{
    Limits::new(FRAME_SIZE, FRAME_SIZE, MESSAGE_SIZE, CHUNK_COUNT).unwrap()
}

/// The URL of the server.
pub fn url(alloc: Global) -> Result<UaString, AllocError>
    ensures { IfOk result (λ u. u ≡ Some server_url) }
{
    UaString::from_str(alloc, URL)
}

/// What the server tells about itself.
pub fn endpoint(alloc: Global) -> Result<Endpoint, AllocError>
    ensures { IfOk result (λ e. e ≡ server_endpoint) }
{
    Ok(Endpoint {
        url: url(alloc)?,
        application_uri: UaString::from_str(alloc, "urn:ua:server")?,
        name: UaString::from_str(alloc, "ua")?,
        message_limit: MESSAGE_SIZE,
    })
}
