//! The result of a connection.

use ua_client::Reply;
use ua_server::{End, Services};

/// The bytes that went over a connection, from the HEL to the CLO, and its result.
#[derive(Debug, Drop)]
pub struct Transcript {
    /// The client-to-server bytes.
    pub up: Vec<u8>,
    /// The server-to-client bytes.
    pub down: Vec<u8>,
    /// The replies to the requests, in the order of these.
    pub replies: Vec<Reply>,
    /// How the server saw the connection end.
    pub end: End,
    /// The services, as they are left.
    pub services: Services,
}
