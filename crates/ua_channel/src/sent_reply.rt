//! The bytes that a server sends for a reply.

/// The bytes that a server sends for a reply.
#[derive(Debug, Drop)]
pub struct SentReply {
    /// The frames, one after the other.
    pub octets: Vec<u8>,
    /// Whether they are an abort, because the client does not accept the body (OPC 10000-6, 6.7.3).
    pub is_abort: bool,
}
