//! The limits of one end.

ghost use Rattle.std.specs.Prelude.{◌≤◌};

/// The limits of one end of a connection: buffer sizes in bytes, the maximum size of a message in
/// bytes, which counts the joined bodies of its chunks, and its maximum number of chunks. A server
/// may also limit its own responses.
#[derive(Clone, Copy, PartialEq, Eq, Debug)]
pub struct Limits {
    pub receive_buffer_size: u32,
    pub send_buffer_size: u32,
    pub max_message_size: u32,
    pub max_chunk_count: u32,
    /// The most bytes of a response's body that a server sends, beside the limit of its client; 0 is
    /// no limit. A client does not use it.
    pub max_response_size: u32,
    ghost receives: { 8192 ≤ receive_buffer_size },
    ghost sends: { 8192 ≤ send_buffer_size },
    ghost takes_octets: { 1 ≤ max_message_size },
    ghost takes_chunks: { 1 ≤ max_chunk_count },
}

/// The minimum size of a buffer, in bytes.
pub const LEAST_BUFFER_SIZE: u32 = 8192;

impl Limits {
    ghost use Rattle.std.specs.Prelude.{◌≡◌, ◌↔◌, IsSome, IfSome};
    ghost use Rattle.ua_frame.specs.Limits.{AreAllowed, HasSizes, with_responses};

    /// Makes limits of these numbers. `None` unless both buffer sizes are at least 8192 bytes, and
    /// a message may have a byte and a chunk. Responses have no limit of the server's own.
    pub fn new(receive: u32, send: u32, message: u32, chunks: u32) -> Option<Limits>
        ensures allowed { IsSome result ↔ AreAllowed receive send message chunks }
        ensures sizes { IfSome result (λ limits. HasSizes limits receive send message chunks) }
    {
        if receive < LEAST_BUFFER_SIZE || send < LEAST_BUFFER_SIZE || message == 0 || chunks == 0 {
            return None;
        }
        Some(Limits {
            receive_buffer_size: receive,
            send_buffer_size: send,
            max_message_size: message,
            max_chunk_count: chunks,
            max_response_size: 0,
        })
    }

    /// These limits, with this many bytes as the most of a response's body; 0 is no limit.
    pub fn with_responses(self, most: u32) -> Limits
        ensures { result ≡ with_responses self most }
    {
        Limits {
            receive_buffer_size: self.receive_buffer_size,
            send_buffer_size: self.send_buffer_size,
            max_message_size: self.max_message_size,
            max_chunk_count: self.max_chunk_count,
            max_response_size: most,
        }
    }
}
