//! Chunks of messages.

ghost use Rattle.std.specs.Prelude.{◌≡◌, ◌≤◌, length, IsTrue, Some};
ghost use Rattle.ua_frame.specs.Kinds.{has_flag};
ghost use Rattle.ua_frame.specs.declared.kind.Kind.TheVariants.{Msg};
ghost use Rattle.ua_chunk.specs.Layout.{IsChunkOf, chunk_in};

use crate::flag::Flag;
use bytes::Bytes;
use ua_frame::Frame;
use ua_wire::front_number;

/// The length in bytes of the SecureChannelId, the security header and the sequence header.
const HEADERS: usize = 16;

/// A MessageChunk: a MSG or a CLO frame under the SecurityPolicy None (OPC 10000-6, 6.7.2).
#[derive(Debug, Drop)]
pub struct Chunk {
    /// The SecureChannelId.
    pub channel: u32,
    /// The TokenId.
    pub token: u32,
    pub flag: Flag,
    /// The SequenceNumber.
    pub sequence: u32,
    /// The RequestId, which all chunks of a message share.
    pub request: u32,
    /// The bytes after the sequence header.
    pub body: Bytes,
}

/// The chunk of a MSG or CLO frame. The function allocates nothing, and copies no body.
#[inline(always)]
pub fn read_chunk(frame: Frame) -> Chunk
    requires flag { IsTrue (has_flag Msg frame.flag) }
    requires body { 16 ≤ length frame.body }
    ensures chunk { IsChunkOf frame result }
    ensures found { chunk_in frame ≡ Some result }
{
    let mut body = frame.body;
    let (channel, rest) = front_number(&body);
    let (token, rest) = front_number(rest);
    let (sequence, rest) = front_number(rest);
    let (request, _) = front_number(rest);
    body.advance(HEADERS);
    Chunk {
        channel,
        token,
        flag: Flag::from_octet(frame.flag),
        sequence,
        request,
        body,
    }
}
