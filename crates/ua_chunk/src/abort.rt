//! The bodies of abort chunks.

ghost use Rattle.std.specs.Prelude.{◌≡◌, IfOk};
ghost use Rattle.ua_frame.specs.Frames.{frame_octets};
ghost use Rattle.ua_chunk.specs.Abort.{abort_of, is_readable_abort};
ghost use Rattle.ua_chunk.specs.Cutting.{abort_chunk};
ghost use Rattle.ua_chunk.specs.Layout.{frame_of};

use crate::lane::Lane;
use byteorder::{ByteOrder, LittleEndian};
use std::alloc::{AllocError, Global};
use ua_builtin::{StatusCode, UaString, Wire};
use ua_frame::{HEADER_LEN, Kind, header_octets};
use ua_wire::{NULL_COUNT, is_text, split_counted, split_number};

/// The StatusCode and the reason that the body of an abort chunk holds, if it holds exactly these.
pub fn read(alloc: Global, body: &[u8]) -> Result<Option<(StatusCode, UaString)>, AllocError>
    ensures { IfOk result (λ abort. abort ≡ abort_of body.now) }
{
    <(StatusCode, UaString)>::read_whole(alloc, body)
}

/// Whether the body of an abort chunk can be decoded, found without an allocation.
pub fn is_readable(body: &[u8]) -> bool
    ensures { result ≡ is_readable_abort body.now }
{
    let Some((_, rest)) = split_number(body) else {
        return false;
    };
    let Some((reason, rest)) = split_counted(rest) else {
        return false;
    };
    rest.is_empty() && is_text(reason)
}

/// The bytes of an abort chunk, the complete frame: it gives up the message of a RequestId with a
/// StatusCode and a null reason.
pub fn abort_octets(lane: &Lane, sequence: u32, request: u32, code: StatusCode) -> [u8; 32]
    ensures { result ≡ frame_octets (frame_of (abort_chunk lane.now sequence request code)) }
{
    let mut octets = [0; 32];
    octets[..HEADER_LEN].copy_from_slice(&header_octets(Kind::Msg, b'A', 32));
    let numbers = [
        lane.channel,
        lane.token,
        sequence,
        request,
        code.code,
        NULL_COUNT,
    ];
    LittleEndian::write_u32_into(&numbers, &mut octets[HEADER_LEN..]);
    octets
}
