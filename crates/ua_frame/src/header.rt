//! The eight header bytes of a frame.

ghost use Rattle.std.specs.Prelude.{◌≡◌, ◌≤◌, ◌+◌, ◌∷◌, ◌++◌, IfOk, IfSome, IsSome, length};
ghost use Rattle.ua_builtin.specs.Number.{number_octets};
ghost use Rattle.ua_frame.specs.Kinds.{kind_octets};
ghost use Rattle.ua_frame.specs.Frames.{kind_of, size_of, header_fault, frame_octets, IsSized, IsRawFrame};
ghost use Rattle.ua_frame.specs.Unfinished.{BeginsWhole};

use crate::fault::FrameFault;
use crate::frame::Frame;
use crate::gate::Gate;
use crate::kind::Kind;
use bytes::Bytes;
use std::alloc::{AllocError, Global};
use ua_wire::front_number;

/// The length of a header in bytes.
pub const HEADER_LEN: usize = 8;

/// The bytes of a header: a MessageType, the fourth byte, and the MessageSize of the complete
/// frame.
#[inline]
pub fn header_octets(kind: Kind, flag: u8, size: u32) -> [u8; HEADER_LEN]
    ensures { result ≡ kind_octets kind ++ flag ∷ number_octets 4 size }
{
    let name = kind.octets();
    let size = size.to_le_bytes();
    [
        name[0], name[1], name[2], flag, size[0], size[1], size[2], size[3],
    ]
}

/// The kind that a header gives.
#[inline]
#[tactic(auto, unfolding(crate::specs::Frames::kind_of))]
fn read_kind(header: &[u8]) -> Option<Kind>
    requires { length header.now ≡ 8 }
    ensures { result ≡ kind_of header.now }
{
    match (header[0], header[1], header[2]) {
        (b'H', b'E', b'L') => Some(Kind::Hel),
        (b'A', b'C', b'K') => Some(Kind::Ack),
        (b'E', b'R', b'R') => Some(Kind::Err),
        (b'M', b'S', b'G') => Some(Kind::Msg),
        (b'O', b'P', b'N') => Some(Kind::Opn),
        (b'C', b'L', b'O') => Some(Kind::Clo),
        _ => None,
    }
}

/// The MessageSize that a header gives.
#[inline]
#[tactic(auto, unfolding(crate::specs::Frames::size_of))]
pub fn read_size(header: &[u8]) -> u32
    requires { length header.now ≡ 8 }
    ensures { result ≡ size_of header.now }
{
    let (size, _) = front_number(&header[4..]);
    size
}

/// The fault of a header under this filter.
#[tactic(auto, unfolding(crate::specs::Frames::header_fault))]
#[inline(always)]
pub fn judge(gate: &Gate, header: &[u8]) -> Option<FrameFault>
    requires { length header.now ≡ 8 }
    ensures { result ≡ header_fault gate.now header.now }
{
    let Some(kind) = read_kind(header) else {
        return Some(FrameFault::UnknownType);
    };
    if !kind.has_flag(header[3]) {
        return Some(FrameFault::UnknownType);
    }
    if !gate.takes(kind) {
        return Some(FrameFault::OutOfPlace);
    }
    let size = read_size(header);
    if gate.largest < size {
        return Some(FrameFault::TooLarge);
    }
    if size < kind.least_size() {
        return Some(FrameFault::TooSmall);
    }
    None
}

/// The frame of a header and of all bytes after it.
#[tactic(auto, using(crate::proofs::Fronts::header_frame))]
#[inline(always)]
pub(crate) fn make_frame(header: &[u8], body: Bytes) -> Frame
    requires head { length header.now ≡ 8 }
    requires sized { size_of header.now ≡ 8 + length body }
    requires known { IsSome (kind_of header.now) }
    ensures octets { header.now ++ body ≡ frame_octets result }
    ensures sized { IsSized result }
{
    let kind = read_kind(header).unwrap();
    Frame {
        kind,
        flag: header[3],
        body,
    }
}

/// The size of the frame with which a fragment begins, where the filter accepts it and the fragment has
/// all of it.
#[inline(always)]
pub(crate) fn whole_size(gate: &Gate, piece: &[u8]) -> Option<usize>
    ensures { IfSome result (BeginsWhole gate.now piece.now) }
{
    if piece.len() < HEADER_LEN {
        return None;
    }
    let header = &piece[..HEADER_LEN];
    if judge(gate, header).is_some() {
        return None;
    }
    let size = read_size(header) as usize;
    if piece.len() < size {
        return None;
    }
    Some(size)
}

/// The frame that these bytes are. Its body is a copy, in memory of its own.
#[inline(always)]
pub(crate) fn read_frame(alloc: Global, octets: &[u8]) -> Result<Frame, AllocError>
    requires raw { IsRawFrame octets.now }
    requires known { IsSome (kind_of octets.now) }
    ensures octets { IfOk result (λ frame. octets.now ≡ frame_octets frame) }
    ensures sized { IfOk result (λ frame. IsSized frame) }
{
    let (header, rest) = octets.split_at(HEADER_LEN);
    let body = Bytes::copy_from_slice(alloc, rest)?;
    Ok(make_frame(header, body))
}
