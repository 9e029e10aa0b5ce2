//! Splits bodies into chunks.

ghost use Rattle.std.specs.Prelude.{◌≡◌, ◌≤◌, ◌<◌, ◌+◌, ◌^◌, ◌++◌, length, OnOk, OnErr, IfOk, MatchResult, None};
ghost use Rattle.ua_wire.specs.Format.{Extends};
ghost use Rattle.ua_frame.specs.Frames.{frame_octets};
ghost use Rattle.ua_chunk.specs.Cutting.{pieces, front_octets, chunk_of, chunks_of};
ghost use Rattle.ua_chunk.specs.Cutting.{chunks_octets, number_after, cut_refusal, IsCutFor};
ghost use Rattle.ua_chunk.specs.Layout.{frame_of};
ghost use Rattle.ua_chunk.specs.Refusal.{passes};
ghost use Rattle.ua_chunk.specs.Sequence.{next_number};

use crate::fault::CutFault;
use crate::flag::Flag;
use crate::lane::Lane;
use byteorder::{ByteOrder, LittleEndian};
use std::alloc::AllocError;
use ua_frame::{HEADER_LEN, Kind, header_octets};

/// The length in bytes of the headers before the body of a chunk: the message header, the security
/// header with the TokenId, and the sequence header (OPC 10000-6, 6.7.2).
pub const CHUNK_HEADERS: usize = 24;

/// The greatest SequenceNumber that senders use. The number 1 follows it.
pub(crate) const LAST_NUMBER: u32 = 4294966272;

/// The SequenceNumber after one that senders use: they use 1, 2, 3, .. up to 4294966272, and then 1
/// again (OPC 10000-6, 6.7.2.4).
pub fn next_number(sequence: u32) -> u32
    requires { sequence ≤ 4294966272 }
    ensures next { result ≡ next_number sequence }
    ensures range { (0 < result) × (result ≤ 4294966272) }
{
    if sequence == LAST_NUMBER {
        1
    } else {
        sequence + 1
    }
}

/// The number of bytes of a body's chunks, if it can be counted.
fn octets_of_chunks(room: u32, len: usize) -> Option<usize>
    requires { 0 < room }
{
    let chunks = len.div_ceil(room as usize);
    chunks.checked_mul(CHUNK_HEADERS)?.checked_add(len)
}

/// The headers before the body of a chunk.
#[inline(always)]
pub(crate) fn headers(
    lane: &Lane,
    flag: Flag,
    size: u32,
    sequence: u32,
    request: u32,
) -> [u8; CHUNK_HEADERS]
    ensures { result ≡ front_octets lane.now flag size sequence request }
{
    let mut octets = [0; CHUNK_HEADERS];
    octets[..HEADER_LEN].copy_from_slice(&header_octets(Kind::Msg, flag.octet(), size));
    let numbers = [lane.channel, lane.token, sequence, request];
    LittleEndian::write_u32_into(&numbers, &mut octets[HEADER_LEN..]);
    octets
}

/// Appends the frame of a chunk. After an error a part of it may have been appended.
fn append_chunk(
    lane: &Lane,
    flag: Flag,
    sequence: u32,
    request: u32,
    piece: &[u8],
    out: &mut Vec<u8>,
) -> Result<(), AllocError>
    requires { length piece.now + 24 < 2 ^ 32 }
    ensures ok { OnOk result
        (out.new.items ≡ out.old.items ++ frame_octets (frame_of (chunk_of lane.now flag sequence request piece.now))) }
    ensures err { OnErr result (Extends out.old.items out.new.items) }
{
    let size = (CHUNK_HEADERS + piece.len()) as u32;
    out.extend_from_slice(&headers(lane, flag, size, sequence, request))?;
    out.extend_from_slice(piece)?;
    Ok(())
}

/// Appends the chunks of a body, and returns the SequenceNumber after them. After an error some of
/// them may have been appended.
fn append_chunks(
    lane: &Lane,
    body: &[u8],
    sequence: u32,
    request: u32,
    out: &mut Vec<u8>,
) -> Result<u32, AllocError>
    requires room { 0 < lane.now.room }
    requires size { lane.now.room + 24 < 2 ^ 32 }
    requires body { 0 < length body.now }
    requires sequence { sequence ≤ 4294966272 }
    ensures ok { IfOk result
        (λ n. (out.new.items ≡ out.old.items ++ chunks_octets (chunks_of lane.now body.now sequence request))
        × (n ≡ number_after sequence (pieces lane.now.room body.now))) }
    ensures range { IfOk result (λ n. (0 < n) × (n ≤ 4294966272)) }
    ensures err { OnErr result (Extends out.old.items out.new.items) }
{
    let mut number = sequence;
    let mut rest = body;
    while rest.len() > lane.room as usize {
        let (piece, behind) = rest.split_at(lane.room as usize);
        append_chunk(lane, Flag::C, number, request, piece, out)?;
        number = next_number(number);
        rest = behind;
    }
    append_chunk(lane, Flag::F, number, request, rest, out)?;
    Ok(next_number(number))
}

/// Splits a body into chunks and appends them to `out`, complete frames numbered from `sequence`.
/// Returns the SequenceNumber after them. A fault leaves `out` as it was.
pub fn cut(
    lane: &Lane,
    body: &[u8],
    sequence: u32,
    request: u32,
    out: &mut Vec<u8>,
) -> Result<u32, CutFault>
    requires room { 0 < lane.now.room }
    requires size { lane.now.room + 24 < 2 ^ 32 }
    requires body { 0 < length body.now }
    requires sequence { sequence ≤ 4294966272 }
    ensures chunks { OnOk result
        (out.new.items ≡ out.old.items ++ chunks_octets (chunks_of lane.now body.now sequence request)) }
    ensures next { IfOk result (λ n. n ≡ number_after sequence (pieces lane.now.room body.now)) }
    ensures range { IfOk result (λ n. (0 < n) × (n ≤ 4294966272)) }
    ensures faults { MatchResult result (λ _. cut_refusal lane.now body.now ≡ None)
        (IsCutFor (cut_refusal lane.now body.now)) }
    ensures err { OnErr result (out.new.items ≡ out.old.items) }
{
    if let Some(fault) = lane.refusal(body.len()) {
        return Err(fault);
    }
    let Some(size) = octets_of_chunks(lane.room, body.len()) else {
        return Err(CutFault::OutOfMemory);
    };
    if out.reserve(size).is_err() {
        return Err(CutFault::OutOfMemory);
    }
    let len = out.len();
    match append_chunks(lane, body, sequence, request, out) {
        Ok(next) => Ok(next),
        Err(_) => {
            out.truncate(len);
            Err(CutFault::OutOfMemory)
        }
    }
}
