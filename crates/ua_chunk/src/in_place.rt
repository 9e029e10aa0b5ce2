//! Splits bodies into chunks within their own vectors.

ghost use Rattle.std.specs.Prelude.{◌≡◌, ◌≤◌, ◌<◌, ◌+◌, ◌-◌, ◌*◌, ◌/◌, ◌^◌, ◌++◌, length, take, drop};
ghost use Rattle.std.specs.Prelude.{OnOk, OnErr, IfOk, IfSome, MatchResult, None};
ghost use Rattle.ua_chunk.specs.Cutting.{pieces, chunks_of};
ghost use Rattle.ua_chunk.specs.Cutting.{chunks_octets, number_after, cut_refusal, IsCutFor};
ghost use Rattle.ua_chunk.specs.InPlace.{number_behind};

use crate::cutting::{CHUNK_HEADERS, LAST_NUMBER, headers};
use crate::fault::CutFault;
use crate::flag::Flag;
use crate::lane::Lane;

/// How many bytes are moved at a time: `copy_within` moves overlapping bytes one by one.
const BLOCK: usize = 4096;

/// How many bytes are moved at once without a large block.
const FEW: usize = 256;

/// Moves the bytes from `start` to `end`, which are few, up by `gap`.
#[inline(always)]
fn move_few(octets: &mut [u8], start: usize, end: usize, gap: usize)
    requires order { start ≤ end }
    requires room { end + gap ≤ length octets.old }
    requires few { end - start ≤ 256 }
    ensures len { length octets.new ≡ length octets.old }
    ensures front { take (start + gap) octets.new ≡ take (start + gap) octets.old }
    ensures back { drop (start + gap) octets.new
        ≡ take (end - start) (drop start octets.old) ++ drop (end + gap) octets.old }
{
    let n = end - start;
    let mut block = [0; FEW];
    let part = &mut block[..n];
    part.copy_from_slice(&octets[start..start + n]);
    octets[start + gap..start + gap + n].copy_from_slice(part);
}

/// Moves the bytes from `start` to `end` up by `gap`, the last of them first.
#[inline(never)]
fn move_blocks(octets: &mut [u8], start: usize, end: usize, gap: usize)
    requires order { start ≤ end }
    requires room { end + gap ≤ length octets.old }
    ensures len { length octets.new ≡ length octets.old }
    ensures front { take (start + gap) octets.new ≡ take (start + gap) octets.old }
    ensures back { drop (start + gap) octets.new
        ≡ take (end - start) (drop start octets.old) ++ drop (end + gap) octets.old }
{
    let mut block = [0; BLOCK];
    let mut at = end;
    while at > start {
        let n = (at - start).min(BLOCK);
        at -= n;
        let part = &mut block[..n];
        part.copy_from_slice(&octets[at..at + n]);
        octets[at + gap..at + gap + n].copy_from_slice(part);
    }
}

/// Moves the bytes from `start` to `end` up by `gap`.
fn move_up(octets: &mut [u8], start: usize, end: usize, gap: usize)
    requires order { start ≤ end }
    requires room { end + gap ≤ length octets.old }
    ensures len { length octets.new ≡ length octets.old }
    ensures front { take (start + gap) octets.new ≡ take (start + gap) octets.old }
    ensures back { drop (start + gap) octets.new
        ≡ take (end - start) (drop start octets.old) ++ drop (end + gap) octets.old }
{
    if end - start <= FEW {
        move_few(octets, start, end, gap);
    } else {
        move_blocks(octets, start, end, gap);
    }
}

/// Puts the headers of a chunk before its body, the bytes from `start` to `end`, so that the chunk
/// ends `gap` bytes behind them.
fn place_chunk(
    octets: &mut [u8],
    start: usize,
    end: usize,
    gap: usize,
    headers: &[u8; CHUNK_HEADERS],
)
    requires order { start ≤ end }
    requires gap { 24 ≤ gap }
    requires room { end + gap ≤ length octets.old }
    ensures len { length octets.new ≡ length octets.old }
    ensures front { take start octets.new ≡ take start octets.old }
    ensures back { drop (start + (gap - 24)) octets.new
        ≡ headers.now ++ (take (end - start) (drop start octets.old) ++ drop (end + gap) octets.old) }
{
    move_up(octets, start, end, gap);
    let place = start + (gap - CHUNK_HEADERS);
    octets[place..place + CHUNK_HEADERS].copy_from_slice(headers);
}

/// The SequenceNumber of the chunk with so many chunks between it and the one that is numbered
/// `sequence`.
fn number_behind(sequence: u32, count: usize) -> u32
    requires sequence { sequence ≤ 4294966272 }
    requires count { count < 2 ^ 63 }
    ensures { result ≡ number_behind sequence count }
{
    if count == 0 {
        return sequence;
    }
    ((sequence as usize + (count - 1)) % LAST_NUMBER as usize + 1) as u32
}

/// Makes a body, the first `len` bytes, chunks that take up all bytes, from the last one to the
/// first, and returns the SequenceNumber after them.
fn place_chunks(lane: &Lane, octets: &mut [u8], len: usize, sequence: u32, request: u32) -> u32
    requires room { 0 < lane.now.room }
    requires size { lane.now.room + 24 < 2 ^ 32 }
    requires body { 0 < len }
    requires sequence { sequence ≤ 4294966272 }
    requires headers { length octets.old ≡ len + 24 * ((len - 1) / lane.now.room + 1) }
    ensures chunks { octets.new ≡ chunks_octets (chunks_of lane.now (take len octets.old) sequence request) }
    ensures next { result ≡ number_after sequence (pieces lane.now.room (take len octets.old)) }
    ensures range { (0 < result) × (result ≤ 4294966272) }
{
    let room = lane.room as usize;
    let last = (len - 1) / room;
    let start = last * room;
    let size = (CHUNK_HEADERS + (len - start)) as u32;
    let front = headers(lane, Flag::F, size, number_behind(sequence, last), request);
    place_chunk(octets, start, len, CHUNK_HEADERS * (last + 1), &front);
    let size = (CHUNK_HEADERS + room) as u32;
    let mut left = last;
    while left > 0 {
        left -= 1;
        let start = left * room;
        let front = headers(lane, Flag::C, size, number_behind(sequence, left), request);
        place_chunk(
            octets,
            start,
            start + room,
            CHUNK_HEADERS * (left + 1),
            &front,
        );
    }
    number_behind(sequence, last + 1)
}

/// The number of bytes of the headers of a body's chunks, if it can be counted.
fn octets_of_headers(room: u32, len: usize) -> Option<usize>
    requires room { 0 < room }
    requires body { 0 < len }
    ensures { IfSome result (λ n. n ≡ 24 * ((len - 1) / room + 1)) }
{
    let chunks = (len - 1) / room as usize + 1;
    chunks.checked_mul(CHUNK_HEADERS)
}

/// Splits a body into chunks within its own vector, complete frames numbered from `sequence`, as
/// [`cut`](crate::cut) does behind other bytes. Returns the SequenceNumber after them. A fault
/// leaves the body as it was.
#[inline(never)]
pub fn cut_in_place(
    lane: &Lane,
    body: &mut Vec<u8>,
    sequence: u32,
    request: u32,
) -> Result<u32, CutFault>
    requires room { 0 < lane.now.room }
    requires size { lane.now.room + 24 < 2 ^ 32 }
    requires body { 0 < length body.old.items }
    requires sequence { sequence ≤ 4294966272 }
    ensures chunks { OnOk result
        (body.new.items ≡ chunks_octets (chunks_of lane.now body.old.items sequence request)) }
    ensures next { IfOk result (λ n. n ≡ number_after sequence (pieces lane.now.room body.old.items)) }
    ensures range { IfOk result (λ n. (0 < n) × (n ≤ 4294966272)) }
    ensures faults { MatchResult result (λ _. cut_refusal lane.now body.old.items ≡ None)
        (IsCutFor (cut_refusal lane.now body.old.items)) }
    ensures err { OnErr result (body.new.items ≡ body.old.items) }
{
    let len = body.len();
    if let Some(fault) = lane.refusal(len) {
        return Err(fault);
    }
    let Some(more) = octets_of_headers(lane.room, len) else {
        return Err(CutFault::OutOfMemory);
    };
    let Some(size) = len.checked_add(more) else {
        return Err(CutFault::OutOfMemory);
    };
    if body.resize(size, 0).is_err() {
        return Err(CutFault::OutOfMemory);
    }
    Ok(place_chunks(lane, body.as_mut_slice(), len, sequence, request))
}
