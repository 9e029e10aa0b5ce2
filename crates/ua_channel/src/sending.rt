//! The bytes that a server sends.

ghost use Rattle.std.specs.Prelude.{◌≡◌, ◌<◌, ◌+◌, ◌++◌, ◌⊎◌, ◌^◌, [], ℕ, List, is_some, length, IfOk, OnErr, OnOk};
ghost use Rattle.ua_frame.specs.Frames.{frame_octets};
ghost use Rattle.ua_frame.specs.Messages.{ack_frame};
ghost use Rattle.ua_chunk.specs.Cutting.{cut_refusal};
ghost use Rattle.ua_channel.specs.ServerSends.{opening_frame, opened_frame, IsReply};

use crate::agreement::Agreement;
use crate::numbers::Numbers;
use crate::sent_reply::SentReply;
use std::alloc::{AllocError, Global};
use std::mem;
use ua_builtin::{DateTime, StatusCode, Wire};
use ua_chunk::{CutFault, Lane, NONE_POLICY, abort_octets, cut, cut_in_place};
use ua_frame::{Kind, ack_octets, header_octets};
use ua_opening::{OpenResponse, write_open_response};
use ua_wire::NULL_COUNT;

/// The length in bytes of the headers of an OPN frame before its body: the eight header bytes of
/// the frame, the SecureChannelId, the policy None, two nulls, the SequenceNumber and the
/// RequestId.
const OPENING_HEADERS: usize = 79;

/// The length in bytes of the body of an OPN response without a nonce.
const OPENED_LEN: usize = 56;

/// The ACK message of an agreement.
pub(crate) fn agreed_octets(alloc: Global, agreement: &Agreement) -> Result<Vec<u8>, AllocError>
    ensures { IfOk result (λ out. out.items ≡ frame_octets (ack_frame agreement.now.ack)) }
{
    let mut out = Vec::new(alloc);
    out.extend_from_slice(&ack_octets(&agreement.ack()))?;
    Ok(out)
}

/// Appends an OPN frame under the policy None up to its body, which will have so many bytes.
pub(crate) fn append_opening(
    channel: u32,
    sequence: u32,
    request: u32,
    len: usize,
    out: &mut Vec<u8>,
) -> Result<(), AllocError>
    requires { len + 79 < 2 ^ 32 }
    ensures { (body : List ℕ) → length body ≡ len
        → OnOk result
        (out.new.items ++ body ≡ out.old.items ++ frame_octets (opening_frame channel sequence request body)) }
{
    let size = (OPENING_HEADERS + len) as u32;
    out.extend_from_slice(&header_octets(Kind::Opn, b'F', size))?;
    channel.append(out)?;
    (NONE_POLICY.len() as u32).append(out)?;
    out.extend_from_slice(NONE_POLICY.as_bytes())?;
    NULL_COUNT.append(out)?;
    NULL_COUNT.append(out)?;
    sequence.append(out)?;
    request.append(out)?;
    Ok(())
}

/// The content of an OPN response.
#[derive(Clone, Copy)]
pub struct Opening {
    pub channel: u32,
    pub request: u32,
    pub handle: u32,
    pub token: u32,
    pub lifetime: u32,
}

/// The OPN frame of a response with this timestamp.
pub(crate) fn opened_octets(
    alloc: Global,
    opening: &Opening,
    sequence: u32,
    moment: DateTime,
) -> Result<Vec<u8>, AllocError>
    ensures { IfOk result
        (λ out. out.items
        ≡ frame_octets
        (opened_frame opening.now.channel sequence opening.now.request opening.now.handle opening.now.token
        opening.now.lifetime moment)) }
{
    let Opening {
        channel,
        request,
        handle,
        token,
        lifetime,
    } = *opening;
    let mut out = Vec::new(alloc);
    append_opening(channel, sequence, request, OPENED_LEN, &mut out)?;
    let response = OpenResponse::new(moment, handle, channel, token, lifetime);
    let written = write_open_response(&response, &mut out);
    drop(response);
    // A response without a nonce can be encoded, so this is a failed allocation.
    match written {
        Ok(()) => Ok(out),
        Err(_) => Err(AllocError),
    }
}

/// A reply: the chunks of its body, or an abort where the client does not accept the body. The
/// SequenceNumbers continue after them.
pub(crate) fn reply_octets(
    alloc: Global,
    lane: &Lane,
    body: &[u8],
    request: u32,
    numbers: &mut Numbers,
) -> Result<SentReply, AllocError>
    requires room { 0 < lane.now.room }
    requires size { lane.now.room + 24 < 2 ^ 32 }
    requires body { 0 < length body.now }
    ensures octets { IfOk result
        (λ sent. IsReply lane.now body.now numbers.old.next request sent.octets.items numbers.new.next) }
    ensures abort { IfOk result (λ sent. sent.is_abort ≡ is_some (cut_refusal lane.now body.now)) }
{
    let number = numbers.number();
    let mut out = Vec::new(alloc);
    match cut(lane, body, number, request, &mut out) {
        Ok(next) => {
            numbers.go_on(next);
            Ok(SentReply {
                octets: out,
                is_abort: false,
            })
        }
        Err(CutFault::OutOfMemory) => Err(AllocError),
        Err(CutFault::TooManyOctets | CutFault::TooManyChunks) => {
            let code = StatusCode::BAD_RESPONSE_TOO_LARGE;
            out.extend_from_slice(&abort_octets(lane, number, request, code))?;
            numbers.step();
            Ok(SentReply {
                octets: out,
                is_abort: true,
            })
        }
    }
}

/// Up to how many bytes a body is small: it is moved within its vector for less than a second one
/// costs.
const SMALL_BODY: usize = 256;

/// The reply that [`reply_octets`] gives. The chunks of a small body, and of one that takes several,
/// may be put in its own vector, which is then taken; after an error the body is as it was.
#[inline(always)]
pub(crate) fn reply_in_place(
    alloc: Global,
    lane: &Lane,
    body: &mut Vec<u8>,
    request: u32,
    numbers: &mut Numbers,
) -> Result<SentReply, AllocError>
    requires room { 0 < lane.now.room }
    requires size { lane.now.room + 24 < 2 ^ 32 }
    requires body { 0 < length body.old.items }
    ensures octets { IfOk result
        (λ sent. IsReply lane.now body.old.items numbers.old.next request sent.octets.items numbers.new.next) }
    ensures abort { IfOk result (λ sent. sent.is_abort ≡ is_some (cut_refusal lane.now body.old.items)) }
    ensures left { (body.new.items ≡ body.old.items) ⊎ (body.new.items ≡ []) }
    ensures kept { OnErr result (body.new.items ≡ body.old.items) }
{
    if body.len() <= SMALL_BODY || body.len() > lane.room as usize {
        if let Ok(next) = cut_in_place(lane, body, numbers.number(), request) {
            numbers.go_on(next);
            return Ok(SentReply {
                octets: mem::replace(body, Vec::new(alloc)),
                is_abort: false,
            });
        }
    }
    reply_octets(alloc, lane, body, request, numbers)
}
