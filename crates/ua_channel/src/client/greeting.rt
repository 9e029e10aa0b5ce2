//! The first frame that a client takes.

ghost use Rattle.std.specs.Prelude.{◌≡◌, ◌≤◌, [], Some, IfOk, IsFalse};
ghost use Rattle.ua_frame.specs.Frames.{LetsIn};
ghost use Rattle.ua_frame.specs.Messages.{ack, error};
ghost use Rattle.ua_frame.specs.Whole.{whole_of};
ghost use Rattle.ua_channel.specs.inside.ClientParts.{Judged, IsStopFor, error_reasons, ack_reasons, IsAgreed};
ghost use Rattle.ua_channel.specs.ClientTable.{ack_gate, client_reasons, is_outside};
ghost use Rattle.ua_channel.specs.Content.{content};
ghost use Rattle.ua_channel.specs.Content.Content.{Acks};
ghost use Rattle.ua_channel.specs.Received.{nothing_received};

use crate::client::agreed::Agreed;
use crate::end_fault::EndFault;
use std::alloc::{AllocError, Global};
use ua_builtin::{StatusCode, Wire};
use ua_frame::{Ack, ErrorFrame, Frame, Kind, LEAST_BUFFER_SIZE, Limits};

/// The Acknowledge that the body of an ACK is, if it is one.
fn read_ack(alloc: Global, body: &[u8]) -> Result<Option<Ack>, AllocError>
    ensures { IfOk result (λ found. found ≡ whole_of ack body.now) }
{
    Ack::read_whole(alloc, body)
}

/// The Error that the body of an ERR is, if it is one.
fn read_error(alloc: Global, body: &[u8]) -> Result<Option<ErrorFrame>, AllocError>
    ensures { IfOk result (λ found. found ≡ whole_of error body.now) }
{
    ErrorFrame::read_whole(alloc, body)
}

/// Why the body of an ERR stops a channel: its code, which is the peer's.
pub(crate) fn stop_of_error(alloc: Global, body: &[u8]) -> EndFault
    ensures { IsStopFor (error_reasons (whole_of error body.now)) result }
{
    match read_error(alloc, body) {
        Ok(Some(error)) => EndFault::Peer(error.error),
        Ok(None) => EndFault::Refused(StatusCode::BAD_DECODING_ERROR),
        Err(_) => EndFault::OutOfMemory,
    }
}

/// Whether a size is below the least one, or above what a client with these limits allows.
fn is_outside(limits: &Limits, ack: &Ack) -> bool
    ensures value { result ≡ is_outside limits.now ack.now }
    ensures sizes { IsFalse result → (8192 ≤ ack.now.receive_buffer_size) × (8192 ≤ ack.now.send_buffer_size) }
{
    ack.receive_buffer_size < LEAST_BUFFER_SIZE
        || ack.send_buffer_size < LEAST_BUFFER_SIZE
        || limits.send_buffer_size < ack.receive_buffer_size
        || limits.receive_buffer_size < ack.send_buffer_size
}

/// What the body of an ACK agrees to, within what a client with these limits allows.
fn judge_ack(alloc: Global, limits: &Limits, body: &[u8]) -> Result<Agreed, EndFault>
    ensures { Judged (ack_reasons limits.now (whole_of ack body.now)) (IsAgreed (whole_of ack body.now)) result }
{
    let Some(ack) = read_ack(alloc, body)? else {
        return Err(EndFault::Refused(StatusCode::BAD_DECODING_ERROR));
    };
    if is_outside(limits, &ack) {
        return Err(EndFault::Refused(StatusCode::BAD_TCP_NOT_ENOUGH_RESOURCES));
    }
    Ok(Agreed { ack })
}

/// The agreement on the first frame of a server that received only a HEL.
pub(crate) fn greet(alloc: Global, limits: &Limits, frame: Frame) -> Result<Agreed, EndFault>
    ensures { LetsIn ack_gate frame
        → Judged (client_reasons limits.now nothing_received [] (content frame))
        (λ a. content frame ≡ Acks (Some a.ack)) result }
{
    match frame.kind {
        Kind::Ack => judge_ack(alloc, limits, &frame.body),
        Kind::Err => Err(stop_of_error(alloc, &frame.body)),
        _ => Err(EndFault::Closed),
    }
}
