//! The limits that both ends of a recorded connection named.

ghost use Rattle.std.specs.Prelude.{◌≡◌, ◌≤◌, None, Some, length, option_map, IfOk, IfSome, MatchOption};
ghost use Rattle.ua_frame.specs.Messages.{ack, hello};
ghost use Rattle.ua_frame.specs.Whole.{whole_of};
ghost use Rattle.ua_judge.specs.Agreed.{IsFirst, ack_in_frame, hello_in_frame, HasAck, HasHello, AckLimits};
ghost use Rattle.ua_judge.specs.Agreed.{HelloLimits, AreServerLimits, AreClientLimits};

use crate::limits::limits_with;
use crate::raw_frame::{kind_of, split_frame};
use std::alloc::{AllocError, Global};
use ua_builtin::Wire;
use ua_frame::{Ack, Hello, Kind, Limits};

/// The first frame of a stream.
fn first_frame(octets: &[u8]) -> Option<&[u8]>
    ensures first { MatchOption result (IsFirst octets.now None) (λ frame. IsFirst octets.now (Some frame.now)) }
    ensures header { IfSome result (λ frame. 8 ≤ length frame.now) }
{
    match split_frame(octets) {
        Some((frame, _)) => Some(frame),
        None => None,
    }
}

/// The Acknowledge that a body is.
fn read_ack(alloc: Global, body: &[u8]) -> Result<Option<Ack>, AllocError>
    ensures { IfOk result (λ found. found ≡ whole_of ack body.now) }
{
    Ack::read_whole(alloc, body)
}

/// The Hello that a body is.
fn read_hello(alloc: Global, body: &[u8]) -> Result<Option<Hello>, AllocError>
    ensures { IfOk result (λ found. found ≡ whole_of hello body.now) }
{
    Hello::read_whole(alloc, body)
}

/// The Acknowledge that a frame carries.
fn ack_of(alloc: Global, frame: &[u8]) -> Result<Option<Ack>, AllocError>
    requires { 8 ≤ length frame.now }
    ensures { IfOk result (λ found. found ≡ ack_in_frame frame.now) }
{
    match kind_of(frame) {
        Some(Kind::Ack) => read_ack(alloc, &frame[8..]),
        _ => Ok(None),
    }
}

/// The Hello that a frame carries.
fn hello_of(alloc: Global, frame: &[u8]) -> Result<Option<Hello>, AllocError>
    requires { 8 ≤ length frame.now }
    ensures { IfOk result (λ found. found ≡ hello_in_frame frame.now) }
{
    match kind_of(frame) {
        Some(Kind::Hel) => read_hello(alloc, &frame[8..]),
        _ => Ok(None),
    }
}

/// The Acknowledge that a server's bytes begin with.
fn first_ack(alloc: Global, octets: &[u8]) -> Result<Option<Ack>, AllocError>
    ensures { IfOk result (HasAck octets.now) }
{
    match first_frame(octets) {
        Some(frame) => ack_of(alloc, frame),
        None => Ok(None),
    }
}

/// The Hello that a client's bytes begin with.
fn first_hello(alloc: Global, octets: &[u8]) -> Result<Option<Hello>, AllocError>
    ensures { IfOk result (HasHello octets.now) }
{
    match first_frame(octets) {
        Some(frame) => hello_of(alloc, frame),
        None => Ok(None),
    }
}

/// The limits in an Acknowledge; the least buffers and no other limits where there is none.
fn limits_of_ack(ack: Option<Ack>) -> Limits
    ensures { AckLimits ack result }
{
    match ack {
        Some(ack) => limits_with(
            ack.receive_buffer_size,
            ack.send_buffer_size,
            ack.max_message_size,
            ack.max_chunk_count,
        ),
        None => limits_with(0, 0, 0, 0),
    }
}

/// The limits in a Hello; the least buffers and no other limits where there is none.
fn limits_of_hello(hello: Option<&Hello>) -> Limits
    ensures { HelloLimits (option_map (λ h. h.now) hello.entry) result }
{
    match hello {
        Some(hello) => limits_with(
            hello.receive_buffer_size,
            hello.send_buffer_size,
            hello.max_message_size,
            hello.max_chunk_count,
        ),
        None => limits_with(0, 0, 0, 0),
    }
}

/// The limits of a server, by its bytes.
pub(crate) fn limits_of_server(alloc: Global, octets: &[u8]) -> Result<Limits, AllocError>
    ensures { IfOk result (AreServerLimits octets.now) }
{
    Ok(limits_of_ack(first_ack(alloc, octets)?))
}

/// The limits of a client, by its bytes.
pub(crate) fn limits_of_client(alloc: Global, octets: &[u8]) -> Result<Limits, AllocError>
    ensures { IfOk result (AreClientLimits octets.now) }
{
    let hello = first_hello(alloc, octets)?;
    Ok(limits_of_hello(hello.as_ref()))
}
