//! The frames that a client sends besides the chunks of calls.

ghost use Rattle.std.specs.Prelude.{◌≡◌, ◌<◌, ◌^◌, ◌++◌, length, IsTrue, IfOk, OnOk};
ghost use Rattle.ua_wire.specs.Counted.{text};
ghost use Rattle.ua_frame.specs.Agreement.{url_length};
ghost use Rattle.ua_frame.specs.Frames.{frame_octets};
ghost use Rattle.ua_frame.specs.Messages.{hello};
ghost use Rattle.ua_opening.specs.Message.{message};
ghost use Rattle.ua_opening.specs.SecureChannel.{open_request};
ghost use Rattle.ua_channel.specs.ClientSends.{hello_to, hello_frame, open_frame};
ghost use Rattle.ua_channel.specs.ClientSends.{close_frame, first_open, renewal_frame};
ghost use Rattle.ua_channel.specs.inside.ClientAsking.{closing_front};

use crate::sending::append_opening;
use std::alloc::{AllocError, Global};
use ua_builtin::{DateTime, UaString, Wire};
use ua_frame::{Hello, Kind, Limits, header_octets};
use ua_opening::laws::bodies_of_the_channel_have_lengths;
use ua_opening::{CloseRequest, OpenRequest, write_close_request, write_open_request};

/// The length in bytes of a Hello whose URL is null.
const SHORT_HELLO: usize = 32;

/// The length in bytes of an OPN frame with a request in it.
const OPEN_SIZE: usize = 132;

/// The length in bytes of the body of an OPN request without a nonce.
const OPEN_LEN: usize = 53;

/// The length in bytes of a CLO frame with a request in it.
const CLOSE_SIZE: u32 = 57;

/// The requested lifetime of a token, in milliseconds: an hour.
const TOKEN_LIFETIME: u32 = 3_600_000;

/// The Hello of a client with these limits to the server of this URL.
fn hello_of(limits: &Limits, url: &UaString) -> Result<Hello, AllocError>
    ensures { IfOk result (λ found. found ≡ hello_to limits.now url.now) }
{
    Ok(Hello {
        protocol_version: 0,
        receive_buffer_size: limits.receive_buffer_size,
        send_buffer_size: limits.send_buffer_size,
        max_message_size: limits.max_message_size,
        max_chunk_count: limits.max_chunk_count,
        endpoint_url: url.try_clone()?,
    })
}

/// The length of a URL in bytes.
#[tactic(auto, using(crate::proofs::ClientFrames::url_short))]
fn url_len(url: &UaString) -> usize
    requires { IsTrue (text.encodable url.now) }
    ensures len { result ≡ url_length url.now }
    ensures short { result < 2 ^ 31 }
{
    match url.as_str() {
        Some(url) => url.len(),
        None => 0,
    }
}

/// The HEL of a client with these limits to the server of this URL.
#[tactic(auto, using(crate::proofs::ClientFrames::hello_framed))]
pub(crate) fn hello_octets(
    alloc: Global,
    limits: &Limits,
    url: &UaString,
) -> Result<Vec<u8>, AllocError>
    requires { IsTrue (text.encodable url.now) }
    ensures { IfOk result (λ out. out.items ≡ frame_octets (hello_frame (hello_to limits.now url.now))) }
{
    let hello = hello_of(limits, url)?;
    let size = SHORT_HELLO + url_len(url);
    let mut out = Vec::with_capacity(alloc, size)?;
    out.extend_from_slice(&header_octets(Kind::Hel, b'F', size as u32))?;
    let written = hello.write(&mut out);
    drop(hello);
    // Its URL can be encoded, so a fault is a failed allocation.
    match written {
        Ok(()) => Ok(out),
        Err(_) => Err(AllocError),
    }
}

/// The OPN of a request on a channel, with this SequenceNumber and RequestId.
fn request_octets(
    alloc: Global,
    channel: u32,
    number: u32,
    id: u32,
    request: &OpenRequest,
) -> Result<Vec<u8>, AllocError>
    requires { length ((message 446 open_request).canonical request.now) ≡ 53 }
    ensures { IfOk result (λ out. out.items ≡ frame_octets (open_frame channel number id request.now)) }
{
    let mut out = Vec::with_capacity(alloc, OPEN_SIZE)?;
    append_opening(channel, number, id, OPEN_LEN, &mut out)?;
    // Where the request can be encoded, a fault is a failed allocation.
    match write_open_request(request, &mut out) {
        Ok(()) => Ok(out),
        Err(_) => Err(AllocError),
    }
}

/// The OPN that issues the first token, on no channel yet.
pub fn open_octets(alloc: Global, moment: DateTime) -> Result<Vec<u8>, AllocError>
    ensures { IfOk result (λ out. out.items ≡ frame_octets (first_open moment)) }
{
    bodies_of_the_channel_have_lengths();
    let request = OpenRequest::issue(moment, 0, TOKEN_LIFETIME);
    let out = request_octets(alloc, 0, 1, 1, &request);
    drop(request);
    out
}

/// The OPN that renews the token of a channel.
pub(crate) fn renewal_octets(
    alloc: Global,
    channel: u32,
    number: u32,
    id: u32,
    moment: DateTime,
) -> Result<Vec<u8>, AllocError>
    ensures { IfOk result (λ out. out.items ≡ frame_octets (renewal_frame channel number id moment)) }
{
    bodies_of_the_channel_have_lengths();
    let request = OpenRequest::renew(moment, 0, TOKEN_LIFETIME);
    let out = request_octets(alloc, channel, number, id, &request);
    drop(request);
    out
}

/// Appends the headers before the request of a CLO.
fn append_closing(
    channel: u32,
    token: u32,
    number: u32,
    id: u32,
    out: &mut Vec<u8>,
) -> Result<(), AllocError>
    ensures { OnOk result (out.new.items ≡ out.old.items ++ closing_front channel token number id) }
{
    out.extend_from_slice(&header_octets(Kind::Clo, b'F', CLOSE_SIZE))?;
    channel.append(out)?;
    token.append(out)?;
    number.append(out)?;
    id.append(out)?;
    Ok(())
}

/// The CLO of a channel.
#[tactic(auto, using(crate::proofs::ClientFrames::closing_framed))]
pub(crate) fn close_octets(
    alloc: Global,
    channel: u32,
    token: u32,
    number: u32,
    id: u32,
    moment: DateTime,
) -> Result<Vec<u8>, AllocError>
    ensures { IfOk result (λ out. out.items ≡ frame_octets (close_frame channel token number id moment)) }
{
    let mut out = Vec::with_capacity(alloc, CLOSE_SIZE as usize)?;
    append_closing(channel, token, number, id, &mut out)?;
    let request = CloseRequest::new(moment, 0);
    bodies_of_the_channel_have_lengths();
    let written = write_close_request(&request, &mut out);
    drop(request);
    // The request can be encoded, so a fault is a failed allocation.
    match written {
        Ok(()) => Ok(out),
        Err(_) => Err(AllocError),
    }
}
