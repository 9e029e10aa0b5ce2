//! Chunks of OPN frames.

ghost use Rattle.std.specs.Prelude.{◌≡◌, ◌++◌, Some, None, MatchOption, MatchResult, IfOk, option_map};
ghost use Rattle.ua_chunk.specs.Opening.{policy_header, is_none_policy, HeadersAt};
ghost use Rattle.ua_chunk.specs.Opening.{IsOpenChunkOf, opening_in, open_refusal};

use crate::fault::OpenFault;
use crate::fields::split_sequence;
use bytes::Bytes;
use ua_frame::Frame;
use ua_wire::{split_counted, split_number};

/// The URI of the SecurityPolicy None.
pub const NONE_POLICY: &str = "http://opcfoundation.org/UA/SecurityPolicy#None";

/// The chunk of an OPN frame under the SecurityPolicy None (OPC 10000-6, 6.7.2).
#[derive(Debug, Drop)]
pub struct OpenChunk {
    /// The SecureChannelId.
    pub channel: u32,
    /// The SequenceNumber.
    pub sequence: u32,
    /// The RequestId.
    pub request: u32,
    /// The bytes after the sequence header.
    pub body: Bytes,
}

/// The fields before the sequence header of an OPN frame.
#[derive(Clone, Copy)]
struct PolicyHeader<'a> {
    channel: u32,
    policy: Option<&'a [u8]>,
    certificate: Option<&'a [u8]>,
    thumbprint: Option<&'a [u8]>,
}

/// The policy header, and the bytes after it.
fn split_policy(octets: &[u8]) -> Option<(PolicyHeader<'_>, &[u8])>
    ensures { MatchOption result (policy_header.decode octets.now ≡ None)
        (λ r. policy_header.decode octets.now
        ≡ Some (
          (
            r.0.channel,
            (
              option_map (λ o. o.now) r.0.policy,
              (option_map (λ o. o.now) r.0.certificate, option_map (λ o. o.now) r.0.thumbprint),
            ),
          ),
          r.1.now,
        )) }
{
    let (channel, rest) = split_number(octets)?;
    let (policy, rest) = split_counted(rest)?;
    let (certificate, rest) = split_counted(rest)?;
    let (thumbprint, rest) = split_counted(rest)?;
    Some((
        PolicyHeader {
            channel,
            policy,
            certificate,
            thumbprint,
        },
        rest,
    ))
}

/// Whether a SecurityPolicy is None.
fn is_none(policy: Option<&[u8]>) -> bool
    ensures { result ≡ is_none_policy (option_map (λ o. o.now) policy.entry) }
{
    match policy {
        None => false,
        Some(policy) => policy == NONE_POLICY.as_bytes(),
    }
}

/// The numbers in the headers of an OPN frame, and the length of the headers in bytes.
#[derive(Clone, Copy)]
struct Headers {
    channel: u32,
    sequence: u32,
    request: u32,
    len: usize,
}

/// The headers before a body.
fn read_headers(octets: &[u8]) -> Result<Headers, OpenFault>
    ensures { MatchResult result (λ h. HeadersAt octets.now h.channel h.sequence h.request h.len)
        (λ fault. open_refusal octets.now ≡ Some fault) }
{
    let Some((header, rest)) = split_policy(octets) else {
        return Err(OpenFault::Unreadable);
    };
    if !is_none(header.policy) {
        return Err(OpenFault::Policy);
    }
    let Some((sequence, request, rest)) = split_sequence(rest) else {
        return Err(OpenFault::Unreadable);
    };
    Ok(Headers {
        channel: header.channel,
        sequence,
        request,
        len: octets.len() - rest.len(),
    })
}

/// Reads the chunk of an OPN frame. The certificate and the thumbprint are ignored. The function
/// allocates nothing, and copies no body.
#[tactic(auto, using(crate::proofs::Carried::opening_none))]
pub fn read_open(frame: Frame) -> Result<OpenChunk, OpenFault>
    ensures chunk { IfOk result (IsOpenChunkOf frame) }
    ensures found { MatchResult result (λ chunk. opening_in frame ≡ Some chunk) (λ _. opening_in frame ≡ None) }
    ensures faults { MatchResult result (λ _. open_refusal frame.body ≡ None)
        (λ fault. open_refusal frame.body ≡ Some fault) }
{
    let mut body = frame.body;
    let headers = read_headers(&body)?;
    body.advance(headers.len);
    Ok(OpenChunk {
        channel: headers.channel,
        sequence: headers.sequence,
        request: headers.request,
        body,
    })
}
