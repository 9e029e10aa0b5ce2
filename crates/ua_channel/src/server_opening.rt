//! OPN frames at a server: their requests, and why they are refused.

ghost use Rattle.std.specs.Prelude.{◌≡◌, option_map};
ghost use Rattle.ua_builtin.specs.Reasons.{first_reason};
ghost use Rattle.ua_channel.specs.inside.ServerParts.{AreContentsOfRequest, ReadsAsked, asked_reasons, JudgesOpening};

use crate::end_fault::EndFault;
use crate::server_event::Event;
use std::alloc::Global;
use ua_builtin::{Octets, ReadFault, StatusCode};
use ua_chunk::read_open;
use ua_frame::Frame;
use ua_opening::{OpenRequest, read_open_request};

/// The RequestType Issue, which issues a token (OPC 10000-4, 5.6.2).
const ISSUE: i32 = 0;

/// The RequestType Renew, which renews a token (OPC 10000-4, 5.6.2).
const RENEW: i32 = 1;

/// The MessageSecurityMode None (OPC 10000-4, 7.20).
const NO_SECURITY: i32 = 1;

/// The lifetime of a token where none is asked for, in milliseconds: an hour.
const HOUR: u32 = 3600000;

/// What an OpenSecureChannel request asks for.
#[derive(Clone, Copy)]
pub struct Asked {
    pub kind: i32,
    pub mode: i32,
    pub handle: u32,
    pub lifetime: u32,
}

/// What an OPN has opened, but for its token.
#[derive(Clone, Copy)]
pub struct Opened {
    pub sequence: u32,
    pub request: u32,
    pub handle: u32,
    pub lifetime: u32,
}

impl Opened {
    ghost use Rattle.ua_channel.specs.ServerEvents.{server_told_of_event};
    ghost use Rattle.ua_channel.specs.ServerTold.{Told as told};

    /// The event of this opening, with the token that it has issued.
    pub(crate) fn event(self, token: u32) -> Event
        ensures { server_told_of_event result ≡ told.Opened self.request self.handle token self.lifetime }
    {
        Event::Opened {
            request: self.request,
            handle: self.handle,
            token,
            lifetime: self.lifetime,
        }
    }
}

/// What a request asks for.
fn asked_by(request: &OpenRequest) -> Asked
    ensures { AreContentsOfRequest request.now result }
{
    let asked = request.requested_lifetime;
    Asked {
        kind: request.request_type,
        mode: request.security_mode,
        handle: request.request_header.request_handle,
        lifetime: if asked == 0 { HOUR } else { asked },
    }
}

/// The content of the request that is exactly these bytes.
fn read_asked(alloc: Global, octets: &[u8]) -> Result<Asked, EndFault>
    ensures { ReadsAsked octets.now result }
{
    let mut source = Octets::new(octets);
    match read_open_request(alloc, &mut source) {
        Ok(request) => {
            let asked = asked_by(&request);
            drop(request);
            Ok(asked)
        }
        Err(ReadFault::NoValue) => Err(EndFault::Refused(StatusCode::BAD_DECODING_ERROR)),
        Err(ReadFault::OutOfMemory) => Err(EndFault::OutOfMemory),
    }
}

/// Why a request is refused whose OPN names the channel `on`, where so many tokens were issued.
fn judge_asked(asked: &Asked, on: u32, channel: u32, issued: u32) -> Option<StatusCode>
    ensures { option_map (λ status. status.code) result ≡ first_reason (asked_reasons asked.now on channel issued) }
{
    let wanted = if issued == 0 { ISSUE } else { RENEW };
    if asked.kind != wanted {
        return Some(StatusCode::BAD_REQUEST_TYPE_INVALID);
    }
    if asked.mode != NO_SECURITY {
        return Some(StatusCode::BAD_SECURITY_MODE_REJECTED);
    }
    if issued > 0 && on != channel {
        return Some(StatusCode::BAD_TCP_SECURE_CHANNEL_UNKNOWN);
    }
    None
}

/// The opening of an OPN on a channel with so many issued tokens. The caller checks its
/// SequenceNumber, and whether a token is left.
pub(crate) fn judge_opening(
    alloc: Global,
    channel: u32,
    issued: u32,
    frame: Frame,
) -> Result<Opened, EndFault>
    ensures { JudgesOpening channel issued frame.body result }
{
    let opening = match read_open(frame) {
        Ok(opening) => opening,
        Err(fault) => return Err(EndFault::from_open(fault)),
    };
    let asked = read_asked(alloc, &opening.body)?;
    match judge_asked(&asked, opening.channel, channel, issued) {
        Some(code) => Err(EndFault::Refused(code)),
        None => Ok(Opened {
            sequence: opening.sequence,
            request: opening.request,
            handle: asked.handle,
            lifetime: asked.lifetime,
        }),
    }
}
