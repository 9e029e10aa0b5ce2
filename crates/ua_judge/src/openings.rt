//! The tokens of a server.

ghost use Rattle.std.specs.Prelude.{◌≡◌, ◌≤◌, ◌++◌, length, IfOk, OnOk, option_to_list};
ghost use Rattle.ua_judge.specs.Openings.{opened_in_frame, opened_in, AreOpenings};

use crate::raw_frame::{id_place, kind_of, split_frame};
use std::alloc::{AllocError, Global};
use ua_builtin::{Octets, ReadFault};
use ua_frame::Kind;
use ua_opening::{OpenAnswer, read_open_response};

/// What an OPN response of a server brought.
#[derive(Clone, Copy, Debug)]
pub struct Opened {
    /// The SecureChannelId.
    pub channel: u32,
    /// The TokenId.
    pub token: u32,
}

/// The SecureChannelId and the TokenId in the body of an OPN.
fn read_opened(alloc: Global, body: &[u8]) -> Result<Option<Opened>, AllocError>
    ensures { IfOk result (λ found. found ≡ opened_in body.now) }
{
    let mut src = Octets::new(body);
    match read_open_response(alloc, &mut src) {
        Ok(OpenAnswer::Open(response)) => Ok(Some(Opened {
            channel: response.channel_id,
            token: response.token_id,
        })),
        Ok(OpenAnswer::Fault(_)) => Ok(None),
        Err(ReadFault::NoValue) => Ok(None),
        Err(ReadFault::OutOfMemory) => Err(AllocError),
    }
}

/// What a frame of a server opens.
fn opened_by(alloc: Global, frame: &[u8]) -> Result<Option<Opened>, AllocError>
    requires { 8 ≤ length frame.now }
    ensures { IfOk result (λ found. found ≡ opened_in_frame frame.now) }
{
    match (kind_of(frame), id_place(frame)) {
        (Some(Kind::Opn), Some(place)) => read_opened(alloc, &frame[place + 4..]),
        _ => Ok(None),
    }
}

/// Appends what a frame of a server opens, if it opens something.
fn push_opened(alloc: Global, frame: &[u8], found: &mut Vec<Opened>) -> Result<(), AllocError>
    requires { 8 ≤ length frame.now }
    ensures { OnOk result (found.new.items ≡ found.old.items ++ option_to_list (opened_in_frame frame.now)) }
{
    if let Some(opened) = opened_by(alloc, frame)? {
        found.push(opened)?;
    }
    Ok(())
}

/// What the OPN responses of a server brought, in order.
pub(crate) fn openings_in(alloc: Global, octets: &[u8]) -> Result<Vec<Opened>, AllocError>
    ensures { IfOk result (λ found. AreOpenings octets.now found.items) }
{
    let mut found = Vec::new(alloc);
    let mut rest = octets;
    while let Some((frame, more)) = split_frame(rest) {
        push_opened(alloc, frame, &mut found)?;
        rest = more;
    }
    Ok(found)
}
