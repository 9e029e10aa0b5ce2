//! The responses to OPNs.
ghost use Rattle.ua_opening.specs.Open.{answer_read};
ghost use Rattle.ua_channel.specs.inside.ClientParts.{Judged, JudgesAnswer, body_reasons};
ghost use Rattle.ua_channel.specs.inside.ClientParts.{response_reasons, Issues, IsAnsweredBy};
ghost use Rattle.ua_channel.specs.Content.{opening_of};

use crate::end_fault::EndFault;
use std::alloc::Global;
use ua_builtin::{Octets, ReadFault, StatusCode};
use ua_chunk::read_open;
use ua_frame::Frame;
use ua_opening::{OpenAnswer, OpenResponse, read_open_response};

/// A good response to an OPN: its numbers, and the SecureChannelId and the TokenId that it brings.
#[derive(Clone, Copy)]
pub struct Answer {
    pub sequence: u32,
    pub request: u32,
    pub channel: u32,
    pub token: u32,
}

/// The token that a good response issues.
#[derive(Clone, Copy)]
pub struct IssuedToken {
    pub channel: u32,
    pub token: u32,
}

/// The token of a good response.
fn judge_response(response: OpenResponse) -> Result<IssuedToken, EndFault>
    ensures { Judged (response_reasons response) (Issues response) result }
{
    let code = response.response_header.service_result;
    let issued = IssuedToken {
        channel: response.channel_id,
        token: response.token_id,
    };
    drop(response);
    if code.is_bad() {
        return Err(EndFault::Refused(code));
    }
    Ok(issued)
}

/// The token that the body of an OPN issues.
fn judge_body(alloc: Global, body: &[u8]) -> Result<IssuedToken, EndFault>
    ensures { Judged (body_reasons (answer_read body.now)) (IsAnsweredBy (answer_read body.now)) result }
{
    let mut src = Octets::new(body);
    match read_open_response(alloc, &mut src) {
        Ok(OpenAnswer::Open(response)) => judge_response(response),
        Ok(OpenAnswer::Fault(fault)) => Err(EndFault::Refused(
            fault.response_header.service_result,
        )),
        Err(ReadFault::NoValue) => Err(EndFault::Refused(StatusCode::BAD_DECODING_ERROR)),
        Err(ReadFault::OutOfMemory) => Err(EndFault::OutOfMemory),
    }
}

/// The response in an OPN frame, judged without the frames before it.
pub(crate) fn judge_answer(alloc: Global, frame: Frame) -> Result<Answer, EndFault>
    ensures { JudgesAnswer (opening_of frame.body) result }
{
    let opening = match read_open(frame) {
        Ok(opening) => opening,
        Err(fault) => return Err(EndFault::from_open(fault)),
    };
    match judge_body(alloc, &opening.body) {
        Ok(issued) => Ok(Answer {
            sequence: opening.sequence,
            request: opening.request,
            channel: issued.channel,
            token: issued.token,
        }),
        Err(fault) => Err(fault),
    }
}
