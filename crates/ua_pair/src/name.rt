//! The names of messages.

ghost use Rattle.std.specs.List.{concat};
ghost use Rattle.std.specs.Prelude.{◌≡◌, None, IfOk};
ghost use Rattle.ua_opening.specs.Header.{service_fault};
ghost use Rattle.ua_opening.specs.Message.{body_of};
ghost use Rattle.ua_opening.specs.Open.{answer_found};
ghost use Rattle.ua_opening.specs.SecureChannel.{open_response};
ghost use Rattle.ua_fields.specs.declared.side.Side.TheVariants.{Client, Server};
ghost use Rattle.ua_pair.specs.Names.{open_answer_name, request_name as name_of_request};
ghost use Rattle.ua_pair.specs.Names.{response_name as name_of_response, message_name as name_of_message};
ghost use Rattle.ua_pair.specs.Names.{is_unsupported, is_unsupported_request};
ghost use Rattle.ua_pair.specs.Names.{is_unsupported_response, opening_name as name_of_opening};

use std::alloc::{AllocError, Global};
use ua_builtin::{MOST_LEVELS, NodeId, Octets, ReadFault, Skip, Source, Wire};
use ua_chunk::Message;
use ua_fields::{Side, skip_open_response};
use ua_opening::standard_number;
use ua_services::{
    RequestFault, ResponseFault, ResponseHeader, read_open_request, skip_request, skip_response,
};

/// The name of a body that its kind does not encode.
const UNREADABLE: &str = "unreadable";

/// The name of a body of no known kind.
const UNSUPPORTED: &str = "unsupported";

/// The name of a request, and whether it is of no known kind.
fn request_name<S: Source>(alloc: Global, src: &mut S) -> Result<(&'static str, bool), AllocError>
    ensures name { IfOk result (λ named. named.0.now ≡ name_of_request (S.octets src.old)) }
    ensures unsupported { IfOk result (λ named. named.1 ≡ is_unsupported_request (S.octets src.old)) }
{
    match skip_request(alloc, src) {
        Ok(kind) => Ok((kind.name(), false)),
        Err(RequestFault::Unsupported(_)) => Ok((UNSUPPORTED, true)),
        Err(RequestFault::Unreadable(_)) => Ok((UNREADABLE, false)),
        Err(RequestFault::OutOfMemory) => Err(AllocError),
    }
}

/// The name of a response, and whether it is of no known kind.
fn response_name<S: Source>(alloc: Global, src: &mut S) -> Result<(&'static str, bool), AllocError>
    ensures name { IfOk result (λ named. named.0.now ≡ name_of_response (S.octets src.old)) }
    ensures unsupported { IfOk result (λ named. named.1 ≡ is_unsupported_response (S.octets src.old)) }
{
    match skip_response(alloc, src) {
        Ok(kind) => Ok((kind.name(), false)),
        Err(ResponseFault::Unknown) => Ok((UNSUPPORTED, true)),
        Err(ResponseFault::Unreadable) => Ok((UNREADABLE, false)),
        Err(ResponseFault::OutOfMemory) => Err(AllocError),
    }
}

/// The name of a message with this body that this side sent, and whether it is of no known kind.
fn body_name<S: Source>(
    alloc: Global,
    side: Side,
    src: &mut S,
) -> Result<(&'static str, bool), AllocError>
    ensures name { IfOk result (λ named. named.0.now ≡ name_of_message side (S.octets src.old)) }
    ensures unsupported { IfOk result (λ named. named.1 ≡ is_unsupported side (S.octets src.old)) }
{
    match side {
        Side::Client => request_name(alloc, src),
        Side::Server => response_name(alloc, src),
    }
}

/// The name of a message that this side sent, and whether it is of no known kind.
pub(crate) fn message_name(
    alloc: Global,
    side: Side,
    message: &Message,
) -> Result<(&'static str, bool), AllocError>
    ensures name { IfOk result (λ named. named.0.now ≡ name_of_message side (concat message.now)) }
    ensures unsupported { IfOk result (λ named. named.1 ≡ is_unsupported side (concat message.now)) }
{
    match message.parts() {
        [part] => body_name(alloc, side, &mut Octets::new(part.as_slice())),
        _ => body_name(alloc, side, &mut message.source()),
    }
}

/// The name of an OpenSecureChannel request.
fn open_request_name<S: Source>(alloc: Global, src: &mut S) -> Result<&'static str, AllocError>
    ensures { IfOk result (λ name. name.now ≡ name_of_opening Client (S.octets src.old)) }
{
    match read_open_request(alloc, src) {
        Ok(request) => {
            drop(request);
            Ok("OpenSecureChannelRequest")
        }
        Err(ReadFault::NoValue) => Ok(UNREADABLE),
        Err(ReadFault::OutOfMemory) => Err(AllocError),
    }
}

/// The name of an OpenSecureChannelResponse that is the whole source, after the NodeId of its
/// encoding.
#[tactic(auto, using(crate::proofs::OpeningNames::open_skipped, crate::proofs::OpeningNames::open_left, crate::proofs::OpeningNames::open_fails))]
fn open_name<S: Source>(alloc: Global, src: &mut S) -> Result<&'static str, AllocError>
    ensures { IfOk result (λ name. name.now ≡ open_answer_name (answer_found (body_of open_response (S.octets src.old))
        None)) }
{
    match skip_open_response(alloc, src) {
        Ok(()) if src.left() == 0 => Ok("OpenSecureChannelResponse"),
        Ok(()) => Ok(UNREADABLE),
        Err(ReadFault::NoValue) => Ok(UNREADABLE),
        Err(ReadFault::OutOfMemory) => Err(AllocError),
    }
}

/// The name of a ServiceFault that is the whole source, after the NodeId of its encoding: it is a
/// header (OPC 10000-4, 7.35).
#[tactic(auto, using(crate::proofs::OpeningNames::fault_skipped, crate::proofs::OpeningNames::fault_left, crate::proofs::OpeningNames::fault_fails))]
fn fault_name<S: Source>(alloc: Global, src: &mut S) -> Result<&'static str, AllocError>
    ensures { IfOk result (λ name. name.now ≡ open_answer_name (answer_found None (body_of service_fault
        (S.octets src.old)))) }
{
    match ResponseHeader::skip_value(alloc, src, MOST_LEVELS) {
        Ok(()) if src.left() == 0 => Ok("ServiceFault"),
        Ok(()) => Ok(UNREADABLE),
        Err(ReadFault::NoValue) => Ok(UNREADABLE),
        Err(ReadFault::OutOfMemory) => Err(AllocError),
    }
}

/// The name of the response to an OpenSecureChannel request, of which nothing is kept.
#[tactic(auto, using(crate::proofs::OpeningNames::no_id, crate::proofs::OpeningNames::is_open, crate::proofs::OpeningNames::is_fault, crate::proofs::OpeningNames::no_answer))]
fn open_response_name<S: Source>(alloc: Global, src: &mut S) -> Result<&'static str, AllocError>
    ensures { IfOk result (λ name. name.now ≡ name_of_opening Server (S.octets src.old)) }
{
    let id = match NodeId::read_value(alloc, src, MOST_LEVELS) {
        Ok(id) => id,
        Err(ReadFault::NoValue) => return Ok(UNREADABLE),
        Err(ReadFault::OutOfMemory) => return Err(AllocError),
    };
    match standard_number(&id) {
        Some(449) => open_name(alloc, src),
        Some(397) => fault_name(alloc, src),
        _ => Ok(UNREADABLE),
    }
}

/// The name of the body of an OPN that this side sent.
pub(crate) fn opening_name(
    alloc: Global,
    side: Side,
    body: &[u8],
) -> Result<&'static str, AllocError>
    ensures { IfOk result (λ name. name.now ≡ name_of_opening side body.now) }
{
    let mut src = Octets::new(body);
    match side {
        Side::Client => open_request_name(alloc, &mut src),
        Side::Server => open_response_name(alloc, &mut src),
    }
}
