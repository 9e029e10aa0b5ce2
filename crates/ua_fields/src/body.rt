//! Message bodies as lines.

ghost use Rattle.std.specs.Prelude.{◌≡◌, ◌++◌, IfOk, OnOk, Option, string_bytes};
ghost use Rattle.ua_opening.specs.Message.{body_of, message};
ghost use Rattle.ua_opening.specs.Open.{answer_read};
ghost use Rattle.ua_opening.specs.SecureChannel.{close_request, open_request};
ghost use Rattle.ua_services.specs.Request.{request};
ghost use Rattle.ua_services.specs.Response.{response};
ghost use Rattle.ua_fields.specs.Bodies.{AreBodyFields, IsBodyText, IsFound, IsHeaderText, behind_id, body_fields};
ghost use Rattle.ua_fields.specs.Messages.{AreMessageLines};
ghost use Rattle.ua_texts.specs.PlainLeaf.{Adds};

use crate::lines::Lines;
use crate::message::push_message;
use crate::side::Side;
use crate::style::FieldStyle;
use std::alloc::{AllocError, Global};
use ua_builtin::{MOST_LEVELS, NodeId, ReadFault, Source, Wire};
use ua_opening::standard_number;
use ua_services::{
    CloseRequest, OpenAnswer, OpenRequest, Request, RequestFault, Response, ResponseFault,
    ServiceFault, read_open_request, read_open_response, read_request, read_response,
};

/// How a body is decoded, given its sender and its message type (OPC 10000-6, 6.7.2).
#[derive(Clone, Copy, PartialEq, Eq, Debug)]
pub enum BodyKind {
    /// A request, from a client in a MSG.
    Request,
    /// A response, from a server in a MSG.
    Response,
    /// An OpenSecureChannel request, from a client in an OPN.
    OpenRequest,
    /// The response to an OpenSecureChannel request, or a ServiceFault, from a server in an OPN.
    OpenResponse,
    /// A CloseSecureChannel request, from a client in a CLO.
    CloseRequest,
}

/// The number of the encoding of a CloseSecureChannel request (OPC 10000-6, A.3).
const CLOSE_REQUEST: u32 = 452;

/// The CloseSecureChannel request that bytes are, after the NodeId of its encoding.
fn found_last<S: Source>(alloc: Global, src: &mut S) -> Result<Option<CloseRequest>, AllocError>
    ensures { IfOk result (λ found. found ≡ body_of close_request (S.octets src.old)) }
{
    match CloseRequest::read_value(alloc, src, MOST_LEVELS) {
        Ok(request) if src.left() == 0 => Ok(Some(request)),
        Ok(_) => Ok(None),
        Err(ReadFault::NoValue) => Ok(None),
        Err(ReadFault::OutOfMemory) => Err(AllocError),
    }
}

/// The CloseSecureChannel request that a body is, if it is one.
fn found_close_request<S: Source>(
    alloc: Global,
    src: &mut S,
) -> Result<Option<CloseRequest>, AllocError>
    ensures { IfOk result (λ found. found ≡ body_of (message 452 close_request) (S.octets src.old)) }
{
    let id = match NodeId::read_value(alloc, src, MOST_LEVELS) {
        Ok(id) => id,
        Err(ReadFault::NoValue) => return Ok(None),
        Err(ReadFault::OutOfMemory) => return Err(AllocError),
    };
    let Some(number) = standard_number(&id) else {
        return Ok(None);
    };
    if number != CLOSE_REQUEST {
        return Ok(None);
    }
    found_last(alloc, src)
}

/// The request that a body is, if it is one.
fn found_request<S: Source>(alloc: Global, src: &mut S) -> Result<Option<Request>, AllocError>
    ensures { IfOk result (λ found. found ≡ body_of request (S.octets src.old)) }
{
    match read_request(alloc, src) {
        Ok(request) => Ok(Some(request)),
        Err(RequestFault::Unsupported(_)) => Ok(None),
        Err(RequestFault::Unreadable(_)) => Ok(None),
        Err(RequestFault::OutOfMemory) => Err(AllocError),
    }
}

/// The response that a body is, if it is one.
fn found_response<S: Source>(alloc: Global, src: &mut S) -> Result<Option<Response>, AllocError>
    ensures { IfOk result (λ found. found ≡ body_of response (S.octets src.old)) }
{
    match read_response(alloc, src) {
        Ok(response) => Ok(Some(response)),
        Err(ResponseFault::Unknown) => Ok(None),
        Err(ResponseFault::Unreadable) => Ok(None),
        Err(ResponseFault::OutOfMemory) => Err(AllocError),
    }
}

/// The OpenSecureChannel request that a body is, if it is one.
fn found_open_request<S: Source>(
    alloc: Global,
    src: &mut S,
) -> Result<Option<OpenRequest>, AllocError>
    ensures { IfOk result (λ found. found ≡ body_of (message 446 open_request) (S.octets src.old)) }
{
    match read_open_request(alloc, src) {
        Ok(request) => Ok(Some(request)),
        Err(ReadFault::NoValue) => Ok(None),
        Err(ReadFault::OutOfMemory) => Err(AllocError),
    }
}

/// The response to an OpenSecureChannel request that a body is, if it is one.
fn found_open_answer<S: Source>(
    alloc: Global,
    src: &mut S,
) -> Result<Option<OpenAnswer>, AllocError>
    ensures { IfOk result (λ found. found ≡ answer_read (S.octets src.old)) }
{
    match read_open_response(alloc, src) {
        Ok(answer) => Ok(Some(answer)),
        Err(ReadFault::NoValue) => Ok(None),
        Err(ReadFault::OutOfMemory) => Err(AllocError),
    }
}

/// Appends the lines of what was found, or none.
fn push_found<T: Lines + Drop>(
    alloc: Global,
    style: FieldStyle,
    found: Result<Option<T>, AllocError>,
    out: &mut String,
) -> Result<(), AllocError>
    ensures { (there : Option T) → IfOk found (λ o. o ≡ there)
        → Adds result (string_bytes out.old) (string_bytes out.new)
        (IsFound (λ value. AreMessageLines style (T.tree value)) there) }
{
    match found {
        Ok(Some(value)) => push_message(alloc, style, &value, out),
        Ok(None) => Ok(()),
        Err(fault) => Err(fault),
    }
}

/// Appends the lines of a body in this style: those of the message in it, or none if the body cannot
/// be decoded or is of an unknown service. Discard the source afterwards. If an allocation fails,
/// some lines may have been appended.
pub fn push_body<S: Source>(
    alloc: Global,
    kind: BodyKind,
    style: FieldStyle,
    src: &mut S,
    out: &mut String,
) -> Result<(), AllocError>
    ensures { Adds result (string_bytes out.old) (string_bytes out.new) (IsBodyText style kind (S.octets src.old)) }
{
    match kind {
        BodyKind::Request => push_found(alloc, style, found_request(alloc, src), out),
        BodyKind::Response => push_found(alloc, style, found_response(alloc, src), out),
        BodyKind::OpenRequest => push_found(alloc, style, found_open_request(alloc, src), out),
        BodyKind::OpenResponse => push_found(alloc, style, found_open_answer(alloc, src), out),
        BodyKind::CloseRequest => push_found(alloc, style, found_close_request(alloc, src), out),
    }
}

/// Appends the exact lines of the message in a body, or none if the body cannot be decoded or is of
/// an unknown service. Discard the source afterwards. If an allocation fails, some lines may have
/// been appended.
#[tactic(auto, using(crate::proofs::Bodies::body_told, crate::proofs::Bodies::exact_body))]
pub fn push_body_fields<S: Source>(
    alloc: Global,
    kind: BodyKind,
    names: bool,
    src: &mut S,
    out: &mut String,
) -> Result<(), AllocError>
    ensures fields { OnOk result (string_bytes out.new ≡ string_bytes out.old ++ body_fields names kind
        (S.octets src.old)) }
    ensures told { AreBodyFields names kind (S.octets src.old) (body_fields names kind (S.octets src.old)) }
{
    push_body(alloc, kind, FieldStyle::exact(names), src, out)
}

/// The value after the NodeId at the start of bytes, whatever follows it.
fn found_behind<T: Wire, S: Source>(alloc: Global, src: &mut S) -> Result<Option<T>, AllocError>
    ensures { IfOk result (λ found. found ≡ behind_id T.format (S.octets src.old)) }
{
    match NodeId::read_value(alloc, src, MOST_LEVELS) {
        Ok(id) => drop(id),
        Err(ReadFault::NoValue) => return Ok(None),
        Err(ReadFault::OutOfMemory) => return Err(AllocError),
    }
    match T::read_value(alloc, src, MOST_LEVELS) {
        Ok(value) => Ok(Some(value)),
        Err(ReadFault::NoValue) => Ok(None),
        Err(ReadFault::OutOfMemory) => Err(AllocError),
    }
}

/// Appends the lines of the header of a message that this side sent, if it is decoded completely: a
/// CloseSecureChannelRequest is a RequestHeader and no more, a ServiceFault a ResponseHeader. If an
/// allocation fails, some lines may have been appended.
pub fn push_header<S: Source>(
    alloc: Global,
    side: Side,
    style: FieldStyle,
    src: &mut S,
    out: &mut String,
) -> Result<(), AllocError>
    ensures { Adds result (string_bytes out.old) (string_bytes out.new)
        (IsHeaderText style side (S.octets src.old)) }
{
    match side {
        Side::Client => {
            push_found(
                alloc,
                style,
                found_behind::<CloseRequest, S>(alloc, src),
                out,
            )
        }
        Side::Server => {
            push_found(
                alloc,
                style,
                found_behind::<ServiceFault, S>(alloc, src),
                out,
            )
        }
    }
}
