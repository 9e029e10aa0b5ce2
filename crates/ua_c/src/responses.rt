//! Responses as texts.

ghost use Rattle.std.specs.Prelude.{◌≡◌, [], length, string_bytes, IfOk, IfErr, OnOk};
ghost use Rattle.ua_c.specs.Responses.{AddsFor, HasNoLines, BringsNoToken, IsKindOf, IsNoResponse};
ghost use Rattle.ua_c.specs.Responses.{AddsNoLinesFor, IsResponse, IsToken, IsFaultStatus, KindBy, LinesBy};
ghost use Rattle.ua_c.specs.Responses.{PutsReply, MakesReply, TellsNone, TokenBy, octets_in_text};

use crate::requests::nodes_of;
use crate::status::{BAD_OCTETS, NO_MEMORY, OK, SERVICE, UNKNOWN};
use crate::texts::put;
use std::alloc::Global;
use ua_answers::{
    AnswerFault, EndpointStyle, LineStyle, push_endpoints, push_read_answers, push_write_answers,
};
use ua_builtin::{NodeId, Octets};
use ua_services::{Response, ResponseFault, by_kind, read_response, responses};

/// The response that bytes encode, or a status.
pub(crate) fn response_of(alloc: Global, body: &[u8]) -> Result<Response, u32>
    ensures response { IfOk result (λ response. IsResponse body.now response) }
    ensures fault { IfErr result (λ status. IsNoResponse body.now status) }
{
    let mut source = Octets::new(body);
    match read_response(alloc, &mut source) {
        Ok(response) => Ok(response),
        Err(ResponseFault::OutOfMemory) => Err(NO_MEMORY),
        Err(_) => Err(BAD_OCTETS),
    }
}

/// The number of the encoding of a response (OPC 10000-6, A.3), and its ServiceResult.
fn kind_of(response: &Response) -> (u32, u32)
    ensures { IsKindOf response.now result.0 result.1 }
{
    let number = responses!(by_kind, response, _message, number => number);
    (number, response.header().service_result.code)
}

/// The text of the token in a response to CreateSession, or a status and the code of a failed
/// service.
fn token_in(alloc: Global, response: &Response, code: &mut u32) -> Result<String, u32>
    ensures token { IfOk result (λ text. IsToken response.now (string_bytes text)) }
    ensures fault { IfErr result (λ status. TellsNone BringsNoToken response.now code.new status) }
    ensures none { OnOk result (code.new ≡ 0) }
{
    *code = 0;
    match response {
        Response::CreateSession(message) => match message.authentication_token.to_text(alloc) {
            Ok(text) => Ok(text),
            Err(_) => Err(NO_MEMORY),
        },
        Response::ServiceFault(fault) => {
            *code = fault.response_header.service_result.code;
            Err(SERVICE)
        }
        _ => Err(UNKNOWN),
    }
}

/// The text of the token in the response that bytes encode.
fn token(alloc: Global, body: &[u8], code: &mut u32) -> Result<String, u32>
    ensures { TokenBy body.now code.new (octets_in_text result) }
{
    *code = 0;
    let response = match response_of(alloc, body) {
        Ok(response) => response,
        Err(status) => return Err(status),
    };
    let text = token_in(alloc, &response, code);
    drop(response);
    text
}

/// Adds the lines of a response to what was asked of nodes.
fn push_lines(
    alloc: Global,
    out: &mut String,
    nodes: &[NodeId],
    response: &Response,
) -> Result<(), AnswerFault>
    ensures lines { OnOk result (AddsFor nodes.now response.now (string_bytes out.old) (string_bytes out.new)) }
    ensures faults { IfErr result (AddsNoLinesFor (length nodes.now) response.now) }
{
    match response {
        Response::Write(_) => push_write_answers(
            alloc,
            out,
            nodes,
            response,
            LineStyle::plain(false),
        ),
        Response::GetEndpoints(_) => push_endpoints(alloc, out, response, EndpointStyle::plain()),
        _ => push_read_answers(alloc, out, nodes, response, LineStyle::plain(false)),
    }
}

/// The status for lines that were not made, and the code of a failed service.
fn status_of(fault: AnswerFault, code: &mut u32) -> u32
    ensures { IsFaultStatus fault code.new result }
{
    *code = 0;
    match fault {
        AnswerFault::Service(status) => {
            *code = status.code;
            SERVICE
        }
        AnswerFault::Unknown => UNKNOWN,
        AnswerFault::OutOfMemory => NO_MEMORY,
    }
}

/// The lines of a response to what was asked of nodes.
fn lines_in(
    alloc: Global,
    nodes: &[NodeId],
    response: &Response,
    code: &mut u32,
) -> Result<String, u32>
    ensures lines { IfOk result (λ text. AddsFor nodes.now response.now [] (string_bytes text)) }
    ensures fault { IfErr result (λ status. TellsNone (HasNoLines (length nodes.now)) response.now code.new status) }
    ensures none { OnOk result (code.new ≡ 0) }
{
    *code = 0;
    let mut text = String::new(alloc);
    match push_lines(alloc, &mut text, nodes, response) {
        Ok(()) => Ok(text),
        Err(fault) => Err(status_of(fault, code)),
    }
}

/// The lines of the response that bytes encode, to what was asked of the nodes that lines name.
fn lines(alloc: Global, nodes: &[u8], body: &[u8], code: &mut u32) -> Result<String, u32>
    ensures { LinesBy nodes.now body.now code.new (octets_in_text result) }
{
    *code = 0;
    let nodes = match nodes_of(alloc, nodes) {
        Ok(nodes) => nodes,
        Err(bad) => return Err(bad.status),
    };
    let response = match response_of(alloc, body) {
        Ok(response) => response,
        Err(status) => return Err(status),
    };
    let text = lines_in(alloc, nodes.as_slice(), &response, code);
    drop(response);
    text
}

/// Puts a text into a buffer, if there is one.
pub(crate) fn put_text(made: Result<String, u32>, buffer: &mut [u8], needed: &mut usize) -> u32
    ensures { PutsReply (octets_in_text made) buffer.old buffer.new needed.new result }
{
    match made {
        Ok(text) => put(text.as_bytes(), buffer, needed),
        Err(status) => {
            *needed = 0;
            status
        }
    }
}

/// The kind of response that a body is, by the number of its encoding, and its ServiceResult.
#[unsafe(no_mangle)]
pub extern "C" fn ua_response_kind(
    alloc: Global,
    body: &[u8],
    response: &mut u32,
    service_result: &mut u32,
) -> u32
    ensures { KindBy body.now response.new service_result.new result }
{
    *response = 0;
    *service_result = 0;
    match response_of(alloc, body) {
        Ok(message) => {
            let (number, code) = kind_of(&message);
            drop(message);
            *response = number;
            *service_result = code;
            OK
        }
        Err(status) => status,
    }
}

/// The text of the AuthenticationToken in the response to a CreateSession.
#[unsafe(no_mangle)]
pub extern "C" fn ua_session_token(
    alloc: Global,
    body: &[u8],
    buffer: &mut [u8],
    needed: &mut usize,
    code: &mut u32,
) -> u32
    ensures { MakesReply (λ made. TokenBy body.now code.new made) buffer.old buffer.new needed.new result }
{
    let made = token(alloc, body, code);
    put_text(made, buffer, needed)
}

/// The lines of the response to a Read or a Write of the nodes that lines name, or to a
/// GetEndpoints, as `ua read`, `ua write` and `ua endpoints` print them.
#[unsafe(no_mangle)]
pub extern "C" fn ua_response_text(
    alloc: Global,
    nodes: &[u8],
    body: &[u8],
    buffer: &mut [u8],
    needed: &mut usize,
    code: &mut u32,
) -> u32
    ensures { MakesReply (λ made. LinesBy nodes.now body.now code.new made) buffer.old buffer.new needed.new result }
{
    let made = lines(alloc, nodes, body, code);
    put_text(made, buffer, needed)
}
