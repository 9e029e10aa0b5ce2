//! The output for responses.

ghost use Rattle.std.specs.Prelude.{◌≡◌, ◌++◌, length, string_bytes, IfErr, OnOk};
ghost use Rattle.std.specs.List.{flat_map, list_any};
ghost use Rattle.ua_builtin.specs.Status.{is_bad};
ghost use Rattle.ua_answers.specs.Answers.{endpoint_line, read_lines, write_lines};
ghost use Rattle.ua_answers.specs.Replies.{AreAnswers, AreEndpoints, Leaves, NoAnswers, NoEndpoints};
ghost use Rattle.ua_answers.specs.Replies.{endpoints_in, has_bad, is_bad_value, statuses_in, values_in};

use crate::answer::{push_endpoint_line, push_read_line, push_write_line};
use crate::fault::AnswerFault;
use crate::style::{EndpointStyle, LineStyle};
use std::alloc::{AllocError, Global};
use ua_builtin::{NodeId, StatusCode};
use ua_services::Response;
use ua_structures::EndpointDescription;
use ua_variant::DataValue;

/// Whether any result of a Read or a Write has a Bad StatusCode: one whose top bit is set. A result
/// without a StatusCode is Good, and no other response has results.
pub fn has_bad_code(response: &Response) -> bool
    ensures { result ≡ has_bad response.now }
{
    match response {
        Response::Read(message) => has_bad_value(message.results.as_items().unwrap_or(&[])),
        Response::Write(message) => has_bad_status(message.results.as_items().unwrap_or(&[])),
        _ => false,
    }
}

fn has_bad_value(answers: &[DataValue]) -> bool
    ensures { result ≡ list_any is_bad_value answers.now }
{
    for answer in answers {
        if answer.status.unwrap_or(StatusCode::GOOD).is_bad() {
            return true;
        }
    }
    false
}

fn has_bad_status(statuses: &[StatusCode]) -> bool
    ensures { result ≡ list_any is_bad statuses.now }
{
    for status in statuses {
        if status.is_bad() {
            return true;
        }
    }
    false
}

/// Appends the lines of the results of a Read of these nodes, in their order, in this style.
pub fn push_read_answers(
    alloc: Global,
    out: &mut String,
    nodes: &[NodeId],
    response: &Response,
    style: LineStyle,
) -> Result<(), AnswerFault>
    ensures lines { OnOk result (AreAnswers (values_in response.now) (length nodes.now) (read_lines style nodes.now)
        (string_bytes out.old) (string_bytes out.new)) }
    ensures faults { IfErr result (NoAnswers (values_in response.now) (length nodes.now) response.now) }
    ensures kept { IfErr result (Leaves (string_bytes out.old) (string_bytes out.new)) }
{
    let answers = match response {
        Response::Read(message) => message.results.as_items(),
        Response::ServiceFault(fault) => {
            return Err(AnswerFault::Service(fault.response_header.service_result));
        }
        _ => None,
    };
    match answers {
        Some(answers) if answers.len() == nodes.len() => {
            Ok(push_read_lines(alloc, out, nodes, answers, style)?)
        }
        _ => Err(AnswerFault::Unknown),
    }
}

fn push_read_lines(
    alloc: Global,
    out: &mut String,
    nodes: &[NodeId],
    answers: &[DataValue],
    style: LineStyle,
) -> Result<(), AllocError>
    requires { length answers.now ≡ length nodes.now }
    ensures { OnOk result (string_bytes out.new ≡ string_bytes out.old ++ read_lines style nodes.now answers.now) }
{
    for (index, answer) in answers.iter().enumerate() {
        push_read_line(alloc, out, &nodes[index], answer, style)?;
    }
    Ok(())
}

/// Appends the lines of the results of a Write to these nodes, in their order, in this style.
pub fn push_write_answers(
    alloc: Global,
    out: &mut String,
    nodes: &[NodeId],
    response: &Response,
    style: LineStyle,
) -> Result<(), AnswerFault>
    ensures lines { OnOk result (AreAnswers (statuses_in response.now) (length nodes.now) (write_lines style nodes.now)
        (string_bytes out.old) (string_bytes out.new)) }
    ensures faults { IfErr result (NoAnswers (statuses_in response.now) (length nodes.now) response.now) }
    ensures kept { IfErr result (Leaves (string_bytes out.old) (string_bytes out.new)) }
{
    let answers = match response {
        Response::Write(message) => message.results.as_items(),
        Response::ServiceFault(fault) => {
            return Err(AnswerFault::Service(fault.response_header.service_result));
        }
        _ => None,
    };
    match answers {
        Some(answers) if answers.len() == nodes.len() => {
            Ok(push_write_lines(alloc, out, nodes, answers, style)?)
        }
        _ => Err(AnswerFault::Unknown),
    }
}

fn push_write_lines(
    alloc: Global,
    out: &mut String,
    nodes: &[NodeId],
    answers: &[StatusCode],
    style: LineStyle,
) -> Result<(), AllocError>
    requires { length answers.now ≡ length nodes.now }
    ensures { OnOk result (string_bytes out.new ≡ string_bytes out.old ++ write_lines style nodes.now answers.now) }
{
    for (index, status) in answers.iter().enumerate() {
        push_write_line(alloc, out, &nodes[index], *status, style)?;
    }
    Ok(())
}

/// Appends the lines of the endpoints of a GetEndpoints response; none if its array is null.
pub fn push_endpoints(
    alloc: Global,
    out: &mut String,
    response: &Response,
    style: EndpointStyle,
) -> Result<(), AnswerFault>
    ensures lines { OnOk result (AreEndpoints style (endpoints_in response.now) (string_bytes out.old)
        (string_bytes out.new)) }
    ensures faults { IfErr result (NoEndpoints response.now) }
    ensures kept { IfErr result (Leaves (string_bytes out.old) (string_bytes out.new)) }
{
    match response {
        Response::GetEndpoints(message) => {
            let endpoints = message.endpoints.as_items().unwrap_or(&[]);
            Ok(push_endpoint_lines(alloc, out, endpoints, style)?)
        }
        Response::ServiceFault(fault) => {
            Err(AnswerFault::Service(fault.response_header.service_result))
        }
        _ => Err(AnswerFault::Unknown),
    }
}

fn push_endpoint_lines(
    alloc: Global,
    out: &mut String,
    endpoints: &[EndpointDescription],
    style: EndpointStyle,
) -> Result<(), AllocError>
    ensures { OnOk result
        (string_bytes out.new ≡ string_bytes out.old ++ flat_map (endpoint_line style) endpoints.now) }
{
    for endpoint in endpoints {
        push_endpoint_line(alloc, out, endpoint, style)?;
    }
    Ok(())
}
