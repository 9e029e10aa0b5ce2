//! The token policy that a client uses, of the endpoints in a response.

ghost use Rattle.std.specs.Prelude.{◌≡◌, IfErr, IfOk, OnOk, string_bytes};
ghost use Rattle.ua_services.specs.Policy.{array_items};
ghost use Rattle.ua_c.specs.Choosing.{ChoosesNone, IsChosenAmong, IsNotChosenAmong, IsPolicy, PolicyBy};
ghost use Rattle.ua_c.specs.Responses.{MakesReply, octets_in_text};
ghost use Rattle.ua_c.specs.Status.{no_memory};

use crate::responses::{put_text, response_of};
use crate::status::{NO_MEMORY, NO_POLICY, SERVICE, UNKNOWN};
use std::alloc::Global;
use ua_builtin::UaString;
use ua_services::{EndpointDescription, Response, chosen_id};

/// The text of a PolicyId, none if it is null, or a status.
fn policy_text(alloc: Global, id: &UaString) -> Result<String, u32>
    ensures text { IfOk result (λ text. string_bytes text ≡ array_items id.now) }
    ensures fault { IfErr result (λ status. status ≡ no_memory) }
{
    let mut text = String::new(alloc);
    match text.push_str(id.as_str().unwrap_or("")) {
        Ok(()) => Ok(text),
        Err(_) => Err(NO_MEMORY),
    }
}

/// The text of the PolicyId that endpoints give, or a status.
fn policy_among(alloc: Global, endpoints: &[EndpointDescription]) -> Result<String, u32>
    ensures text { IfOk result (λ text. IsChosenAmong endpoints.now (string_bytes text)) }
    ensures fault { IfErr result (λ status. IsNotChosenAmong endpoints.now status) }
{
    match chosen_id(endpoints) {
        Some(id) => policy_text(alloc, id),
        None => Err(NO_POLICY),
    }
}

/// The text of the PolicyId that a response to GetEndpoints gives, or a status and the code of a
/// failed service.
fn policy_in(alloc: Global, response: &Response, code: &mut u32) -> Result<String, u32>
    ensures text { IfOk result (λ text. IsPolicy response.now (string_bytes text)) }
    ensures fault { IfErr result (λ status. ChoosesNone response.now code.new status) }
    ensures none { OnOk result (code.new ≡ 0) }
{
    *code = 0;
    match response {
        Response::GetEndpoints(message) => {
            let endpoints = message.endpoints.as_items().unwrap_or(&[]);
            policy_among(alloc, endpoints)
        }
        Response::ServiceFault(fault) => {
            *code = fault.response_header.service_result.code;
            Err(SERVICE)
        }
        _ => Err(UNKNOWN),
    }
}

/// The text of the PolicyId that the response gives that the bytes encode.
fn policy(alloc: Global, body: &[u8], code: &mut u32) -> Result<String, u32>
    ensures { PolicyBy body.now code.new (octets_in_text result) }
{
    *code = 0;
    let response = match response_of(alloc, body) {
        Ok(response) => response,
        Err(status) => return Err(status),
    };
    let text = policy_in(alloc, &response, code);
    drop(response);
    text
}

/// The PolicyId of the anonymous token policy that a client uses, of the response to a
/// GetEndpoints.
#[unsafe(no_mangle)]
pub extern "C" fn ua_choose_policy(
    alloc: Global,
    body: &[u8],
    buffer: &mut [u8],
    needed: &mut usize,
    code: &mut u32,
) -> u32
    ensures { MakesReply (λ made. PolicyBy body.now code.new made) buffer.old buffer.new needed.new result }
{
    let made = policy(alloc, body, code);
    put_text(made, buffer, needed)
}
