//! The lines of results and endpoints.

ghost use Rattle.std.specs.Prelude.{◌≡◌, ◌++◌, codes, string_bytes, OnOk};
ghost use Rattle.std.specs.List.{flat_map};
ghost use Rattle.ua_builtin.specs.NodeText.{node_text};
ghost use Rattle.ua_answers.specs.Answers.{address_line, endpoint_line, plain_endpoint, plain_read};
ghost use Rattle.ua_answers.specs.Answers.{plain_write, policies_part, policy_line, read_line, status_text};
ghost use Rattle.ua_answers.specs.Answers.{ticks_text, times_part, times_text, value_part, write_line};
ghost use Rattle.ua_texts.specs.Names.{named_code, number_of};

use crate::object::{push_endpoint_json, push_read_json, push_write_json};
use crate::style::{EndpointStyle, LineStyle};
use std::alloc::{AllocError, Global};
use std::fmt::Write;
use ua_builtin::{DateTime, NodeId, StatusCode};
use ua_structures::{EndpointDescription, UaArray, UserTokenPolicy};
use ua_texts::{push_code_as, push_string, push_variant};
use ua_variant::{DataValue, HeldVariant};

/// Appends the result of a Read item: `NODE CODE TYPE VALUE`, or `NODE CODE` if there is no value.
/// With names, the StatusCode's name follows it; with timestamps, the line ends in `source TICKS
/// server TICKS`, with `none` for an absent one. With JSON, the line is a JSON object with the same
/// parts.
#[tactic(auto, unfolding(crate::specs::Answers::read_line))]
pub fn push_read_line(
    alloc: Global,
    out: &mut String,
    node: &NodeId,
    answer: &DataValue,
    style: LineStyle,
) -> Result<(), AllocError>
    ensures { OnOk result (string_bytes out.new ≡ string_bytes out.old ++ read_line style node.now answer.now) }
{
    if style.json {
        push_read_json(alloc, out, node, answer, style)
    } else {
        push_plain_read(alloc, out, node, answer, style)
    }
}

fn push_plain_read(
    alloc: Global,
    out: &mut String,
    node: &NodeId,
    answer: &DataValue,
    style: LineStyle,
) -> Result<(), AllocError>
    ensures { OnOk result (string_bytes out.new ≡ string_bytes out.old ++ plain_read style node.now answer.now) }
{
    push_status(
        alloc,
        out,
        node,
        answer.status.unwrap_or(StatusCode::GOOD),
        style.names,
    )?;
    push_value_part(alloc, out, &answer.value)?;
    push_times_part(out, answer, style.times)?;
    out.push_str("\n")
}

/// Appends the result of a Write item: `NODE CODE`. With names, the StatusCode's name follows it.
/// With JSON, the line is a JSON object with the same parts.
#[tactic(auto, unfolding(crate::specs::Answers::write_line))]
pub fn push_write_line(
    alloc: Global,
    out: &mut String,
    node: &NodeId,
    status: StatusCode,
    style: LineStyle,
) -> Result<(), AllocError>
    ensures { OnOk result (string_bytes out.new ≡ string_bytes out.old ++ write_line style node.now status) }
{
    if style.json {
        push_write_json(alloc, out, node, status, style)
    } else {
        push_plain_write(alloc, out, node, status, style)
    }
}

fn push_plain_write(
    alloc: Global,
    out: &mut String,
    node: &NodeId,
    status: StatusCode,
    style: LineStyle,
) -> Result<(), AllocError>
    ensures { OnOk result (string_bytes out.new ≡ string_bytes out.old ++ plain_write style node.now status) }
{
    push_status(alloc, out, node, status, style.names)?;
    out.push_str("\n")
}

/// Appends a NodeId and a StatusCode, with its name if names are wanted.
pub(crate) fn push_status(
    alloc: Global,
    out: &mut String,
    node: &NodeId,
    status: StatusCode,
    names: bool,
) -> Result<(), AllocError>
    ensures { OnOk result (string_bytes out.new ≡ string_bytes out.old ++ status_text names node.now status.code) }
{
    let name = node.to_text(alloc)?;
    out.push_str(&name)?;
    out.push_str(" ")?;
    push_code_as(out, status, names)
}

/// Appends a value after a space, if there is one.
fn push_value_part(
    alloc: Global,
    out: &mut String,
    value: &Option<HeldVariant>,
) -> Result<(), AllocError>
    ensures { OnOk result (string_bytes out.new ≡ string_bytes out.old ++ value_part value.now) }
{
    match value {
        Some(value) => {
            out.push_str(" ")?;
            push_variant(alloc, out, value.get())
        }
        None => Ok(()),
    }
}

/// Appends the timestamps of an answer, if they are wanted.
fn push_times_part(out: &mut String, answer: &DataValue, times: bool) -> Result<(), AllocError>
    ensures { OnOk result (string_bytes out.new ≡ string_bytes out.old ++ times_part times answer.now) }
{
    if times {
        push_times(out, answer)
    } else {
        Ok(())
    }
}

/// Appends the timestamps of an answer.
fn push_times(out: &mut String, answer: &DataValue) -> Result<(), AllocError>
    ensures { OnOk result (string_bytes out.new ≡ string_bytes out.old ++ times_text answer.now) }
{
    out.push_str(" source ")?;
    push_ticks(out, answer.source_timestamp)?;
    out.push_str(" server ")?;
    push_ticks(out, answer.server_timestamp)
}

/// Appends a timestamp by its ticks, or `none`.
fn push_ticks(out: &mut String, moment: Option<DateTime>) -> Result<(), AllocError>
    ensures { OnOk result (string_bytes out.new ≡ string_bytes out.old ++ ticks_text moment) }
{
    match moment {
        Some(moment) => write!(out, "{}", moment.ticks),
        None => out.push_str("none"),
    }
}

/// Appends an endpoint: `URL MODE POLICY`, the MessageSecurityMode by its number. With token
/// policies, each has a line after it: `  policy ID TYPE`, the token type by its number. With JSON,
/// the line is a JSON object with the same parts.
#[tactic(auto, unfolding(crate::specs::Answers::endpoint_line))]
pub fn push_endpoint_line(
    alloc: Global,
    out: &mut String,
    endpoint: &EndpointDescription,
    style: EndpointStyle,
) -> Result<(), AllocError>
    ensures { OnOk result (string_bytes out.new ≡ string_bytes out.old ++ endpoint_line style endpoint.now) }
{
    if style.json {
        push_endpoint_json(alloc, out, endpoint, style)
    } else {
        push_plain_endpoint(out, endpoint, style)
    }
}

fn push_plain_endpoint(
    out: &mut String,
    endpoint: &EndpointDescription,
    style: EndpointStyle,
) -> Result<(), AllocError>
    ensures { OnOk result (string_bytes out.new ≡ string_bytes out.old ++ plain_endpoint style endpoint.now) }
{
    push_address(out, endpoint)?;
    push_policies_part(out, &endpoint.user_identity_tokens, style.policies)
}

/// Appends the address of a server, and its security.
fn push_address(out: &mut String, endpoint: &EndpointDescription) -> Result<(), AllocError>
    ensures { OnOk result (string_bytes out.new ≡ string_bytes out.old ++ address_line endpoint.now) }
{
    push_string(out, &endpoint.endpoint_url)?;
    write!(out, " {} ", endpoint.security_mode)?;
    push_string(out, &endpoint.security_policy_uri)?;
    out.push_str("\n")
}

/// Appends the token policies of an endpoint, if they are wanted.
fn push_policies_part(
    out: &mut String,
    policies: &UaArray<UserTokenPolicy>,
    wanted: bool,
) -> Result<(), AllocError>
    ensures { OnOk result (string_bytes out.new ≡ string_bytes out.old ++ policies_part wanted policies.now) }
{
    match policies.as_items() {
        Some(policies) if wanted => push_policies(out, policies),
        _ => Ok(()),
    }
}

/// Appends token policies, each in a line.
fn push_policies(out: &mut String, policies: &[UserTokenPolicy]) -> Result<(), AllocError>
    ensures { OnOk result (string_bytes out.new ≡ string_bytes out.old ++ flat_map policy_line policies.now) }
{
    for policy in policies {
        push_policy(out, policy)?;
    }
    Ok(())
}

/// Appends a token policy.
fn push_policy(out: &mut String, policy: &UserTokenPolicy) -> Result<(), AllocError>
    ensures { OnOk result (string_bytes out.new ≡ string_bytes out.old ++ policy_line policy.now) }
{
    out.push_str("  policy ")?;
    push_string(out, &policy.policy_id)?;
    write!(out, " {}", policy.token_type)?;
    out.push_str("\n")
}
