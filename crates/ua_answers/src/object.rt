//! Results and endpoints as JSON objects.

ghost use Rattle.std.specs.Prelude.{◌≡◌, ◌++◌, ◌∷◌, [], codes, true, map, option_map, string_bytes, IfOk, OnOk};
ghost use Rattle.std.specs.List.{flat_map};
ghost use Rattle.base64.specs.Engines.{standard};
ghost use Rattle.base64.specs.GeneralPurpose.{encode_of};
ghost use Rattle.json.specs.Token.{begin_object, end_object, key, string};
ghost use Rattle.json.specs.Json.{boolean};
ghost use Rattle.json.specs.Print.{print};
ghost use Rattle.json.specs.Tree.{json_tokens};
ghost use Rattle.ua_variant.specs.Data.{leaf, null};
ghost use Rattle.ua_variant.specs.Packed.{packed_leaves};
ghost use Rattle.ua_variant.specs.View.{elements_of, scalar_of, variant_of};
ghost use Rattle.ua_answers.specs.Json.{address_fields, json_array, array_fields, both_fields, dimension_fields};
ghost use Rattle.ua_answers.specs.Json.{endpoint_json, int64_json, items_json, json_line, name_fields, policies_json};
ghost use Rattle.ua_answers.specs.Json.{policy_fields, policy_json, read_json, scalar_fields, scalar_json};
ghost use Rattle.ua_answers.specs.Json.{signed_json, status_fields, text_or_null, time_fields, time_json};
ghost use Rattle.ua_answers.specs.Json.{uint64_json, value_fields, variant_fields, write_json, written_fields};
ghost use Rattle.ua_texts.specs.Names.{name_of_code};
ghost use Rattle.ua_answers.specs.Tokens.{PutsTokens, element_tokens, fields_tokens};
ghost use Rattle.ua_texts.specs.Values.{scalar_text, type_name as name_of_type};

use crate::style::{EndpointStyle, LineStyle};
use base64::engine::general_purpose::STANDARD;
use json::Writer;
use std::alloc::{AllocError, Global};
use std::str;
use ua_builtin::{DateTime, NodeId, StatusCode, UaBytes, UaString};
use ua_diagnostic::Dimensions;
use ua_structures::{EndpointDescription, UaArray, UserTokenPolicy};
use ua_texts::{code_name, push_code, push_scalar, type_name};
use ua_variant::{DataValue, Elements, HeldVariant, Packed, Scalar, Scalars, Variant};

/// The greatest magnitude up to which a Double holds each whole number, 2^53.
const MOST_EXACT: u64 = 9_007_199_254_740_992;

/// Appends the result of a Read item.
pub(crate) fn push_read_json(
    alloc: Global,
    out: &mut String,
    node: &NodeId,
    answer: &DataValue,
    style: LineStyle,
) -> Result<(), AllocError>
    ensures { OnOk result
        (string_bytes out.new ≡ string_bytes out.old ++ json_line (read_json style node.now answer.now)) }
{
    let mut line = begin_line(alloc)?;
    let status = answer.status.unwrap_or(StatusCode::GOOD);
    put_status(alloc, &mut line, node, status, style.names)?;
    put_value(alloc, &mut line, &answer.value)?;
    put_times(&mut line, answer, style.times)?;
    end_line(out, line)
}

/// Appends the result of a Write item.
pub(crate) fn push_write_json(
    alloc: Global,
    out: &mut String,
    node: &NodeId,
    status: StatusCode,
    style: LineStyle,
) -> Result<(), AllocError>
    ensures { OnOk result
        (string_bytes out.new ≡ string_bytes out.old ++ json_line (write_json style node.now status)) }
{
    let mut line = begin_line(alloc)?;
    put_status(alloc, &mut line, node, status, style.names)?;
    end_line(out, line)
}

/// Appends an endpoint.
pub(crate) fn push_endpoint_json(
    alloc: Global,
    out: &mut String,
    endpoint: &EndpointDescription,
    style: EndpointStyle,
) -> Result<(), AllocError>
    ensures { OnOk result
        (string_bytes out.new ≡ string_bytes out.old ++ json_line (endpoint_json style endpoint.now)) }
{
    let mut line = begin_line(alloc)?;
    put_address(&mut line, endpoint)?;
    put_policies(&mut line, &endpoint.user_identity_tokens, style.policies)?;
    end_line(out, line)
}

/// A line whose object has begun.
pub(crate) fn begin_line(alloc: Global) -> Result<Writer, AllocError>
    ensures { IfOk result (λ line. (line.before ≡ []) × (line.tokens ≡ begin_object ∷ [])) }
{
    let mut line = Writer::new(Vec::new(alloc));
    line.begin_object()?;
    Ok(line)
}

/// Ends the object, and appends what was put as a line.
pub(crate) fn end_line(out: &mut String, mut line: Writer) -> Result<(), AllocError>
    requires { line.before ≡ [] }
    ensures { OnOk result
        (string_bytes out.new ≡ string_bytes out.old ++ (print (line.tokens ++ end_object ∷ []) ++ codes "\n")) }
{
    line.end_object()?;
    push_line(out, line)
}

/// Appends what was put as a line.
fn push_line(out: &mut String, line: Writer) -> Result<(), AllocError>
    requires { line.before ≡ [] }
    ensures { OnOk result (string_bytes out.new ≡ string_bytes out.old ++ (print line.tokens ++ codes "\n")) }
{
    let octets = line.into_inner();
    let Ok(text) = str::from_utf8(&octets) else {
        unreachable!()
    };
    out.push_str(text)?;
    out.push_str("\n")
}

/// Puts a member that is a text.
pub(crate) fn put_text(line: &mut Writer, name: &str, text: &str) -> Result<(), AllocError>
    ensures { PutsTokens result line.old line.new (key name.now ∷ string text.now ∷ []) }
{
    line.key(name)?;
    line.string(text)
}

/// Puts a String, or null.
pub(crate) fn put_string(line: &mut Writer, text: &UaString) -> Result<(), AllocError>
    ensures { PutsTokens result line.old line.new (json_tokens (text_or_null text.now)) }
{
    match text.as_str() {
        Some(text) => line.string(text),
        None => line.null(),
    }
}

/// Puts a ByteString in base64, or null.
pub(crate) fn put_base64(
    alloc: Global,
    line: &mut Writer,
    octets: &UaBytes,
) -> Result<(), AllocError>
    ensures { PutsTokens result line.old line.new
        (json_tokens (text_or_null (option_map (encode_of standard) octets.now))) }
{
    match octets.as_octets() {
        Some(octets) => line.string(&STANDARD.encode(alloc, octets)?),
        None => line.null(),
    }
}

/// Puts a NodeId and a StatusCode, with its name if names are wanted.
pub(crate) fn put_status(
    alloc: Global,
    line: &mut Writer,
    node: &NodeId,
    status: StatusCode,
    names: bool,
) -> Result<(), AllocError>
    ensures { PutsTokens result line.old line.new (fields_tokens (status_fields names node.now status.code)) }
{
    put_text(line, "node", &node.to_text(alloc)?)?;
    let mut code = String::new(alloc);
    push_code(&mut code, status)?;
    put_text(line, "status", &code)?;
    put_name(line, status, names)
}

/// Puts the name of a StatusCode, if names are wanted and it has one.
pub(crate) fn put_name(line: &mut Writer, status: StatusCode, names: bool) -> Result<(), AllocError>
    ensures { PutsTokens result line.old line.new (fields_tokens (name_fields names (name_of_code status.code))) }
{
    match code_name(status) {
        Some(name) if names => put_text(line, "name", name),
        _ => Ok(()),
    }
}

/// Puts the value of an answer, if there is one.
fn put_value(
    alloc: Global,
    line: &mut Writer,
    value: &Option<HeldVariant>,
) -> Result<(), AllocError>
    ensures { PutsTokens result line.old line.new (fields_tokens (value_fields value.now)) }
{
    match value {
        Some(value) => put_written(alloc, line, value.get()),
        None => Ok(()),
    }
}

/// Puts a value, or `unwritable` if it cannot be encoded.
fn put_written(alloc: Global, line: &mut Writer, value: &Variant) -> Result<(), AllocError>
    ensures { PutsTokens result line.old line.new (fields_tokens (written_fields (variant_of value.now))) }
{
    if value.writable() {
        put_variant(alloc, line, value)
    } else {
        put_unwritable(line)
    }
}

pub(crate) fn put_unwritable(line: &mut Writer) -> Result<(), AllocError>
    ensures { PutsTokens result line.old line.new (fields_tokens ((codes "unwritable", boolean true) ∷ [])) }
{
    line.key("unwritable")?;
    line.boolean(true)
}

/// Puts the type and the value.
#[tactic(auto, using(crate::proofs::Pairs::fields_of))]
fn put_variant(alloc: Global, line: &mut Writer, value: &Variant) -> Result<(), AllocError>
    ensures { PutsTokens result line.old line.new (fields_tokens (variant_fields (variant_of value.now))) }
{
    match value {
        Variant::Null => put_null(line),
        Variant::One(scalar) => put_one(alloc, line, scalar),
        Variant::Many { kind, items, dims } => put_array(alloc, line, *kind, items, dims),
    }
}

/// Puts that there is no value.
pub(crate) fn put_null(line: &mut Writer) -> Result<(), AllocError>
    ensures { PutsTokens result line.old line.new (fields_tokens (variant_fields null)) }
{
    put_text(line, "type", "Null")?;
    line.key("value")?;
    line.null()
}

/// Puts the type and the value of a scalar.
fn put_one(alloc: Global, line: &mut Writer, scalar: &Scalar) -> Result<(), AllocError>
    ensures { PutsTokens result line.old line.new (fields_tokens (scalar_fields (scalar_of scalar.now))) }
{
    put_type(line, scalar.kind())?;
    line.key("value")?;
    put_scalar(alloc, line, scalar)
}

/// Puts the type of an id.
pub(crate) fn put_type(line: &mut Writer, kind: u8) -> Result<(), AllocError>
    ensures { PutsTokens result line.old line.new (key (codes "type") ∷ string (name_of_type kind) ∷ []) }
{
    put_text(line, "type", type_name(kind))
}

/// Puts the type, the elements and the dimensions of an array.
pub(crate) fn put_array(
    alloc: Global,
    line: &mut Writer,
    kind: u8,
    items: &Option<Scalars>,
    dims: &Dimensions,
) -> Result<(), AllocError>
    ensures { PutsTokens result line.old line.new (fields_tokens (array_fields kind items.now dims.now)) }
{
    put_array_type(alloc, line, kind)?;
    line.key("value")?;
    put_items(alloc, line, items)?;
    put_dimensions(line, dims)
}

/// Puts the type of an array of the type of an id.
pub(crate) fn put_array_type(alloc: Global, line: &mut Writer, kind: u8) -> Result<(), AllocError>
    ensures { PutsTokens result line.old line.new (key (codes "type") ∷ string (name_of_type kind ++ codes "[]") ∷ []) }
{
    let mut name = String::from_str(alloc, type_name(kind))?;
    name.push_str("[]")?;
    put_text(line, "type", &name)
}

/// Puts the elements of an array, or null.
fn put_items(alloc: Global, line: &mut Writer, items: &Option<Scalars>) -> Result<(), AllocError>
    ensures { PutsTokens result line.old line.new (json_tokens (items_json items.now)) }
{
    match items {
        Some(items) => put_list(alloc, line, items.elements()),
        None => line.null(),
    }
}

/// Puts the elements of an array.
fn put_list(alloc: Global, line: &mut Writer, elements: &Elements) -> Result<(), AllocError>
    ensures { PutsTokens result line.old line.new
        (json_tokens (json_array (map scalar_json (elements_of elements.now)))) }
{
    line.begin_array()?;
    put_elements(alloc, line, elements)?;
    line.end_array()
}

/// Puts the elements of an array, each a value.
fn put_elements(alloc: Global, line: &mut Writer, elements: &Elements) -> Result<(), AllocError>
    ensures { PutsTokens result line.old line.new (flat_map element_tokens (elements_of elements.now)) }
{
    match elements {
        Elements::Packed(packed) => put_packed(alloc, line, packed),
        Elements::Mixed(scalars) => put_scalars(alloc, line, scalars),
    }
}

fn put_packed(alloc: Global, line: &mut Writer, packed: &Packed) -> Result<(), AllocError>
    ensures { PutsTokens result line.old line.new (flat_map element_tokens (map leaf (packed_leaves packed.now))) }
{
    for index in 0..packed.len() {
        let Some(scalar) = packed.get(index) else {
            unreachable!()
        };
        put_scalar(alloc, line, &scalar)?;
    }
    Ok(())
}

fn put_scalars(alloc: Global, line: &mut Writer, scalars: &[Scalar]) -> Result<(), AllocError>
    ensures { PutsTokens result line.old line.new (flat_map element_tokens (map scalar_of scalars.now)) }
{
    for scalar in scalars {
        put_scalar(alloc, line, scalar)?;
    }
    Ok(())
}

/// Puts the dimensions of an array, if it has any.
pub(crate) fn put_dimensions(line: &mut Writer, dims: &Dimensions) -> Result<(), AllocError>
    ensures { PutsTokens result line.old line.new (fields_tokens (dimension_fields dims.now)) }
{
    let dims = dims.as_slice();
    if dims.is_empty() {
        Ok(())
    } else {
        put_each_dimension(line, dims)
    }
}

fn put_each_dimension(line: &mut Writer, dims: &[i32]) -> Result<(), AllocError>
    ensures { PutsTokens result line.old line.new
        (fields_tokens ((codes "dimensions", json_array (map signed_json dims.now)) ∷ [])) }
{
    line.key("dimensions")?;
    put_size_list(line, dims)
}

fn put_size_list(line: &mut Writer, dims: &[i32]) -> Result<(), AllocError>
    ensures { PutsTokens result line.old line.new (json_tokens (json_array (map signed_json dims.now))) }
{
    line.begin_array()?;
    put_sizes(line, dims)?;
    line.end_array()
}

fn put_sizes(line: &mut Writer, dims: &[i32]) -> Result<(), AllocError>
    ensures { PutsTokens result line.old line.new (flat_map (λ n. json_tokens (signed_json n)) dims.now) }
{
    for dim in dims {
        line.i64(i64::from(*dim))?;
    }
    Ok(())
}

/// Puts a value of a built-in type.
pub(crate) fn put_scalar(
    alloc: Global,
    line: &mut Writer,
    scalar: &Scalar,
) -> Result<(), AllocError>
    ensures { PutsTokens result line.old line.new (json_tokens (scalar_json (scalar_of scalar.now))) }
{
    match scalar {
        Scalar::Boolean(value) => line.boolean(*value),
        Scalar::SByte(value) => line.i64(i64::from(*value)),
        Scalar::Byte(value) => line.u64(u64::from(*value)),
        Scalar::Int16(value) => line.i64(i64::from(*value)),
        Scalar::UInt16(value) => line.u64(u64::from(*value)),
        Scalar::Int32(value) => line.i64(i64::from(*value)),
        Scalar::UInt32(value) => line.u64(u64::from(*value)),
        Scalar::Int64(value) => put_int64(line, *value),
        Scalar::UInt64(value) => put_uint64(line, *value),
        Scalar::String(value) => put_string(line, value),
        Scalar::ByteString(value) => put_base64(alloc, line, value),
        _ => put_scalar_text(alloc, line, scalar),
    }
}

/// Puts an Int64: a number where its magnitude is at most 2^53, else a string.
fn put_int64(line: &mut Writer, value: i64) -> Result<(), AllocError>
    ensures { PutsTokens result line.old line.new (json_tokens (int64_json value)) }
{
    if value.unsigned_abs() <= MOST_EXACT {
        line.i64(value)
    } else {
        line.quoted_i64(value)
    }
}

/// Puts a UInt64: a number where it is at most 2^53, else a string.
fn put_uint64(line: &mut Writer, value: u64) -> Result<(), AllocError>
    ensures { PutsTokens result line.old line.new (json_tokens (uint64_json value)) }
{
    if value <= MOST_EXACT {
        line.u64(value)
    } else {
        line.quoted_u64(value)
    }
}

/// Puts the text of a value, as lines that are not JSON have it.
fn put_scalar_text(alloc: Global, line: &mut Writer, scalar: &Scalar) -> Result<(), AllocError>
    ensures { PutsTokens result line.old line.new (string (scalar_text (scalar_of scalar.now)) ∷ []) }
{
    let mut text = String::new(alloc);
    push_scalar(alloc, &mut text, scalar)?;
    line.string(&text)
}

/// Puts the timestamps of an answer, if they are wanted.
fn put_times(line: &mut Writer, answer: &DataValue, times: bool) -> Result<(), AllocError>
    ensures { PutsTokens result line.old line.new (fields_tokens (time_fields times answer.now)) }
{
    if times {
        put_both(line, answer)
    } else {
        Ok(())
    }
}

/// Puts the timestamps of an answer.
fn put_both(line: &mut Writer, answer: &DataValue) -> Result<(), AllocError>
    ensures { PutsTokens result line.old line.new (fields_tokens (both_fields answer.now)) }
{
    put_time_as(line, "source", answer.source_timestamp)?;
    put_time_as(line, "server", answer.server_timestamp)
}

/// Puts a member that is a timestamp.
fn put_time_as(line: &mut Writer, name: &str, moment: Option<DateTime>) -> Result<(), AllocError>
    ensures { PutsTokens result line.old line.new (key name.now ∷ json_tokens (time_json moment)) }
{
    line.key(name)?;
    put_time(line, moment)
}

/// Puts the ticks of a timestamp, or null.
fn put_time(line: &mut Writer, moment: Option<DateTime>) -> Result<(), AllocError>
    ensures { PutsTokens result line.old line.new (json_tokens (time_json moment)) }
{
    match moment {
        Some(moment) => line.quoted_i64(moment.ticks),
        None => line.null(),
    }
}

/// Puts the address of a server, and its security.
fn put_address(line: &mut Writer, endpoint: &EndpointDescription) -> Result<(), AllocError>
    ensures { PutsTokens result line.old line.new (fields_tokens (address_fields endpoint.now)) }
{
    put_string_as(line, "url", &endpoint.endpoint_url)?;
    put_signed_as(line, "mode", endpoint.security_mode)?;
    put_string_as(line, "policy", &endpoint.security_policy_uri)
}

/// Puts a member that is a String, or null.
pub(crate) fn put_string_as(
    line: &mut Writer,
    name: &str,
    text: &UaString,
) -> Result<(), AllocError>
    ensures { PutsTokens result line.old line.new (key name.now ∷ json_tokens (text_or_null text.now)) }
{
    line.key(name)?;
    put_string(line, text)
}

/// Puts a member that is a signed number.
pub(crate) fn put_signed_as(line: &mut Writer, name: &str, number: i32) -> Result<(), AllocError>
    ensures { PutsTokens result line.old line.new (key name.now ∷ json_tokens (signed_json number)) }
{
    line.key(name)?;
    line.i64(i64::from(number))
}

/// Puts the token policies of an endpoint, if they are wanted.
fn put_policies(
    line: &mut Writer,
    policies: &UaArray<UserTokenPolicy>,
    wanted: bool,
) -> Result<(), AllocError>
    ensures { PutsTokens result line.old line.new (fields_tokens (policy_fields wanted policies.now)) }
{
    if wanted {
        put_policy_field(line, policies)
    } else {
        Ok(())
    }
}

fn put_policy_field(
    line: &mut Writer,
    policies: &UaArray<UserTokenPolicy>,
) -> Result<(), AllocError>
    ensures { PutsTokens result line.old line.new (fields_tokens ((codes "policies", policies_json policies.now) ∷ [])) }
{
    line.key("policies")?;
    put_policy_list(line, policies)
}

/// Puts token policies, or null.
fn put_policy_list(line: &mut Writer, policies: &UaArray<UserTokenPolicy>) -> Result<(), AllocError>
    ensures { PutsTokens result line.old line.new (json_tokens (policies_json policies.now)) }
{
    match policies.as_items() {
        Some(policies) => put_policy_array(line, policies),
        None => line.null(),
    }
}

fn put_policy_array(line: &mut Writer, policies: &[UserTokenPolicy]) -> Result<(), AllocError>
    ensures { PutsTokens result line.old line.new (json_tokens (json_array (map policy_json policies.now))) }
{
    line.begin_array()?;
    put_each_policy(line, policies)?;
    line.end_array()
}

fn put_each_policy(line: &mut Writer, policies: &[UserTokenPolicy]) -> Result<(), AllocError>
    ensures { PutsTokens result line.old line.new (flat_map (λ p. json_tokens (policy_json p)) policies.now) }
{
    for policy in policies {
        put_policy(line, policy)?;
    }
    Ok(())
}

/// Puts a token policy.
fn put_policy(line: &mut Writer, policy: &UserTokenPolicy) -> Result<(), AllocError>
    ensures { PutsTokens result line.old line.new (json_tokens (policy_json policy.now)) }
{
    line.begin_object()?;
    put_string_as(line, "id", &policy.policy_id)?;
    put_signed_as(line, "type", policy.token_type)?;
    line.end_object()
}
