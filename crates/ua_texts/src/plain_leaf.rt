//! Values that contain no other value, in the human-readable form.

ghost use Rattle.std.specs.Prelude.{◌≡◌, ◌++◌, OnOk, string_bytes};
ghost use Rattle.ua_texts.specs.PlainLeaf.{Adds, IsPlainDouble, IsPlainFloat, IsPlainMoment};
ghost use Rattle.ua_texts.specs.PlainLeaf.{locale_text, plain_code, plain_expanded, plain_localized};
ghost use Rattle.ua_texts.specs.PlainLeaf.{plain_name, plain_node, plain_string, server_text, uri_text};

use crate::marks::{Marks, push_marked, push_marked_string};
use crate::names::code_name;
use crate::text::{push_pattern, push_string, push_wide_pattern};
use std::alloc::{AllocError, Global};
use std::fmt::Write;
use ua_builtin::{
    DateTime, DoubleBits, ExpandedNodeId, FloatBits, LocalizedText, NodeId, QualifiedName,
    StatusCode, UaString,
};
use ua_plain::{double_text, float_text, moment_text};

/// Appends a Float: its decimal, or its bit pattern if it has none.
pub fn push_float(out: &mut String, value: FloatBits) -> Result<(), AllocError>
    ensures { Adds result (string_bytes out.old) (string_bytes out.new) (IsPlainFloat value.bits) }
{
    match float_text(value) {
        Some(text) => out.push_str(&text),
        None => push_pattern(out, value.bits),
    }
}

/// Appends a Double: its decimal, or its bit pattern if it has none.
pub fn push_double(out: &mut String, value: DoubleBits) -> Result<(), AllocError>
    ensures { Adds result (string_bytes out.old) (string_bytes out.new) (IsPlainDouble value.bits) }
{
    match double_text(value) {
        Some(text) => out.push_str(&text),
        None => push_wide_pattern(out, value.bits),
    }
}

/// Appends a DateTime: its time, or its ticks if it has none.
pub fn push_moment(out: &mut String, value: DateTime) -> Result<(), AllocError>
    ensures { Adds result (string_bytes out.old) (string_bytes out.new) (IsPlainMoment value) }
{
    match moment_text(value) {
        Some(text) => out.push_str(&text),
        None => write!(out, "{}", value.ticks),
    }
}

/// Appends a String, with the marks escaped if it is within an array or brackets.
pub(crate) fn push_plain_string(
    out: &mut String,
    text: &UaString,
    within: bool,
) -> Result<(), AllocError>
    ensures { OnOk result (string_bytes out.new ≡ string_bytes out.old ++ plain_string within text.now) }
{
    if within {
        push_marked_string(out, text, Marks::of(true))
    } else {
        push_string(out, text)
    }
}

/// Appends a NodeId as its text.
pub(crate) fn push_plain_node(
    alloc: Global,
    out: &mut String,
    node: &NodeId,
    within: bool,
) -> Result<(), AllocError>
    ensures { OnOk result (string_bytes out.new ≡ string_bytes out.old ++ plain_node within node.now) }
{
    let text = node.to_text(alloc)?;
    push_marked(out, &text, Marks::of(within))
}

/// Appends an ExpandedNodeId: its server, the URI of its namespace, and its NodeId.
pub(crate) fn push_plain_expanded(
    alloc: Global,
    out: &mut String,
    id: &ExpandedNodeId,
    within: bool,
) -> Result<(), AllocError>
    ensures { OnOk result (string_bytes out.new ≡ string_bytes out.old ++ plain_expanded within id.now) }
{
    push_server(out, id.server_index)?;
    push_uri(out, &id.namespace_uri, within)?;
    push_plain_node(alloc, out, &id.node_id, within)
}

/// Appends the index of a server, unless that is 0.
fn push_server(out: &mut String, server: u32) -> Result<(), AllocError>
    ensures { OnOk result (string_bytes out.new ≡ string_bytes out.old ++ server_text server) }
{
    if server == 0 {
        return Ok(());
    }
    write!(out, "svr={server};")
}

/// Appends the URI of a namespace, if there is one.
fn push_uri(out: &mut String, uri: &UaString, within: bool) -> Result<(), AllocError>
    ensures { OnOk result (string_bytes out.new ≡ string_bytes out.old ++ uri_text within uri.now) }
{
    let Some(uri) = uri.as_str() else {
        return Ok(());
    };
    out.push_str("nsu=")?;
    push_marked(out, uri, Marks::before_semicolon(within))?;
    out.push_str(";")
}

/// Appends a QualifiedName: its namespace and its name, with a colon between.
pub fn push_plain_name(
    out: &mut String,
    name: &QualifiedName,
    within: bool,
) -> Result<(), AllocError>
    ensures { OnOk result (string_bytes out.new ≡ string_bytes out.old ++ plain_name within name.now) }
{
    write!(out, "{}:", name.namespace)?;
    push_marked_string(out, &name.name, Marks::of(within))
}

/// Appends a LocalizedText: its locale with a bar after it, if it has one, and its text.
pub fn push_plain_localized(
    out: &mut String,
    value: &LocalizedText,
    within: bool,
) -> Result<(), AllocError>
    ensures { OnOk result (string_bytes out.new ≡ string_bytes out.old ++ plain_localized within value.now) }
{
    let marks = Marks::before_bar(within);
    push_locale(out, &value.locale, marks)?;
    push_marked_string(out, &value.text, marks)
}

/// Appends a locale and a bar, if there is one.
fn push_locale(out: &mut String, locale: &UaString, marks: Marks) -> Result<(), AllocError>
    ensures { OnOk result (string_bytes out.new ≡ string_bytes out.old ++ locale_text marks locale.now) }
{
    match locale.as_str() {
        Some(locale) => {
            push_marked(out, locale, marks)?;
            out.push_str("|")
        }
        None => Ok(()),
    }
}

/// Appends a StatusCode in hexadecimal, and if names are wanted its name after a space.
pub(crate) fn push_plain_code(
    out: &mut String,
    status: StatusCode,
    names: bool,
) -> Result<(), AllocError>
    ensures { OnOk result (string_bytes out.new ≡ string_bytes out.old ++ plain_code names status.code) }
{
    push_pattern(out, status.code)?;
    match code_name(status) {
        Some(name) if names => {
            out.push_str(" ")?;
            out.push_str(name)
        }
        _ => Ok(()),
    }
}
