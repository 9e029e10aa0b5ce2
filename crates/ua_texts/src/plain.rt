//! Values with all that they contain, in the human-readable form.

ghost use Rattle.std.specs.Prelude.{◌≡◌, ◌++◌, OnOk, map, string_bytes, true};
ghost use Rattle.std.specs.List.{flat_map};
ghost use Rattle.ua_variant.specs.Data.{leaf, variant};
ghost use Rattle.ua_variant.specs.Packed.{packed_leaves};
ghost use Rattle.ua_variant.specs.View.{data_fields_of, data_value_of, many_of, scalar_of, variant_of};
ghost use Rattle.ua_texts.specs.Plain.{IsLeafOrOctets, IsPlainDataValue, IsPlainFields, IsPlainItems};
ghost use Rattle.ua_texts.specs.Plain.{IsPlainScalar, IsPlainTyped, IsPlainVariant, array_type_text, length_text};
ghost use Rattle.ua_texts.specs.PlainLeaf.{Adds};
ghost use Rattle.ua_texts.specs.Values.{comma_at};

use crate::plain_diagnostic::push_plain_diagnostic;
use crate::plain_leaf::{
    push_double, push_float, push_moment, push_plain_code, push_plain_expanded,
    push_plain_localized, push_plain_name, push_plain_node, push_plain_string,
};
use crate::plain_parts::{push_status_part, push_time_part};
use crate::value::{push_scalar, type_name};
use std::alloc::{AllocError, Global};
use std::fmt::Write;
use ua_variant::{
    BoxedDataValue, BoxedVariant, DataValue, Dimensions, Elements, Packed, Scalar, Scalars, Variant,
};

/// Appends the type and the value in the human-readable form: Float and Double as decimals,
/// DateTime as an RFC 3339 timestamp, names and ids by their texts, a Variant inside another value
/// with its type in parentheses, a DataValue and a DiagnosticInfo by their fields in braces, all
/// else as `push_variant` does. If names are wanted, that of a StatusCode follows it.
pub fn push_plain_variant(
    alloc: Global,
    out: &mut String,
    value: &Variant,
    names: bool,
) -> Result<(), AllocError>
    ensures { Adds result (string_bytes out.old) (string_bytes out.new) (IsPlainVariant names (variant_of value.now)) }
{
    if value.writable() {
        push_plain_typed(alloc, out, value, names, false)
    } else {
        out.push_str("unwritable")
    }
}

/// Appends the type and the value, alone or within brackets.
#[cycle(plain)]
fn push_plain_typed(
    alloc: Global,
    out: &mut String,
    value: &Variant,
    names: bool,
    within: bool,
) -> Result<(), AllocError>
    ensures { Adds result (string_bytes out.old) (string_bytes out.new)
        (IsPlainTyped names within (variant_of value.now)) }
{
    match value {
        Variant::Null => out.push_str("Null"),
        Variant::One(scalar) => {
            out.push_str(type_name(scalar.kind()))?;
            out.push_str(" ")?;
            push_plain_scalar(alloc, out, scalar, names, within)
        }
        Variant::Many { kind, items, dims } => {
            push_plain_array(alloc, out, *kind, items, dims, names)
        }
    }
}

/// Appends the type and the elements of an array, null as `null`.
#[cycle(plain)]
fn push_plain_array(
    alloc: Global,
    out: &mut String,
    kind: u8,
    items: &Option<Scalars>,
    dims: &Dimensions,
    names: bool,
) -> Result<(), AllocError>
    ensures { Adds result (string_bytes out.old) (string_bytes out.new)
        (IsPlainTyped names true (many_of kind items.now dims.now)) }
{
    push_array_type(out, kind, dims)?;
    match items {
        Some(items) => {
            out.push_str(" ")?;
            push_plain_items(alloc, out, items, names)
        }
        None => out.push_str(" null"),
    }
}

/// Appends the type of an array and its dimensions.
#[inline(never)]
pub(crate) fn push_array_type(
    out: &mut String,
    kind: u8,
    dims: &Dimensions,
) -> Result<(), AllocError>
    ensures { OnOk result (string_bytes out.new ≡ string_bytes out.old ++ array_type_text kind dims.now) }
{
    out.push_str(type_name(kind))?;
    let lengths = dims.as_slice();
    if lengths.is_empty() {
        return out.push_str("[]");
    }
    push_lengths(out, lengths)
}

/// Appends the lengths of dimensions, each in square brackets.
fn push_lengths(out: &mut String, lengths: &[i32]) -> Result<(), AllocError>
    ensures { OnOk result (string_bytes out.new ≡ string_bytes out.old ++ flat_map length_text lengths.now) }
{
    for length in lengths {
        write!(out, "[{length}]")?;
    }
    Ok(())
}

/// Appends the elements of an array, separated by commas.
#[cycle(plain)]
fn push_plain_items(
    alloc: Global,
    out: &mut String,
    items: &Scalars,
    names: bool,
) -> Result<(), AllocError>
    ensures { Adds result (string_bytes out.old) (string_bytes out.new) (IsPlainItems names items.now) }
{
    match items.elements() {
        Elements::Packed(packed) => push_plain_packed(alloc, out, packed, names),
        Elements::Mixed(scalars) => push_plain_scalars(alloc, out, scalars, names),
    }
}

#[inline(never)]
fn push_plain_packed(
    alloc: Global,
    out: &mut String,
    packed: &Packed,
    names: bool,
) -> Result<(), AllocError>
    ensures { Adds result (string_bytes out.old) (string_bytes out.new)
        (IsPlainItems names (map leaf (packed_leaves packed.now))) }
{
    for index in 0..packed.len() {
        let Some(scalar) = packed.get(index) else {
            unreachable!()
        };
        push_comma(out, index)?;
        push_plain_leaf(alloc, out, &scalar, names, true)?;
    }
    Ok(())
}

#[cycle(plain)]
fn push_plain_scalars(
    alloc: Global,
    out: &mut String,
    scalars: &[Scalar],
    names: bool,
) -> Result<(), AllocError>
    ensures { Adds result (string_bytes out.old) (string_bytes out.new)
        (IsPlainItems names (map scalar_of scalars.now)) }
{
    for (index, scalar) in scalars.iter().enumerate() {
        push_comma(out, index)?;
        push_plain_scalar(alloc, out, scalar, names, true)?;
    }
    Ok(())
}

/// Appends a comma before the element at an index, unless it is the first.
fn push_comma(out: &mut String, index: usize) -> Result<(), AllocError>
    ensures { OnOk result (string_bytes out.new ≡ string_bytes out.old ++ comma_at index) }
{
    if index > 0 {
        out.push_str(",")?;
    }
    Ok(())
}

/// Appends a value of a built-in type, alone or within an array or brackets.
#[cycle(plain)]
pub fn push_plain_scalar(
    alloc: Global,
    out: &mut String,
    scalar: &Scalar,
    names: bool,
    within: bool,
) -> Result<(), AllocError>
    ensures { Adds result (string_bytes out.old) (string_bytes out.new)
        (IsPlainScalar names within (scalar_of scalar.now)) }
{
    match scalar {
        Scalar::DataValue(value) => push_plain_data_value(alloc, out, value, names),
        Scalar::Variant(value) => push_plain_bracketed(alloc, out, value, names),
        Scalar::DiagnosticInfo(value) => push_plain_diagnostic(out, value, names),
        _ => push_plain_leaf(alloc, out, scalar, names, within),
    }
}

/// Appends a value that contains no other value; any other by its bytes.
#[inline(never)]
fn push_plain_leaf(
    alloc: Global,
    out: &mut String,
    scalar: &Scalar,
    names: bool,
    within: bool,
) -> Result<(), AllocError>
    ensures { Adds result (string_bytes out.old) (string_bytes out.new)
        (IsLeafOrOctets names within (scalar_of scalar.now)) }
{
    match scalar {
        Scalar::Float(value) => push_float(out, *value),
        Scalar::Double(value) => push_double(out, *value),
        Scalar::DateTime(value) => push_moment(out, *value),
        Scalar::String(value) => push_plain_string(out, value, within),
        Scalar::NodeId(value) => push_plain_node(alloc, out, value, within),
        Scalar::ExpandedNodeId(value) => push_plain_expanded(alloc, out, value.get(), within),
        Scalar::StatusCode(value) => push_plain_code(out, *value, names),
        Scalar::QualifiedName(value) => push_plain_name(out, value, within),
        Scalar::LocalizedText(value) => push_plain_localized(out, value.get(), within),
        _ => push_scalar(alloc, out, scalar),
    }
}

/// Appends a Variant among other Variants, in round brackets.
#[cycle(plain)]
fn push_plain_bracketed(
    alloc: Global,
    out: &mut String,
    value: &BoxedVariant,
    names: bool,
) -> Result<(), AllocError>
    ensures { Adds result (string_bytes out.old) (string_bytes out.new) (IsPlainScalar names true (variant value.now)) }
{
    let Some(value) = value.get() else {
        return out.push_str("(Null)");
    };
    out.push_str("(")?;
    push_plain_typed(alloc, out, value, names, true)?;
    out.push_str(")")
}

/// Appends a DataValue among Variants: the fields that are present, in curly brackets.
#[cycle(plain)]
fn push_plain_data_value(
    alloc: Global,
    out: &mut String,
    value: &BoxedDataValue,
    names: bool,
) -> Result<(), AllocError>
    ensures { Adds result (string_bytes out.old) (string_bytes out.new) (IsPlainDataValue names value.now) }
{
    let Some(value) = value.get() else {
        return out.push_str("{ }");
    };
    match &value.value {
        Some(held) => {
            out.push_str("{ value (")?;
            push_plain_typed(alloc, out, held.get(), names, true)?;
            out.push_str(")")?;
            push_plain_fields(out, value, names)?;
            out.push_str(" }")
        }
        None => {
            out.push_str("{")?;
            push_plain_fields(out, value, names)?;
            out.push_str(" }")
        }
    }
}

/// Appends the fields of a DataValue that are present, except its value.
#[inline(never)]
pub(crate) fn push_plain_fields(
    out: &mut String,
    value: &DataValue,
    names: bool,
) -> Result<(), AllocError>
    ensures { Adds result (string_bytes out.old) (string_bytes out.new)
        (IsPlainFields names (data_fields_of value.now)) }
{
    push_status_part(out, "status", value.status, names)?;
    push_time_part(
        out,
        "source",
        value.source_timestamp,
        value.source_picoseconds,
    )?;
    push_time_part(
        out,
        "server",
        value.server_timestamp,
        value.server_picoseconds,
    )
}
