//! Values as the program prints them.

ghost use Rattle.std.specs.Prelude.{◌≡◌, ◌++◌, map, string_bytes, OnOk};
ghost use Rattle.std.specs.Fmt.{decimal, signed_decimal};
ghost use Rattle.ua_variant.specs.Data.{data_value, diagnostic, leaf, variant};
ghost use Rattle.ua_variant.specs.Packed.{packed_leaves};
ghost use Rattle.ua_variant.specs.View.{elements_of, scalar_of, variant_of};
ghost use Rattle.ua_texts.specs.Values.{array_text, boolean_text, item_text, items_text, scalar_text};
ghost use Rattle.ua_texts.specs.Values.{type_name as name_of_type, typed_text, variant_text};

use crate::text::{
    push_base64, push_encoded, push_guid, push_pattern, push_string, push_wide_pattern,
};
use std::alloc::{AllocError, Global};
use std::fmt::Write;
use ua_variant::{
    BoxedDataValue, BoxedDiagnostic, BoxedVariant, DataValue, DiagnosticInfo, Elements, Packed,
    Scalar, Scalars, Variant,
};

/// The standard's name of the type of an id (OPC 10000-6, 5.1.2), or `Reserved` for any id outside
/// 1 to 25.
pub fn type_name(kind: u8) -> &'static str
    ensures { result.now ≡ name_of_type kind }
{
    match kind {
        1 => "Boolean",
        2 => "SByte",
        3 => "Byte",
        4 => "Int16",
        5 => "UInt16",
        6 => "Int32",
        7 => "UInt32",
        8 => "Int64",
        9 => "UInt64",
        10 => "Float",
        11 => "Double",
        12 => "String",
        13 => "DateTime",
        14 => "Guid",
        15 => "ByteString",
        16 => "XmlElement",
        17 => "NodeId",
        18 => "ExpandedNodeId",
        19 => "StatusCode",
        20 => "QualifiedName",
        21 => "LocalizedText",
        22 => "ExtensionObject",
        23 => "DataValue",
        24 => "Variant",
        25 => "DiagnosticInfo",
        _ => "Reserved",
    }
}

/// Appends the type and the value: an array's type with `[]` after it, its elements separated by
/// commas, a null array as `null`, and no value as `Null`. A value that cannot be encoded is
/// `unwritable`, without its type.
pub fn push_variant(alloc: Global, out: &mut String, value: &Variant) -> Result<(), AllocError>
    ensures { OnOk result (string_bytes out.new ≡ string_bytes out.old ++ variant_text (variant_of value.now)) }
{
    if value.writable() {
        push_typed(alloc, out, value)
    } else {
        out.push_str("unwritable")
    }
}

/// Appends the type and the value.
#[tactic(auto, using(crate::proofs::Rows::typed_of))]
fn push_typed(alloc: Global, out: &mut String, value: &Variant) -> Result<(), AllocError>
    ensures { OnOk result (string_bytes out.new ≡ string_bytes out.old ++ typed_text (variant_of value.now)) }
{
    match value {
        Variant::Null => out.push_str("Null"),
        Variant::One(scalar) => {
            out.push_str(type_name(scalar.kind()))?;
            out.push_str(" ")?;
            push_scalar(alloc, out, scalar)
        }
        Variant::Many { kind, items, .. } => push_array(alloc, out, *kind, items),
    }
}

/// Appends the type and the elements of an array, null as `null`.
fn push_array(
    alloc: Global,
    out: &mut String,
    kind: u8,
    items: &Option<Scalars>,
) -> Result<(), AllocError>
    ensures { OnOk result (string_bytes out.new ≡ string_bytes out.old ++ array_text kind items.now) }
{
    out.push_str(type_name(kind))?;
    match items {
        Some(items) => {
            out.push_str("[] ")?;
            push_elements(alloc, out, items.elements())
        }
        None => out.push_str("[] null"),
    }
}

/// Appends the elements of an array, separated by commas.
fn push_elements(alloc: Global, out: &mut String, elements: &Elements) -> Result<(), AllocError>
    ensures { OnOk result (string_bytes out.new ≡ string_bytes out.old ++ items_text (elements_of elements.now)) }
{
    match elements {
        Elements::Packed(packed) => push_packed(alloc, out, packed),
        Elements::Mixed(scalars) => push_scalars(alloc, out, scalars),
    }
}

fn push_packed(alloc: Global, out: &mut String, packed: &Packed) -> Result<(), AllocError>
    ensures { OnOk result
        (string_bytes out.new ≡ string_bytes out.old ++ items_text (map leaf (packed_leaves packed.now))) }
{
    for index in 0..packed.len() {
        let Some(scalar) = packed.get(index) else {
            unreachable!()
        };
        push_item(alloc, out, index, &scalar)?;
    }
    Ok(())
}

fn push_scalars(alloc: Global, out: &mut String, scalars: &[Scalar]) -> Result<(), AllocError>
    ensures { OnOk result (string_bytes out.new ≡ string_bytes out.old ++ items_text (map scalar_of scalars.now)) }
{
    for (index, scalar) in scalars.iter().enumerate() {
        push_item(alloc, out, index, scalar)?;
    }
    Ok(())
}

/// Appends the element at an index, after a comma unless it is the first.
fn push_item(
    alloc: Global,
    out: &mut String,
    index: usize,
    scalar: &Scalar,
) -> Result<(), AllocError>
    ensures { OnOk result
        (string_bytes out.new ≡ string_bytes out.old ++ item_text index (scalar_text (scalar_of scalar.now))) }
{
    if index > 0 {
        out.push_str(",")?;
    }
    push_scalar(alloc, out, scalar)
}

/// Appends a value of a built-in type.
pub fn push_scalar(alloc: Global, out: &mut String, scalar: &Scalar) -> Result<(), AllocError>
    ensures { OnOk result (string_bytes out.new ≡ string_bytes out.old ++ scalar_text (scalar_of scalar.now)) }
{
    match scalar {
        Scalar::Boolean(value) => push_boolean(out, *value),
        Scalar::SByte(value) => push_signed(out, i64::from(*value)),
        Scalar::Byte(value) => push_unsigned(out, u64::from(*value)),
        Scalar::Int16(value) => push_signed(out, i64::from(*value)),
        Scalar::UInt16(value) => push_unsigned(out, u64::from(*value)),
        Scalar::Int32(value) => push_signed(out, i64::from(*value)),
        Scalar::UInt32(value) => push_unsigned(out, u64::from(*value)),
        Scalar::Int64(value) => push_signed(out, *value),
        Scalar::UInt64(value) => push_unsigned(out, *value),
        Scalar::Float(value) => push_pattern(out, value.bits),
        Scalar::Double(value) => push_wide_pattern(out, value.bits),
        Scalar::String(value) => push_string(out, value),
        Scalar::DateTime(value) => push_signed(out, value.ticks),
        Scalar::Guid(value) => push_guid(out, value),
        Scalar::ByteString(value) => push_base64(out, value),
        Scalar::XmlElement(value) => push_encoded(alloc, out, value),
        Scalar::NodeId(value) => push_encoded(alloc, out, value),
        Scalar::ExpandedNodeId(value) => push_encoded(alloc, out, value.get()),
        Scalar::StatusCode(value) => push_pattern(out, value.code),
        Scalar::QualifiedName(value) => push_encoded(alloc, out, value),
        Scalar::LocalizedText(value) => push_encoded(alloc, out, value.get()),
        Scalar::ExtensionObject(value) => push_encoded(alloc, out, value.get()),
        Scalar::DataValue(value) => push_data_value_octets(alloc, out, value),
        Scalar::Variant(value) => push_variant_octets(alloc, out, value),
        Scalar::DiagnosticInfo(value) => push_diagnostic_octets(alloc, out, value),
        Scalar::Reserved(..) => out.push_str("unwritable"),
    }
}

/// Appends the bytes of a DataValue among Variants.
#[tactic(auto, unfolding(ua_variant::specs::Formats::data_value_format))]
fn push_data_value_octets(
    alloc: Global,
    out: &mut String,
    value: &BoxedDataValue,
) -> Result<(), AllocError>
    ensures { OnOk result (string_bytes out.new ≡ string_bytes out.old ++ scalar_text (data_value value.now)) }
{
    match value.get() {
        Some(value) => push_encoded(alloc, out, value),
        None => push_encoded(alloc, out, &DataValue::empty()),
    }
}

/// Appends the bytes of a Variant among other Variants.
#[tactic(auto, unfolding(ua_variant::specs::Formats::variant_format))]
fn push_variant_octets(
    alloc: Global,
    out: &mut String,
    value: &BoxedVariant,
) -> Result<(), AllocError>
    ensures { OnOk result (string_bytes out.new ≡ string_bytes out.old ++ scalar_text (variant value.now)) }
{
    match value.get() {
        Some(value) => push_encoded(alloc, out, value),
        None => push_encoded(alloc, out, &Variant::Null),
    }
}

/// Appends the bytes of a DiagnosticInfo among Variants.
#[tactic(auto, unfolding(ua_diagnostic::specs::Formats::diagnostic_format))]
fn push_diagnostic_octets(
    alloc: Global,
    out: &mut String,
    value: &BoxedDiagnostic,
) -> Result<(), AllocError>
    ensures { OnOk result (string_bytes out.new ≡ string_bytes out.old ++ scalar_text (diagnostic value.now)) }
{
    match value.get() {
        Some(value) => push_encoded(alloc, out, value),
        None => push_encoded(alloc, out, &DiagnosticInfo::empty()),
    }
}

/// Appends `true` or `false`.
fn push_boolean(out: &mut String, value: bool) -> Result<(), AllocError>
    ensures { OnOk result (string_bytes out.new ≡ string_bytes out.old ++ boolean_text value) }
{
    out.push_str(if value { "true" } else { "false" })
}

/// Appends a number that may be negative.
fn push_signed(out: &mut String, value: i64) -> Result<(), AllocError>
    ensures { OnOk result (string_bytes out.new ≡ string_bytes out.old ++ signed_decimal value) }
{
    write!(out, "{value}")
}

/// Appends a number that is not negative.
fn push_unsigned(out: &mut String, value: u64) -> Result<(), AllocError>
    ensures { OnOk result (string_bytes out.new ≡ string_bytes out.old ++ decimal value) }
{
    write!(out, "{value}")
}
