//! Read results as JSON objects, with values and timestamps in the human-readable form.

ghost use Rattle.std.specs.Prelude.{codes, false, from_bits, map, string_bytes};
ghost use Rattle.std.specs.Float.{binary32, binary64};
ghost use Rattle.ua_variant.specs.Data.{leaf, many, one};
ghost use Rattle.ua_variant.specs.Packed.{packed_leaves};
ghost use Rattle.ua_variant.specs.View.{data_fields_of, elements_of, many_of, row, scalar_of, variant_of};
ghost use Rattle.ua_texts.specs.Plain.{IsPlainScalar};
ghost use Rattle.ua_answers.specs.PlainJson.{AreBothFields, AreDataMembers, AreJson, AreTimeFields, AreTimeMembers};
ghost use Rattle.ua_answers.specs.PlainJson.{AreValueFields, AreVariantFields, AreWrittenFields, IsArrayJson};
ghost use Rattle.ua_answers.specs.PlainJson.{IsDataValueJson, IsFloatJson, IsLeafOrText, IsMomentMember, IsObject};
ghost use Rattle.ua_answers.specs.PlainJson.{IsPlainJson, IsScalarJson, IsTextJson, IsTimeJson, PutsEach, PutsFields};
ghost use Rattle.ua_answers.specs.PlainJson.{PutsJson};
ghost use Rattle.ua_texts.specs.PlainLeaf.{Adds, IsPlainDouble, IsPlainFloat, IsPlainMoment};

use crate::object::{
    begin_line, end_line, put_array, put_array_type, put_dimensions, put_null, put_scalar,
    put_status, put_type, put_unwritable,
};
use crate::object_parts::{
    put_code, put_code_member, put_count_member, put_diagnostic, put_empty, put_expanded,
    put_localized, put_node, put_qualified,
};
use crate::style::LineStyle;
use json::Writer;
use std::alloc::{AllocError, Global};
use std::num;
use ua_builtin::{DateTime, DoubleBits, FloatBits, NodeId, StatusCode};
use ua_diagnostic::Dimensions;
use ua_texts::{push_double, push_float, push_moment, push_plain_scalar};
use ua_variant::{
    BoxedDataValue, BoxedVariant, DataValue, Elements, HeldVariant, Packed, Scalar, Scalars,
    Variant,
};

/// Appends the result of a Read item.
pub(crate) fn push_plain_json(
    alloc: Global,
    out: &mut String,
    node: &NodeId,
    answer: &DataValue,
    style: LineStyle,
) -> Result<(), AllocError>
    ensures { Adds result (string_bytes out.old) (string_bytes out.new) (IsPlainJson style node.now answer.now) }
{
    let mut line = begin_line(alloc)?;
    let status = answer.status.unwrap_or(StatusCode::GOOD);
    put_status(alloc, &mut line, node, status, style.names)?;
    put_plain_value(alloc, &mut line, &answer.value, style.names)?;
    put_plain_times(alloc, &mut line, answer, style.times)?;
    end_line(out, line)
}

/// Puts the value of an answer, if there is one.
fn put_plain_value(
    alloc: Global,
    line: &mut Writer,
    value: &Option<HeldVariant>,
    names: bool,
) -> Result<(), AllocError>
    ensures { PutsFields result line.old line.new (AreValueFields names value.now) }
{
    match value {
        Some(value) => put_plain_written(alloc, line, value.get(), names),
        None => Ok(()),
    }
}

/// Puts a value, or `unwritable` if it cannot be encoded.
fn put_plain_written(
    alloc: Global,
    line: &mut Writer,
    value: &Variant,
    names: bool,
) -> Result<(), AllocError>
    ensures { PutsFields result line.old line.new (AreWrittenFields names (variant_of value.now)) }
{
    if value.writable() {
        put_plain_variant(alloc, line, value, names)
    } else {
        put_unwritable(line)
    }
}

/// Puts the type and the value.
#[cycle(plain_objects)]
fn put_plain_variant(
    alloc: Global,
    line: &mut Writer,
    value: &Variant,
    names: bool,
) -> Result<(), AllocError>
    ensures { PutsFields result line.old line.new (AreVariantFields names (variant_of value.now)) }
{
    match value {
        Variant::Null => put_null(line),
        Variant::One(scalar) => put_plain_one(alloc, line, scalar, names),
        Variant::Many { kind, items, dims } => {
            put_plain_array(alloc, line, *kind, items, dims, names)
        }
    }
}

/// Puts the type and the value of a scalar.
#[cycle(plain_objects)]
fn put_plain_one(
    alloc: Global,
    line: &mut Writer,
    scalar: &Scalar,
    names: bool,
) -> Result<(), AllocError>
    ensures { PutsFields result line.old line.new (AreVariantFields names (one (scalar_of scalar.now))) }
{
    put_type(line, scalar.kind())?;
    line.key("value")?;
    put_plain_scalar(alloc, line, scalar, names)
}

/// Puts the type, the elements and the dimensions of an array.
#[cycle(plain_objects)]
fn put_plain_array(
    alloc: Global,
    line: &mut Writer,
    kind: u8,
    items: &Option<Scalars>,
    dims: &Dimensions,
    names: bool,
) -> Result<(), AllocError>
    ensures { PutsFields result line.old line.new (AreVariantFields names (many_of kind items.now dims.now)) }
{
    match items {
        Some(items) => put_plain_items(alloc, line, kind, items, dims, names),
        None => put_array(alloc, line, kind, items, dims),
    }
}

/// Puts the type, the elements and the dimensions of an array that is not null.
#[cycle(plain_objects)]
fn put_plain_items(
    alloc: Global,
    line: &mut Writer,
    kind: u8,
    items: &Scalars,
    dims: &Dimensions,
    names: bool,
) -> Result<(), AllocError>
    ensures { PutsFields result line.old line.new (AreVariantFields names (many kind (row items.now) dims.now)) }
{
    put_array_type(alloc, line, kind)?;
    line.key("value")?;
    put_plain_list(alloc, line, items.elements(), names)?;
    put_dimensions(line, dims)
}

/// Puts the elements of an array.
#[cycle(plain_objects)]
fn put_plain_list(
    alloc: Global,
    line: &mut Writer,
    elements: &Elements,
    names: bool,
) -> Result<(), AllocError>
    ensures { PutsJson result line.old line.new (IsArrayJson names (row (elements_of elements.now))) }
{
    line.begin_array()?;
    put_plain_elements(alloc, line, elements, names)?;
    line.end_array()
}

/// Puts the elements of an array, each a value.
#[cycle(plain_objects)]
fn put_plain_elements(
    alloc: Global,
    line: &mut Writer,
    elements: &Elements,
    names: bool,
) -> Result<(), AllocError>
    ensures { PutsEach result line.old line.new (AreJson names (row (elements_of elements.now))) }
{
    match elements {
        Elements::Packed(packed) => put_plain_packed(alloc, line, packed, names),
        Elements::Mixed(scalars) => put_plain_scalars(alloc, line, scalars, names),
    }
}

fn put_plain_packed(
    alloc: Global,
    line: &mut Writer,
    packed: &Packed,
    names: bool,
) -> Result<(), AllocError>
    ensures { PutsEach result line.old line.new (AreJson names (row (map leaf (packed_leaves packed.now)))) }
{
    for index in 0..packed.len() {
        let Some(scalar) = packed.get(index) else {
            unreachable!()
        };
        put_plain_leaf(alloc, line, &scalar, names)?;
    }
    Ok(())
}

#[cycle(plain_objects)]
fn put_plain_scalars(
    alloc: Global,
    line: &mut Writer,
    scalars: &[Scalar],
    names: bool,
) -> Result<(), AllocError>
    ensures { PutsEach result line.old line.new (AreJson names (row (map scalar_of scalars.now))) }
{
    for scalar in scalars {
        put_plain_scalar(alloc, line, scalar, names)?;
    }
    Ok(())
}

/// Puts a value of a built-in type.
#[cycle(plain_objects)]
fn put_plain_scalar(
    alloc: Global,
    line: &mut Writer,
    scalar: &Scalar,
    names: bool,
) -> Result<(), AllocError>
    ensures { PutsJson result line.old line.new (IsScalarJson names (scalar_of scalar.now)) }
{
    match scalar {
        Scalar::DataValue(value) => put_plain_data_value(alloc, line, value, names),
        Scalar::Variant(value) => put_plain_within(alloc, line, value, names),
        Scalar::DiagnosticInfo(value) => put_diagnostic(alloc, line, value, names),
        _ => put_plain_leaf(alloc, line, scalar, names),
    }
}

/// Puts a value that contains no other value; any other as its text.
#[inline(never)]
fn put_plain_leaf(
    alloc: Global,
    line: &mut Writer,
    scalar: &Scalar,
    names: bool,
) -> Result<(), AllocError>
    ensures { PutsJson result line.old line.new (IsLeafOrText names (scalar_of scalar.now)) }
{
    match scalar {
        Scalar::Boolean(_)
        | Scalar::SByte(_)
        | Scalar::Byte(_)
        | Scalar::Int16(_)
        | Scalar::UInt16(_)
        | Scalar::Int32(_)
        | Scalar::UInt32(_)
        | Scalar::Int64(_)
        | Scalar::UInt64(_)
        | Scalar::String(_)
        | Scalar::ByteString(_) => put_scalar(alloc, line, scalar),
        Scalar::Float(value) => put_float(alloc, line, *value),
        Scalar::Double(value) => put_double(alloc, line, *value),
        Scalar::NodeId(value) => put_node(alloc, line, value),
        Scalar::ExpandedNodeId(value) => put_expanded(alloc, line, value.get()),
        Scalar::StatusCode(value) => put_code(alloc, line, *value, names),
        Scalar::QualifiedName(value) => put_qualified(line, value),
        Scalar::LocalizedText(value) => put_localized(line, value.get()),
        _ => put_plain_text(alloc, line, scalar, names),
    }
}

/// Puts a Variant among other Variants as an object.
#[cycle(plain_objects)]
fn put_plain_within(
    alloc: Global,
    line: &mut Writer,
    value: &BoxedVariant,
    names: bool,
) -> Result<(), AllocError>
    ensures { PutsJson result line.old line.new (IsObject (AreVariantFields names value.now)) }
{
    line.begin_object()?;
    match value.get() {
        Some(value) => {
            put_plain_variant(alloc, line, value, names)?;
            line.end_object()
        }
        None => {
            put_null(line)?;
            line.end_object()
        }
    }
}

/// Puts a DataValue among Variants as an object.
#[cycle(plain_objects)]
fn put_plain_data_value(
    alloc: Global,
    line: &mut Writer,
    value: &BoxedDataValue,
    names: bool,
) -> Result<(), AllocError>
    ensures { PutsJson result line.old line.new (IsDataValueJson names value.now) }
{
    let Some(value) = value.get() else {
        return put_empty(line);
    };
    line.begin_object()?;
    match &value.value {
        Some(held) => {
            put_plain_variant(alloc, line, held.get(), names)?;
            put_data_members(alloc, line, value, names)?;
            line.end_object()
        }
        None => {
            put_data_members(alloc, line, value, names)?;
            line.end_object()
        }
    }
}

/// Puts the fields of a DataValue that are present, except its value.
#[inline(never)]
fn put_data_members(
    alloc: Global,
    line: &mut Writer,
    value: &DataValue,
    names: bool,
) -> Result<(), AllocError>
    ensures { PutsFields result line.old line.new (AreDataMembers names (data_fields_of value.now)) }
{
    put_code_member(alloc, line, "status", value.status, names)?;
    put_source(alloc, line, value)?;
    put_server(alloc, line, value)
}

/// Puts the SourceTimestamp and its picoseconds, each if it is present.
fn put_source(alloc: Global, line: &mut Writer, value: &DataValue) -> Result<(), AllocError>
    ensures { PutsFields result line.old line.new
        (AreTimeMembers (codes "source") (codes "source_picoseconds")
        value.now.source_timestamp value.now.source_picoseconds) }
{
    put_moment_member(alloc, line, "source", value.source_timestamp)?;
    put_count_member(line, "source_picoseconds", value.source_picoseconds)
}

/// Puts the ServerTimestamp and its picoseconds, each if it is present.
fn put_server(alloc: Global, line: &mut Writer, value: &DataValue) -> Result<(), AllocError>
    ensures { PutsFields result line.old line.new
        (AreTimeMembers (codes "server") (codes "server_picoseconds")
        value.now.server_timestamp value.now.server_picoseconds) }
{
    put_moment_member(alloc, line, "server", value.server_timestamp)?;
    put_count_member(line, "server_picoseconds", value.server_picoseconds)
}

/// Puts a member that is a time, if there is one.
fn put_moment_member(
    alloc: Global,
    line: &mut Writer,
    name: &str,
    moment: Option<DateTime>,
) -> Result<(), AllocError>
    ensures { PutsFields result line.old line.new (IsMomentMember name.now moment) }
{
    match moment {
        Some(moment) => {
            line.key(name)?;
            put_moment(alloc, line, moment)
        }
        None => Ok(()),
    }
}

/// Puts a Float: a number, or the text of one that JSON has no number for.
fn put_float(alloc: Global, line: &mut Writer, value: FloatBits) -> Result<(), AllocError>
    ensures { PutsJson result line.old line.new
        (IsFloatJson binary32 (from_bits binary32 value.bits) (IsPlainFloat value.bits)) }
{
    let number = num::f32_from_bits_with_nan(value.bits);
    if number.is_finite() {
        return line.float(number);
    }
    let mut text = String::new(alloc);
    push_float(&mut text, value)?;
    line.string(&text)
}

/// Puts a Double: a number, or the text of one that JSON has no number for.
fn put_double(alloc: Global, line: &mut Writer, value: DoubleBits) -> Result<(), AllocError>
    ensures { PutsJson result line.old line.new
        (IsFloatJson binary64 (from_bits binary64 value.bits) (IsPlainDouble value.bits)) }
{
    let number = num::f64_from_bits_with_nan(value.bits);
    if number.is_finite() {
        return line.float(number);
    }
    let mut text = String::new(alloc);
    push_double(&mut text, value)?;
    line.string(&text)
}

/// Puts the text of a value, as lines that are not JSON have it.
fn put_plain_text(
    alloc: Global,
    line: &mut Writer,
    scalar: &Scalar,
    names: bool,
) -> Result<(), AllocError>
    ensures { PutsJson result line.old line.new (IsTextJson (IsPlainScalar names false (scalar_of scalar.now))) }
{
    let mut text = String::new(alloc);
    push_plain_scalar(alloc, &mut text, scalar, names, false)?;
    line.string(&text)
}

/// Puts the timestamps of an answer, if they are wanted.
fn put_plain_times(
    alloc: Global,
    line: &mut Writer,
    answer: &DataValue,
    times: bool,
) -> Result<(), AllocError>
    ensures { PutsFields result line.old line.new (AreTimeFields times answer.now) }
{
    if times {
        put_plain_both(alloc, line, answer)
    } else {
        Ok(())
    }
}

/// Puts the timestamps of an answer.
fn put_plain_both(alloc: Global, line: &mut Writer, answer: &DataValue) -> Result<(), AllocError>
    ensures { PutsFields result line.old line.new (AreBothFields answer.now) }
{
    line.key("source")?;
    put_plain_time(alloc, line, answer.source_timestamp)?;
    line.key("server")?;
    put_plain_time(alloc, line, answer.server_timestamp)
}

/// Puts a timestamp as a time, or null.
fn put_plain_time(
    alloc: Global,
    line: &mut Writer,
    moment: Option<DateTime>,
) -> Result<(), AllocError>
    ensures { PutsJson result line.old line.new (IsTimeJson moment) }
{
    match moment {
        Some(moment) => put_moment(alloc, line, moment),
        None => line.null(),
    }
}

/// Puts a DateTime as a time.
fn put_moment(alloc: Global, line: &mut Writer, moment: DateTime) -> Result<(), AllocError>
    ensures { PutsJson result line.old line.new (IsTextJson (IsPlainMoment moment)) }
{
    let mut text = String::new(alloc);
    push_moment(&mut text, moment)?;
    line.string(&text)
}
