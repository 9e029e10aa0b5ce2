//! Encoding of Variants and DataValues.

ghost use Rattle.std.specs.Prelude.{◌≡◌, ◌<◌, ◌≤◌, ◌++◌, true, OnOk, OnErr};
ghost use Rattle.ua_builtin.specs.Counted.{first_negative};
ghost use Rattle.ua_builtin.specs.Format.{Extends};
ghost use Rattle.ua_diagnostic.specs.Dimensions.{dims_encodable, has_dims};
ghost use Rattle.ua_variant.specs.Data.{many, valued};
ghost use Rattle.ua_variant.specs.Canonical.{data_fields_canonical, variant_canonical};
ghost use Rattle.ua_variant.specs.Canonical.{scalar_canonical, row_canonical, data_value_canonical};
ghost use Rattle.ua_variant.specs.Encoding.{array_octet};
ghost use Rattle.ua_variant.specs.Fields.{data_flags};
ghost use Rattle.ua_variant.specs.Encodable.{data_fields_encodable, row_length, variant_fits};
ghost use Rattle.ua_variant.specs.Encodable.{scalar_fits, scalars_fit, data_value_fits};
ghost use Rattle.ua_variant.specs.View.{row, variant_of, scalar_of, data_value_of, data_fields_of};

use crate::encodable::element_count;
use crate::masks;
use crate::values::{BoxedDataValue, BoxedVariant, DataValue, Elements, Scalar, Scalars, Variant};
use std::alloc::AllocError;
use ua_builtin::Wire;
use ua_builtin::flags::flag_of;
use ua_diagnostic::field::{append_three, append_two};
use ua_diagnostic::{Dimensions, append_boxed_diagnostic, append_dims};
use ua_wire::NULL_COUNT;

/// The flags of the fields that are there, but the value.
#[tactic(auto, unfolding(crate::specs::Fields::data_flags))]
fn data_mask(value: &DataValue) -> u8
    ensures value { result ≡ data_flags (data_fields_of value.now) }
    ensures within { result ≤ 62 }
{
    flag_of(masks::STATUS, value.status.is_some())
        + flag_of(masks::SOURCE_TIMESTAMP, value.source_timestamp.is_some())
        + flag_of(masks::SERVER_TIMESTAMP, value.server_timestamp.is_some())
        + flag_of(
            masks::SOURCE_PICOSECONDS,
            value.source_picoseconds.is_some(),
        )
        + flag_of(
            masks::SERVER_PICOSECONDS,
            value.server_picoseconds.is_some(),
        )
}

/// Appends the fields that are there, but the value.
#[inline(always)]
#[tactic(auto, unfolding(crate::specs::Canonical::data_fields_canonical, crate::specs::Fields::data_fields))]
fn append_data_fields(value: &DataValue, out: &mut Vec<u8>) -> Result<(), AllocError>
    requires { data_fields_encodable (data_fields_of value.now) ≡ true }
    ensures ok { OnOk result (out.new.items ≡ out.old.items ++ data_fields_canonical (data_fields_of value.now)) }
    ensures err { OnErr result (Extends out.old.items out.new.items) }
{
    append_three(
        &value.status,
        &value.source_timestamp,
        &value.source_picoseconds,
        out,
    )?;
    append_two(&value.server_timestamp, &value.server_picoseconds, out)
}

/// The first byte of an array.
fn array_tag(kind: u8, dims: &Dimensions) -> u8
    requires { kind < 32 }
    ensures { result ≡ array_octet (has_dims dims.now) kind }
{
    if dims.as_slice().is_empty() {
        masks::ARRAY + kind
    } else {
        masks::ARRAY + masks::DIMENSIONS + kind
    }
}

/// Appends the canonical encoding of a Variant that can be encoded, apart from its nesting depth.
#[cycle(appends)]
#[inline(always)]
#[tactic(auto, using(crate::proofs::Written::many_parts))]
pub(crate) fn append_variant(value: &Variant, out: &mut Vec<u8>) -> Result<(), AllocError>
    requires { variant_fits (variant_of value.now) ≡ true }
    ensures ok { OnOk result (out.new.items ≡ out.old.items ++ variant_canonical (variant_of value.now)) }
    ensures err { OnErr result (Extends out.old.items out.new.items) }
{
    match value {
        Variant::Null => {
            out.push(0)?;
        }
        Variant::One(s) => {
            out.push(s.kind())?;
            append_scalar(s, out)?;
        }
        Variant::Many {
            kind,
            items: None,
            ..
        } => {
            out.push(masks::ARRAY + *kind)?;
            NULL_COUNT.append(out)?;
        }
        Variant::Many {
            kind,
            items: Some(items),
            dims,
        } => {
            append_array(*kind, items, dims, out)?;
        }
    }
    Ok(())
}

/// Appends the canonical encoding of an array that is not null.
#[cycle(appends)]
fn append_array(
    kind: u8,
    items: &Scalars,
    dims: &Dimensions,
    out: &mut Vec<u8>,
) -> Result<(), AllocError>
    requires low { kind < 32 }
    requires count { row_length (row items.now) < first_negative }
    requires dims { dims_encodable dims.now (row_length (row items.now)) ≡ true }
    requires each { scalars_fit kind (row items.now) ≡ true }
    ensures ok { OnOk result (out.new.items ≡ out.old.items ++ variant_canonical (many kind (row items.now) dims.now)) }
    ensures err { OnErr result (Extends out.old.items out.new.items) }
{
    let n = element_count(items);
    out.push(array_tag(kind, dims))?;
    (n as u32).append(out)?;
    append_row(kind, items, out)?;
    append_dims(dims, n, out)?;
    Ok(())
}

/// Appends the canonical encoding of a value, without its type id.
#[cycle(appends)]
#[inline(always)]
fn append_scalar(value: &Scalar, out: &mut Vec<u8>) -> Result<(), AllocError>
    requires { scalar_fits (scalar_of value.now) ≡ true }
    ensures ok { OnOk result (out.new.items ≡ out.old.items ++ scalar_canonical (scalar_of value.now)) }
    ensures err { OnErr result (Extends out.old.items out.new.items) }
{
    match value {
        Scalar::Boolean(x) => x.append(out),
        Scalar::SByte(x) => x.append(out),
        Scalar::Byte(x) => x.append(out),
        Scalar::Int16(x) => x.append(out),
        Scalar::UInt16(x) => x.append(out),
        Scalar::Int32(x) => x.append(out),
        Scalar::UInt32(x) => x.append(out),
        Scalar::Int64(x) => x.append(out),
        Scalar::UInt64(x) => x.append(out),
        Scalar::Float(x) => x.append(out),
        Scalar::Double(x) => x.append(out),
        Scalar::String(x) => x.append(out),
        Scalar::DateTime(x) => x.append(out),
        Scalar::Guid(x) => x.append(out),
        Scalar::ByteString(x) => x.append(out),
        Scalar::XmlElement(x) => x.append(out),
        Scalar::NodeId(x) => x.append(out),
        Scalar::ExpandedNodeId(x) => x.get().append(out),
        Scalar::StatusCode(x) => x.append(out),
        Scalar::QualifiedName(x) => x.append(out),
        Scalar::LocalizedText(x) => x.get().append(out),
        Scalar::ExtensionObject(x) => x.get().append(out),
        Scalar::DataValue(d) => append_boxed_data_value(d, out),
        Scalar::Variant(v) => append_boxed_variant(v, out),
        Scalar::DiagnosticInfo(d) => append_boxed_diagnostic(d, out),
        Scalar::Reserved(_, _) => Ok(()),
    }
}

/// Appends the canonical encoding of a DataValue among Variants.
#[cycle(appends)]
#[inline(never)]
#[tactic(auto, using(crate::proofs::Valued::bare_canonical))]
fn append_boxed_data_value(value: &BoxedDataValue, out: &mut Vec<u8>) -> Result<(), AllocError>
    requires { data_value_fits value.now ≡ true }
    ensures ok { OnOk result (out.new.items ≡ out.old.items ++ data_value_canonical value.now) }
    ensures err { OnErr result (Extends out.old.items out.new.items) }
{
    match value.get() {
        None => {
            out.push(0)?;
            Ok(())
        }
        Some(value) => append_data_value(value, out),
    }
}

/// Appends the canonical encoding of a Variant among other Variants.
#[cycle(appends)]
#[inline(never)]
fn append_boxed_variant(value: &BoxedVariant, out: &mut Vec<u8>) -> Result<(), AllocError>
    requires { variant_fits value.now ≡ true }
    ensures ok { OnOk result (out.new.items ≡ out.old.items ++ variant_canonical value.now) }
    ensures err { OnErr result (Extends out.old.items out.new.items) }
{
    match value.get() {
        None => {
            out.push(0)?;
            Ok(())
        }
        Some(value) => append_variant(value, out),
    }
}

/// Appends the elements, one after the other.
#[cycle(appends)]
fn append_row(kind: u8, items: &Scalars, out: &mut Vec<u8>) -> Result<(), AllocError>
    requires { scalars_fit kind (row items.now) ≡ true }
    ensures ok { OnOk result (out.new.items ≡ out.old.items ++ row_canonical (row items.now)) }
    ensures err { OnErr result (Extends out.old.items out.new.items) }
{
    let scalars = match items.elements() {
        Elements::Packed(packed) => return packed.append(out),
        Elements::Mixed(scalars) => scalars,
    };
    for s in scalars {
        append_scalar(s, out)?;
    }
    Ok(())
}

/// Appends the canonical encoding of a DataValue that can be encoded, apart from its nesting depth.
#[cycle(appends)]
#[inline(always)]
pub(crate) fn append_data_value(value: &DataValue, out: &mut Vec<u8>) -> Result<(), AllocError>
    requires { data_value_fits (data_value_of value.now) ≡ true }
    ensures ok { OnOk result (out.new.items ≡ out.old.items ++ data_value_canonical (data_value_of value.now)) }
    ensures err { OnErr result (Extends out.old.items out.new.items) }
{
    match &value.value {
        None => {
            out.push(data_mask(value))?;
            append_data_fields(value, out)
        }
        Some(v) => append_valued(v.get(), value, out),
    }
}

/// Appends the canonical encoding of a DataValue with this value that can be encoded, apart from
/// its nesting depth, and with the status and timestamps of another DataValue.
#[cycle(appends)]
#[inline(always)]
pub(crate) fn append_valued(
    value: &Variant,
    beside: &DataValue,
    out: &mut Vec<u8>,
) -> Result<(), AllocError>
    requires fields { data_fields_encodable (data_fields_of beside.now) ≡ true }
    requires value { variant_fits (variant_of value.now) ≡ true }
    ensures ok { OnOk result
        (out.new.items ≡ out.old.items ++ data_value_canonical
        (valued (variant_of value.now) (data_fields_of beside.now))) }
    ensures err { OnErr result (Extends out.old.items out.new.items) }
{
    out.push(data_mask(beside) + masks::VALUE)?;
    append_variant(value, out)?;
    append_data_fields(beside, out)
}
