//! Whether values can be encoded.

ghost use Rattle.std.specs.Prelude.{◌≡◌};
ghost use Rattle.ua_variant.specs.Encodable.{variant_encodable, data_value_encodable, variant_fits};
ghost use Rattle.ua_variant.specs.Encodable.{scalar_fits, scalars_fit, data_value_fits};
ghost use Rattle.ua_variant.specs.Encodable.{data_fields_encodable, kind_of_scalar, is_kind, row_length};
ghost use Rattle.ua_variant.specs.Judging.{levels_if, is_depth_within};
ghost use Rattle.ua_variant.specs.Measure.{variant_depth, scalar_depth, scalars_depth, data_value_depth};
ghost use Rattle.ua_variant.specs.View.{row, variant_of, scalar_of, data_value_of, data_fields_of};

use crate::values::{BoxedDataValue, BoxedVariant, DataValue, Elements, Scalar, Scalars, Variant};
use ua_builtin::Wire;
use ua_diagnostic::field::field_fits;
use ua_diagnostic::{dims_fit, is_counted};
use ua_wire::MOST_LEVELS;

impl Variant {
    /// Whether the value can be encoded: its nesting depth is at most 100, the elements of an array
    /// are of its type id, its dimensions match the number of elements, and the same holds for each
    /// value inside.
    pub fn writable(&self) -> bool
        ensures { result ≡ variant_encodable (variant_of self.now) }
    {
        is_within_most(variant_levels_of(self))
    }
}

impl DataValue {
    /// Whether the value can be encoded.
    pub fn writable(&self) -> bool
        ensures { result ≡ data_value_encodable (data_value_of self.now) }
    {
        is_within_most(data_value_levels_of(self))
    }
}

impl Scalar {
    /// The type id of the scalar (OPC 10000-6, 5.1.2).
    pub fn kind(&self) -> u8
        ensures { result ≡ kind_of_scalar (scalar_of self.now) }
    {
        match self {
            Scalar::Boolean(_) => 1,
            Scalar::SByte(_) => 2,
            Scalar::Byte(_) => 3,
            Scalar::Int16(_) => 4,
            Scalar::UInt16(_) => 5,
            Scalar::Int32(_) => 6,
            Scalar::UInt32(_) => 7,
            Scalar::Int64(_) => 8,
            Scalar::UInt64(_) => 9,
            Scalar::Float(_) => 10,
            Scalar::Double(_) => 11,
            Scalar::String(_) => 12,
            Scalar::DateTime(_) => 13,
            Scalar::Guid(_) => 14,
            Scalar::ByteString(_) => 15,
            Scalar::XmlElement(_) => 16,
            Scalar::NodeId(_) => 17,
            Scalar::ExpandedNodeId(_) => 18,
            Scalar::StatusCode(_) => 19,
            Scalar::QualifiedName(_) => 20,
            Scalar::LocalizedText(_) => 21,
            Scalar::ExtensionObject(_) => 22,
            Scalar::DataValue(_) => 23,
            Scalar::Variant(_) => 24,
            Scalar::DiagnosticInfo(_) => 25,
            Scalar::Reserved(kind, _) => *kind,
        }
    }
}

/// Whether values of the type id are written.
#[inline]
fn is_written_kind(kind: u8) -> bool
    ensures { result ≡ is_kind kind }
{
    1 <= kind && kind <= 25
}

/// The number of elements.
#[inline]
pub fn element_count(items: &Scalars) -> usize
    ensures { result ≡ row_length (row items.now) }
{
    items.len()
}

/// Whether there are levels, at most those of a value that is written.
#[inline]
fn is_within_most(levels: Option<u32>) -> bool
    ensures { result ≡ is_depth_within levels }
{
    match levels {
        None => false,
        Some(n) => n <= MOST_LEVELS,
    }
}

/// No levels, where the value can be written.
#[inline]
fn no_levels_if(fits: bool) -> Option<u32>
    ensures { result ≡ levels_if fits 0 }
{
    if fits { Some(0) } else { None }
}

/// How many levels a Variant has, if it can be written but for these.
#[cycle(fits)]
#[inline(always)]
fn variant_levels_of(value: &Variant) -> Option<u32>
    ensures { result ≡ levels_if (variant_fits (variant_of value.now)) (variant_depth (variant_of value.now)) }
{
    match value {
        Variant::Null => Some(1),
        Variant::One(Scalar::Variant(_)) => None,
        Variant::One(s) => Some(scalar_levels_of(s)?.saturating_add(1)),
        Variant::Many {
            kind,
            items: None,
            dims,
        } => {
            if dims.as_slice().is_empty() && is_written_kind(*kind) {
                Some(1)
            } else {
                None
            }
        }
        Variant::Many {
            kind,
            items: Some(items),
            dims,
        } => {
            let n = element_count(items);
            if !(is_written_kind(*kind) && is_counted(n) && dims_fit(dims, n)) {
                return None;
            }
            Some(row_levels_of(*kind, items)?.saturating_add(1))
        }
    }
}

/// How many levels a scalar has, if it can be written but for these.
#[cycle(fits)]
#[inline(always)]
fn scalar_levels_of(value: &Scalar) -> Option<u32>
    ensures { result ≡ levels_if (scalar_fits (scalar_of value.now)) (scalar_depth (scalar_of value.now)) }
{
    match value {
        Scalar::Boolean(x) => no_levels_if(x.is_encodable()),
        Scalar::SByte(x) => no_levels_if(x.is_encodable()),
        Scalar::Byte(x) => no_levels_if(x.is_encodable()),
        Scalar::Int16(x) => no_levels_if(x.is_encodable()),
        Scalar::UInt16(x) => no_levels_if(x.is_encodable()),
        Scalar::Int32(x) => no_levels_if(x.is_encodable()),
        Scalar::UInt32(x) => no_levels_if(x.is_encodable()),
        Scalar::Int64(x) => no_levels_if(x.is_encodable()),
        Scalar::UInt64(x) => no_levels_if(x.is_encodable()),
        Scalar::Float(x) => no_levels_if(x.is_encodable()),
        Scalar::Double(x) => no_levels_if(x.is_encodable()),
        Scalar::String(x) => no_levels_if(x.is_encodable()),
        Scalar::DateTime(x) => no_levels_if(x.is_encodable()),
        Scalar::Guid(x) => no_levels_if(x.is_encodable()),
        Scalar::ByteString(x) => no_levels_if(x.is_encodable()),
        Scalar::XmlElement(x) => no_levels_if(x.is_encodable()),
        Scalar::NodeId(x) => no_levels_if(x.is_encodable()),
        Scalar::ExpandedNodeId(x) => no_levels_if(x.get().is_encodable()),
        Scalar::StatusCode(x) => no_levels_if(x.is_encodable()),
        Scalar::QualifiedName(x) => no_levels_if(x.is_encodable()),
        Scalar::LocalizedText(x) => no_levels_if(x.get().is_encodable()),
        Scalar::ExtensionObject(x) => no_levels_if(x.get().is_encodable()),
        Scalar::DataValue(d) => boxed_data_value_levels_of(d),
        Scalar::Variant(v) => boxed_variant_levels_of(v),
        Scalar::DiagnosticInfo(d) => { if d.fits() { Some(d.depth()) } else { None } }
        Scalar::Reserved(_, _) => None,
    }
}

/// How many levels a DataValue among Variants has, if it can be written but for these.
#[cycle(fits)]
#[inline(never)]
#[tactic(auto, using(crate::proofs::Valued::bare_fits))]
fn boxed_data_value_levels_of(value: &BoxedDataValue) -> Option<u32>
    ensures { result ≡ levels_if (data_value_fits value.now) (data_value_depth value.now) }
{
    match value.get() {
        None => Some(1),
        Some(value) => data_value_levels_of(value),
    }
}

/// How many levels a Variant among other Variants has, if it can be written but for these.
#[cycle(fits)]
#[inline(never)]
fn boxed_variant_levels_of(value: &BoxedVariant) -> Option<u32>
    ensures { result ≡ levels_if (variant_fits value.now) (variant_depth value.now) }
{
    match value.get() {
        None => Some(1),
        Some(value) => variant_levels_of(value),
    }
}

/// How many levels the deepest element has, if each is of the type id and can be written but for
/// these.
#[cycle(fits)]
fn row_levels_of(kind: u8, items: &Scalars) -> Option<u32>
    ensures { result ≡ levels_if (scalars_fit kind (row items.now)) (scalars_depth (row items.now)) }
{
    let scalars = match items.elements() {
        Elements::Packed(packed) => return no_levels_if(packed.fits(kind)),
        Elements::Mixed(scalars) => scalars,
    };
    let mut deepest = 0;
    for s in scalars {
        if s.kind() != kind {
            return None;
        }
        match scalar_levels_of(s) {
            None => return None,
            Some(n) => deepest = deepest.max(n),
        }
    }
    Some(deepest)
}

/// How many levels a DataValue has, if it can be written but for these.
#[cycle(fits)]
#[inline(always)]
fn data_value_levels_of(value: &DataValue) -> Option<u32>
    ensures { result ≡ levels_if (data_value_fits (data_value_of value.now))
        (data_value_depth (data_value_of value.now)) }
{
    if !data_fields_fit(value) {
        return None;
    }
    match &value.value {
        None => Some(1),
        Some(v) => Some(variant_levels_of(v.get())?.saturating_add(1)),
    }
}

#[tactic(auto, unfolding(crate::specs::Encodable::data_fields_encodable))]
fn data_fields_fit(value: &DataValue) -> bool
    ensures { result ≡ data_fields_encodable (data_fields_of value.now) }
{
    field_fits(&value.status)
        && field_fits(&value.source_timestamp)
        && field_fits(&value.source_picoseconds)
        && field_fits(&value.server_timestamp)
        && field_fits(&value.server_picoseconds)
}
