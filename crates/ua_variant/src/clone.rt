//! Copies of values.

ghost use Rattle.std.specs.Prelude.{◌≡◌, ◌≤◌, ◌-◌, ◌++◌, ◌∷◌, [], drop, take};
ghost use Rattle.std.specs.Prelude.{length, map, option_map, slice_get, IfOk, OnOk};
ghost use Rattle.ua_variant.specs.Data.{bare, data_value, many, one, valued, variant};
ghost use Rattle.ua_variant.specs.View.{data_fields_of, data_value_of, row, scalar_of, value_within, variant_of};

use crate::boxed::Boxed;
use crate::values::{
    BoxedDataValue, BoxedVariant, DataValue, Elements, HeldVariant, Scalar, Scalars, Variant,
};
use std::alloc::{AllocError, Global};
use ua_diagnostic::Dimensions;

impl Variant {
    /// Returns an owned copy, equal to this value.
    pub fn try_clone(&self, alloc: Global) -> Result<Variant, AllocError>
        ensures { IfOk result (λ v. v ≡ self.now) }
    {
        copy_variant(alloc, self)
    }
}

impl DataValue {
    /// Returns an owned copy, equal to this value.
    pub fn try_clone(&self, alloc: Global) -> Result<DataValue, AllocError>
        ensures { IfOk result (λ d. d ≡ self.now) }
    {
        copy_data_value(alloc, self)
    }
}

impl Scalar {
    /// Returns an owned copy, equal to this value.
    pub fn try_clone(&self, alloc: Global) -> Result<Scalar, AllocError>
        ensures { IfOk result (λ s. s ≡ self.now) }
    {
        copy_scalar(alloc, self)
    }
}

impl Scalars {
    /// Returns an owned copy of the element at a position, counted from 0.
    pub fn get(&self, alloc: Global, index: usize) -> Result<Option<Scalar>, AllocError>
        ensures { IfOk result (λ found. option_map scalar_of found ≡ slice_get self.now index) }
    {
        match self.elements() {
            Elements::Packed(packed) => Ok(packed.get(index)),
            Elements::Mixed(scalars) => copy_at(alloc, scalars, index),
        }
    }

    /// Returns an owned copy of the elements from position `from` up to, and without, position
    /// `to`; no other element is copied.
    pub fn part(&self, alloc: Global, from: usize, to: usize) -> Result<Scalars, AllocError>
        requires order { from ≤ to }
        requires within { to ≤ length self.now }
        ensures { IfOk result (λ part. part ≡ take (to - from) (drop from self.now)) }
    {
        match self.elements() {
            Elements::Packed(packed) => Ok(Scalars::packed(packed.part(alloc, from, to)?)),
            Elements::Mixed(scalars) => {
                Ok(Scalars::new(copy_scalars(alloc, &scalars[from..to])?))
            }
        }
    }
}

/// A copy of the scalar at a place.
fn copy_at(alloc: Global, scalars: &[Scalar], index: usize) -> Result<Option<Scalar>, AllocError>
    ensures { IfOk result (λ found. option_map scalar_of found ≡ slice_get (map scalar_of scalars.now) index) }
{
    match scalars.get(index) {
        Some(scalar) => Ok(Some(scalar.try_clone(alloc)?)),
        None => Ok(None),
    }
}

// A value that holds values is copied to the heap. Each level of nesting takes as much of the stack
// as the functions that call each other for it, so what has a whole Variant or DataValue in its
// hands is not inlined into them.

#[cycle(copies)]
#[inline(never)]
fn copy_variant(alloc: Global, value: &Variant) -> Result<Variant, AllocError>
    ensures { IfOk result (λ v. v ≡ value.now) }
{
    match value {
        Variant::Null => Ok(Variant::Null),
        Variant::One(s) => Ok(Variant::One(copy_scalar(alloc, s)?)),
        Variant::Many {
            kind,
            items: None,
            dims,
        } => Ok(Variant::Many {
            kind: *kind,
            items: None,
            dims: dims.try_clone(alloc)?,
        }),
        Variant::Many {
            kind,
            items: Some(items),
            dims,
        } => {
            let items = Some(copy_row(alloc, items)?);
            Ok(Variant::Many {
                kind: *kind,
                items,
                dims: dims.try_clone(alloc)?,
            })
        }
    }
}

/// A copy of a Variant, on the heap.
#[cycle(copies)]
#[inline(never)]
fn copy_to_heap(alloc: Global, value: &Variant) -> Result<BoxedVariant, AllocError>
    ensures { IfOk result (λ v. v ≡ variant_of value.now) }
{
    match value {
        Variant::One(Scalar::DataValue(d)) => {
            let copy = copy_boxed_data_value(alloc, d)?;
            box_one(alloc, copy)
        }
        Variant::Many {
            kind,
            items: Some(items),
            dims,
        } => {
            let copies = copy_row(alloc, items)?;
            box_array(alloc, *kind, copies, dims)
        }
        other => box_copy(alloc, other),
    }
}

/// A copy of any Variant, moved to the heap.
#[cycle(copies)]
#[inline(never)]
fn box_copy(alloc: Global, value: &Variant) -> Result<BoxedVariant, AllocError>
    ensures { IfOk result (λ v. v ≡ variant_of value.now) }
{
    let copy = copy_variant(alloc, value)?;
    BoxedVariant::new(alloc, copy)
}

/// The Variant of a DataValue, on the heap.
#[inline(never)]
fn box_one(alloc: Global, value: BoxedDataValue) -> Result<BoxedVariant, AllocError>
    ensures { IfOk result (λ v. v ≡ one (data_value value)) }
{
    BoxedVariant::new(alloc, Variant::One(Scalar::DataValue(value)))
}

/// The array of these elements with a copy of the dimensions, on the heap.
#[inline(never)]
fn box_array(
    alloc: Global,
    kind: u8,
    items: Scalars,
    dims: &Dimensions,
) -> Result<BoxedVariant, AllocError>
    ensures { IfOk result (λ v. v ≡ many kind (row items) dims.now) }
{
    let dims = dims.try_clone(alloc)?;
    let value = Variant::Many {
        kind,
        items: Some(items),
        dims,
    };
    BoxedVariant::new(alloc, value)
}

#[cycle(copies)]
#[inline(never)]
fn copy_scalar(alloc: Global, value: &Scalar) -> Result<Scalar, AllocError>
    ensures { IfOk result (λ s. s ≡ value.now) }
{
    match value {
        Scalar::Boolean(x) => Ok(Scalar::Boolean(*x)),
        Scalar::SByte(x) => Ok(Scalar::SByte(*x)),
        Scalar::Byte(x) => Ok(Scalar::Byte(*x)),
        Scalar::Int16(x) => Ok(Scalar::Int16(*x)),
        Scalar::UInt16(x) => Ok(Scalar::UInt16(*x)),
        Scalar::Int32(x) => Ok(Scalar::Int32(*x)),
        Scalar::UInt32(x) => Ok(Scalar::UInt32(*x)),
        Scalar::Int64(x) => Ok(Scalar::Int64(*x)),
        Scalar::UInt64(x) => Ok(Scalar::UInt64(*x)),
        Scalar::Float(x) => Ok(Scalar::Float(*x)),
        Scalar::Double(x) => Ok(Scalar::Double(*x)),
        Scalar::String(x) => Ok(Scalar::String(x.try_clone()?)),
        Scalar::DateTime(x) => Ok(Scalar::DateTime(*x)),
        Scalar::Guid(x) => Ok(Scalar::Guid(*x)),
        Scalar::ByteString(x) => Ok(Scalar::ByteString(x.try_clone()?)),
        Scalar::XmlElement(x) => Ok(Scalar::XmlElement(x.try_clone()?)),
        Scalar::NodeId(x) => Ok(Scalar::NodeId(x.try_clone()?)),
        Scalar::ExpandedNodeId(x) => Ok(Scalar::ExpandedNodeId(Boxed::new(
            alloc,
            x.get().try_clone()?,
        )?)),
        Scalar::StatusCode(x) => Ok(Scalar::StatusCode(*x)),
        Scalar::QualifiedName(x) => Ok(Scalar::QualifiedName(x.try_clone()?)),
        Scalar::LocalizedText(x) => Ok(Scalar::LocalizedText(Boxed::new(
            alloc,
            x.get().try_clone()?,
        )?)),
        Scalar::ExtensionObject(x) => Ok(Scalar::ExtensionObject(Boxed::new(
            alloc,
            x.get().try_clone()?,
        )?)),
        Scalar::DataValue(d) => Ok(Scalar::DataValue(copy_boxed_data_value(alloc, d)?)),
        Scalar::Variant(v) => Ok(Scalar::Variant(copy_boxed(alloc, v)?)),
        Scalar::DiagnosticInfo(d) => Ok(Scalar::DiagnosticInfo(d.try_clone(alloc)?)),
        Scalar::Reserved(kind, x) => Ok(Scalar::Reserved(*kind, x.try_clone()?)),
    }
}

#[cycle(copies)]
#[inline(always)]
fn copy_boxed(alloc: Global, value: &BoxedVariant) -> Result<BoxedVariant, AllocError>
    ensures { IfOk result (λ v. v ≡ value.now) }
{
    match value.get() {
        None => Ok(BoxedVariant::null()),
        Some(value) => copy_to_heap(alloc, value),
    }
}

#[cycle(copies)]
#[inline(never)]
fn copy_boxed_data_value(
    alloc: Global,
    value: &BoxedDataValue,
) -> Result<BoxedDataValue, AllocError>
    ensures { IfOk result (λ d. d ≡ value.now) }
{
    match value.get() {
        None => Ok(BoxedDataValue::empty()),
        Some(value) => copy_data_value_to_heap(alloc, value),
    }
}

/// A copy of a DataValue, on the heap.
#[cycle(copies)]
#[inline(always)]
fn copy_data_value_to_heap(alloc: Global, value: &DataValue) -> Result<BoxedDataValue, AllocError>
    ensures { IfOk result (λ d. d ≡ data_value_of value.now) }
{
    match &value.value {
        None => box_fields(alloc, value),
        Some(held) => {
            let copy = copy_to_heap(alloc, held.get())?;
            box_beside(alloc, copy, value)
        }
    }
}

/// The DataValue of the fields of another one, but its value, on the heap.
#[inline(never)]
fn box_fields(alloc: Global, value: &DataValue) -> Result<BoxedDataValue, AllocError>
    ensures { IfOk result (λ d. d ≡ bare (data_fields_of value.now)) }
{
    BoxedDataValue::new(alloc, with_value(None, value))
}

/// The DataValue of this value and of the other fields of another one, on the heap.
#[inline(never)]
fn box_beside(
    alloc: Global,
    value: BoxedVariant,
    beside: &DataValue,
) -> Result<BoxedDataValue, AllocError>
    ensures { IfOk result (λ d. d ≡ valued value (data_fields_of beside.now)) }
{
    let held = HeldVariant::new(value.into_inner());
    BoxedDataValue::new(alloc, with_value(Some(held), beside))
}

/// The DataValue of this value and of the other fields of another one.
#[inline]
fn with_value(value: Option<HeldVariant>, beside: &DataValue) -> DataValue
    ensures { data_value_of result ≡ value_within value (data_fields_of beside.now) }
{
    DataValue {
        value,
        status: beside.status,
        source_timestamp: beside.source_timestamp,
        source_picoseconds: beside.source_picoseconds,
        server_timestamp: beside.server_timestamp,
        server_picoseconds: beside.server_picoseconds,
    }
}

#[cycle(copies)]
#[inline(always)]
fn copy_row(alloc: Global, items: &Scalars) -> Result<Scalars, AllocError>
    ensures { IfOk result (λ r. r ≡ items.now) }
{
    match items.elements() {
        Elements::Packed(packed) => Ok(Scalars::packed(packed.try_clone(alloc)?)),
        Elements::Mixed(scalars) => Ok(Scalars::new(copy_scalars(alloc, scalars)?)),
    }
}

#[cycle(copies)]
#[inline(never)]
fn copy_scalars(alloc: Global, items: &[Scalar]) -> Result<Vec<Scalar>, AllocError>
    ensures { IfOk result (λ copies. map scalar_of copies.items ≡ map scalar_of items.now) }
{
    let mut copies = Vec::with_capacity(alloc, items.len())?;
    for s in items {
        push_copy(alloc, s, &mut copies)?;
    }
    Ok(copies)
}

/// Pushes a copy of a scalar.
#[cycle(copies)]
#[inline(always)]
fn push_copy(alloc: Global, value: &Scalar, out: &mut Vec<Scalar>) -> Result<(), AllocError>
    ensures { OnOk result (map scalar_of out.new.items ≡ map scalar_of out.old.items ++ scalar_of value.now ∷ []) }
{
    match value {
        Scalar::DataValue(d) => {
            let copy = copy_boxed_data_value(alloc, d)?;
            push_data_value(copy, out)
        }
        Scalar::Variant(v) => {
            let copy = copy_boxed(alloc, v)?;
            push_variant(copy, out)
        }
        other => push_scalar(alloc, other, out),
    }
}

/// Pushes a DataValue.
#[inline(never)]
#[tactic(auto, using(crate::proofs::Rows::pushed))]
fn push_data_value(value: BoxedDataValue, out: &mut Vec<Scalar>) -> Result<(), AllocError>
    ensures { OnOk result (map scalar_of out.new.items ≡ map scalar_of out.old.items ++ data_value value ∷ []) }
{
    out.push(Scalar::DataValue(value))?;
    Ok(())
}

/// Pushes a Variant.
#[inline(never)]
#[tactic(auto, using(crate::proofs::Rows::pushed))]
fn push_variant(value: BoxedVariant, out: &mut Vec<Scalar>) -> Result<(), AllocError>
    ensures { OnOk result (map scalar_of out.new.items ≡ map scalar_of out.old.items ++ variant value ∷ []) }
{
    out.push(Scalar::Variant(value))?;
    Ok(())
}

/// Pushes a copy of any scalar.
#[cycle(copies)]
#[inline(never)]
#[tactic(auto, using(crate::proofs::Rows::pushed))]
fn push_scalar(alloc: Global, value: &Scalar, out: &mut Vec<Scalar>) -> Result<(), AllocError>
    ensures { OnOk result (map scalar_of out.new.items ≡ map scalar_of out.old.items ++ scalar_of value.now ∷ []) }
{
    let copy = copy_scalar(alloc, value)?;
    out.push(copy)?;
    Ok(())
}

fn copy_data_value(alloc: Global, value: &DataValue) -> Result<DataValue, AllocError>
    ensures { IfOk result (λ d. d ≡ value.now) }
{
    let copy = match &value.value {
        None => None,
        Some(v) => Some(HeldVariant::new(copy_variant(alloc, v.get())?)),
    };
    Ok(DataValue {
        value: copy,
        status: value.status,
        source_timestamp: value.source_timestamp,
        source_picoseconds: value.source_picoseconds,
        server_timestamp: value.server_timestamp,
        server_picoseconds: value.server_picoseconds,
    })
}
