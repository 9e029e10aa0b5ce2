//! Values that hold values: Variant and DataValue.

ghost use Rattle.std.specs.Prelude.{◌≡◌, ◌↔◌, None, length, map, option_map, IfOk, IfSome};
ghost use Rattle.ua_variant.specs.Data.{bare, leaf, null};
ghost use Rattle.ua_variant.specs.Packed.{packed_leaves};
ghost use Rattle.ua_variant.specs.View.{data_value_of, elements_of, no_data_fields};
ghost use Rattle.ua_variant.specs.View.{or_bare, or_null, scalar_of, variant_of};

use crate::boxed::Boxed;
use crate::packed::{Pack, Packed};
use std::alloc::{AllocError, Global};
use std::marker::Model;
use ua_builtin::{
    DateTime, DoubleBits, ExpandedNodeId, ExtensionObject, FloatBits, Guid, LocalizedText, NodeId,
    QualifiedName, StatusCode, UaBytes, UaString, XmlElement,
};
use ua_diagnostic::{BoxedDiagnostic, Dimensions};

/// A value of any built-in type, or an array of them (OPC 10000-6, 5.2.2.16).
#[cycle(values)]
#[derive(Debug)]
pub enum Variant {
    /// No value.
    Null,
    /// A value of a type other than Variant.
    One(Scalar),
    /// An array whose elements are of the type id `kind`; a null array has no elements.
    Many {
        kind: u8,
        items: Option<Scalars>,
        dims: Dimensions,
    },
}

// The drops of this file are by hand, so that a crate that lets a Variant or what boxes one go
// makes a call, and proves nothing of what lies in it. Those of Scalar and DataValue are derived,
// so that they can be taken apart anywhere.
//
// Each level of nesting takes as much of the stack as the drops that call each other for it. So a
// value is taken out of its box, which moves it once where the box's own drop moves it twice.

impl Drop for Variant {
    #[cycle(letting_go)]
    fn drop(self) {
        match self {
            Variant::Null => {}
            Variant::One(scalar) => drop(scalar),
            Variant::Many {
                kind: _,
                items,
                dims,
            } => {
                drop(items);
                drop(dims);
            }
        }
    }
}

/// A value of a built-in type (OPC 10000-6, 5.1.2).
#[derive(Debug, Drop)]
#[cycle(values)]
pub enum Scalar {
    Boolean(bool),
    SByte(i8),
    Byte(u8),
    Int16(i16),
    UInt16(u16),
    Int32(i32),
    UInt32(u32),
    Int64(i64),
    UInt64(u64),
    Float(FloatBits),
    Double(DoubleBits),
    String(UaString),
    DateTime(DateTime),
    Guid(Guid),
    ByteString(UaBytes),
    XmlElement(XmlElement),
    NodeId(NodeId),
    ExpandedNodeId(Boxed<ExpandedNodeId>),
    StatusCode(StatusCode),
    QualifiedName(QualifiedName),
    LocalizedText(Boxed<LocalizedText>),
    ExtensionObject(Boxed<ExtensionObject>),
    DataValue(BoxedDataValue),
    Variant(BoxedVariant),
    DiagnosticInfo(BoxedDiagnostic),
    /// Bytes under a reserved type id, from 26 to 31. They are decoded, but never encoded.
    Reserved(u8, UaBytes),
}

/// A value with its status and its timestamps (OPC 10000-6, 5.2.2.17). Picoseconds are preserved as
/// they are, also above 9999 or without their timestamp.
#[cycle(values)]
#[derive(Debug, Drop)]
pub struct DataValue {
    pub value: Option<HeldVariant>,
    pub status: Option<StatusCode>,
    pub source_timestamp: Option<DateTime>,
    /// The addition to the SourceTimestamp, in units of 10 picoseconds.
    pub source_picoseconds: Option<u16>,
    pub server_timestamp: Option<DateTime>,
    /// The addition to the ServerTimestamp, in units of 10 picoseconds.
    pub server_picoseconds: Option<u16>,
}

/// A Variant inside a Variant, on the heap; a null one is not allocated.
#[cycle(values)]
#[derive(Debug)]
pub struct BoxedVariant {
    inner: Option<Box<Variant>>,
}

impl Drop for BoxedVariant {
    #[cycle(letting_go)]
    fn drop(self) {
        let BoxedVariant { inner } = self;
        match inner {
            Some(value) => drop(Box::into_inner(value)),
            None => {}
        }
    }
}

impl Model for BoxedVariant {
    ghost use Rattle.std.specs.Prelude.{◌*◌};
    ghost use Rattle.std.specs.Coded.{codes};
    ghost use Rattle.ua_variant.specs.Data.{VariantData};
    ghost use Rattle.ua_variant.specs.Codes.{coded_variant, coded_diagnostic};
    ghost use Rattle.ua_variant.specs.Measure.{variant_count};

    ghost Value = { VariantData };

    ghost coded = { coded_variant (Prim.hlevel (codes, coded_diagnostic (Prim.hlevel codes))) };

    ghost use Rattle.std.specs.Prelude.{option_map};
    ghost use Rattle.ua_variant.specs.View.{variant_of, or_null, KeepsValue};

    ghost view = { λ a. or_null (option_map (λ b. variant_of b.value) a.inner) };

    ghost invariant = { λ a. KeepsValue (option_map (λ b. variant_of b.value) a.inner) };

    ghost size = { λ v. 2 * variant_count v };

    ghost use Rattle.ua_variant.specs.Sizes.{boxed_variant_falls};

    ghost size_decreases = { λ a h. boxed_variant_falls a.inner };
}

/// A Variant inside a DataValue, stored in place.
#[cycle(values)]
#[derive(Debug)]
pub struct HeldVariant {
    inner: Variant,
}

impl Drop for HeldVariant {
    #[cycle(letting_go)]
    fn drop(self) {
        let HeldVariant { inner } = self;
        drop(inner);
    }
}

impl Model for HeldVariant {
    ghost use Rattle.std.specs.Prelude.{◌*◌};
    ghost use Rattle.std.specs.Coded.{codes};
    ghost use Rattle.ua_variant.specs.Data.{VariantData};
    ghost use Rattle.ua_variant.specs.Codes.{coded_variant, coded_diagnostic};
    ghost use Rattle.ua_variant.specs.Measure.{variant_count};

    ghost Value = { VariantData };

    ghost coded = { coded_variant (Prim.hlevel (codes, coded_diagnostic (Prim.hlevel codes))) };

    ghost use Rattle.ua_variant.specs.View.{variant_of};

    ghost view = { λ a. variant_of a.inner };

    ghost size = { λ v. 2 * variant_count v };

    ghost use Rattle.ua_variant.specs.Sizes.{variant_falls};

    ghost size_decreases = { λ a h. variant_falls a.inner };
}

/// A DataValue inside a Variant, on the heap; one without any field is not allocated.
#[cycle(values)]
#[derive(Debug)]
pub struct BoxedDataValue {
    inner: Option<Box<DataValue>>,
}

impl Drop for BoxedDataValue {
    #[cycle(letting_go)]
    #[inline(never)]
    fn drop(self) {
        let BoxedDataValue { inner } = self;
        match inner {
            Some(value) => drop(Box::into_inner(value)),
            None => {}
        }
    }
}

impl Model for BoxedDataValue {
    ghost use Rattle.std.specs.Prelude.{◌*◌};
    ghost use Rattle.std.specs.Coded.{codes};
    ghost use Rattle.ua_variant.specs.Data.{DataValueData};
    ghost use Rattle.ua_variant.specs.Codes.{coded_data_value, coded_diagnostic};
    ghost use Rattle.ua_variant.specs.Measure.{data_value_count};

    ghost Value = { DataValueData };

    ghost coded = { coded_data_value (Prim.hlevel (codes, coded_diagnostic (Prim.hlevel codes))) };

    ghost use Rattle.std.specs.Prelude.{option_map};
    ghost use Rattle.ua_variant.specs.View.{data_value_of, or_bare, KeepsDataFields};

    ghost view = { λ a. or_bare (option_map (λ b. data_value_of b.value) a.inner) };

    ghost invariant = { λ a. KeepsDataFields (option_map (λ b. data_value_of b.value) a.inner) };

    ghost size = { λ d. 2 * data_value_count d };

    ghost use Rattle.ua_variant.specs.Sizes.{boxed_data_value_falls};

    ghost size_decreases = { λ a h. boxed_data_value_falls a.inner };
}

/// The elements of an array, as they are stored.
#[cycle(values)]
#[derive(Debug, Drop)]
pub enum Elements {
    /// Elements of one type, in a vector of that type.
    Packed(Packed),
    /// Elements of any types.
    Mixed(Vec<Scalar>),
}

/// The elements of an array.
#[cycle(values)]
#[derive(Debug)]
pub struct Scalars {
    elements: Elements,
}

impl Drop for Scalars {
    #[cycle(letting_go)]
    #[inline(always)]
    fn drop(self) {
        let Scalars { elements } = self;
        match elements {
            Elements::Packed(packed) => let_go(packed),
            mixed => drop(mixed),
        }
    }
}

/// Drops the elements of a packed array. Not inlined, so that their room is not taken on the stack
/// at each level of nesting.
#[inline(never)]
fn let_go(packed: Packed) {
    drop(packed);
}

impl Model for Scalars {
    ghost use Rattle.std.specs.Prelude.{◌+◌, ◌*◌, List};
    ghost use Rattle.std.specs.Coded.{codes};
    ghost use Rattle.ua_variant.specs.Data.{ScalarData};
    ghost use Rattle.ua_variant.specs.Codes.{coded_scalars, coded_diagnostic};
    ghost use Rattle.ua_variant.specs.Measure.{scalars_count};

    ghost Value = { List ScalarData };

    ghost coded = { coded_scalars (Prim.hlevel (codes, coded_diagnostic (Prim.hlevel codes))) };

    ghost use Rattle.ua_variant.specs.View.{row, elements_of};

    ghost view = { λ a. elements_of a.elements };

    ghost size = { λ ss. 2 * scalars_count (row ss) + 1 };

    ghost use Rattle.ua_variant.specs.Sizes.{elements_fall};
    ghost use Rattle.std.proofs.Common.{arith};

    ghost size_decreases = { λ a h. omega (arith, elements_fall a.elements) };
}

impl DataValue {
    ghost use Rattle.std.specs.Prelude.{◌≡◌, ◌↔◌, IsTrue};
    ghost use Rattle.ua_variant.specs.View.{no_data_fields};
    ghost use Rattle.ua_variant.specs.Data.{bare};

    /// A DataValue without any field.
    #[inline]
    pub fn empty() -> DataValue
        ensures { data_value_of result ≡ bare no_data_fields }
    {
        DataValue {
            value: None,
            status: None,
            source_timestamp: None,
            source_picoseconds: None,
            server_timestamp: None,
            server_picoseconds: None,
        }
    }

    /// Whether no field is present.
    #[inline]
    pub fn is_empty(&self) -> bool
        ensures { IsTrue result ↔ (data_value_of self.now ≡ bare no_data_fields) }
    {
        self.value.is_none()
            && self.status.is_none()
            && self.source_timestamp.is_none()
            && self.source_picoseconds.is_none()
            && self.server_timestamp.is_none()
            && self.server_picoseconds.is_none()
    }
}

impl Variant {
    ghost use Rattle.std.specs.Prelude.{◌≡◌, ◌≢◌, ℕ, Option, IfOk, IfErr};
    ghost use Rattle.ua_variant.specs.declared.values.Variant.TheVariants.{Many, One};

    /// Returns the scalar by value, or, as an error, the value itself if it holds none.
    #[inline]
    pub fn into_scalar(self) -> Result<Scalar, Variant>
        ensures taken { IfOk result (λ scalar. self ≡ One scalar) }
        ensures same { IfErr result (λ other. other ≡ self) }
        ensures other { IfErr result (λ other. (scalar : Scalar) → other ≢ One scalar) }
    {
        match self {
            Variant::One(scalar) => Ok(scalar),
            other => Err(other),
        }
    }

    /// Returns the array by value, as its type id, its elements and its dimensions, or, as an
    /// error, the value itself if it is no array.
    #[inline]
    pub fn into_array(self) -> Result<(u8, Option<Scalars>, Dimensions), Variant>
        ensures taken { IfOk result (λ (kind, items, dims). self ≡ Many kind items dims) }
        ensures same { IfErr result (λ other. other ≡ self) }
        ensures other { IfErr result (λ other. (kind : ℕ) (items : Option Scalars) (dims : Dimensions)
            → other ≢ Many kind items dims) }
    {
        match self {
            Variant::Many { kind, items, dims } => Ok((kind, items, dims)),
            other => Err(other),
        }
    }
}

impl BoxedVariant {
    /// A null value.
    #[inline]
    pub(crate) fn null() -> BoxedVariant
        ensures { result ≡ null }
    {
        BoxedVariant { inner: None }
    }

    /// Moves this value to the heap, unless it is null.
    #[inline(always)]
    pub fn new(alloc: Global, value: Variant) -> Result<BoxedVariant, AllocError>
        ensures { IfOk result (λ b. b ≡ variant_of value) }
    {
        if matches!(&value, Variant::Null) {
            return Ok(BoxedVariant { inner: None });
        }
        Ok(BoxedVariant {
            inner: Some(Box::new(alloc, value)?),
        })
    }

    /// The value, or `None` for a null one.
    #[inline]
    pub fn get(&self) -> Option<&Variant>
        ensures value { or_null (option_map (λ v. variant_of v.now) result) ≡ self.now }
        ensures none { result ≡ None ↔ (self.now ≡ null) }
    {
        match &self.inner {
            Some(value) => Some(value.as_ref()),
            None => None,
        }
    }

    /// Returns the value, consuming its holder.
    #[inline]
    pub fn into_inner(self) -> Variant
        ensures { variant_of result ≡ self }
    {
        let BoxedVariant { inner } = self;
        match inner {
            Some(value) => Box::into_inner(value),
            None => Variant::Null,
        }
    }
}

impl HeldVariant {
    /// Stores this value in place.
    #[inline]
    pub fn new(value: Variant) -> HeldVariant
        ensures { result ≡ variant_of value }
    {
        HeldVariant { inner: value }
    }

    /// The value.
    #[inline]
    pub fn get(&self) -> &Variant
        ensures { variant_of result.now ≡ self.now }
    {
        &self.inner
    }

    /// Returns the value, consuming its holder.
    #[inline]
    pub fn into_inner(self) -> Variant
        ensures { variant_of result ≡ self }
    {
        let HeldVariant { inner } = self;
        inner
    }
}

impl BoxedDataValue {
    /// A DataValue without any field.
    #[inline]
    pub(crate) fn empty() -> BoxedDataValue
        ensures { result ≡ bare no_data_fields }
    {
        BoxedDataValue { inner: None }
    }

    /// Moves this value to the heap, unless it has no field.
    #[inline]
    pub fn new(alloc: Global, value: DataValue) -> Result<BoxedDataValue, AllocError>
        ensures { IfOk result (λ b. b ≡ data_value_of value) }
    {
        if value.is_empty() {
            return Ok(BoxedDataValue { inner: None });
        }
        Ok(BoxedDataValue {
            inner: Some(Box::new(alloc, value)?),
        })
    }

    /// The value, or `None` for one without any field.
    #[inline]
    pub fn get(&self) -> Option<&DataValue>
        ensures value { or_bare (option_map (λ d. data_value_of d.now) result) ≡ self.now }
        ensures none { result ≡ None ↔ (self.now ≡ bare no_data_fields) }
    {
        match &self.inner {
            Some(value) => Some(value.as_ref()),
            None => None,
        }
    }

    /// Returns the value, consuming its holder.
    #[inline]
    pub fn into_inner(self) -> DataValue
        ensures { data_value_of result ≡ self }
    {
        let BoxedDataValue { inner } = self;
        match inner {
            Some(value) => Box::into_inner(value),
            None => DataValue::empty(),
        }
    }
}

impl Scalars {
    /// The elements of an array, each stored as a scalar.
    #[inline]
    pub fn new(items: Vec<Scalar>) -> Scalars
        ensures { result ≡ map scalar_of items.items }
    {
        Scalars {
            elements: Elements::Mixed(items),
        }
    }

    /// The elements of an array, of one packed type.
    #[inline]
    pub fn packed(items: Packed) -> Scalars
        ensures { result ≡ map leaf (packed_leaves items) }
    {
        Scalars {
            elements: Elements::Packed(items),
        }
    }

    /// The number of elements.
    #[inline]
    pub fn len(&self) -> usize
        ensures { result ≡ length self.now }
    {
        match &self.elements {
            Elements::Packed(packed) => packed.len(),
            Elements::Mixed(scalars) => scalars.len(),
        }
    }

    /// The elements, as they are stored.
    #[inline]
    pub fn elements(&self) -> &Elements
        ensures { elements_of result.now ≡ self.now }
    {
        &self.elements
    }

    /// The elements of an array, stored in a vector of their type.
    #[inline]
    pub fn from_items<T: Pack>(items: Vec<T>) -> Scalars
        ensures { result ≡ map leaf (map T.as_leaf items.items) }
    {
        Scalars::packed(T::pack(items))
    }

    /// The elements, if they are stored in a vector of this type; `None` if they are stored as
    /// scalars, or in a vector of another type ([`Scalars::elements`] tells which).
    #[inline]
    pub fn as_items<T: Pack>(&self) -> Option<&[T]>
        ensures { IfSome result (λ items. map leaf (map T.as_leaf items.now) ≡ self.now) }
    {
        match &self.elements {
            Elements::Packed(packed) => packed.as_items::<T>(),
            Elements::Mixed(_) => None,
        }
    }
}
