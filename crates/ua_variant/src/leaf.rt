//! Types whose values are scalars of one type id (OPC 10000-6, 5.1.2).

ghost use Rattle.std.specs.Prelude.{◌≡◌, ℕ, List};
ghost use Rattle.ua_builtin.specs.Exact.{image_read};
ghost use Rattle.ua_builtin.specs.Format.{GivesBy, StaysBehind};
ghost use Rattle.ua_variant.specs.Data.{LeafData, leaf};
ghost use Rattle.ua_variant.specs.Leaf.{leaf_at, leaf_canonical, leaf_encodable, leaf_kind};
ghost use Rattle.ua_variant.specs.View.{scalar_of};

use crate::boxed::Boxed;
use crate::values::Scalar;
use std::alloc::Global;
use ua_builtin::{
    DateTime, DoubleBits, ExpandedNodeId, ExtensionObject, FloatBits, Guid, LocalizedText, NodeId,
    QualifiedName, ReadFault, Source, StatusCode, UaBytes, UaString, Wire, XmlElement,
};

/// A type whose values are the scalars of one type id, without further values inside.
pub trait Leaf: Wire {
    /// The type id.
    ghost kind: { ℕ };

    /// The data of the scalar.
    ghost as_leaf: { Self → LeafData };

    /// Shows that the scalars of the type id are the values of this type, with its encoding.
    fn is_leaf()
        ensures reads { (octets : List ℕ) → leaf_at kind octets ≡ image_read as_leaf (Self.format.decode 0) octets }
        ensures id { (x : Self) → leaf_kind (as_leaf x) ≡ kind }
        ensures fits { (x : Self) → leaf_encodable (as_leaf x) ≡ Self.format.encodable x }
        ensures canonical { (x : Self) → leaf_canonical (as_leaf x) ≡ Self.format.canonical x };
}

/// A type whose values a scalar stores in place.
pub trait HeldLeaf: Leaf {
    /// Converts this value into a scalar.
    fn into_scalar(self) -> Scalar
        ensures { scalar_of result ≡ leaf (Self.as_leaf self) };
}

/// A type whose values a scalar stores on the heap.
pub trait BoxedLeaf: Leaf + Drop {
    /// Converts this value into a scalar.
    fn boxed_scalar(value: Boxed<Self>) -> Scalar
        ensures { scalar_of result ≡ leaf (Self.as_leaf value) };
}

/// Decodes a scalar as a value of its type.
#[inline]
pub(crate) fn read_leaf_as<T: Leaf, S: Source>(alloc: Global, src: &mut S) -> Result<T, ReadFault>
    ensures exact { GivesBy (λ x. leaf (T.as_leaf x)) (image_read leaf (leaf_at T.kind)) (S.octets src.old)
        (S.octets src.new) result }
    ensures behind { StaysBehind (S.octets src.old) (S.octets src.new) }
{
    T::is_leaf();
    let value = T::read_value(alloc, src, 0)?;
    Ok(value)
}

/// Decodes a scalar of the type id of a type that it stores in place.
#[inline]
pub(crate) fn read_as<T: HeldLeaf, S: Source>(
    alloc: Global,
    src: &mut S,
) -> Result<Scalar, ReadFault>
    ensures exact { GivesBy scalar_of (image_read leaf (leaf_at T.kind)) (S.octets src.old) (S.octets src.new) result }
    ensures behind { StaysBehind (S.octets src.old) (S.octets src.new) }
{
    Ok(read_leaf_as::<T, S>(alloc, src)?.into_scalar())
}

/// Decodes a scalar of the type id of a type that it stores on the heap.
pub(crate) fn read_boxed_as<T: BoxedLeaf, S: Source>(
    alloc: Global,
    src: &mut S,
) -> Result<Scalar, ReadFault>
    ensures exact { GivesBy scalar_of (image_read leaf (leaf_at T.kind)) (S.octets src.old) (S.octets src.new) result }
    ensures behind { StaysBehind (S.octets src.old) (S.octets src.new) }
{
    let value = Boxed::new(alloc, read_leaf_as::<T, S>(alloc, src)?)?;
    Ok(T::boxed_scalar(value))
}

impl Leaf for bool {
    ghost use Rattle.ua_variant.specs.Data.{boolean};

    ghost kind = { 1 };

    ghost as_leaf = { boolean };

    #[inline]
    #[tactic(auto, unfolding(crate::specs::Leaf::leaf_at))]
    fn is_leaf() {}
}

impl HeldLeaf for bool {
    #[inline]
    fn into_scalar(self) -> Scalar {
        Scalar::Boolean(self)
    }
}

impl Leaf for i8 {
    ghost use Rattle.ua_variant.specs.Data.{sbyte};

    ghost kind = { 2 };

    ghost as_leaf = { sbyte };

    #[inline]
    #[tactic(auto, unfolding(crate::specs::Leaf::leaf_at))]
    fn is_leaf() {}
}

impl HeldLeaf for i8 {
    #[inline]
    fn into_scalar(self) -> Scalar {
        Scalar::SByte(self)
    }
}

impl Leaf for u8 {
    ghost use Rattle.ua_variant.specs.Data.{byte};

    ghost kind = { 3 };

    ghost as_leaf = { byte };

    #[inline]
    #[tactic(auto, unfolding(crate::specs::Leaf::leaf_at))]
    fn is_leaf() {}
}

impl HeldLeaf for u8 {
    #[inline]
    fn into_scalar(self) -> Scalar {
        Scalar::Byte(self)
    }
}

impl Leaf for i16 {
    ghost use Rattle.ua_variant.specs.Data.{int16};

    ghost kind = { 4 };

    ghost as_leaf = { int16 };

    #[inline]
    #[tactic(auto, unfolding(crate::specs::Leaf::leaf_at))]
    fn is_leaf() {}
}

impl HeldLeaf for i16 {
    #[inline]
    fn into_scalar(self) -> Scalar {
        Scalar::Int16(self)
    }
}

impl Leaf for u16 {
    ghost use Rattle.ua_variant.specs.Data.{uint16};

    ghost kind = { 5 };

    ghost as_leaf = { uint16 };

    #[inline]
    #[tactic(auto, unfolding(crate::specs::Leaf::leaf_at))]
    fn is_leaf() {}
}

impl HeldLeaf for u16 {
    #[inline]
    fn into_scalar(self) -> Scalar {
        Scalar::UInt16(self)
    }
}

impl Leaf for i32 {
    ghost use Rattle.ua_variant.specs.Data.{int32};

    ghost kind = { 6 };

    ghost as_leaf = { int32 };

    #[inline]
    #[tactic(auto, unfolding(crate::specs::Leaf::leaf_at))]
    fn is_leaf() {}
}

impl HeldLeaf for i32 {
    #[inline]
    fn into_scalar(self) -> Scalar {
        Scalar::Int32(self)
    }
}

impl Leaf for u32 {
    ghost use Rattle.ua_variant.specs.Data.{uint32};

    ghost kind = { 7 };

    ghost as_leaf = { uint32 };

    #[inline]
    #[tactic(auto, unfolding(crate::specs::Leaf::leaf_at))]
    fn is_leaf() {}
}

impl HeldLeaf for u32 {
    #[inline]
    fn into_scalar(self) -> Scalar {
        Scalar::UInt32(self)
    }
}

impl Leaf for i64 {
    ghost use Rattle.ua_variant.specs.Data.{int64};

    ghost kind = { 8 };

    ghost as_leaf = { int64 };

    #[inline]
    #[tactic(auto, unfolding(crate::specs::Leaf::leaf_at))]
    fn is_leaf() {}
}

impl HeldLeaf for i64 {
    #[inline]
    fn into_scalar(self) -> Scalar {
        Scalar::Int64(self)
    }
}

impl Leaf for u64 {
    ghost use Rattle.ua_variant.specs.Data.{uint64};

    ghost kind = { 9 };

    ghost as_leaf = { uint64 };

    #[inline]
    #[tactic(auto, unfolding(crate::specs::Leaf::leaf_at))]
    fn is_leaf() {}
}

impl HeldLeaf for u64 {
    #[inline]
    fn into_scalar(self) -> Scalar {
        Scalar::UInt64(self)
    }
}

impl Leaf for FloatBits {
    ghost use Rattle.ua_variant.specs.Data.{float};

    ghost kind = { 10 };

    ghost as_leaf = { float };

    #[inline]
    #[tactic(auto, unfolding(crate::specs::Leaf::leaf_at))]
    fn is_leaf() {}
}

impl HeldLeaf for FloatBits {
    #[inline]
    fn into_scalar(self) -> Scalar {
        Scalar::Float(self)
    }
}

impl Leaf for DoubleBits {
    ghost use Rattle.ua_variant.specs.Data.{double};

    ghost kind = { 11 };

    ghost as_leaf = { double };

    #[inline]
    #[tactic(auto, unfolding(crate::specs::Leaf::leaf_at))]
    fn is_leaf() {}
}

impl HeldLeaf for DoubleBits {
    #[inline]
    fn into_scalar(self) -> Scalar {
        Scalar::Double(self)
    }
}

impl Leaf for UaString {
    ghost use Rattle.ua_variant.specs.Data.{string};

    ghost kind = { 12 };

    ghost as_leaf = { string };

    #[inline]
    #[tactic(auto, unfolding(crate::specs::Leaf::leaf_at))]
    fn is_leaf() {}
}

impl HeldLeaf for UaString {
    #[inline]
    fn into_scalar(self) -> Scalar {
        Scalar::String(self)
    }
}

impl Leaf for DateTime {
    ghost use Rattle.ua_variant.specs.Data.{date_time};

    ghost kind = { 13 };

    ghost as_leaf = { date_time };

    #[inline]
    #[tactic(auto, unfolding(crate::specs::Leaf::leaf_at))]
    fn is_leaf() {}
}

impl HeldLeaf for DateTime {
    #[inline]
    fn into_scalar(self) -> Scalar {
        Scalar::DateTime(self)
    }
}

impl Leaf for Guid {
    ghost use Rattle.ua_variant.specs.Data.{guid};

    ghost kind = { 14 };

    ghost as_leaf = { guid };

    #[inline]
    #[tactic(auto, unfolding(crate::specs::Leaf::leaf_at))]
    fn is_leaf() {}
}

impl HeldLeaf for Guid {
    #[inline]
    fn into_scalar(self) -> Scalar {
        Scalar::Guid(self)
    }
}

impl Leaf for UaBytes {
    ghost use Rattle.ua_variant.specs.Data.{byte_string};

    ghost kind = { 15 };

    ghost as_leaf = { byte_string };

    #[inline]
    #[tactic(auto, unfolding(crate::specs::Leaf::leaf_at))]
    fn is_leaf() {}
}

impl HeldLeaf for UaBytes {
    #[inline]
    fn into_scalar(self) -> Scalar {
        Scalar::ByteString(self)
    }
}

impl Leaf for XmlElement {
    ghost use Rattle.ua_variant.specs.Data.{xml_element};

    ghost kind = { 16 };

    ghost as_leaf = { xml_element };

    #[inline]
    #[tactic(auto, unfolding(crate::specs::Leaf::leaf_at))]
    fn is_leaf() {}
}

impl HeldLeaf for XmlElement {
    #[inline]
    fn into_scalar(self) -> Scalar {
        Scalar::XmlElement(self)
    }
}

impl Leaf for NodeId {
    ghost use Rattle.ua_variant.specs.Data.{node_id};

    ghost kind = { 17 };

    ghost as_leaf = { node_id };

    #[inline]
    #[tactic(auto, unfolding(crate::specs::Leaf::leaf_at))]
    fn is_leaf() {}
}

impl HeldLeaf for NodeId {
    #[inline]
    fn into_scalar(self) -> Scalar {
        Scalar::NodeId(self)
    }
}

impl Leaf for ExpandedNodeId {
    ghost use Rattle.ua_variant.specs.Data.{expanded_node_id};

    ghost kind = { 18 };

    ghost as_leaf = { expanded_node_id };

    #[inline]
    #[tactic(auto, unfolding(crate::specs::Leaf::leaf_at))]
    fn is_leaf() {}
}

impl BoxedLeaf for ExpandedNodeId {
    ghost use Rattle.ua_variant.specs.Data.{expanded_node_id};

    #[inline]
    fn boxed_scalar(value: Boxed<ExpandedNodeId>) -> Scalar
        ensures { scalar_of result ≡ leaf (expanded_node_id value) }
    {
        Scalar::ExpandedNodeId(value)
    }
}

impl Leaf for StatusCode {
    ghost use Rattle.ua_variant.specs.Data.{status_code};

    ghost kind = { 19 };

    ghost as_leaf = { status_code };

    #[inline]
    #[tactic(auto, unfolding(crate::specs::Leaf::leaf_at))]
    fn is_leaf() {}
}

impl HeldLeaf for StatusCode {
    #[inline]
    fn into_scalar(self) -> Scalar {
        Scalar::StatusCode(self)
    }
}

impl Leaf for QualifiedName {
    ghost use Rattle.ua_variant.specs.Data.{qualified_name};

    ghost kind = { 20 };

    ghost as_leaf = { qualified_name };

    #[inline]
    #[tactic(auto, unfolding(crate::specs::Leaf::leaf_at))]
    fn is_leaf() {}
}

impl HeldLeaf for QualifiedName {
    #[inline]
    fn into_scalar(self) -> Scalar {
        Scalar::QualifiedName(self)
    }
}

impl Leaf for LocalizedText {
    ghost use Rattle.ua_variant.specs.Data.{localized_text};

    ghost kind = { 21 };

    ghost as_leaf = { localized_text };

    #[inline]
    #[tactic(auto, unfolding(crate::specs::Leaf::leaf_at))]
    fn is_leaf() {}
}

impl BoxedLeaf for LocalizedText {
    ghost use Rattle.ua_variant.specs.Data.{localized_text};

    #[inline]
    fn boxed_scalar(value: Boxed<LocalizedText>) -> Scalar
        ensures { scalar_of result ≡ leaf (localized_text value) }
    {
        Scalar::LocalizedText(value)
    }
}

impl Leaf for ExtensionObject {
    ghost use Rattle.ua_variant.specs.Data.{extension_object};

    ghost kind = { 22 };

    ghost as_leaf = { extension_object };

    #[inline]
    #[tactic(auto, unfolding(crate::specs::Leaf::leaf_at))]
    fn is_leaf() {}
}

impl BoxedLeaf for ExtensionObject {
    ghost use Rattle.ua_variant.specs.Data.{extension_object};

    #[inline]
    fn boxed_scalar(value: Boxed<ExtensionObject>) -> Scalar
        ensures { scalar_of result ≡ leaf (extension_object value) }
    {
        Scalar::ExtensionObject(value)
    }
}
