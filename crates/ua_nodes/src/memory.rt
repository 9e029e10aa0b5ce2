//! How much memory values take.

ghost use Rattle.std.specs.Prelude.{◌≡◌, ◌*◌, length, min};
ghost use Rattle.ua_diagnostic.specs.View.{diagnostic_of};
ghost use Rattle.ua_variant.specs.Encodable.{row_length};
ghost use Rattle.ua_variant.specs.View.{data_value_of, row, scalar_of, variant_of};
ghost use Rattle.ua_nodes.specs.Memory.{body_memory, data_value_memory, diagnostic_memory};
ghost use Rattle.ua_nodes.specs.Memory.{element_place, identifier_memory, scalar_memory};
ghost use Rattle.ua_nodes.specs.Memory.{scalars_memory, text_memory, value_memory, variant_memory};

use ua_builtin::{ExtensionBody, Identifier, UaBytes, UaString};
use ua_variant::{
    BoxedDiagnostic, DataValue, DiagnosticInfo, Dimensions, Elements, Scalar, Scalars, Variant,
};

/// The bytes that the allocator may add to a text.
const BESIDE_TEXT: usize = 32;

/// The bytes of an ExpandedNodeId, a LocalizedText or an ExtensionObject in its box.
const BOXED_LEAF: usize = 112;

/// The bytes of a Variant in its box.
const BOXED_VARIANT: usize = 80;

/// The bytes of a DataValue in its box.
const BOXED_DATA_VALUE: usize = 144;

/// The bytes of a DiagnosticInfo in its box.
const BOXED_DIAGNOSTIC: usize = 128;

/// The bytes of memory that a value takes beside the fixed place of its node: an upper bound for a
/// value that was decoded. Saturated at `usize::MAX`.
pub(crate) fn memory_of(value: &Variant) -> usize
    ensures { result ≡ value_memory (variant_of value.now) }
{
    variant_bytes(value)
}

#[cycle(memory)]
fn variant_bytes(value: &Variant) -> usize
    ensures { result ≡ min (variant_memory (variant_of value.now)) usize.MAX }
{
    match value {
        Variant::Null => 0,
        Variant::One(s) => scalar_bytes(s),
        Variant::Many {
            items: None,
            dims,
            ..
        } => dims_bytes(dims),
        Variant::Many {
            kind,
            items: Some(items),
            dims,
        } => places_bytes(*kind, items)
            .saturating_add(row_bytes(items))
            .saturating_add(dims_bytes(dims)),
    }
}

#[cycle(memory)]
fn scalar_bytes(value: &Scalar) -> usize
    ensures { result ≡ min (scalar_memory (scalar_of value.now)) usize.MAX }
{
    match value {
        Scalar::String(text) => text_bytes(text),
        Scalar::ByteString(octets) => octets_bytes(octets),
        Scalar::XmlElement(element) => octets_bytes(&element.octets),
        Scalar::NodeId(id) => identifier_bytes(&id.identifier),
        Scalar::ExpandedNodeId(id) => identifier_bytes(&id.get().node_id.identifier)
            .saturating_add(text_bytes(&id.get().namespace_uri))
            .saturating_add(BOXED_LEAF),
        Scalar::QualifiedName(name) => text_bytes(&name.name),
        Scalar::LocalizedText(text) => text_bytes(&text.get().locale)
            .saturating_add(text_bytes(&text.get().text))
            .saturating_add(BOXED_LEAF),
        Scalar::ExtensionObject(object) => identifier_bytes(&object.get().type_id.identifier)
            .saturating_add(body_bytes(&object.get().body))
            .saturating_add(BOXED_LEAF),
        Scalar::DataValue(d) => match d.get() {
            None => BOXED_DATA_VALUE,
            Some(d) => data_value_bytes(d),
        },
        Scalar::Variant(v) => match v.get() {
            None => BOXED_VARIANT,
            Some(v) => variant_bytes(v).saturating_add(BOXED_VARIANT),
        },
        Scalar::DiagnosticInfo(d) => diagnostic_bytes(d),
        Scalar::Reserved(_, octets) => octets_bytes(octets),
        _ => 0,
    }
}

/// What the elements of an array take beside their places.
#[cycle(memory)]
fn row_bytes(items: &Scalars) -> usize
    ensures { result ≡ min (scalars_memory (row items.now)) usize.MAX }
{
    let scalars = match items.elements() {
        Elements::Packed(_) => return 0,
        Elements::Mixed(scalars) => scalars,
    };
    let mut all = 0usize;
    for s in scalars {
        all = all.saturating_add(scalar_bytes(s));
    }
    all
}

#[cycle(memory)]
fn data_value_bytes(value: &DataValue) -> usize
    ensures { result ≡ min (data_value_memory (data_value_of value.now)) usize.MAX }
{
    match &value.value {
        None => BOXED_DATA_VALUE,
        Some(v) => variant_bytes(v.get()).saturating_add(BOXED_DATA_VALUE),
    }
}

/// The places of the elements of an array.
fn places_bytes(kind: u8, items: &Scalars) -> usize
    ensures { result ≡ min (element_place kind * row_length (row items.now)) usize.MAX }
{
    place_of(kind).saturating_mul(items.len())
}

/// The bytes of an element of this type id in its array.
fn place_of(kind: u8) -> usize
    ensures { result ≡ element_place kind }
{
    match kind {
        1 | 2 | 3 => 1,
        4 | 5 => 2,
        6 | 7 | 10 | 19 => 4,
        8 | 9 | 11 | 13 => 8,
        14 => 16,
        _ => 56,
    }
}

fn dims_bytes(dims: &Dimensions) -> usize
    ensures { result ≡ min (4 * length dims.now) usize.MAX }
{
    dims.as_slice().len().saturating_mul(4)
}

fn text_bytes(text: &UaString) -> usize
    ensures { result ≡ min (text_memory text.now) usize.MAX }
{
    match text.as_str() {
        Some(text) => text.len().saturating_add(BESIDE_TEXT),
        None => 0,
    }
}

fn octets_bytes(octets: &UaBytes) -> usize
    ensures { result ≡ min (text_memory octets.now) usize.MAX }
{
    match octets.as_octets() {
        Some(octets) => octets.len().saturating_add(BESIDE_TEXT),
        None => 0,
    }
}

fn identifier_bytes(identifier: &Identifier) -> usize
    ensures { result ≡ min (identifier_memory identifier.now) usize.MAX }
{
    match identifier {
        Identifier::Numeric(_) | Identifier::Guid(_) => 0,
        Identifier::Text(text) => text_bytes(text),
        Identifier::Opaque(octets) => octets_bytes(octets),
    }
}

fn body_bytes(body: &ExtensionBody) -> usize
    ensures { result ≡ min (body_memory body.now) usize.MAX }
{
    match body {
        ExtensionBody::Absent => 0,
        ExtensionBody::ByteString(octets) => octets_bytes(octets),
        ExtensionBody::Xml(element) => octets_bytes(&element.octets),
    }
}

fn diagnostic_bytes(value: &BoxedDiagnostic) -> usize
    ensures { result ≡ min (diagnostic_memory value.now) usize.MAX }
{
    match value.get() {
        None => BOXED_DIAGNOSTIC,
        Some(info) => info_bytes(info),
    }
}

/// A DiagnosticInfo, at every level.
fn info_bytes(value: &DiagnosticInfo) -> usize
    ensures { result ≡ min (diagnostic_memory (diagnostic_of value.now)) usize.MAX }
{
    let own = text_bytes(&value.additional_info).saturating_add(BOXED_DIAGNOSTIC);
    match &value.inner {
        None => own,
        Some(inner) => match inner.get() {
            None => own.saturating_add(BOXED_DIAGNOSTIC),
            Some(info) => info_bytes(info).saturating_add(own),
        },
    }
}
