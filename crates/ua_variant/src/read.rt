//! Decoding of Variants and DataValues.

ghost use Rattle.std.specs.Prelude.{◌≡◌, ◌+◌, ◌<◌, ◌≤◌, ◌%◌, true, map, None, Some, IfErr, IfOk, IsErrOf, IsTrue, OnErr};
ghost use Rattle.ua_builtin.specs.Counted.{first_negative};
ghost use Rattle.ua_builtin.specs.Format.{most_levels, Gives, GivesBy, StaysBehind};
ghost use Rattle.ua_builtin.specs.Number.{number_at};
ghost use Rattle.ua_wire.specs.declared.fault.ReadFault.TheVariants.{NoValue};
ghost use Rattle.ua_diagnostic.specs.Parts.{optional_read};
ghost use Rattle.ua_variant.specs.Formats.{IsOverlongArray, IsOverlongRow};
ghost use Rattle.ua_variant.specs.Encodable.{is_read_kind as read_kind};
ghost use Rattle.ua_variant.specs.Decoding.{variant_at, variant_after, data_value_at};
ghost use Rattle.ua_variant.specs.Decoding.{scalars_at, scalar_at, variant_array_at, elements_at};
ghost use Rattle.ua_variant.specs.Decoding.{row_at, fields_behind, dims_behind, no_dims_behind};
ghost use Rattle.ua_variant.specs.Onto.{announced_at};
ghost use Rattle.ua_variant.specs.View.{row, variant_of, scalar_of, data_value_of};

use crate::blocks::{is_packed, read_packed};
use crate::fields::read_data_fields;
use crate::least::least_octets;
use crate::masks;
use crate::records::{
    MOST_RESERVED, make_room, read_boxed_diagnostic, read_diagnostic_row, read_leaf, read_records,
};
use crate::values::{
    BoxedDataValue, BoxedVariant, DataValue, HeldVariant, Scalar, Scalars, Variant,
};
use std::alloc::Global;
use ua_builtin::{ReadFault, Source, Wire};
use ua_diagnostic::{read_dims, read_no_dims};
use ua_wire::FIRST_NEGATIVE;

/// Reads the encoding byte of a Variant of at most this nesting depth: how many levels its inner
/// values may have, and the byte.
#[inline(always)]
#[tactic(auto, using(crate::proofs::Heads::variant_behind, crate::proofs::Heads::variant_unread))]
pub(crate) fn read_tag<S: Source>(
    alloc: Global,
    src: &mut S,
    depth: u32,
) -> Result<(u32, u8), ReadFault>
    requires levels { depth ≤ most_levels }
    ensures level { IfOk result (λ (inner, _). depth ≡ inner + 1) }
    ensures tag { IfOk result (λ (_, tag). number_at 1 (S.octets src.old) ≡ Some (tag, S.octets src.new)) }
    ensures ok { IfOk result (λ (inner, tag). variant_at depth (S.octets src.old)
        ≡ variant_after (scalars_at inner) tag (S.octets src.new)) }
    ensures err { IfErr result (λ fault. fault ≡ NoValue) }
    ensures none { OnErr result (variant_at depth (S.octets src.old) ≡ None) }
    ensures behind { StaysBehind (S.octets src.old) (S.octets src.new) }
{
    if depth == 0 {
        return Err(ReadFault::NoValue);
    }
    let tag = u8::read_value(alloc, src, 0)?;
    Ok((depth - 1, tag))
}

/// Decodes a Variant of at most this nesting depth.
#[inline(always)]
pub fn read_variant<S: Source>(alloc: Global, src: &mut S, depth: u32) -> Result<Variant, ReadFault>
    requires levels { depth ≤ most_levels }
    ensures exact { GivesBy variant_of (variant_at depth) (S.octets src.old) (S.octets src.new) result }
    ensures behind { StaysBehind (S.octets src.old) (S.octets src.new) }
    ensures long { IsOverlongArray (S.octets src.old) → IsErrOf result NoValue }
{
    let (inner, tag) = read_tag(alloc, src, depth)?;
    read_tagged(alloc, src, inner, tag)
}

/// Whether values of the type id are decoded.
#[inline]
pub(crate) fn is_read_kind(kind: u8) -> bool
    ensures { result ≡ read_kind kind }
{
    1 <= kind && kind <= 31
}

/// Decodes a Variant after its encoding byte, whose inner values may have this nesting depth.
#[cycle(variants)]
#[inline(always)]
#[tactic(auto, unfolding(crate::specs::Decoding::variant_after))]
pub(crate) fn read_tagged<S: Source>(
    alloc: Global,
    src: &mut S,
    depth: u32,
    tag: u8,
) -> Result<Variant, ReadFault>
    requires levels { depth ≤ most_levels }
    ensures exact { GivesBy variant_of (variant_after (scalars_at depth) tag) (S.octets src.old)
        (S.octets src.new) result }
    ensures behind { StaysBehind (S.octets src.old) (S.octets src.new) }
    ensures long { 0x80 ≤ tag → read_kind (tag % 0x40) ≡ true → IsOverlongRow (tag % 0x40) (S.octets src.old)
        → IsErrOf result NoValue }
{
    if tag == 0 {
        return Ok(Variant::Null);
    }
    if tag >= masks::ARRAY {
        let kind = tag & masks::TYPE_ID;
        if !is_read_kind(kind) {
            return Err(ReadFault::NoValue);
        }
        return read_array(alloc, src, depth, kind, tag & masks::DIMENSIONS != 0);
    }
    if tag == 24 {
        return Err(ReadFault::NoValue);
    }
    Ok(Variant::One(read_scalar(alloc, src, depth, tag)?))
}

/// Reads an array after its first byte; nothing is allocated where the bytes left cannot hold so
/// many elements.
#[cycle(variants)]
#[tactic(auto, unfolding(crate::specs::Decoding::variant_array_at))]
fn read_array<S: Source>(
    alloc: Global,
    src: &mut S,
    depth: u32,
    kind: u8,
    flagged: bool,
) -> Result<Variant, ReadFault>
    requires levels { depth ≤ most_levels }
    requires read { read_kind kind ≡ true }
    ensures exact { GivesBy variant_of (variant_array_at (scalars_at depth) kind flagged) (S.octets src.old)
        (S.octets src.new) result }
    ensures behind { StaysBehind (S.octets src.old) (S.octets src.new) }
    ensures long { IsOverlongRow kind (S.octets src.old) → IsErrOf result NoValue }
{
    let count = u32::read_value(alloc, src, 0)?;
    if count >= FIRST_NEGATIVE {
        let dims = read_no_dims(alloc, src, flagged)?;
        return Ok(Variant::Many {
            kind,
            items: None,
            dims,
        });
    }
    let room = src.left() / least_octets(kind);
    if room < count as usize {
        return Err(ReadFault::NoValue);
    }
    read_elements(alloc, src, depth, kind, flagged, count)
}

/// Reads so many elements and the dimensions.
#[cycle(variants)]
fn read_elements<S: Source>(
    alloc: Global,
    src: &mut S,
    depth: u32,
    kind: u8,
    flagged: bool,
    count: u32,
) -> Result<Variant, ReadFault>
    requires levels { depth ≤ most_levels }
    requires read { read_kind kind ≡ true }
    requires count { count < first_negative }
    ensures exact { GivesBy variant_of (elements_at (scalars_at depth) kind flagged count) (S.octets src.old)
        (S.octets src.new) result }
    ensures behind { StaysBehind (S.octets src.old) (S.octets src.new) }
{
    let items = read_row(alloc, src, depth, kind, count)?;
    let dims = read_dims(alloc, src, flagged, count)?;
    Ok(Variant::Many {
        kind,
        items: Some(items),
        dims,
    })
}

/// Reads so many elements of the type id.
#[cycle(variants)]
fn read_row<S: Source>(
    alloc: Global,
    src: &mut S,
    depth: u32,
    kind: u8,
    count: u32,
) -> Result<Scalars, ReadFault>
    requires levels { depth ≤ most_levels }
    requires read { read_kind kind ≡ true }
    ensures exact { GivesBy (λ ss. row ss) (row_at count (scalars_at depth kind)) (S.octets src.old)
        (S.octets src.new) result }
    ensures behind { StaysBehind (S.octets src.old) (S.octets src.new) }
{
    if is_packed(kind) {
        return Ok(Scalars::packed(read_packed(alloc, src, kind, count)?));
    }
    match kind {
        23 => Ok(Scalars::new(read_data_values(alloc, src, depth, count)?)),
        24 => Ok(Scalars::new(read_variants(alloc, src, depth, count)?)),
        25 => read_diagnostic_row(alloc, src, depth, count),
        _ => Ok(Scalars::new(read_records(alloc, src, kind, count)?)),
    }
}

/// Reads so many DataValues or Variants as scalars, whose inner values may have that nesting depth.
#[cycle(variants)]
#[inline(always)]
fn read_values<S: Source>(
    alloc: Global,
    src: &mut S,
    depth: u32,
    kind: u8,
    count: u32,
) -> Result<Vec<Scalar>, ReadFault>
    requires levels { depth ≤ most_levels }
    requires low { 23 ≤ kind }
    requires high { kind ≤ 24 }
    ensures exact { GivesBy (λ v. row (map scalar_of v.items)) (row_at count (scalars_at depth kind)) (S.octets src.old)
        (S.octets src.new) result }
    ensures behind { StaysBehind (S.octets src.old) (S.octets src.new) }
{
    match kind {
        23 => read_data_values(alloc, src, depth, count),
        _ => read_variants(alloc, src, depth, count),
    }
}

/// Reads so many DataValues as scalars, whose inner values may have that nesting depth.
#[cycle(variants)]
#[inline(never)]
fn read_data_values<S: Source>(
    alloc: Global,
    src: &mut S,
    depth: u32,
    count: u32,
) -> Result<Vec<Scalar>, ReadFault>
    requires levels { depth ≤ most_levels }
    ensures exact { GivesBy (λ v. row (map scalar_of v.items)) (row_at count (scalars_at depth 23)) (S.octets src.old)
        (S.octets src.new) result }
    ensures behind { StaysBehind (S.octets src.old) (S.octets src.new) }
{
    let mut items = Vec::with_capacity(alloc, (count as usize).min(MOST_RESERVED))?;
    for _ in 0..count {
        make_room(&mut items, count)?;
        let item = read_boxed_data_value(alloc, src, depth)?;
        items.push_reserved(Scalar::DataValue(item));
    }
    Ok(items)
}

/// Reads so many Variants as scalars, whose inner values may have that nesting depth.
#[cycle(variants)]
#[inline(never)]
fn read_variants<S: Source>(
    alloc: Global,
    src: &mut S,
    depth: u32,
    count: u32,
) -> Result<Vec<Scalar>, ReadFault>
    requires levels { depth ≤ most_levels }
    ensures exact { GivesBy (λ v. row (map scalar_of v.items)) (row_at count (scalars_at depth 24)) (S.octets src.old)
        (S.octets src.new) result }
    ensures behind { StaysBehind (S.octets src.old) (S.octets src.new) }
{
    let mut items = Vec::with_capacity(alloc, (count as usize).min(MOST_RESERVED))?;
    for _ in 0..count {
        make_room(&mut items, count)?;
        let item = read_boxed_variant(alloc, src, depth)?;
        items.push_reserved(Scalar::Variant(item));
    }
    Ok(items)
}

/// Reads a value of the type id, whose inner values may have that nesting depth.
#[cycle(variants)]
#[inline(always)]
#[tactic(auto, unfolding(crate::specs::Decoding::scalar_at))]
fn read_scalar<S: Source>(
    alloc: Global,
    src: &mut S,
    depth: u32,
    kind: u8,
) -> Result<Scalar, ReadFault>
    requires levels { depth ≤ most_levels }
    ensures exact { GivesBy scalar_of (scalars_at depth kind) (S.octets src.old) (S.octets src.new) result }
    ensures behind { StaysBehind (S.octets src.old) (S.octets src.new) }
{
    match kind {
        23 => Ok(Scalar::DataValue(read_boxed_data_value(alloc, src, depth)?)),
        24 => Ok(Scalar::Variant(read_boxed_variant(alloc, src, depth)?)),
        25 => read_boxed_diagnostic(alloc, src, depth),
        _ => read_leaf(alloc, src, kind),
    }
}

// Values among other values are read to the heap. Each level of nesting takes as much of the stack
// as the functions that call each other for it, so what has a whole Variant or DataValue in its
// hands is not inlined into them.

/// Reads the mask of a DataValue of at most this nesting depth: how many levels its value may have,
/// the mask, and whether it announces a value.
#[inline(always)]
#[tactic(auto, using(crate::proofs::Heads::data_value_behind, crate::proofs::Heads::data_value_unread, crate::proofs::Heads::data_value_refused))]
pub(crate) fn read_mask<S: Source>(
    alloc: Global,
    src: &mut S,
    depth: u32,
) -> Result<(u32, u8, bool), ReadFault>
    requires levels { depth ≤ most_levels }
    ensures level { IfOk result (λ (inner, _, _). depth ≡ inner + 1) }
    ensures ok { IfOk result (λ (inner, mask, set). data_value_at depth (S.octets src.old)
        ≡ announced_at mask set (variant_at inner) (S.octets src.new)) }
    ensures err { IfErr result (λ fault. fault ≡ NoValue) }
    ensures none { OnErr result (data_value_at depth (S.octets src.old) ≡ None) }
    ensures behind { StaysBehind (S.octets src.old) (S.octets src.new) }
{
    if depth == 0 {
        return Err(ReadFault::NoValue);
    }
    let mask = u8::read_value(alloc, src, 0)?;
    if mask > masks::KNOWN_FLAGS {
        return Err(ReadFault::NoValue);
    }
    Ok((depth - 1, mask, mask & masks::VALUE != 0))
}

/// Reads a DataValue of at most this nesting depth to the heap.
#[cycle(variants)]
#[inline(never)]
fn read_boxed_data_value<S: Source>(
    alloc: Global,
    src: &mut S,
    depth: u32,
) -> Result<BoxedDataValue, ReadFault>
    requires levels { depth ≤ most_levels }
    ensures exact { Gives (data_value_at depth) (S.octets src.old) (S.octets src.new) result }
    ensures behind { StaysBehind (S.octets src.old) (S.octets src.new) }
{
    let (inner, mask, set) = read_mask(alloc, src, depth)?;
    if !set {
        return box_data_value(alloc, src, mask, None);
    }
    let value = read_boxed_variant(alloc, src, inner)?;
    box_data_value(alloc, src, mask, Some(value))
}

/// Reads the fields of a DataValue, after its value, to the heap.
#[inline(never)]
fn box_data_value<S: Source>(
    alloc: Global,
    src: &mut S,
    mask: u8,
    value: Option<BoxedVariant>,
) -> Result<BoxedDataValue, ReadFault>
    ensures exact { Gives (fields_behind mask value) (S.octets src.old) (S.octets src.new) result }
    ensures behind { StaysBehind (S.octets src.old) (S.octets src.new) }
{
    match read_data_fields(alloc, src, mask) {
        Ok(fields) => Ok(BoxedDataValue::new(alloc, fields.behind(held(value)))?),
        Err(fault) => {
            drop(value);
            Err(fault)
        }
    }
}

/// Moves a value from the heap into its place.
fn held(value: Option<BoxedVariant>) -> Option<HeldVariant>
    ensures { result ≡ value }
{
    match value {
        Some(value) => Some(HeldVariant::new(value.into_inner())),
        None => None,
    }
}

/// Reads a Variant of at most this nesting depth to the heap.
#[cycle(variants)]
#[inline(never)]
fn read_boxed_variant<S: Source>(
    alloc: Global,
    src: &mut S,
    depth: u32,
) -> Result<BoxedVariant, ReadFault>
    requires levels { depth ≤ most_levels }
    ensures exact { Gives (variant_at depth) (S.octets src.old) (S.octets src.new) result }
    ensures behind { StaysBehind (S.octets src.old) (S.octets src.new) }
{
    let (inner, tag) = read_tag(alloc, src, depth)?;
    read_boxed_tagged(alloc, src, inner, tag)
}

/// Reads a Variant to the heap after its encoding byte.
#[cycle(variants)]
#[inline(always)]
#[tactic(auto, unfolding(crate::specs::Decoding::variant_after))]
fn read_boxed_tagged<S: Source>(
    alloc: Global,
    src: &mut S,
    depth: u32,
    tag: u8,
) -> Result<BoxedVariant, ReadFault>
    requires levels { depth ≤ most_levels }
    ensures exact { Gives (variant_after (scalars_at depth) tag) (S.octets src.old) (S.octets src.new) result }
    ensures behind { StaysBehind (S.octets src.old) (S.octets src.new) }
{
    if tag >= masks::ARRAY {
        let kind = tag & masks::TYPE_ID;
        if nests(kind) {
            return read_boxed_array(alloc, src, depth, kind, tag & masks::DIMENSIONS != 0);
        }
    }
    box_tagged(alloc, src, depth, tag)
}

/// Whether elements of the type id may hold arrays: DataValue and Variant.
#[inline]
fn nests(kind: u8) -> bool
    ensures low { IsTrue result → 23 ≤ kind }
    ensures high { IsTrue result → kind ≤ 24 }
    ensures read { IsTrue result → read_kind kind ≡ true }
{
    kind == 23 || kind == 24
}

/// Reads any Variant after its encoding byte, and moves it to the heap.
#[cycle(variants)]
#[inline(never)]
fn box_tagged<S: Source>(
    alloc: Global,
    src: &mut S,
    depth: u32,
    tag: u8,
) -> Result<BoxedVariant, ReadFault>
    requires levels { depth ≤ most_levels }
    ensures exact { Gives (variant_after (scalars_at depth) tag) (S.octets src.old) (S.octets src.new) result }
    ensures behind { StaysBehind (S.octets src.old) (S.octets src.new) }
{
    let value = read_tagged(alloc, src, depth, tag)?;
    Ok(BoxedVariant::new(alloc, value)?)
}

/// Reads an array of DataValues or Variants to the heap, after its encoding byte.
#[cycle(variants)]
#[inline(always)]
#[tactic(auto, unfolding(crate::specs::Decoding::variant_array_at))]
fn read_boxed_array<S: Source>(
    alloc: Global,
    src: &mut S,
    depth: u32,
    kind: u8,
    flagged: bool,
) -> Result<BoxedVariant, ReadFault>
    requires levels { depth ≤ most_levels }
    requires low { 23 ≤ kind }
    requires high { kind ≤ 24 }
    ensures exact { Gives (variant_array_at (scalars_at depth) kind flagged) (S.octets src.old)
        (S.octets src.new) result }
    ensures behind { StaysBehind (S.octets src.old) (S.octets src.new) }
{
    let count = u32::read_value(alloc, src, 0)?;
    if count >= FIRST_NEGATIVE {
        return box_null_array(alloc, src, kind, flagged);
    }
    let room = src.left() / least_octets(kind);
    if room < count as usize {
        return Err(ReadFault::NoValue);
    }
    let items = read_values(alloc, src, depth, kind, count)?;
    box_array(alloc, src, kind, flagged, count, items)
}

/// Reads the dimensions of an array of these elements, and moves it to the heap.
#[inline(never)]
fn box_array<S: Source>(
    alloc: Global,
    src: &mut S,
    kind: u8,
    flagged: bool,
    count: u32,
    items: Vec<Scalar>,
) -> Result<BoxedVariant, ReadFault>
    requires count { count < first_negative }
    ensures exact { Gives (dims_behind kind flagged count (row (map scalar_of items.items))) (S.octets src.old)
        (S.octets src.new) result }
    ensures behind { StaysBehind (S.octets src.old) (S.octets src.new) }
{
    let dims = read_dims(alloc, src, flagged, count)?;
    let value = Variant::Many {
        kind,
        items: Some(Scalars::new(items)),
        dims,
    };
    Ok(BoxedVariant::new(alloc, value)?)
}

/// Reads the dimensions of a null array, and moves it to the heap.
#[inline(never)]
fn box_null_array<S: Source>(
    alloc: Global,
    src: &mut S,
    kind: u8,
    flagged: bool,
) -> Result<BoxedVariant, ReadFault>
    ensures exact { Gives (no_dims_behind kind flagged) (S.octets src.old) (S.octets src.new) result }
    ensures behind { StaysBehind (S.octets src.old) (S.octets src.new) }
{
    let dims = read_no_dims(alloc, src, flagged)?;
    let value = Variant::Many {
        kind,
        items: None,
        dims,
    };
    Ok(BoxedVariant::new(alloc, value)?)
}

/// Decodes a DataValue of at most this nesting depth.
#[inline(always)]
pub(crate) fn read_data_value<S: Source>(
    alloc: Global,
    src: &mut S,
    depth: u32,
) -> Result<DataValue, ReadFault>
    requires levels { depth ≤ most_levels }
    ensures exact { GivesBy data_value_of (data_value_at depth) (S.octets src.old) (S.octets src.new) result }
    ensures behind { StaysBehind (S.octets src.old) (S.octets src.new) }
{
    let (inner, mask, set) = read_mask(alloc, src, depth)?;
    let value = read_held(alloc, src, inner, set)?;
    match read_data_fields(alloc, src, mask) {
        Ok(fields) => Ok(fields.behind(value)),
        Err(fault) => {
            give_up(value);
            Err(fault)
        }
    }
}

/// Drops a value whose DataValue was not decoded.
#[cold]
#[inline(never)]
pub(crate) fn give_up(value: Option<HeldVariant>) {
    drop(value);
}

/// Reads a Variant within a DataValue, where it is announced.
#[inline(always)]
fn read_held<S: Source>(
    alloc: Global,
    src: &mut S,
    depth: u32,
    set: bool,
) -> Result<Option<HeldVariant>, ReadFault>
    requires levels { depth ≤ most_levels }
    ensures exact { Gives (optional_read set (variant_at depth)) (S.octets src.old) (S.octets src.new) result }
    ensures behind { StaysBehind (S.octets src.old) (S.octets src.new) }
{
    if !set {
        return Ok(None);
    }
    let value = read_variant(alloc, src, depth)?;
    Ok(Some(HeldVariant::new(value)))
}
