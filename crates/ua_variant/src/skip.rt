//! Skips Variants and DataValues. Of an array, one scalar at a time is decoded and dropped, or a
//! part of a packed one, so that memory does not grow with the number of elements.

ghost use Rattle.std.specs.Prelude.{◌≡◌, ◌≤◌, ◌%◌, true, IsErrOf};
ghost use Rattle.ua_builtin.specs.Exact.{image_read, skipped};
ghost use Rattle.ua_builtin.specs.Format.{most_levels, Gives, StaysBehind};
ghost use Rattle.ua_wire.specs.declared.fault.ReadFault.TheVariants.{NoValue};
ghost use Rattle.ua_diagnostic.specs.Parts.{optional_read};
ghost use Rattle.ua_variant.specs.Data.{leaf};
ghost use Rattle.ua_variant.specs.Decoding.{variant_at, variant_after, data_value_at};
ghost use Rattle.ua_variant.specs.Decoding.{scalars_at, variant_array_at, row_at};
ghost use Rattle.ua_variant.specs.Encodable.{is_read_kind as read_kind};
ghost use Rattle.ua_variant.specs.Formats.{IsOverlongArray, IsOverlongRow};
ghost use Rattle.ua_variant.specs.Leaf.{leaf_at};
ghost use Rattle.ua_variant.specs.Packed.{is_packed_kind};

use crate::blocks::{is_packed, read_packed};
use crate::fields::read_data_fields;
use crate::least::least_octets;
use crate::masks;
use crate::read::{is_read_kind, read_mask, read_tag};
use crate::records::read_leaf;
use crate::values::{DataValue, Variant};
use std::alloc::Global;
use ua_builtin::{ReadFault, Skip, Source, Wire};
use ua_diagnostic::{read_no_dims, skip_diagnostic, skip_dims};
use ua_wire::FIRST_NEGATIVE;

/// At most so many elements of a packed array are read at a time, which take 4 KiB or less.
const PART: u32 = 256;

impl Skip for Variant {
    #[tactic(auto, unfolding(crate::specs::Formats::variant_format))]
    fn skip_value<S: Source>(alloc: Global, src: &mut S, depth: u32) -> Result<(), ReadFault> {
        skip_variant(alloc, src, depth)
    }
}

impl Skip for DataValue {
    #[tactic(auto, unfolding(crate::specs::Formats::data_value_format))]
    fn skip_value<S: Source>(alloc: Global, src: &mut S, depth: u32) -> Result<(), ReadFault> {
        skip_data_value(alloc, src, depth)
    }
}

/// Skips a scalar that holds no further value: it is read, and let go. Not inlined, so that the
/// room for a scalar is not taken on the stack at each level.
#[inline(never)]
fn skip_leaf<S: Source>(alloc: Global, src: &mut S, kind: u8) -> Result<(), ReadFault>
    ensures exact { Gives (skipped (image_read leaf (leaf_at kind))) (S.octets src.old) (S.octets src.new) result }
    ensures behind { StaysBehind (S.octets src.old) (S.octets src.new) }
{
    read_leaf(alloc, src, kind)?;
    Ok(())
}

/// Skips so many elements of a type id whose arrays are packed, a part of them at a time.
#[inline(never)]
fn skip_packed<S: Source>(alloc: Global, src: &mut S, kind: u8, count: u32) -> Result<(), ReadFault>
    requires { is_packed_kind kind ≡ true }
    ensures exact { Gives (skipped (row_at count (image_read leaf (leaf_at kind)))) (S.octets src.old)
        (S.octets src.new) result }
    ensures behind { StaysBehind (S.octets src.old) (S.octets src.new) }
{
    let mut left = count;
    while left > 0 {
        let part = left.min(PART);
        read_packed(alloc, src, kind, part)?;
        left -= part;
    }
    Ok(())
}

/// Skips a Variant of at most that nesting depth.
#[cycle(skips)]
fn skip_variant<S: Source>(alloc: Global, src: &mut S, depth: u32) -> Result<(), ReadFault>
    requires levels { depth ≤ most_levels }
    ensures exact { Gives (skipped (variant_at depth)) (S.octets src.old) (S.octets src.new) result }
    ensures behind { StaysBehind (S.octets src.old) (S.octets src.new) }
    ensures long { IsOverlongArray (S.octets src.old) → IsErrOf result NoValue }
{
    let (inner, tag) = read_tag(alloc, src, depth)?;
    skip_tagged(alloc, src, inner, tag)
}

/// Skips a Variant after its first byte, whose inner values may have that nesting depth.
#[cycle(skips)]
#[tactic(auto, unfolding(crate::specs::Decoding::variant_after))]
fn skip_tagged<S: Source>(alloc: Global, src: &mut S, depth: u32, tag: u8) -> Result<(), ReadFault>
    requires levels { depth ≤ most_levels }
    ensures exact { Gives (skipped (variant_after (scalars_at depth) tag)) (S.octets src.old)
        (S.octets src.new) result }
    ensures behind { StaysBehind (S.octets src.old) (S.octets src.new) }
    ensures long { 0x80 ≤ tag → read_kind (tag % 0x40) ≡ true → IsOverlongRow (tag % 0x40) (S.octets src.old)
        → IsErrOf result NoValue }
{
    if tag == 0 {
        return Ok(());
    }
    if tag >= masks::ARRAY {
        let kind = tag & masks::TYPE_ID;
        if !is_read_kind(kind) {
            return Err(ReadFault::NoValue);
        }
        return skip_array(alloc, src, depth, kind, tag & masks::DIMENSIONS != 0);
    }
    if tag == 24 {
        return Err(ReadFault::NoValue);
    }
    skip_scalar(alloc, src, depth, tag)
}

/// Skips an array after its first byte: its elements, and its dimensions.
#[cycle(skips)]
#[tactic(auto, unfolding(crate::specs::Decoding::variant_array_at))]
fn skip_array<S: Source>(
    alloc: Global,
    src: &mut S,
    depth: u32,
    kind: u8,
    flagged: bool,
) -> Result<(), ReadFault>
    requires levels { depth ≤ most_levels }
    requires read { read_kind kind ≡ true }
    ensures exact { Gives (skipped (variant_array_at (scalars_at depth) kind flagged)) (S.octets src.old)
        (S.octets src.new) result }
    ensures behind { StaysBehind (S.octets src.old) (S.octets src.new) }
    ensures long { IsOverlongRow kind (S.octets src.old) → IsErrOf result NoValue }
{
    let count = u32::read_value(alloc, src, 0)?;
    if count >= FIRST_NEGATIVE {
        read_no_dims(alloc, src, flagged)?;
        return Ok(());
    }
    let room = src.left() / least_octets(kind);
    if room < count as usize {
        return Err(ReadFault::NoValue);
    }
    skip_row(alloc, src, depth, kind, count)?;
    skip_dims(alloc, src, flagged, count)
}

/// Skips so many elements of the type id.
#[cycle(skips)]
fn skip_row<S: Source>(
    alloc: Global,
    src: &mut S,
    depth: u32,
    kind: u8,
    count: u32,
) -> Result<(), ReadFault>
    requires levels { depth ≤ most_levels }
    ensures exact { Gives (skipped (row_at count (scalars_at depth kind))) (S.octets src.old)
        (S.octets src.new) result }
    ensures behind { StaysBehind (S.octets src.old) (S.octets src.new) }
{
    if is_packed(kind) {
        return skip_packed(alloc, src, kind, count);
    }
    for _ in 0..count {
        skip_scalar(alloc, src, depth, kind)?;
    }
    Ok(())
}

/// Skips a value of the type id, whose inner values may have that nesting depth.
#[cycle(skips)]
#[tactic(auto, unfolding(crate::specs::Decoding::scalar_at))]
fn skip_scalar<S: Source>(alloc: Global, src: &mut S, depth: u32, kind: u8) -> Result<(), ReadFault>
    requires levels { depth ≤ most_levels }
    ensures exact { Gives (skipped (scalars_at depth kind)) (S.octets src.old) (S.octets src.new) result }
    ensures behind { StaysBehind (S.octets src.old) (S.octets src.new) }
{
    match kind {
        23 => skip_data_value(alloc, src, depth),
        24 => skip_variant(alloc, src, depth),
        25 => skip_diagnostic(alloc, src, depth),
        _ => skip_leaf(alloc, src, kind),
    }
}

/// Skips a DataValue of at most that nesting depth.
#[cycle(skips)]
fn skip_data_value<S: Source>(alloc: Global, src: &mut S, depth: u32) -> Result<(), ReadFault>
    requires levels { depth ≤ most_levels }
    ensures exact { Gives (skipped (data_value_at depth)) (S.octets src.old) (S.octets src.new) result }
    ensures behind { StaysBehind (S.octets src.old) (S.octets src.new) }
{
    let (inner, mask, set) = read_mask(alloc, src, depth)?;
    skip_held(alloc, src, inner, set)?;
    read_data_fields(alloc, src, mask)?;
    Ok(())
}

/// Skips a Variant within a DataValue, where it is announced.
#[cycle(skips)]
fn skip_held<S: Source>(alloc: Global, src: &mut S, depth: u32, set: bool) -> Result<(), ReadFault>
    requires levels { depth ≤ most_levels }
    ensures exact { Gives (skipped (optional_read set (variant_at depth))) (S.octets src.old)
        (S.octets src.new) result }
    ensures behind { StaysBehind (S.octets src.old) (S.octets src.new) }
{
    if !set {
        return Ok(());
    }
    skip_variant(alloc, src, depth)
}
