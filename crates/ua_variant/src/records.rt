//! Decoding of scalars without further values inside, and of arrays of texts, bytes, ids and objects
//! as scalars, one loop for each type.

ghost use Rattle.std.specs.Prelude.{◌≡◌, ◌≤◌, ◌<◌, map, false, OnOk};
ghost use Rattle.std.specs.Vec.{vec_len, vec_capacity};
ghost use Rattle.ua_builtin.specs.Exact.{image_read};
ghost use Rattle.ua_builtin.specs.Format.{most_levels, GivesBy, StaysBehind};
ghost use Rattle.ua_variant.specs.Blocks.{leaf_row_at};
ghost use Rattle.ua_variant.specs.Data.{leaf};
ghost use Rattle.ua_variant.specs.Decoding.{row_at, scalar_at, scalars_at};
ghost use Rattle.ua_variant.specs.Leaf.{holds_values, leaf_at};
ghost use Rattle.ua_variant.specs.View.{row, scalar_of};

use crate::leaf::{BoxedLeaf, HeldLeaf, read_as, read_boxed_as};
use crate::values::{Scalar, Scalars};
use std::alloc::{AllocError, Global};
use ua_builtin::{
    DateTime, DoubleBits, ExpandedNodeId, ExtensionObject, FloatBits, Guid, LocalizedText, NodeId,
    QualifiedName, ReadFault, Source, StatusCode, UaBytes, UaString, Wire, XmlElement,
};
use ua_diagnostic::{BoxedDiagnostic, read_diagnostic};

/// Capacity for this many elements is reserved at once; a longer array grows with the elements that
/// were decoded, so that nested arrays with false counts reserve this many elements for each level
/// of nesting, and no more than a multiple of the bytes that were read.
pub const MOST_RESERVED: usize = 64;

/// Up to so many elements a vector that is full grows to twice its elements.
const MOST_DOUBLED: usize = 4096;

/// Reserves capacity for the next of `count` elements. A full vector grows by as many elements as
/// it has, a large one by an eighth of them, and by no more than are still to be decoded.
#[inline]
pub fn make_room(items: &mut Vec<Scalar>, count: u32) -> Result<(), AllocError>
    ensures items { items.new.items ≡ items.old.items }
    ensures len { vec_len items.new ≡ vec_len items.old }
    ensures room { OnOk result (vec_len items.new < vec_capacity items.new) }
{
    if items.len() == items.capacity() {
        grow(items, count as usize)?;
    }
    Ok(())
}

/// Makes room for more of `count` elements in a vector that is full.
#[inline(never)]
fn grow(items: &mut Vec<Scalar>, count: usize) -> Result<(), AllocError>
    ensures items { items.new.items ≡ items.old.items }
    ensures len { vec_len items.new ≡ vec_len items.old }
    ensures room { OnOk result (vec_len items.new < vec_capacity items.new) }
{
    let len = items.len();
    let step = if len > MOST_DOUBLED { len / 8 } else { len };
    items.reserve_exact(step.min(count.saturating_sub(len)).max(1))?;
    Ok(())
}

/// Decodes a scalar without further values inside.
#[inline(always)]
pub(crate) fn read_leaf<S: Source>(
    alloc: Global,
    src: &mut S,
    kind: u8,
) -> Result<Scalar, ReadFault>
    ensures exact { GivesBy scalar_of (image_read leaf (leaf_at kind)) (S.octets src.old) (S.octets src.new) result }
    ensures behind { StaysBehind (S.octets src.old) (S.octets src.new) }
{
    match kind {
        1..=11 => read_number(alloc, src, kind),
        12..=22 => read_record(alloc, src, kind),
        26..=31 => read_reserved(alloc, src, kind),
        _ => Err(ReadFault::NoValue),
    }
}

/// Reads a Boolean, a whole number, a Float or a Double.
#[inline(always)]
fn read_number<S: Source>(alloc: Global, src: &mut S, kind: u8) -> Result<Scalar, ReadFault>
    requires low { 1 ≤ kind }
    requires high { kind ≤ 11 }
    ensures exact { GivesBy scalar_of (image_read leaf (leaf_at kind)) (S.octets src.old) (S.octets src.new) result }
    ensures behind { StaysBehind (S.octets src.old) (S.octets src.new) }
{
    match kind {
        1 => read_as::<bool, S>(alloc, src),
        2 => read_as::<i8, S>(alloc, src),
        3 => read_as::<u8, S>(alloc, src),
        4 => read_as::<i16, S>(alloc, src),
        5 => read_as::<u16, S>(alloc, src),
        6 => read_as::<i32, S>(alloc, src),
        7 => read_as::<u32, S>(alloc, src),
        8 => read_as::<i64, S>(alloc, src),
        9 => read_as::<u64, S>(alloc, src),
        10 => read_as::<FloatBits, S>(alloc, src),
        _ => read_as::<DoubleBits, S>(alloc, src),
    }
}

/// Reads a scalar of a type id from String's to ExtensionObject's.
fn read_record<S: Source>(alloc: Global, src: &mut S, kind: u8) -> Result<Scalar, ReadFault>
    requires low { 12 ≤ kind }
    requires high { kind ≤ 22 }
    ensures exact { GivesBy scalar_of (image_read leaf (leaf_at kind)) (S.octets src.old) (S.octets src.new) result }
    ensures behind { StaysBehind (S.octets src.old) (S.octets src.new) }
{
    match kind {
        12 => read_as::<UaString, S>(alloc, src),
        13 => read_as::<DateTime, S>(alloc, src),
        14 => read_as::<Guid, S>(alloc, src),
        15 => read_as::<UaBytes, S>(alloc, src),
        16 => read_as::<XmlElement, S>(alloc, src),
        17 => read_as::<NodeId, S>(alloc, src),
        18 => read_boxed_as::<ExpandedNodeId, S>(alloc, src),
        19 => read_as::<StatusCode, S>(alloc, src),
        20 => read_as::<QualifiedName, S>(alloc, src),
        21 => read_boxed_as::<LocalizedText, S>(alloc, src),
        _ => read_boxed_as::<ExtensionObject, S>(alloc, src),
    }
}

/// Decodes so many scalars of a type id from String's to ExtensionObject's, or of a reserved one.
pub(crate) fn read_records<S: Source>(
    alloc: Global,
    src: &mut S,
    kind: u8,
    count: u32,
) -> Result<Vec<Scalar>, ReadFault>
    requires low { 12 ≤ kind }
    requires high { kind ≤ 31 }
    requires leaf { holds_values kind ≡ false }
    ensures exact { GivesBy (λ v. row (map scalar_of v.items)) (leaf_row_at count kind) (S.octets src.old)
        (S.octets src.new) result }
    ensures behind { StaysBehind (S.octets src.old) (S.octets src.new) }
{
    match kind {
        12 => read_held_row::<UaString, S>(alloc, src, count),
        13 => read_held_row::<DateTime, S>(alloc, src, count),
        14 => read_held_row::<Guid, S>(alloc, src, count),
        15 => read_held_row::<UaBytes, S>(alloc, src, count),
        16 => read_held_row::<XmlElement, S>(alloc, src, count),
        17 => read_held_row::<NodeId, S>(alloc, src, count),
        18 => read_boxed_row::<ExpandedNodeId, S>(alloc, src, count),
        19 => read_held_row::<StatusCode, S>(alloc, src, count),
        20 => read_held_row::<QualifiedName, S>(alloc, src, count),
        21 => read_boxed_row::<LocalizedText, S>(alloc, src, count),
        22 => read_boxed_row::<ExtensionObject, S>(alloc, src, count),
        _ => read_reserved_row(alloc, src, kind, count),
    }
}

/// Reads so many scalars of the type id of a type, which holds its values in their place.
fn read_held_row<T: HeldLeaf, S: Source>(
    alloc: Global,
    src: &mut S,
    count: u32,
) -> Result<Vec<Scalar>, ReadFault>
    ensures exact { GivesBy (λ v. row (map scalar_of v.items)) (leaf_row_at count T.kind) (S.octets src.old)
        (S.octets src.new) result }
    ensures behind { StaysBehind (S.octets src.old) (S.octets src.new) }
{
    let mut items = Vec::with_capacity(alloc, (count as usize).min(MOST_RESERVED))?;
    for _ in 0..count {
        make_room(&mut items, count)?;
        let item = read_as::<T, S>(alloc, src)?;
        items.push_reserved(item);
    }
    Ok(items)
}

/// Reads so many scalars of the type id of a type, which holds its values on the heap.
fn read_boxed_row<T: BoxedLeaf, S: Source>(
    alloc: Global,
    src: &mut S,
    count: u32,
) -> Result<Vec<Scalar>, ReadFault>
    ensures exact { GivesBy (λ v. row (map scalar_of v.items)) (leaf_row_at count T.kind) (S.octets src.old)
        (S.octets src.new) result }
    ensures behind { StaysBehind (S.octets src.old) (S.octets src.new) }
{
    let mut items = Vec::with_capacity(alloc, (count as usize).min(MOST_RESERVED))?;
    for _ in 0..count {
        make_room(&mut items, count)?;
        let item = read_boxed_as::<T, S>(alloc, src)?;
        items.push_reserved(item);
    }
    Ok(items)
}

/// Reads so many scalars of a reserved type id.
fn read_reserved_row<S: Source>(
    alloc: Global,
    src: &mut S,
    kind: u8,
    count: u32,
) -> Result<Vec<Scalar>, ReadFault>
    requires low { 26 ≤ kind }
    requires high { kind ≤ 31 }
    ensures exact { GivesBy (λ v. row (map scalar_of v.items)) (leaf_row_at count kind) (S.octets src.old)
        (S.octets src.new) result }
    ensures behind { StaysBehind (S.octets src.old) (S.octets src.new) }
{
    let mut items = Vec::with_capacity(alloc, (count as usize).min(MOST_RESERVED))?;
    for _ in 0..count {
        make_room(&mut items, count)?;
        let item = read_reserved(alloc, src, kind)?;
        items.push_reserved(item);
    }
    Ok(items)
}

/// Decodes the bytes of a reserved type id.
#[tactic(auto, using(crate::proofs::Leaves::reserved_reads))]
pub(crate) fn read_reserved<S: Source>(
    alloc: Global,
    src: &mut S,
    kind: u8,
) -> Result<Scalar, ReadFault>
    requires low { 26 ≤ kind }
    requires high { kind ≤ 31 }
    ensures exact { GivesBy scalar_of (image_read leaf (leaf_at kind)) (S.octets src.old) (S.octets src.new) result }
    ensures behind { StaysBehind (S.octets src.old) (S.octets src.new) }
{
    let octets = UaBytes::read_value(alloc, src, 0)?;
    Ok(Scalar::Reserved(kind, octets))
}

/// Decodes so many DiagnosticInfos as scalars, whose inner ones may have this nesting depth.
pub(crate) fn read_diagnostic_row<S: Source>(
    alloc: Global,
    src: &mut S,
    depth: u32,
    count: u32,
) -> Result<Scalars, ReadFault>
    requires levels { depth ≤ most_levels }
    ensures exact { GivesBy (λ ss. row ss) (row_at count (scalars_at depth 25)) (S.octets src.old)
        (S.octets src.new) result }
    ensures behind { StaysBehind (S.octets src.old) (S.octets src.new) }
{
    let mut items = Vec::with_capacity(alloc, (count as usize).min(MOST_RESERVED))?;
    for _ in 0..count {
        make_room(&mut items, count)?;
        let item = read_boxed_diagnostic(alloc, src, depth)?;
        items.push_reserved(item);
    }
    Ok(Scalars::new(items))
}

/// Decodes a DiagnosticInfo as a scalar, whose inner one may have this nesting depth.
#[tactic(auto, unfolding(crate::specs::Decoding::scalar_at))]
pub(crate) fn read_boxed_diagnostic<S: Source>(
    alloc: Global,
    src: &mut S,
    depth: u32,
) -> Result<Scalar, ReadFault>
    requires levels { depth ≤ most_levels }
    ensures exact { GivesBy scalar_of (scalars_at depth 25) (S.octets src.old) (S.octets src.new) result }
    ensures behind { StaysBehind (S.octets src.old) (S.octets src.new) }
{
    let value = read_diagnostic(alloc, src, depth)?;
    Ok(Scalar::DiagnosticInfo(BoxedDiagnostic::new(alloc, value)?))
}
