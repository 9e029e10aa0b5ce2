//! Reads DataValues to the end of a vector. One that is handed over by value is moved at each step,
//! so a number is put into its DataValue, and that into its place, where it was read.

ghost use Rattle.std.specs.Prelude.{◌≡◌, ◌≤◌, ◌<◌, ◌++◌, ◌∷◌, [], OnErr};
ghost use Rattle.std.specs.Vec.{vec_len, vec_capacity};
ghost use Rattle.ua_builtin.specs.Exact.{image_read};
ghost use Rattle.ua_builtin.specs.Format.{most_levels, GivesBy, StaysBehind};
ghost use Rattle.ua_variant.specs.Decoding.{variant_at, variant_after, scalars_at};
ghost use Rattle.ua_variant.specs.Formats.{data_value_format};
ghost use Rattle.ua_variant.specs.Onto.{with_last, announced_at, valued_at, leaf_valued_at};

use crate::fields::read_data_fields;
use crate::leaf::{HeldLeaf, read_leaf_as};
use crate::read::{give_up, read_mask, read_tag, read_tagged};
use crate::values::{DataValue, HeldVariant, Variant};
use std::alloc::Global;
use ua_builtin::{DoubleBits, FloatBits, ReadFault, Source};

impl DataValue {
    /// Decodes the DataValue at the start of the source, of at most nesting depth `depth`, and
    /// pushes it to the vector. After an error, discard the source.
    #[tactic(auto, unfolding(crate::specs::Formats::data_value_format))]
    pub fn read_onto<S: Source>(
        alloc: Global,
        src: &mut S,
        depth: u32,
        items: &mut Vec<DataValue>,
    ) -> Result<(), ReadFault>
        requires levels { depth ≤ most_levels }
        ensures exact { GivesBy (λ _. items.new.items)
            (image_read (λ d. items.old.items ++ d ∷ []) (data_value_format.decode depth)) (S.octets src.old)
            (S.octets src.new) result }
        ensures kept { OnErr result (items.new.items ≡ items.old.items) }
        ensures behind { StaysBehind (S.octets src.old) (S.octets src.new) }
    {
        let (inner, mask, set) = read_mask(alloc, src, depth)?;
        items.reserve(1)?;
        push_announced(alloc, src, inner, mask, set, items)
    }
}

/// Reads a DataValue after its mask, with a value where it is announced.
#[inline(always)]
fn push_announced<S: Source>(
    alloc: Global,
    src: &mut S,
    depth: u32,
    mask: u8,
    set: bool,
    items: &mut Vec<DataValue>,
) -> Result<(), ReadFault>
    requires levels { depth ≤ most_levels }
    requires room { vec_len items.old < vec_capacity items.old }
    ensures exact { GivesBy (λ _. items.new.items)
        (image_read (with_last items.old.items) (announced_at mask set (variant_at depth))) (S.octets src.old)
        (S.octets src.new) result }
    ensures kept { OnErr result (items.new.items ≡ items.old.items) }
    ensures behind { StaysBehind (S.octets src.old) (S.octets src.new) }
{
    if !set {
        read_data_fields(alloc, src, mask)?.push(None, items);
        return Ok(());
    }
    push_valued(alloc, src, depth, mask, items)
}

/// Reads a DataValue with a value after its mask.
#[inline(always)]
fn push_valued<S: Source>(
    alloc: Global,
    src: &mut S,
    depth: u32,
    mask: u8,
    items: &mut Vec<DataValue>,
) -> Result<(), ReadFault>
    requires levels { depth ≤ most_levels }
    requires room { vec_len items.old < vec_capacity items.old }
    ensures exact { GivesBy (λ _. items.new.items)
        (image_read (with_last items.old.items) (valued_at mask (variant_at depth))) (S.octets src.old)
        (S.octets src.new) result }
    ensures kept { OnErr result (items.new.items ≡ items.old.items) }
    ensures behind { StaysBehind (S.octets src.old) (S.octets src.new) }
{
    let (inner, tag) = read_tag(alloc, src, depth)?;
    if 1 <= tag && tag <= 11 {
        return push_number(alloc, src, mask, tag, items);
    }
    push_other(alloc, src, inner, mask, tag, items)
}

/// Reads a DataValue of any value after the first byte of the value.
#[inline(never)]
fn push_other<S: Source>(
    alloc: Global,
    src: &mut S,
    depth: u32,
    mask: u8,
    tag: u8,
    items: &mut Vec<DataValue>,
) -> Result<(), ReadFault>
    requires levels { depth ≤ most_levels }
    requires room { vec_len items.old < vec_capacity items.old }
    ensures exact { GivesBy (λ _. items.new.items)
        (image_read (with_last items.old.items) (valued_at mask (variant_after (scalars_at depth) tag)))
        (S.octets src.old) (S.octets src.new) result }
    ensures kept { OnErr result (items.new.items ≡ items.old.items) }
    ensures behind { StaysBehind (S.octets src.old) (S.octets src.new) }
{
    let value = Some(HeldVariant::new(read_tagged(alloc, src, depth, tag)?));
    match read_data_fields(alloc, src, mask) {
        Ok(fields) => {
            fields.push(value, items);
            Ok(())
        }
        Err(fault) => {
            give_up(value);
            Err(fault)
        }
    }
}

/// Reads a DataValue of a Boolean, a whole number, a Float or a Double.
#[inline(always)]
fn push_number<S: Source>(
    alloc: Global,
    src: &mut S,
    mask: u8,
    kind: u8,
    items: &mut Vec<DataValue>,
) -> Result<(), ReadFault>
    requires low { 1 ≤ kind }
    requires high { kind ≤ 11 }
    requires room { vec_len items.old < vec_capacity items.old }
    ensures exact { GivesBy (λ _. items.new.items) (image_read (with_last items.old.items) (leaf_valued_at mask kind))
        (S.octets src.old) (S.octets src.new) result }
    ensures kept { OnErr result (items.new.items ≡ items.old.items) }
    ensures behind { StaysBehind (S.octets src.old) (S.octets src.new) }
{
    match kind {
        1 => push_leaf::<bool, S>(alloc, src, mask, items),
        2 => push_leaf::<i8, S>(alloc, src, mask, items),
        3 => push_leaf::<u8, S>(alloc, src, mask, items),
        4 => push_leaf::<i16, S>(alloc, src, mask, items),
        5 => push_leaf::<u16, S>(alloc, src, mask, items),
        6 => push_leaf::<i32, S>(alloc, src, mask, items),
        7 => push_leaf::<u32, S>(alloc, src, mask, items),
        8 => push_leaf::<i64, S>(alloc, src, mask, items),
        9 => push_leaf::<u64, S>(alloc, src, mask, items),
        10 => push_leaf::<FloatBits, S>(alloc, src, mask, items),
        _ => push_leaf::<DoubleBits, S>(alloc, src, mask, items),
    }
}

/// Reads a DataValue of a scalar of the type id of a type.
#[inline(never)]
fn push_leaf<T: HeldLeaf + Drop, S: Source>(
    alloc: Global,
    src: &mut S,
    mask: u8,
    items: &mut Vec<DataValue>,
) -> Result<(), ReadFault>
    requires room { vec_len items.old < vec_capacity items.old }
    ensures exact { GivesBy (λ _. items.new.items) (image_read (with_last items.old.items) (leaf_valued_at mask T.kind))
        (S.octets src.old) (S.octets src.new) result }
    ensures kept { OnErr result (items.new.items ≡ items.old.items) }
    ensures behind { StaysBehind (S.octets src.old) (S.octets src.new) }
{
    let leaf = read_leaf_as::<T, S>(alloc, src)?;
    let fields = read_data_fields(alloc, src, mask)?;
    let value = Variant::One(leaf.into_scalar());
    fields.push(Some(HeldVariant::new(value)), items);
    Ok(())
}
