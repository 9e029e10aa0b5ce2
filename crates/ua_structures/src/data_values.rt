//! Arrays of DataValues, each decoded in its place.

ghost use Rattle.std.specs.Prelude.{◌≡◌, ◌≤◌, IsErrOf};
ghost use Rattle.ua_builtin.specs.Counted.{IsOverlong};
ghost use Rattle.ua_builtin.specs.Format.{most_levels, Gives, GivesBy, StaysBehind};
ghost use Rattle.ua_wire.specs.declared.fault.ReadFault.TheVariants.{NoValue};
ghost use Rattle.ua_opening.specs.Array.{array, items_at};
ghost use Rattle.ua_variant.specs.Formats.{data_value_format};

use std::alloc::Global;
use ua_builtin::{FIRST_NEGATIVE, ReadFault, Source, Wire};
use ua_opening::UaArray;
use ua_variant::DataValue;

/// Reads that many DataValues. Memory grows by what was read, never by what a count claims.
fn read_each<S: Source>(
    alloc: Global,
    src: &mut S,
    depth: u32,
    count: u32,
) -> Result<Vec<DataValue>, ReadFault>
    requires levels { depth ≤ most_levels }
    ensures exact { GivesBy (λ v. v.items) (items_at (data_value_format.decode depth) count) (S.octets src.old)
        (S.octets src.new) result }
    ensures behind { StaysBehind (S.octets src.old) (S.octets src.new) }
{
    let mut items = Vec::new(alloc);
    for _ in 0..count {
        DataValue::read_onto(alloc, src, depth, &mut items)?;
    }
    Ok(items)
}

/// Decodes the array of DataValues at the start of the source, each of at most nesting depth
/// `depth`, and consumes exactly its bytes, as [`UaArray`] of them does. Values returned one by one
/// would be moved at each step, which costs as much as decoding them.
///
/// The error is `NoValue` if no such array is at the start of the source, also if its count exceeds
/// the number of bytes after it, and `OutOfMemory` if an allocation fails. After an error, discard
/// the source.
#[tactic(auto, unfolding(ua_opening::specs::Array::array))]
pub fn read_data_values<S: Source>(
    alloc: Global,
    src: &mut S,
    depth: u32,
) -> Result<UaArray<DataValue>, ReadFault>
    requires levels { depth ≤ most_levels }
    ensures exact { Gives ((array data_value_format).decode depth) (S.octets src.old) (S.octets src.new) result }
    ensures long { IsOverlong (S.octets src.old) → IsErrOf result NoValue }
    ensures behind { StaysBehind (S.octets src.old) (S.octets src.new) }
{
    DataValue::lawful();
    let count = u32::read_value(alloc, src, depth)?;
    if count >= FIRST_NEGATIVE {
        return Ok(UaArray::null());
    }
    // No encoding is empty: each value needs a byte at least.
    if src.left() < count as usize {
        return Err(ReadFault::NoValue);
    }
    let items = read_each(alloc, src, depth, count)?;
    Ok(UaArray::new(Some(items)))
}
