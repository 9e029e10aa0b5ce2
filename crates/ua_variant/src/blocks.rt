//! Decoding of packed arrays, a block of bytes at a time.

ghost use Rattle.std.specs.Prelude.{◌≡◌, ◌≤◌, ◌*◌, ◌+◌, ℕ, length, map, true};
ghost use Rattle.ua_builtin.specs.Exact.{image_read};
ghost use Rattle.ua_builtin.specs.Format.{GivesBy, StaysBehind};
ghost use Rattle.ua_variant.specs.Blocks.{GoesOn, row_behind};
ghost use Rattle.ua_variant.specs.Data.{leaf};
ghost use Rattle.ua_variant.specs.Decoding.{row_at};
ghost use Rattle.ua_variant.specs.Leaf.{leaf_at};
ghost use Rattle.ua_variant.specs.Least.{least_octets as least_of};
ghost use Rattle.ua_variant.specs.Packed.{is_packed_kind, packed_leaves};
ghost use Rattle.ua_variant.specs.View.{row};

use crate::fixed_width::{BLOCK, FixedWidth, push_values};
use crate::packed::{Pack, Packed};
use std::alloc::Global;
use ua_builtin::{DateTime, DoubleBits, FloatBits, Guid, ReadFault, Source, StatusCode};

/// Whether arrays of the type id are packed.
#[inline]
pub(crate) fn is_packed(kind: u8) -> bool
    ensures { result ≡ is_packed_kind kind }
{
    (1 <= kind && kind <= 11) || (13 <= kind && kind <= 14) || kind == 19
}

/// Decodes so many elements of a type id whose arrays are packed.
pub(crate) fn read_packed<S: Source>(
    alloc: Global,
    src: &mut S,
    kind: u8,
    count: u32,
) -> Result<Packed, ReadFault>
    requires { is_packed_kind kind ≡ true }
    ensures exact { GivesBy (λ p. row (map leaf (packed_leaves p))) (row_at count (image_read leaf (leaf_at kind)))
        (S.octets src.old) (S.octets src.new) result }
    ensures behind { StaysBehind (S.octets src.old) (S.octets src.new) }
{
    match kind {
        1 => read_items::<bool, S>(alloc, src, kind, count),
        2 => read_items::<i8, S>(alloc, src, kind, count),
        3 => read_items::<u8, S>(alloc, src, kind, count),
        4 => read_items::<i16, S>(alloc, src, kind, count),
        5 => read_items::<u16, S>(alloc, src, kind, count),
        6 => read_items::<i32, S>(alloc, src, kind, count),
        7 => read_items::<u32, S>(alloc, src, kind, count),
        8 => read_items::<i64, S>(alloc, src, kind, count),
        9 => read_items::<u64, S>(alloc, src, kind, count),
        10 => read_items::<FloatBits, S>(alloc, src, kind, count),
        11 => read_items::<DoubleBits, S>(alloc, src, kind, count),
        13 => read_items::<DateTime, S>(alloc, src, kind, count),
        14 => read_items::<Guid, S>(alloc, src, kind, count),
        _ => read_items::<StatusCode, S>(alloc, src, kind, count),
    }
}

/// Reads so many elements of a type, whose type id is the one given, into exactly the room for
/// them.
fn read_items<T: FixedWidth, S: Source>(
    alloc: Global,
    src: &mut S,
    kind: u8,
    count: u32,
) -> Result<Packed, ReadFault>
    requires own { kind ≡ T.kind }
    requires packed { is_packed_kind kind ≡ true }
    ensures exact { GivesBy (λ p. row (map leaf (packed_leaves p))) (row_at count (image_read leaf (leaf_at kind)))
        (S.octets src.old) (S.octets src.new) result }
    ensures behind { StaysBehind (S.octets src.old) (S.octets src.new) }
{
    let width = T::width();
    let most = BLOCK / width;
    let count = count as usize;
    let mut block = [0; BLOCK];
    let mut items = Vec::with_capacity(alloc, count)?;
    let mut done = 0;
    while done < count {
        let n = (count - done).min(most);
        let part = &mut block[..n * width];
        read_part(src, part, n, &mut items)?;
        done += n;
    }
    Ok(T::pack(items))
}

/// Takes as many bytes as a block has, which are so many values, and puts these after the elements
/// that there are. The block is filled only where the source has the bytes in several places.
#[inline]
fn read_part<T: FixedWidth, S: Source>(
    src: &mut S,
    block: &mut [u8],
    count: usize,
    items: &mut Vec<T>,
) -> Result<(), ReadFault>
    requires packed { is_packed_kind T.kind ≡ true }
    requires whole { length block.old ≡ count * least_of T.kind }
    requires few { count ≤ 1024 }
    ensures exact { (more : ℕ) → GoesOn
        (row_behind (map leaf (map T.as_leaf items.old.items)) (count + more) (image_read leaf (leaf_at T.kind))
        (S.octets src.old))
        (row_behind (map leaf (map T.as_leaf items.new.items)) more (image_read leaf (leaf_at T.kind))
        (S.octets src.new)) result }
    ensures behind { StaysBehind (S.octets src.old) (S.octets src.new) }
{
    let run = src.front();
    if block.len() <= run.len() {
        push_values(&run[..block.len()], count, items)?;
        src.skip(block.len());
        return Ok(());
    }
    if !src.take_into(block) {
        return Err(ReadFault::NoValue);
    }
    push_values(block, count, items)?;
    Ok(())
}
