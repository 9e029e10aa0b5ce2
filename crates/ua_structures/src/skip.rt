//! Skips the fields of structures, and values of types that have no [`Skip`](ua_builtin::Skip) of
//! their own.

ghost use Rattle.std.specs.Prelude.{◌≡◌, ◌≤◌};
ghost use Rattle.ua_builtin.specs.Exact.{skipped};
ghost use Rattle.ua_builtin.specs.Format.{flat, most_levels, Gives, StaysBehind};
ghost use Rattle.ua_builtin.specs.Status.{status_code};
ghost use Rattle.ua_opening.specs.Array.{array};

use std::alloc::Global;
use ua_builtin::{ReadFault, Skip, Source, Wire};
use ua_opening::UaArray;

/// Skips the value at the start of the source, of at most nesting depth `depth`: it is decoded and
/// dropped. After an error, discard the source.
pub(crate) fn skip_one<T: Wire + Drop, S: Source>(
    alloc: Global,
    src: &mut S,
    depth: u32,
) -> Result<(), ReadFault>
    requires levels { depth ≤ most_levels }
    ensures exact { Gives (skipped (T.format.decode depth)) (S.octets src.old) (S.octets src.new) result }
    ensures behind { StaysBehind (S.octets src.old) (S.octets src.new) }
{
    let value = T::read_value(alloc, src, depth)?;
    drop(value);
    Ok(())
}

/// Skips the array of StatusCodes at the start of the source: each is a UInt32 (OPC 10000-6,
/// 5.2.2.11). After an error, discard the source.
#[tactic(auto, using(crate::proofs::CodesSkipped::codes_skipped))]
pub(crate) fn skip_status_codes<S: Source>(
    alloc: Global,
    src: &mut S,
    depth: u32,
) -> Result<(), ReadFault>
    requires levels { depth ≤ most_levels }
    ensures exact { Gives (skipped ((array (flat status_code)).decode depth)) (S.octets src.old)
        (S.octets src.new) result }
    ensures behind { StaysBehind (S.octets src.old) (S.octets src.new) }
{
    UaArray::<u32>::skip_value(alloc, src, depth)
}

/// Fields of a structure that stand one after the other, as nested pairs with the last one in
/// [`Last`]: those of a Read after its header are `(DoubleBits, (i32, Last<UaArray<ReadValueId>>))`.
// The values have no bounds: each would be looked up anew at each pair within others.
pub(crate) trait SkippedFields {
    ghost use Rattle.ua_builtin.specs.Format.{Format};

    /// The values of the fields.
    type Values;

    /// How they are encoded, one after the other.
    ghost format: { Format Self.Values };

    /// Skips the fields at the start of the source, of at most nesting depth `depth`. After an
    /// error, discard the source.
    fn skip_fields<S: Source>(alloc: Global, src: &mut S, depth: u32) -> Result<(), ReadFault>
        requires levels { depth ≤ most_levels }
        ensures exact { Gives (skipped (format.decode depth)) (S.octets src.old) (S.octets src.new) result }
        ensures behind { StaysBehind (S.octets src.old) (S.octets src.new) };
}

/// The last field of a structure.
pub(crate) struct Last<T>(T);

impl<T: Skip> SkippedFields for Last<T> {
    type Values = T;

    ghost format = { T.format };

    #[inline]
    fn skip_fields<S: Source>(alloc: Global, src: &mut S, depth: u32) -> Result<(), ReadFault> {
        T::skip_value(alloc, src, depth)
    }
}

impl<A: Skip, B: SkippedFields> SkippedFields for (A, B) {
    ghost use Rattle.ua_builtin.specs.Join.{pair};

    type Values = (A, B::Values);

    ghost format = { pair A.format B.format };

    #[inline]
    fn skip_fields<S: Source>(alloc: Global, src: &mut S, depth: u32) -> Result<(), ReadFault> {
        A::skip_value(alloc, src, depth)?;
        B::skip_fields(alloc, src, depth)
    }
}
