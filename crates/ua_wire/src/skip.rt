//! Values that are skipped.

ghost use Rattle.std.specs.Prelude.{◌≡◌, ◌≤◌, IfErr, IsErrOf};
ghost use Rattle.ua_wire.specs.Exact.{skipped};
ghost use Rattle.ua_wire.specs.Format.{most_levels, Gives, StaysBehind};
ghost use Rattle.ua_wire.specs.declared.fault.ReadFault.TheVariants.{NoValue};

use crate::byte_string::UaBytes;
use crate::double_bits::DoubleBits;
use crate::fault::ReadFault;
use crate::float_bits::FloatBits;
use crate::source::Source;
use crate::text::UaString;
use crate::wire::Wire;
use std::alloc::Global;

/// A type whose values can be skipped: `skip_value` consumes exactly the bytes that decoding would
/// consume, and keeps nothing of the value. A type of many values has a `skip_value` of its own,
/// which decodes one at a time.
pub trait Skip: Wire + Drop {
    /// Skips the value at the start of the source, of at most nesting depth `depth`. After an
    /// error, discard the source.
    #[inline]
    fn skip_value<S: Source>(alloc: Global, src: &mut S, depth: u32) -> Result<(), ReadFault>
        requires levels { depth ≤ most_levels }
        ensures exact { Gives (skipped (Self.format.decode depth)) (S.octets src.old) (S.octets src.new) result }
        ensures behind { StaysBehind (S.octets src.old) (S.octets src.new) }
        ensures long { Self.overlong (S.octets src.old) → IsErrOf result NoValue }
        ensures memory { Self.memoryless → IfErr result (λ e. e ≡ NoValue) }
    {
        let value = Self::read_value(alloc, src, depth)?;
        drop(value);
        Ok(())
    }
}

impl Skip for bool {}

impl Skip for u8 {}

impl Skip for u16 {}

impl Skip for u32 {}

impl Skip for u64 {}

impl Skip for i32 {}

impl Skip for i64 {}

impl Skip for FloatBits {}

impl Skip for DoubleBits {}

impl Skip for UaString {}

impl Skip for UaBytes {}

/// Two values, one after the other. The fields of a structure are skipped as nested pairs.
impl<A: Skip, B: Skip> Skip for (A, B) {
    #[inline]
    fn skip_value<S: Source>(alloc: Global, src: &mut S, depth: u32) -> Result<(), ReadFault> {
        A::skip_value(alloc, src, depth)?;
        B::skip_value(alloc, src, depth)
    }
}
