//! Bytes and texts with their length prefix.

ghost use Rattle.std.specs.Prelude.{◌≡◌, ◌<◌, length, true, false, string_bytes};
ghost use Rattle.std.specs.Prelude.{Some, None, IsErrOf, MatchOption, MatchResult};
ghost use Rattle.std.specs.Str.{is_utf8};
ghost use Rattle.ua_wire.specs.Format.{GivesBy, StaysBehind};
ghost use Rattle.ua_wire.specs.Counted.{octets_at};
ghost use Rattle.ua_wire.specs.declared.fault.ReadFault.TheVariants.{NoValue};

use crate::fault::ReadFault;
use crate::source::Source;
use std::alloc::Global;

/// The length prefix of a null value: -1 as an Int32.
pub const NULL_COUNT: u32 = u32::MAX;

/// The least length prefix that is negative as an Int32. A negative length means null.
pub const FIRST_NEGATIVE: u32 = 1 << 31;

/// Reads as many bytes as the buffer has into it.
#[inline]
pub fn fill_octets<S: Source>(src: &mut S, octets: &mut [u8]) -> Result<(), ReadFault>
    ensures exact { MatchResult result (λ _. octets_at (length octets.old) (S.octets src.old)
        ≡ Some (octets.new, S.octets src.new))
        (λ e. (e ≡ NoValue) × (octets_at (length octets.old) (S.octets src.old) ≡ None)) }
    ensures behind { StaysBehind (S.octets src.old) (S.octets src.new) }
{
    if !src.take_into(octets) {
        return Err(ReadFault::NoValue);
    }
    Ok(())
}

/// Reads that many bytes; allocates nothing if fewer are left.
#[inline]
pub(crate) fn take_octets<S: Source>(
    alloc: Global,
    src: &mut S,
    count: usize,
) -> Result<Vec<u8>, ReadFault>
    ensures exact { GivesBy (λ v. v.items) (octets_at count) (S.octets src.old) (S.octets src.new) result }
    ensures behind { StaysBehind (S.octets src.old) (S.octets src.new) }
    ensures long { length (S.octets src.old) < count → IsErrOf result NoValue }
{
    if src.left() < count {
        return Err(ReadFault::NoValue);
    }
    let mut octets = vec![in alloc; 0; count]?;
    fill_octets(src, octets.as_mut_slice())?;
    Ok(octets)
}

/// The text whose UTF-8 bytes these are.
#[inline]
pub fn text_of(octets: Vec<u8>) -> Option<String>
    ensures { MatchOption result (is_utf8 octets.items ≡ false)
        (λ t. (is_utf8 octets.items ≡ true) × (string_bytes t ≡ octets.items)) }
{
    if !simdutf8::is_utf8(&octets) {
        return None;
    }
    // The bytes are UTF-8 by the test above, so no second scan is made.
    Some(unsafe { String::from_utf8_unchecked(octets) })
}
