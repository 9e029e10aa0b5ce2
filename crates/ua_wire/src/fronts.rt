//! Fields at the start of a byte slice, split off without allocating.

ghost use Rattle.std.specs.Prelude.{◌≡◌, ◌≤◌, length, drop, Some, None, MatchOption, option_map};
ghost use Rattle.ua_wire.specs.Number.{number_at};
ghost use Rattle.ua_wire.specs.Counted.{counted, is_text};

use crate::counted::FIRST_NEGATIVE;
use byteorder::{ByteOrder, LittleEndian};

/// Splits off the UInt32 in the first four bytes; returns it and the remaining bytes.
#[inline]
pub fn front_number(octets: &[u8]) -> (u32, &[u8])
    requires { 4 ≤ length octets.now }
    ensures value { number_at 4 octets.now ≡ Some (result.0, result.1.now) }
    ensures rest { result.1.now ≡ drop 4 octets.now }
{
    let (front, rest) = octets.split_at(4);
    (LittleEndian::read_u32(front), rest)
}

/// Splits off a UInt32; returns it and the remaining bytes, or `None` if there are fewer than four.
#[inline]
pub fn split_number(octets: &[u8]) -> Option<(u32, &[u8])>
    ensures { MatchOption result (number_at 4 octets.now ≡ None) (λ r. number_at 4 octets.now ≡ Some (r.0, r.1.now)) }
{
    if octets.len() < 4 {
        return None;
    }
    Some(front_number(octets))
}

/// Splits off a field with its Int32 length prefix; returns its bytes, or `None` inside for a null
/// field, and the remaining bytes.
#[inline]
#[tactic(auto, unfolding(crate::specs::Counted::counted))]
pub fn split_counted(octets: &[u8]) -> Option<(Option<&[u8]>, &[u8])>
    ensures { MatchOption result (counted.decode octets.now ≡ None)
        (λ r. counted.decode octets.now ≡ Some (option_map (λ o. o.now) r.0, r.1.now)) }
{
    let (count, rest) = split_number(octets)?;
    if count >= FIRST_NEGATIVE {
        return Some((None, rest));
    }
    if rest.len() < count as usize {
        return None;
    }
    let (field, rest) = rest.split_at(count as usize);
    Some((Some(field), rest))
}

/// Whether a field is null or valid UTF-8.
#[inline]
pub fn is_text(field: Option<&[u8]>) -> bool
    ensures { result ≡ is_text (option_map (λ o. o.now) field.entry) }
{
    match field {
        None => true,
        Some(text) => simdutf8::is_utf8(text),
    }
}
