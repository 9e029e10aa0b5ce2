//! Fields at the start of a byte sequence, split off without an allocation.

ghost use Rattle.std.specs.Prelude.{◌≡◌, Some, None, MatchOption};
ghost use Rattle.ua_chunk.specs.Layout.{sequence_header};

use ua_wire::split_number;

/// A SequenceNumber and a RequestId, and the bytes after them.
#[inline]
pub(crate) fn split_sequence(octets: &[u8]) -> Option<(u32, u32, &[u8])>
    ensures { MatchOption result (sequence_header.decode octets.now ≡ None)
        (λ r. sequence_header.decode octets.now ≡ Some ((r.0, r.1), r.2.now)) }
{
    let (sequence, rest) = split_number(octets)?;
    let (request, rest) = split_number(rest)?;
    Some((sequence, request, rest))
}
