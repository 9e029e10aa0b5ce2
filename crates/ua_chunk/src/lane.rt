//! The direction of a SecureChannel in which chunks go.

ghost use Rattle.std.specs.Prelude.{◌≡◌, ◌<◌, ℕ, List, length};
ghost use Rattle.ua_chunk.specs.Cutting.{least, limit_of, pieces};
ghost use Rattle.ua_chunk.specs.Refusal.{passes};

use crate::fault::CutFault;

/// One direction of a SecureChannel, with the limits of the messages that are sent there.
#[derive(Clone, Copy, PartialEq, Eq, Debug)]
pub struct Lane {
    /// The SecureChannelId.
    pub channel: u32,
    /// The TokenId.
    pub token: u32,
    /// The maximum size of a chunk's body, in bytes.
    pub room: u32,
    /// The maximum size of a message body in bytes; 0 means no limit.
    pub octets: u32,
    /// The maximum number of chunks of a message body; 0 means no limit.
    pub chunks: u32,
}

impl Lane {
    ghost use Rattle.std.specs.Prelude.{◌≡◌, ◌<◌, ◌↔◌, ℕ, List, None, length};
    ghost use Rattle.ua_chunk.specs.Cutting.{cut_refusal, most_octets, IsAtMost};

    /// Why a body of `len` bytes is not split into chunks here: the first reason that applies, and
    /// never `OutOfMemory`.
    #[inline]
    pub fn refusal(&self, len: usize) -> Option<CutFault>
        requires { 0 < self.now.room }
        ensures { (body : List ℕ) → length body ≡ len → result ≡ cut_refusal self.now body }
    {
        if self.octets != 0 && len > self.octets as usize {
            return Some(CutFault::TooManyOctets);
        }
        if has_more_pieces(self.chunks, self.room, len) {
            return Some(CutFault::TooManyChunks);
        }
        None
    }

    /// The maximum size, in bytes, of a body that can be split into chunks here; `None` where there
    /// is no limit. The maximum number of chunks counts as a limit of bytes, too, by the maximum
    /// size of their bodies.
    pub fn most_octets(&self) -> Option<usize>
        ensures most { result ≡ most_octets self.now }
        // A body can be split exactly where it has at most so many bytes.
        ensures cut { (body : List ℕ) → 0 < self.now.room
            → (cut_refusal self.now body ≡ None) ↔ IsAtMost (length body) result }
    {
        let octets = limit_of(self.octets, 1);
        let chunks = limit_of(self.chunks, self.room);
        least(octets, chunks)
    }
}

/// Whether a body of `len` bytes needs more fragments of `room` bytes than a limit; 0 means no
/// limit.
fn has_more_pieces(limit: u32, room: u32, len: usize) -> bool
    requires { 0 < room }
    ensures { (body : List ℕ) → length body ≡ len → result ≡ passes limit (length (pieces room body)) }
{
    limit != 0 && len as u128 > u128::from(limit) * u128::from(room)
}

/// So many fragments of this size, in bytes; `None` where the limit is 0.
#[tactic(auto, using(crate::proofs::MostOctets::product_fits))]
fn limit_of(limit: u32, size: u32) -> Option<usize>
    ensures { result ≡ limit_of limit size }
{
    if limit == 0 {
        None
    } else {
        Some(limit as usize * size as usize)
    }
}

/// The lesser of two limits, where there are both; else the one that is there.
fn least(one: Option<usize>, other: Option<usize>) -> Option<usize>
    ensures { result ≡ least one other }
{
    match (one, other) {
        (Some(one), Some(other)) => Some(if one < other { one } else { other }),
        (Some(one), None) => Some(one),
        (None, other) => other,
    }
}
