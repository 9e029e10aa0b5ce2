//! The least number of bytes that encode a value.

ghost use Rattle.std.specs.Prelude.{◌≡◌, ◌<◌, ◌≤◌};
ghost use Rattle.ua_variant.specs.Least.{least_octets as least_of};

/// The least number of bytes that encode a value of the type id.
#[inline]
#[tactic(auto, unfolding(crate::specs::Least::least_octets))]
pub(crate) fn least_octets(kind: u8) -> usize
    ensures octets { result ≡ least_of kind }
    ensures some { 0 < result }
    ensures few { result ≤ 16 }
{
    match kind {
        4 | 5 | 17 | 18 => 2,
        6 | 7 | 10 | 12 | 15 | 16 | 19 | 26..=31 => 4,
        8 | 9 | 11 | 13 => 8,
        14 => 16,
        20 => 6,
        22 => 3,
        _ => 1,
    }
}
