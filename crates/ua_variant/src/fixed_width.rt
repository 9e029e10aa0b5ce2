//! Arrays whose elements are all encoded in the same number of bytes, decoded and encoded many
//! elements at a time.

ghost use Rattle.std.specs.Prelude.{◌≡◌, ◌<◌, ◌≤◌, ◌*◌, ◌++◌, [], drop, length, map, Some, OnOk};
ghost use Rattle.ua_builtin.specs.Exact.{image_read};
ghost use Rattle.ua_variant.specs.Blocks.{row_behind};
ghost use Rattle.ua_variant.specs.Canonical.{row_canonical};
ghost use Rattle.ua_variant.specs.Data.{leaf};
ghost use Rattle.ua_variant.specs.Decoding.{row_at};
ghost use Rattle.ua_variant.specs.Leaf.{leaf_at, leaf_canonical};
ghost use Rattle.ua_variant.specs.Least.{least_octets as least_of};
ghost use Rattle.ua_variant.specs.View.{row};

use crate::packed::Pack;
use byteorder::{ByteOrder, LittleEndian};
use std::alloc::AllocError;
use ua_builtin::{DateTime, DoubleBits, FloatBits, Guid, StatusCode};
use uuid::Uuid;

/// How many bytes are decoded and encoded at a time. Each packed type takes a part of them without a
/// rest.
pub const BLOCK: usize = 1024;

/// A packed type: its values are all encoded in the same number of bytes, which are never refused
/// (OPC 10000-6, 5.2.2.1 to 5.2.2.3, 5.2.2.5, 5.2.2.6 and 5.2.2.11).
pub trait FixedWidth: Pack {
    /// The number of bytes of each value.
    fn width() -> usize
        ensures octets { result ≡ least_of Self.kind }
        ensures some { 0 < result }
        ensures few { result ≤ 16 };

    /// The value that the first bytes encode.
    fn first(octets: &[u8]) -> Self
        requires whole { least_of Self.kind ≤ length octets.now }
        ensures read { leaf_at Self.kind octets.now
            ≡ Some (Self.as_leaf result, drop (least_of Self.kind) octets.now) };

    /// Writes the canonical encoding of the value to the first bytes.
    fn put(self, octets: &mut [u8])
        requires whole { least_of Self.kind ≤ length octets.old }
        ensures written { octets.new ≡ leaf_canonical (Self.as_leaf self) ++ drop (least_of Self.kind) octets.old };
}

/// Decodes so many values from consecutive bytes into a slice of that length.
#[inline]
fn read_values<T: FixedWidth>(octets: &[u8], count: usize, values: &mut [T])
    requires room { length values.old ≡ count }
    requires whole { length octets.now ≡ count * least_of T.kind }
    ensures read { row_at count (image_read leaf (leaf_at T.kind)) octets.now
        ≡ Some (row (map leaf (map T.as_leaf values.new)), []) }
    ensures same { length values.new ≡ length values.old }
{
    let width = T::width();
    'values: for i in 0..count {
        values[i] = T::first(&octets[width * i..]);
    }
}

/// Decodes so many values from consecutive bytes, and pushes them.
#[inline]
pub(crate) fn push_values<T: FixedWidth>(
    octets: &[u8],
    count: usize,
    items: &mut Vec<T>,
) -> Result<(), AllocError>
    requires few { count ≤ 1024 }
    requires whole { length octets.now ≡ count * least_of T.kind }
    ensures read { OnOk result
        (row_behind (map leaf (map T.as_leaf items.old.items)) count (image_read leaf (leaf_at T.kind))
        octets.now ≡ Some (row (map leaf (map T.as_leaf items.new.items)), [])) }
{
    let old = items.len();
    let width = T::width();
    items.resize(old + count, T::first(&[0; 16][..width]))?;
    read_values(octets, count, &mut items[old..old + count]);
    Ok(())
}

/// Encodes values, one after the other, into a slice of exactly their length.
#[inline]
pub fn write_values<T: FixedWidth>(values: &[T], octets: &mut [u8])
    requires whole { length octets.old ≡ length values.now * least_of T.kind }
    ensures written { octets.new ≡ row_canonical (row (map leaf (map T.as_leaf values.now))) }
{
    let width = T::width();
    'values: for i in 0..values.len() {
        values[i].put(&mut octets[width * i..]);
    }
}

impl FixedWidth for bool {
    #[inline]
    #[tactic(auto, unfolding(crate::specs::Least::least_octets))]
    fn width() -> usize {
        1
    }

    #[inline]
    fn first(octets: &[u8]) -> bool {
        octets[0] != 0
    }

    #[inline]
    fn put(self, octets: &mut [u8]) {
        octets[0] = u8::from(self);
    }
}

impl FixedWidth for i8 {
    #[inline]
    #[tactic(auto, unfolding(crate::specs::Least::least_octets))]
    fn width() -> usize {
        1
    }

    #[inline]
    fn first(octets: &[u8]) -> i8 {
        octets[0].cast_signed()
    }

    #[inline]
    fn put(self, octets: &mut [u8]) {
        octets[0] = self.cast_unsigned();
    }
}

impl FixedWidth for u8 {
    #[inline]
    #[tactic(auto, unfolding(crate::specs::Least::least_octets))]
    fn width() -> usize {
        1
    }

    #[inline]
    fn first(octets: &[u8]) -> u8 {
        octets[0]
    }

    #[inline]
    fn put(self, octets: &mut [u8]) {
        octets[0] = self;
    }
}

impl FixedWidth for i16 {
    #[inline]
    #[tactic(auto, unfolding(crate::specs::Least::least_octets))]
    fn width() -> usize {
        2
    }

    #[inline]
    fn first(octets: &[u8]) -> i16 {
        LittleEndian::read_i16(octets)
    }

    #[inline]
    fn put(self, octets: &mut [u8]) {
        LittleEndian::write_i16(octets, self);
    }
}

impl FixedWidth for u16 {
    #[inline]
    #[tactic(auto, unfolding(crate::specs::Least::least_octets))]
    fn width() -> usize {
        2
    }

    #[inline]
    fn first(octets: &[u8]) -> u16 {
        LittleEndian::read_u16(octets)
    }

    #[inline]
    fn put(self, octets: &mut [u8]) {
        LittleEndian::write_u16(octets, self);
    }
}

impl FixedWidth for i32 {
    #[inline]
    #[tactic(auto, unfolding(crate::specs::Least::least_octets))]
    fn width() -> usize {
        4
    }

    #[inline]
    fn first(octets: &[u8]) -> i32 {
        LittleEndian::read_i32(octets)
    }

    #[inline]
    fn put(self, octets: &mut [u8]) {
        LittleEndian::write_i32(octets, self);
    }
}

impl FixedWidth for u32 {
    #[inline]
    #[tactic(auto, unfolding(crate::specs::Least::least_octets))]
    fn width() -> usize {
        4
    }

    #[inline]
    fn first(octets: &[u8]) -> u32 {
        LittleEndian::read_u32(octets)
    }

    #[inline]
    fn put(self, octets: &mut [u8]) {
        LittleEndian::write_u32(octets, self);
    }
}

impl FixedWidth for i64 {
    #[inline]
    #[tactic(auto, unfolding(crate::specs::Least::least_octets))]
    fn width() -> usize {
        8
    }

    #[inline]
    fn first(octets: &[u8]) -> i64 {
        LittleEndian::read_i64(octets)
    }

    #[inline]
    fn put(self, octets: &mut [u8]) {
        LittleEndian::write_i64(octets, self);
    }
}

impl FixedWidth for u64 {
    #[inline]
    #[tactic(auto, unfolding(crate::specs::Least::least_octets))]
    fn width() -> usize {
        8
    }

    #[inline]
    fn first(octets: &[u8]) -> u64 {
        LittleEndian::read_u64(octets)
    }

    #[inline]
    fn put(self, octets: &mut [u8]) {
        LittleEndian::write_u64(octets, self);
    }
}

impl FixedWidth for FloatBits {
    #[inline]
    #[tactic(auto, unfolding(crate::specs::Least::least_octets))]
    fn width() -> usize {
        4
    }

    #[inline]
    fn first(octets: &[u8]) -> FloatBits {
        FloatBits {
            bits: LittleEndian::read_u32(octets),
        }
    }

    #[inline]
    fn put(self, octets: &mut [u8]) {
        LittleEndian::write_u32(octets, self.bits);
    }
}

impl FixedWidth for DoubleBits {
    #[inline]
    #[tactic(auto, unfolding(crate::specs::Least::least_octets))]
    fn width() -> usize {
        8
    }

    #[inline]
    fn first(octets: &[u8]) -> DoubleBits {
        DoubleBits {
            bits: LittleEndian::read_u64(octets),
        }
    }

    #[inline]
    fn put(self, octets: &mut [u8]) {
        LittleEndian::write_u64(octets, self.bits);
    }
}

impl FixedWidth for DateTime {
    #[inline]
    #[tactic(auto, unfolding(crate::specs::Least::least_octets))]
    fn width() -> usize {
        8
    }

    #[inline]
    fn first(octets: &[u8]) -> DateTime {
        DateTime {
            ticks: LittleEndian::read_i64(octets),
        }
    }

    #[inline]
    fn put(self, octets: &mut [u8]) {
        LittleEndian::write_i64(octets, self.ticks);
    }
}

impl FixedWidth for StatusCode {
    #[inline]
    #[tactic(auto, unfolding(crate::specs::Least::least_octets))]
    fn width() -> usize {
        4
    }

    #[inline]
    fn first(octets: &[u8]) -> StatusCode {
        StatusCode {
            code: LittleEndian::read_u32(octets),
        }
    }

    #[inline]
    fn put(self, octets: &mut [u8]) {
        LittleEndian::write_u32(octets, self.code);
    }
}

impl FixedWidth for Guid {
    #[inline]
    #[tactic(auto, unfolding(crate::specs::Least::least_octets))]
    fn width() -> usize {
        16
    }

    #[inline]
    fn first(octets: &[u8]) -> Guid {
        let mut bytes = [0; 16];
        bytes.copy_from_slice(&octets[..16]);
        Guid {
            uuid: Uuid::from_bytes_le(bytes),
        }
    }

    #[inline]
    fn put(self, octets: &mut [u8]) {
        octets[..16].copy_from_slice(&self.uuid.to_bytes_le());
    }
}
