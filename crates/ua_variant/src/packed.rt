//! Arrays of numbers and of other fixed-width types, each in a vector of its own type.

ghost use Rattle.std.specs.Prelude.{◌≡◌, ◌≢◌, ◌-◌, ◌≤◌, ◌++◌, List, drop, take, length, map};
ghost use Rattle.std.specs.Prelude.{option_map, slice_get, true, IfOk, IfSome, IsNone, OnOk, OnErr};
ghost use Rattle.ua_builtin.specs.Format.{Extends};
ghost use Rattle.ua_variant.specs.Canonical.{row_canonical};
ghost use Rattle.ua_variant.specs.Data.{leaf};
ghost use Rattle.ua_variant.specs.Encodable.{scalars_fit};
ghost use Rattle.ua_variant.specs.Packed.{packed_kind, packed_leaves};
ghost use Rattle.ua_variant.specs.View.{row, scalar_of};

use crate::fixed_width::{BLOCK, FixedWidth, write_values};
use crate::leaf::HeldLeaf;
use crate::values::Scalar;
use std::alloc::{AllocError, Global};
use ua_builtin::{DateTime, DoubleBits, FloatBits, Guid, StatusCode};

/// The elements of an array of one of the types whose values are all encoded in the same number of
/// bytes.
#[derive(Debug, Drop)]
pub enum Packed {
    Booleans(Vec<bool>),
    SBytes(Vec<i8>),
    Bytes(Vec<u8>),
    Int16s(Vec<i16>),
    UInt16s(Vec<u16>),
    Int32s(Vec<i32>),
    UInt32s(Vec<u32>),
    Int64s(Vec<i64>),
    UInt64s(Vec<u64>),
    Floats(Vec<FloatBits>),
    Doubles(Vec<DoubleBits>),
    DateTimes(Vec<DateTime>),
    Guids(Vec<Guid>),
    StatusCodes(Vec<StatusCode>),
}

/// A type whose arrays are packed.
pub trait Pack: HeldLeaf + Copy {
    /// Makes an array of these elements.
    fn pack(items: Vec<Self>) -> Packed
        ensures leaves { packed_leaves result ≡ map Self.as_leaf items.items }
        ensures kind { packed_kind result ≡ Self.kind };

    /// The elements, or `None` if they are of another type.
    fn items(packed: &Packed) -> Option<&[Self]>
        ensures found { IfSome result (λ items. map Self.as_leaf items.now ≡ packed_leaves packed.now) }
        ensures kind { IfSome result (λ items. packed_kind packed.now ≡ Self.kind) }
        ensures none { IsNone result → packed_kind packed.now ≢ Self.kind };
}

impl Packed {
    /// The type id of the elements (OPC 10000-6, 5.1.2).
    pub fn kind(&self) -> u8
        ensures { result ≡ packed_kind self.now }
    {
        match self {
            Packed::Booleans(_) => 1,
            Packed::SBytes(_) => 2,
            Packed::Bytes(_) => 3,
            Packed::Int16s(_) => 4,
            Packed::UInt16s(_) => 5,
            Packed::Int32s(_) => 6,
            Packed::UInt32s(_) => 7,
            Packed::Int64s(_) => 8,
            Packed::UInt64s(_) => 9,
            Packed::Floats(_) => 10,
            Packed::Doubles(_) => 11,
            Packed::DateTimes(_) => 13,
            Packed::Guids(_) => 14,
            Packed::StatusCodes(_) => 19,
        }
    }

    /// The number of elements.
    pub fn len(&self) -> usize
        ensures { result ≡ length (packed_leaves self.now) }
    {
        match self {
            Packed::Booleans(items) => items.len(),
            Packed::SBytes(items) => items.len(),
            Packed::Bytes(items) => items.len(),
            Packed::Int16s(items) => items.len(),
            Packed::UInt16s(items) => items.len(),
            Packed::Int32s(items) => items.len(),
            Packed::UInt32s(items) => items.len(),
            Packed::Int64s(items) => items.len(),
            Packed::UInt64s(items) => items.len(),
            Packed::Floats(items) => items.len(),
            Packed::Doubles(items) => items.len(),
            Packed::DateTimes(items) => items.len(),
            Packed::Guids(items) => items.len(),
            Packed::StatusCodes(items) => items.len(),
        }
    }

    /// The elements, or `None` if they are of another type.
    pub fn as_items<T: Pack>(&self) -> Option<&[T]>
        ensures found { IfSome result (λ items. map T.as_leaf items.now ≡ packed_leaves self.now) }
        ensures kind { IfSome result (λ items. packed_kind self.now ≡ T.kind) }
        ensures none { IsNone result → packed_kind self.now ≢ T.kind }
    {
        T::items(self)
    }

    /// The element at a position, counted from 0.
    pub fn get(&self, index: usize) -> Option<Scalar>
        ensures { option_map scalar_of result ≡ option_map leaf (slice_get (packed_leaves self.now) index) }
    {
        match self {
            Packed::Booleans(items) => item_at(items, index),
            Packed::SBytes(items) => item_at(items, index),
            Packed::Bytes(items) => item_at(items, index),
            Packed::Int16s(items) => item_at(items, index),
            Packed::UInt16s(items) => item_at(items, index),
            Packed::Int32s(items) => item_at(items, index),
            Packed::UInt32s(items) => item_at(items, index),
            Packed::Int64s(items) => item_at(items, index),
            Packed::UInt64s(items) => item_at(items, index),
            Packed::Floats(items) => item_at(items, index),
            Packed::Doubles(items) => item_at(items, index),
            Packed::DateTimes(items) => item_at(items, index),
            Packed::Guids(items) => item_at(items, index),
            Packed::StatusCodes(items) => item_at(items, index),
        }
    }

    /// Returns an owned copy, equal to this array. Not inlined, so that its room is not taken on the
    /// stack at each level of nesting.
    #[inline(never)]
    pub fn try_clone(&self, alloc: Global) -> Result<Packed, AllocError>
        ensures { IfOk result (λ copy. packed_leaves copy ≡ packed_leaves self.now) }
    {
        self.part(alloc, 0, self.len())
    }

    /// Returns a copy of the elements from position `from` up to, and without, position `to`.
    pub fn part(&self, alloc: Global, from: usize, to: usize) -> Result<Packed, AllocError>
        requires order { from ≤ to }
        requires within { to ≤ length (packed_leaves self.now) }
        ensures { IfOk result (λ part. packed_leaves part ≡ take (to - from) (drop from (packed_leaves self.now))) }
    {
        match self {
            Packed::Booleans(items) => copy_part(alloc, items, from, to),
            Packed::SBytes(items) => copy_part(alloc, items, from, to),
            Packed::Bytes(items) => copy_part(alloc, items, from, to),
            Packed::Int16s(items) => copy_part(alloc, items, from, to),
            Packed::UInt16s(items) => copy_part(alloc, items, from, to),
            Packed::Int32s(items) => copy_part(alloc, items, from, to),
            Packed::UInt32s(items) => copy_part(alloc, items, from, to),
            Packed::Int64s(items) => copy_part(alloc, items, from, to),
            Packed::UInt64s(items) => copy_part(alloc, items, from, to),
            Packed::Floats(items) => copy_part(alloc, items, from, to),
            Packed::Doubles(items) => copy_part(alloc, items, from, to),
            Packed::DateTimes(items) => copy_part(alloc, items, from, to),
            Packed::Guids(items) => copy_part(alloc, items, from, to),
            Packed::StatusCodes(items) => copy_part(alloc, items, from, to),
        }
    }

    /// Whether each element is of the type id and can be written.
    pub(crate) fn fits(&self, kind: u8) -> bool
        ensures { result ≡ scalars_fit kind (row (map leaf (packed_leaves self.now))) }
    {
        match self {
            Packed::Booleans(items) => items_fit(items, 1, kind),
            Packed::SBytes(items) => items_fit(items, 2, kind),
            Packed::Bytes(items) => items_fit(items, 3, kind),
            Packed::Int16s(items) => items_fit(items, 4, kind),
            Packed::UInt16s(items) => items_fit(items, 5, kind),
            Packed::Int32s(items) => items_fit(items, 6, kind),
            Packed::UInt32s(items) => items_fit(items, 7, kind),
            Packed::Int64s(items) => items_fit(items, 8, kind),
            Packed::UInt64s(items) => items_fit(items, 9, kind),
            Packed::Floats(items) => items_fit(items, 10, kind),
            Packed::Doubles(items) => items_fit(items, 11, kind),
            Packed::DateTimes(items) => items_fit(items, 13, kind),
            Packed::Guids(items) => items_fit(items, 14, kind),
            Packed::StatusCodes(items) => items_fit(items, 19, kind),
        }
    }

    /// Appends the canonical encodings of the elements at the end.
    #[inline(never)]
    pub(crate) fn append(&self, out: &mut Vec<u8>) -> Result<(), AllocError>
        ensures ok { OnOk result
            (out.new.items ≡ out.old.items ++ row_canonical (row (map leaf (packed_leaves self.now)))) }
        ensures err { OnErr result (Extends out.old.items out.new.items) }
    {
        match self {
            Packed::Booleans(items) => append_items(items, out),
            Packed::SBytes(items) => append_items(items, out),
            Packed::Bytes(items) => append_items(items, out),
            Packed::Int16s(items) => append_items(items, out),
            Packed::UInt16s(items) => append_items(items, out),
            Packed::Int32s(items) => append_items(items, out),
            Packed::UInt32s(items) => append_items(items, out),
            Packed::Int64s(items) => append_items(items, out),
            Packed::UInt64s(items) => append_items(items, out),
            Packed::Floats(items) => append_items(items, out),
            Packed::Doubles(items) => append_items(items, out),
            Packed::DateTimes(items) => append_items(items, out),
            Packed::Guids(items) => append_items(items, out),
            Packed::StatusCodes(items) => append_items(items, out),
        }
    }
}

/// The element at a place.
fn item_at<T: Pack>(items: &[T], index: usize) -> Option<Scalar>
    ensures { option_map scalar_of result ≡ option_map leaf (slice_get (map T.as_leaf items.now) index) }
{
    match items.get(index) {
        Some(item) => Some((*item).into_scalar()),
        None => None,
    }
}

/// The elements from one place up to another.
fn copy_part<T: Pack>(
    alloc: Global,
    items: &[T],
    from: usize,
    to: usize,
) -> Result<Packed, AllocError>
    requires order { from ≤ to }
    requires within { to ≤ length (map T.as_leaf items.now) }
    ensures { IfOk result (λ part. packed_leaves part ≡ take (to - from) (drop from (map T.as_leaf items.now))) }
{
    Ok(T::pack(Vec::from_slice(alloc, &items[from..to])?))
}

/// Whether each element, of a type id of its own, is of the other one and can be written.
fn items_fit<T: Pack>(items: &[T], own: u8, kind: u8) -> bool
    requires { own ≡ T.kind }
    ensures { result ≡ scalars_fit kind (row (map leaf (map T.as_leaf items.now))) }
{
    T::is_leaf();
    for item in items {
        if own != kind {
            return false;
        }
        if !item.is_encodable() {
            return false;
        }
    }
    true
}

/// Appends the canonical encodings of the elements at the end.
fn append_items<T: FixedWidth>(items: &[T], out: &mut Vec<u8>) -> Result<(), AllocError>
    ensures ok { OnOk result
        (out.new.items ≡ out.old.items ++ row_canonical (row (map leaf (map T.as_leaf items.now)))) }
    ensures err { OnErr result (Extends out.old.items out.new.items) }
{
    let width = T::width();
    let most = BLOCK / width;
    out.reserve(items.len().saturating_mul(width))?;
    let mut block = [0; BLOCK];
    let mut done = 0;
    while done < items.len() {
        let n = (items.len() - done).min(most);
        let part = &mut block[..n * width];
        write_values(&items[done..done + n], part);
        out.extend_from_slice(part)?;
        done += n;
    }
    Ok(())
}

impl Pack for bool {
    ghost use Rattle.ua_variant.specs.Data.{boolean};

    #[inline]
    fn pack(items: Vec<bool>) -> Packed
        ensures leaves { packed_leaves result ≡ map boolean items.items }
        ensures kind { packed_kind result ≡ 1 }
    {
        Packed::Booleans(items)
    }

    #[inline]
    fn items(packed: &Packed) -> Option<&[bool]> {
        match packed {
            Packed::Booleans(items) => Some(items),
            _ => None,
        }
    }
}

impl Pack for i8 {
    ghost use Rattle.ua_variant.specs.Data.{sbyte};

    #[inline]
    fn pack(items: Vec<i8>) -> Packed
        ensures leaves { packed_leaves result ≡ map sbyte items.items }
        ensures kind { packed_kind result ≡ 2 }
    {
        Packed::SBytes(items)
    }

    #[inline]
    fn items(packed: &Packed) -> Option<&[i8]> {
        match packed {
            Packed::SBytes(items) => Some(items),
            _ => None,
        }
    }
}

impl Pack for u8 {
    ghost use Rattle.ua_variant.specs.Data.{byte};

    #[inline]
    fn pack(items: Vec<u8>) -> Packed
        ensures leaves { packed_leaves result ≡ map byte items.items }
        ensures kind { packed_kind result ≡ 3 }
    {
        Packed::Bytes(items)
    }

    #[inline]
    fn items(packed: &Packed) -> Option<&[u8]> {
        match packed {
            Packed::Bytes(items) => Some(items),
            _ => None,
        }
    }
}

impl Pack for i16 {
    ghost use Rattle.ua_variant.specs.Data.{int16};

    #[inline]
    fn pack(items: Vec<i16>) -> Packed
        ensures leaves { packed_leaves result ≡ map int16 items.items }
        ensures kind { packed_kind result ≡ 4 }
    {
        Packed::Int16s(items)
    }

    #[inline]
    fn items(packed: &Packed) -> Option<&[i16]> {
        match packed {
            Packed::Int16s(items) => Some(items),
            _ => None,
        }
    }
}

impl Pack for u16 {
    ghost use Rattle.ua_variant.specs.Data.{uint16};

    #[inline]
    fn pack(items: Vec<u16>) -> Packed
        ensures leaves { packed_leaves result ≡ map uint16 items.items }
        ensures kind { packed_kind result ≡ 5 }
    {
        Packed::UInt16s(items)
    }

    #[inline]
    fn items(packed: &Packed) -> Option<&[u16]> {
        match packed {
            Packed::UInt16s(items) => Some(items),
            _ => None,
        }
    }
}

impl Pack for i32 {
    ghost use Rattle.ua_variant.specs.Data.{int32};

    #[inline]
    fn pack(items: Vec<i32>) -> Packed
        ensures leaves { packed_leaves result ≡ map int32 items.items }
        ensures kind { packed_kind result ≡ 6 }
    {
        Packed::Int32s(items)
    }

    #[inline]
    fn items(packed: &Packed) -> Option<&[i32]> {
        match packed {
            Packed::Int32s(items) => Some(items),
            _ => None,
        }
    }
}

impl Pack for u32 {
    ghost use Rattle.ua_variant.specs.Data.{uint32};

    #[inline]
    fn pack(items: Vec<u32>) -> Packed
        ensures leaves { packed_leaves result ≡ map uint32 items.items }
        ensures kind { packed_kind result ≡ 7 }
    {
        Packed::UInt32s(items)
    }

    #[inline]
    fn items(packed: &Packed) -> Option<&[u32]> {
        match packed {
            Packed::UInt32s(items) => Some(items),
            _ => None,
        }
    }
}

impl Pack for i64 {
    ghost use Rattle.ua_variant.specs.Data.{int64};

    #[inline]
    fn pack(items: Vec<i64>) -> Packed
        ensures leaves { packed_leaves result ≡ map int64 items.items }
        ensures kind { packed_kind result ≡ 8 }
    {
        Packed::Int64s(items)
    }

    #[inline]
    fn items(packed: &Packed) -> Option<&[i64]> {
        match packed {
            Packed::Int64s(items) => Some(items),
            _ => None,
        }
    }
}

impl Pack for u64 {
    ghost use Rattle.ua_variant.specs.Data.{uint64};

    #[inline]
    fn pack(items: Vec<u64>) -> Packed
        ensures leaves { packed_leaves result ≡ map uint64 items.items }
        ensures kind { packed_kind result ≡ 9 }
    {
        Packed::UInt64s(items)
    }

    #[inline]
    fn items(packed: &Packed) -> Option<&[u64]> {
        match packed {
            Packed::UInt64s(items) => Some(items),
            _ => None,
        }
    }
}

impl Pack for FloatBits {
    ghost use Rattle.ua_variant.specs.Data.{float};

    #[inline]
    fn pack(items: Vec<FloatBits>) -> Packed
        ensures leaves { packed_leaves result ≡ map float items.items }
        ensures kind { packed_kind result ≡ 10 }
    {
        Packed::Floats(items)
    }

    #[inline]
    fn items(packed: &Packed) -> Option<&[FloatBits]> {
        match packed {
            Packed::Floats(items) => Some(items),
            _ => None,
        }
    }
}

impl Pack for DoubleBits {
    ghost use Rattle.ua_variant.specs.Data.{double};

    #[inline]
    fn pack(items: Vec<DoubleBits>) -> Packed
        ensures leaves { packed_leaves result ≡ map double items.items }
        ensures kind { packed_kind result ≡ 11 }
    {
        Packed::Doubles(items)
    }

    #[inline]
    fn items(packed: &Packed) -> Option<&[DoubleBits]> {
        match packed {
            Packed::Doubles(items) => Some(items),
            _ => None,
        }
    }
}

impl Pack for DateTime {
    ghost use Rattle.ua_variant.specs.Data.{date_time};

    #[inline]
    fn pack(items: Vec<DateTime>) -> Packed
        ensures leaves { packed_leaves result ≡ map date_time items.items }
        ensures kind { packed_kind result ≡ 13 }
    {
        Packed::DateTimes(items)
    }

    #[inline]
    fn items(packed: &Packed) -> Option<&[DateTime]> {
        match packed {
            Packed::DateTimes(items) => Some(items),
            _ => None,
        }
    }
}

impl Pack for Guid {
    ghost use Rattle.ua_variant.specs.Data.{guid};

    #[inline]
    fn pack(items: Vec<Guid>) -> Packed
        ensures leaves { packed_leaves result ≡ map guid items.items }
        ensures kind { packed_kind result ≡ 14 }
    {
        Packed::Guids(items)
    }

    #[inline]
    fn items(packed: &Packed) -> Option<&[Guid]> {
        match packed {
            Packed::Guids(items) => Some(items),
            _ => None,
        }
    }
}

impl Pack for StatusCode {
    ghost use Rattle.ua_variant.specs.Data.{status_code};

    #[inline]
    fn pack(items: Vec<StatusCode>) -> Packed
        ensures leaves { packed_leaves result ≡ map status_code items.items }
        ensures kind { packed_kind result ≡ 19 }
    {
        Packed::StatusCodes(items)
    }

    #[inline]
    fn items(packed: &Packed) -> Option<&[StatusCode]> {
        match packed {
            Packed::StatusCodes(items) => Some(items),
            _ => None,
        }
    }
}
