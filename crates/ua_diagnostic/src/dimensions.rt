//! The dimensions of an array (OPC 10000-6, 5.2.2.16).

ghost use Rattle.std.specs.Prelude.{◌≡◌, ◌<◌, ◌*◌, ◌++◌, true, min, length, IsTrue, IfOk, OnOk, OnErr, IsErrOf, []};
ghost use Rattle.ua_builtin.specs.Counted.{first_negative};
ghost use Rattle.ua_builtin.specs.Exact.{image_read, skipped};
ghost use Rattle.ua_builtin.specs.Format.{Gives, GivesBy, StaysBehind, Extends};
ghost use Rattle.ua_wire.specs.declared.fault.ReadFault.TheVariants.{NoValue};
ghost use Rattle.ua_diagnostic.specs.Dimensions.{product, is_count, are_sizes, dims_encodable};
ghost use Rattle.ua_diagnostic.specs.Dimensions.{dims_canonical, sizes_canonical, size_at};
ghost use Rattle.ua_diagnostic.specs.Dimensions.{sizes_at, dims_at, no_dims_at, IsOverlongDims};

use std::alloc::{AllocError, Global};
use std::marker::Model;
use ua_builtin::{ReadFault, Source, Wire};
use ua_wire::FIRST_NEGATIVE;

/// The ArrayDimensions of an array; empty if the array has a single dimension.
#[derive(Debug, Drop)]
pub struct Dimensions {
    items: Vec<i32>,
}

impl Model for Dimensions {
    ghost use Rattle.std.specs.Prelude.{List};
    ghost use lib.IntN.{ℤ};

    ghost Value = { List ℤ };

    ghost view = { λ a. a.items.items };
}

impl Dimensions {
    /// Dimensions with these lengths.
    #[inline]
    pub fn new(items: Vec<i32>) -> Dimensions
        ensures { result ≡ items.items }
    {
        Dimensions { items }
    }

    /// No dimensions. Allocates nothing.
    #[inline]
    pub fn none(alloc: Global) -> Dimensions
        ensures { result ≡ [] }
    {
        Dimensions {
            items: Vec::new(alloc),
        }
    }

    /// The length of each dimension, the outermost first.
    #[inline]
    pub fn as_slice(&self) -> &[i32]
        ensures { result.now ≡ self.now }
    {
        &self.items
    }

    /// Returns the dimensions by value.
    #[inline]
    pub fn into_vec(self) -> Vec<i32>
        ensures { result.items ≡ self }
    {
        self.items
    }

    /// Returns an owned copy, equal to this value.
    pub fn try_clone(&self, alloc: Global) -> Result<Dimensions, AllocError>
        ensures { IfOk result (λ d. d ≡ self.now) }
    {
        Ok(Dimensions::new(self.as_slice().to_vec(alloc)?))
    }
}

/// Whether a number can be encoded as an Int32 count.
#[inline]
pub fn is_counted(n: usize) -> bool
    ensures { result ≡ is_count n }
{
    n <= i32::MAX as usize
}

/// Whether these are the dimensions of an array of n elements: none, or of non-negative lengths
/// with the product n.
pub fn dims_fit(dims: &Dimensions, n: usize) -> bool
    requires { n < first_negative }
    ensures { result ≡ dims_encodable dims.now n }
{
    let dims = dims.as_slice();
    if dims.is_empty() {
        return true;
    }
    is_counted(dims.len()) && are_dimensions(dims) && product_of(dims) == n as u64
}

/// Whether none is negative.
fn are_dimensions(dims: &[i32]) -> bool
    ensures { result ≡ are_sizes dims.now }
{
    for d in dims {
        if *d < 0 {
            return false;
        }
    }
    true
}

/// The product, or the greatest number.
fn product_of(dims: &[i32]) -> u64
    ensures { result ≡ min (product dims.now) u64.MAX }
{
    let mut all = 1u64;
    for d in dims {
        all = all.saturating_mul(u64::from(d.unsigned_abs()));
    }
    all
}

/// Decodes the dimensions of an array of so many elements, if they are announced.
#[tactic(auto, unfolding(crate::specs::Dimensions::dims_at))]
pub fn read_dims<S: Source>(
    alloc: Global,
    src: &mut S,
    set: bool,
    elements: u32,
) -> Result<Dimensions, ReadFault>
    requires { elements < first_negative }
    ensures exact { Gives (dims_at set elements) (S.octets src.old) (S.octets src.new) result }
    ensures behind { StaysBehind (S.octets src.old) (S.octets src.new) }
    ensures long { IsTrue set → IsOverlongDims (S.octets src.old) → IsErrOf result NoValue }
{
    if !set {
        return Ok(Dimensions::none(alloc));
    }
    let count = u32::read_value(alloc, src, 0)?;
    if count >= FIRST_NEGATIVE || count == 0 {
        return Ok(Dimensions::none(alloc));
    }
    let sizes = read_sizes(alloc, src, count)?;
    if product_of(&sizes) != elements as u64 {
        return Err(ReadFault::NoValue);
    }
    Ok(Dimensions::new(sizes))
}

/// Decodes the dimensions of a null array, if they are announced: a count of at most 0.
#[tactic(auto, unfolding(crate::specs::Dimensions::no_dims_at))]
pub fn read_no_dims<S: Source>(
    alloc: Global,
    src: &mut S,
    set: bool,
) -> Result<Dimensions, ReadFault>
    ensures exact { Gives (no_dims_at set) (S.octets src.old) (S.octets src.new) result }
    ensures behind { StaysBehind (S.octets src.old) (S.octets src.new) }
{
    if !set {
        return Ok(Dimensions::none(alloc));
    }
    let count = u32::read_value(alloc, src, 0)?;
    if count >= FIRST_NEGATIVE || count == 0 {
        return Ok(Dimensions::none(alloc));
    }
    Err(ReadFault::NoValue)
}

/// Reads so many dimensions; nothing is allocated where fewer bytes are left.
fn read_sizes<S: Source>(alloc: Global, src: &mut S, count: u32) -> Result<Vec<i32>, ReadFault>
    ensures exact { GivesBy (λ v. v.items) (sizes_at count) (S.octets src.old) (S.octets src.new) result }
    ensures behind { StaysBehind (S.octets src.old) (S.octets src.new) }
    ensures long { length (S.octets src.old) < 4 * count → IsErrOf result NoValue }
{
    if src.left() / 4 < count as usize {
        return Err(ReadFault::NoValue);
    }
    let mut sizes = Vec::with_capacity(alloc, count as usize)?;
    for _ in 0..count {
        let size = read_size(alloc, src)?;
        sizes.push(size)?;
    }
    Ok(sizes)
}

/// Skips the dimensions of an array of so many elements, if they are announced.
#[tactic(auto, unfolding(crate::specs::Dimensions::dims_at))]
pub fn skip_dims<S: Source>(
    alloc: Global,
    src: &mut S,
    set: bool,
    elements: u32,
) -> Result<(), ReadFault>
    requires { elements < first_negative }
    ensures exact { Gives (skipped (dims_at set elements)) (S.octets src.old) (S.octets src.new) result }
    ensures behind { StaysBehind (S.octets src.old) (S.octets src.new) }
{
    if !set {
        return Ok(());
    }
    let count = u32::read_value(alloc, src, 0)?;
    if count >= FIRST_NEGATIVE || count == 0 {
        return Ok(());
    }
    if skip_sizes(alloc, src, count)? != elements as u64 {
        return Err(ReadFault::NoValue);
    }
    Ok(())
}

/// Skips so many dimensions, and tells their product, or the greatest number.
fn skip_sizes<S: Source>(alloc: Global, src: &mut S, count: u32) -> Result<u64, ReadFault>
    ensures exact { Gives (image_read (λ sizes. min (product sizes) u64.MAX) (sizes_at count)) (S.octets src.old)
        (S.octets src.new) result }
    ensures behind { StaysBehind (S.octets src.old) (S.octets src.new) }
{
    let mut all = 1u64;
    for _ in 0..count {
        let size = read_size(alloc, src)?;
        all = all.saturating_mul(u64::from(size.unsigned_abs()));
    }
    Ok(all)
}

/// Reads an Int32 that is not negative.
#[tactic(auto, unfolding(crate::specs::Dimensions::size_at))]
fn read_size<S: Source>(alloc: Global, src: &mut S) -> Result<i32, ReadFault>
    ensures exact { Gives size_at (S.octets src.old) (S.octets src.new) result }
    ensures behind { StaysBehind (S.octets src.old) (S.octets src.new) }
{
    let size = u32::read_value(alloc, src, 0)?;
    if size >= FIRST_NEGATIVE {
        return Err(ReadFault::NoValue);
    }
    Ok(size.cast_signed())
}

/// Appends the encoding of the dimensions of an array of n elements; nothing if it has none.
pub fn append_dims(dims: &Dimensions, n: usize, out: &mut Vec<u8>) -> Result<(), AllocError>
    requires { dims_encodable dims.now n ≡ true }
    ensures ok { OnOk result (out.new.items ≡ out.old.items ++ dims_canonical dims.now) }
    ensures err { OnErr result (Extends out.old.items out.new.items) }
{
    let dims = dims.as_slice();
    if dims.is_empty() {
        return Ok(());
    }
    (dims.len() as u32).append(out)?;
    append_sizes(dims, out)?;
    Ok(())
}

/// Appends the dimensions without their count.
fn append_sizes(dims: &[i32], out: &mut Vec<u8>) -> Result<(), AllocError>
    requires { are_sizes dims.now ≡ true }
    ensures ok { OnOk result (out.new.items ≡ out.old.items ++ sizes_canonical dims.now) }
    ensures err { OnErr result (Extends out.old.items out.new.items) }
{
    for d in dims {
        d.unsigned_abs().append(out)?;
    }
    Ok(())
}
