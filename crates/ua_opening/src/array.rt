//! Arrays of values.

ghost use Rattle.std.specs.Prelude.{◌≡◌, ◌≤◌, ◌+◌, ◌++◌, List, ℕ, length, IsTrue};
ghost use Rattle.std.specs.Prelude.{OnOk, OnErr, IfOk, IsErrOf, option_map};
ghost use Rattle.std.specs.List.{flat_map, list_all};
ghost use Rattle.ua_builtin.specs.Counted.{IsOverlong};
ghost use Rattle.ua_builtin.specs.Exact.{Begins, skipped};
ghost use Rattle.ua_builtin.specs.Format.{most_levels, Gives, GivesBy, Behind, StaysBehind, Extends};
ghost use Rattle.ua_wire.specs.declared.fault.ReadFault.TheVariants.{NoValue};
ghost use Rattle.ua_opening.specs.Array.{array, items_at};

use std::alloc::{AllocError, Global};
use std::marker::Model;
use ua_builtin::{FIRST_NEGATIVE, NULL_COUNT, ReadFault, Skip, Source, Wire};

/// An array of values, or null, which differs from an array of no values (OPC 10000-6, 5.2.5).
#[derive(Debug)]
pub struct UaArray<T> {
    items: Option<Vec<T>>,
}

// By hand, so that a function that lets an array go without a call calls this, and is not written
// out.
impl<T: Drop> Drop for UaArray<T> {
    fn drop(self) {
        let UaArray { items } = self;
        drop(items);
    }
}

impl<T> Model for UaArray<T> {
    ghost use Rattle.std.specs.Prelude.{Option, option_map, List};

    ghost Value = { Option (List T) };

    ghost view = { λ a. option_map (λ v. v.items) a.items };
}

impl<T> UaArray<T> {
    ghost use Rattle.std.specs.Prelude.{◌≡◌, option_map, None};

    /// Makes an array of these values, or the null one for `None`.
    #[inline]
    pub fn new(items: Option<Vec<T>>) -> UaArray<T>
        ensures { result ≡ option_map (λ v. v.items) items }
    {
        UaArray { items }
    }

    /// The null array.
    #[inline]
    pub fn null() -> UaArray<T>
        ensures { result ≡ None }
    {
        UaArray { items: None }
    }

    /// The values, or `None` for a null array.
    #[inline]
    pub fn as_items(&self) -> Option<&[T]>
        ensures { option_map (λ i. i.now) result ≡ self.now }
    {
        match &self.items {
            Some(items) => Some(items.as_slice()),
            None => None,
        }
    }

    /// Returns the values by value, or `None` for a null array.
    #[inline]
    pub fn into_items(self) -> Option<Vec<T>>
        ensures { option_map (λ v. v.items) result ≡ self }
    {
        let UaArray { items } = self;
        items
    }
}

// Reads that many values. Memory grows by what was read, never by what a count claims.
fn read_items<T: Wire + Drop, S: Source>(
    alloc: Global,
    src: &mut S,
    depth: u32,
    count: u32,
) -> Result<Vec<T>, ReadFault>
    requires levels { depth ≤ most_levels }
    ensures exact { GivesBy (λ v. v.items) (items_at (T.format.decode depth) count) (S.octets src.old)
        (S.octets src.new) result }
    ensures behind { StaysBehind (S.octets src.old) (S.octets src.new) }
{
    let mut items = Vec::new(alloc);
    for _ in 0..count {
        let item = T::read_value(alloc, src, depth)?;
        items.push(item)?;
    }
    Ok(items)
}

// Skips that many values, and keeps none.
fn skip_items<T: Skip, S: Source>(
    alloc: Global,
    src: &mut S,
    depth: u32,
    count: u32,
) -> Result<(), ReadFault>
    requires levels { depth ≤ most_levels }
    ensures exact { Gives (skipped (items_at (T.format.decode depth) count)) (S.octets src.old)
        (S.octets src.new) result }
    ensures behind { StaysBehind (S.octets src.old) (S.octets src.new) }
{
    for _ in 0..count {
        T::skip_value(alloc, src, depth)?;
    }
    Ok(())
}

// Whether each value can be encoded.
fn are_encodable<T: Wire>(items: &[T]) -> bool
    ensures { result ≡ list_all T.format.encodable items.now }
{
    for item in items {
        if !item.is_encodable() {
            return false;
        }
    }
    true
}

// Appends the canonical encoding of each value at the end.
fn append_items<T: Wire>(items: &[T], out: &mut Vec<u8>) -> Result<(), AllocError>
    requires { IsTrue (list_all T.format.encodable items.now) }
    ensures ok { OnOk result (out.new.items ≡ out.old.items ++ flat_map T.format.canonical items.now) }
    ensures err { OnErr result (Extends out.old.items out.new.items) }
{
    for item in items {
        item.append(out)?;
    }
    Ok(())
}

impl<T: Wire + Drop> Wire for UaArray<T> {
    ghost use Rattle.ua_opening.specs.Array.{array};
    ghost use Rattle.ua_builtin.specs.Counted.{IsOverlong};

    ghost format = { array T.format };

    ghost overlong = { IsOverlong };

    #[inline]
    fn lawful() {
        T::lawful();
    }

    #[tactic(auto, unfolding(crate::specs::Array::array))]
    fn read_value<S: Source>(
        alloc: Global,
        src: &mut S,
        depth: u32,
    ) -> Result<UaArray<T>, ReadFault> {
        T::lawful();
        let count = u32::read_value(alloc, src, depth)?;
        if count >= FIRST_NEGATIVE {
            return Ok(UaArray { items: None });
        }
        // No encoding is empty: each value needs a byte at least.
        if src.left() < count as usize {
            return Err(ReadFault::NoValue);
        }
        let items = read_items(alloc, src, depth, count)?;
        Ok(UaArray { items: Some(items) })
    }

    #[tactic(auto, unfolding(crate::specs::Array::array))]
    fn is_encodable(&self) -> bool {
        match &self.items {
            None => true,
            Some(items) => items.len() < FIRST_NEGATIVE as usize && are_encodable(items),
        }
    }

    #[tactic(auto, unfolding(crate::specs::Array::array))]
    fn append(&self, out: &mut Vec<u8>) -> Result<(), AllocError> {
        match &self.items {
            None => NULL_COUNT.append(out)?,
            Some(items) => {
                (items.len() as u32).append(out)?;
                append_items(items, out)?;
            }
        }
        Ok(())
    }
}

impl<T: Skip> Skip for UaArray<T> {
    #[tactic(auto, unfolding(crate::specs::Array::array))]
    fn skip_value<S: Source>(alloc: Global, src: &mut S, depth: u32) -> Result<(), ReadFault> {
        T::lawful();
        let count = u32::read_value(alloc, src, depth)?;
        if count >= FIRST_NEGATIVE {
            return Ok(());
        }
        // No encoding is empty: each value needs a byte at least.
        if src.left() < count as usize {
            return Err(ReadFault::NoValue);
        }
        skip_items::<T, S>(alloc, src, depth, count)
    }
}

/// Decodes the array at the start of the source, each value of at most nesting depth `depth`, and
/// consumes exactly its bytes; `None` is a null array. A count above the number of bytes after it
/// is `NoValue`, and memory is allocated only for values that were decoded. After an error, discard
/// the source.
pub fn read_array<T: Wire + Drop, S: Source>(
    alloc: Global,
    src: &mut S,
    depth: u32,
) -> Result<Option<Vec<T>>, ReadFault>
    requires levels { depth ≤ most_levels }
    ensures found { IfOk result
        (λ v. Begins (array T.format).encodes (S.octets src.old) (option_map (λ items. items.items) v)
        (S.octets src.new)) }
    ensures levels { IfOk result (λ v. (array T.format).depth (option_map (λ items. items.items) v) ≤ depth) }
    ensures counted { IfOk result (λ v. (array T.format).count (option_map (λ items. items.items) v) + length
        (S.octets src.new) ≤ length (S.octets src.old)) }
    ensures none { IsErrOf result NoValue → (v : _) (front rest : List ℕ) → S.octets src.old ≡ front ++ rest
        → (array T.format).depth v ≤ depth → ¬ ((array T.format).encodes v front) }
    ensures behind { Behind (S.octets src.old) (S.octets src.new) }
    ensures long { IsOverlong (S.octets src.old) → IsErrOf result NoValue }
{
    let array = UaArray::<T>::read(alloc, src, depth)?;
    Ok(array.into_items())
}
