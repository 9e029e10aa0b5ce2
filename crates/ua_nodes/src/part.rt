//! Parts of arrays.

ghost use Rattle.std.specs.Prelude.{◌≡◌, length, IfOk};
ghost use Rattle.ua_nodes.specs.Range.{list_in, elements_of_array, range_part_of, ranged};
ghost use Rattle.ua_variant.specs.View.{variant_of};

use crate::node::NodeValue;
use crate::range::IndexRange;
use std::alloc::{AllocError, Global};
use ua_variant::{Dimensions, Scalars, Variant};

impl NodeValue {
    /// How many elements the array has; a null one has none.
    pub(crate) fn element_count(&self) -> usize
        ensures { result ≡ length (elements_of_array self.now) }
    {
        match self.get() {
            Variant::Many { items, .. } => count_in(items),
            _ => 0,
        }
    }

    /// An array of the elements at the places of a range, without dimensions; null where there is
    /// no array. No other element is cloned.
    pub(crate) fn part(&self, alloc: Global, range: IndexRange) -> Result<Variant, AllocError>
        ensures { IfOk result (λ v. variant_of v ≡ range_part_of range self.now) }
    {
        match self.get() {
            Variant::Many { kind, items, .. } => Ok(Variant::Many {
                kind: *kind,
                items: Some(clone_part(alloc, items, range)?),
                dims: Dimensions::none(alloc),
            }),
            _ => Ok(Variant::Null),
        }
    }
}

/// The number of elements; a null array has none.
fn count_in(items: &Option<Scalars>) -> usize
    ensures { result ≡ length (list_in items.now) }
{
    match items {
        Some(items) => items.len(),
        None => 0,
    }
}

/// The elements at the places of a range; a null array has none.
fn clone_part(
    alloc: Global,
    items: &Option<Scalars>,
    range: IndexRange,
) -> Result<Scalars, AllocError>
    ensures { IfOk result (λ r. r ≡ ranged range (list_in items.now)) }
{
    match items {
        None => Ok(Scalars::new(Vec::new(alloc))),
        Some(items) => {
            let from = (range.first as usize).min(items.len());
            let to = from + range.len().min(items.len() - from);
            items.part(alloc, from, to)
        }
    }
}
