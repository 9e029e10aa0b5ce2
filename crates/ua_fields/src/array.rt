//! Arrays as lines.

ghost use Rattle.std.specs.Prelude.{◌≡◌, ◌++◌, map, string_bytes, OnOk};
ghost use Rattle.std.specs.Fmt.{decimal};
ghost use Rattle.ua_fields.specs.Tree.{AreElementsBehind, IsBehind, array, elements, line, tree_elements};

use crate::lines::{Lines, Place, deeper_margin, push_line, push_start};
use std::alloc::{AllocError, Global};
use std::fmt::Write;
use ua_services::UaArray;

/// Appends the line with the count of an array.
#[tactic(auto, unfolding(crate::specs::Tree::line))]
fn push_count(out: &mut String, place: Place<'_>, count: usize) -> Result<(), AllocError>
    ensures { OnOk result
        (string_bytes out.new ≡ string_bytes out.old ++ line place.entry.margin.now place.entry.path.now
        (decimal count)) }
{
    push_start(out, place)?;
    writeln!(out, "{count}")
}

/// Appends the lines of the elements, one after the other.
fn push_elements<T: Lines>(
    alloc: Global,
    out: &mut String,
    place: Place<'_>,
    items: &[T],
) -> Result<(), AllocError>
    ensures { OnOk result (AreElementsBehind place.entry.style place.entry.margin.now place.entry.path.now 0
        (string_bytes out.old) (tree_elements (map T.tree items.now)) (string_bytes out.new)) }
{
    for (index, item) in items.iter().enumerate() {
        place.push_element(alloc, out, index, item)?;
    }
    Ok(())
}

/// Appends the count and the elements of an array.
fn push_items<T: Lines>(
    alloc: Global,
    out: &mut String,
    place: Place<'_>,
    items: &[T],
) -> Result<(), AllocError>
    ensures { OnOk result (IsBehind place.entry.style place.entry.margin.now place.entry.path.now
        (string_bytes out.old) (array (elements (tree_elements (map T.tree items.now)))) (string_bytes out.new)) }
{
    push_count(out, place, items.len())?;
    let margin = deeper_margin(alloc, place.margin)?;
    let inner = Place {
        style: place.style,
        margin: &margin,
        path: place.path,
    };
    push_elements(alloc, out, inner, items)
}

impl<T: Lines> Lines for UaArray<T> {
    ghost use Rattle.ua_fields.specs.Tree.{array_of};

    ghost tree = { array_of T.tree };

    fn is_structure() -> bool {
        false
    }

    fn push_lines(&self, alloc: Global, out: &mut String, place: Place) -> Result<(), AllocError> {
        match self.as_items() {
            Some(items) => push_items(alloc, out, place, items),
            None => push_line(out, place, "null"),
        }
    }
}
