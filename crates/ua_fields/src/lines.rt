//! Values as lines, and their places.

ghost use Rattle.std.specs.Prelude.{◌≡◌, ◌++◌, codes, string_bytes, OnOk, IfOk};
ghost use Rattle.ua_fields.specs.Tree.{Tree, deeper, line};

use crate::path::{path_of_element, path_of_field};
use crate::style::FieldStyle;
use std::alloc::{AllocError, Global};

/// The place of the lines of a value.
#[derive(Clone, Copy)]
pub(crate) struct Place<'a> {
    /// How the texts are written.
    pub(crate) style: FieldStyle,
    /// The leading spaces of each line.
    pub(crate) margin: &'a str,
    /// The path of the value, which is empty for a message.
    pub(crate) path: &'a str,
}

/// A value that is printed as lines, one for each of its fields.
pub(crate) trait Lines {
    ghost use Rattle.std.specs.Prelude.{◌≡◌, ℕ, List, cond, string_bytes, OnOk};
    ghost use Rattle.ua_fields.specs.Tree.{IsBehind, deeper, field_margin};

    /// The value as a tree of its fields.
    ghost tree: { Self → Tree };

    /// Whether it is a structure, which has no line of its own: its fields are one level deeper.
    fn is_structure() -> bool
        ensures { (margin : List ℕ) (value : Self)
            → field_margin margin (tree value) ≡ cond result (deeper margin) margin };

    /// Appends the lines of the value.
    fn push_lines(&self, alloc: Global, out: &mut String, place: Place) -> Result<(), AllocError>
        ensures { OnOk result (IsBehind place.entry.style place.entry.margin.now place.entry.path.now
            (string_bytes out.old) (tree self.now) (string_bytes out.new)) };
}

/// Appends what comes before the text of a line.
pub(crate) fn push_start(out: &mut String, place: Place<'_>) -> Result<(), AllocError>
    ensures { OnOk result
        (string_bytes out.new ≡ string_bytes out.old
        ++ (place.entry.margin.now ++ (place.entry.path.now ++ codes " "))) }
{
    out.push_str(place.margin)?;
    out.push_str(place.path)?;
    out.push_str(" ")
}

/// Appends a line with this text.
#[tactic(auto, unfolding(crate::specs::Tree::line))]
pub(crate) fn push_line(out: &mut String, place: Place<'_>, text: &str) -> Result<(), AllocError>
    ensures { OnOk result
        (string_bytes out.new ≡ string_bytes out.old ++ line place.entry.margin.now place.entry.path.now text.now) }
{
    push_start(out, place)?;
    out.push_str(text)?;
    out.push_str("\n")
}

/// The leading spaces, one level deeper.
pub(crate) fn deeper_margin(alloc: Global, margin: &str) -> Result<String, AllocError>
    ensures { IfOk result (λ inner. string_bytes inner ≡ deeper margin.now) }
{
    let mut inner = String::with_capacity(alloc, margin.len().saturating_add(2))?;
    inner.push_str(margin)?;
    inner.push_str("  ")?;
    Ok(inner)
}

impl<'a> Place<'a> {
    ghost use Rattle.std.specs.Prelude.{string_bytes, OnOk};
    ghost use Rattle.ua_fields.specs.Tree.{IsBehind, element_path, field_margin, field_path};

    /// Appends the lines of a field.
    pub(crate) fn push_field<T: Lines>(
        self,
        alloc: Global,
        out: &mut String,
        name: &str,
        value: &T,
    ) -> Result<(), AllocError>
        ensures { OnOk result (IsBehind self.entry.style (field_margin self.entry.margin.now (T.tree value.now))
            (field_path self.entry.path.now name.now) (string_bytes out.old) (T.tree value.now)
            (string_bytes out.new)) }
    {
        let path = path_of_field(alloc, self.path, name)?;
        let inner = Place {
            style: self.style,
            margin: self.margin,
            path: path.as_str(),
        };
        if !T::is_structure() {
            return value.push_lines(alloc, out, inner);
        }
        let margin = deeper_margin(alloc, self.margin)?;
        let deeper = Place {
            style: self.style,
            margin: &margin,
            path: inner.path,
        };
        value.push_lines(alloc, out, deeper)
    }

    /// Appends the lines of an element.
    pub(crate) fn push_element<T: Lines>(
        self,
        alloc: Global,
        out: &mut String,
        index: usize,
        value: &T,
    ) -> Result<(), AllocError>
        ensures { OnOk result (IsBehind self.entry.style self.entry.margin.now
            (element_path self.entry.path.now index) (string_bytes out.old) (T.tree value.now) (string_bytes out.new)) }
    {
        let path = path_of_element(alloc, self.path, index)?;
        let inner = Place {
            style: self.style,
            margin: self.margin,
            path: path.as_str(),
        };
        value.push_lines(alloc, out, inner)
    }
}

/// Appends the lines of the fields of a structure, in order.
macro_rules! push_fields {
    ($value:expr, $alloc:expr, $out:expr, $place:expr => $($field:ident),+) => {{
        $($place.push_field($alloc, $out, stringify!($field), &$value.$field)?;)+
        Ok(())
    }};
}

pub(crate) use push_fields;
