//! Values without fields of their own, as lines.

ghost use Rattle.std.specs.Prelude.{string_bytes, OnOk};
ghost use Rattle.ua_texts.specs.PlainLeaf.{Adds};
ghost use Rattle.ua_fields.specs.Tree.{IsBehind, IsText, Leaf, text};

use crate::lines::{Lines, Place, push_line, push_start};
use crate::null::{is_empty, is_null_name, is_null_text};
use crate::style::FieldStyle;
use crate::text::{push_encoded_or_null, push_node};
use std::alloc::{AllocError, Global};
use std::fmt::Write;
use ua_builtin::{
    DateTime, DoubleBits, LocalizedText, NodeId, QualifiedName, StatusCode, UaBytes, UaString,
};
use ua_texts::{
    push_base64, push_code_as, push_diagnostic, push_double, push_escaped_string, push_moment,
    push_plain_localized, push_plain_name, push_plain_variant, push_variant, push_wide_pattern,
};
use ua_variant::{DiagnosticInfo, HeldVariant};

/// A value whose text is shown on a line.
pub(crate) trait Text {
    /// What the line says.
    ghost leaf: { Self → Leaf };

    /// Appends the text.
    fn push_text(
        &self,
        alloc: Global,
        out: &mut String,
        style: FieldStyle,
    ) -> Result<(), AllocError>
        ensures { Adds result (string_bytes out.old) (string_bytes out.new) (IsText style (leaf self.now)) };
}

/// Appends a line with the text of a value.
pub(crate) fn push_text_line<T: Text>(
    alloc: Global,
    out: &mut String,
    place: Place<'_>,
    value: &T,
) -> Result<(), AllocError>
    ensures { OnOk result (IsBehind place.entry.style place.entry.margin.now place.entry.path.now (string_bytes out.old)
        (text (T.leaf value.now)) (string_bytes out.new)) }
{
    push_start(out, place)?;
    value.push_text(alloc, out, place.style)?;
    out.push_str("\n")
}

impl<T: Text> Lines for T {
    ghost use Rattle.ua_fields.specs.Tree.{text};

    ghost tree = { λ value. text (T.leaf value) };

    fn is_structure() -> bool {
        false
    }

    fn push_lines(&self, alloc: Global, out: &mut String, place: Place) -> Result<(), AllocError> {
        push_text_line(alloc, out, place, self)
    }
}

impl<T: Text> Lines for Option<T> {
    ghost use Rattle.ua_fields.specs.Leaves.{optional_tree};

    ghost tree = { optional_tree T.leaf };

    fn is_structure() -> bool {
        false
    }

    fn push_lines(&self, alloc: Global, out: &mut String, place: Place) -> Result<(), AllocError> {
        match self {
            Some(value) => push_text_line(alloc, out, place, value),
            None => push_line(out, place, "null"),
        }
    }
}

impl Text for u16 {
    ghost use Rattle.ua_fields.specs.Leaves.{number_leaf};

    ghost leaf = { number_leaf };

    fn push_text(
        &self,
        _alloc: Global,
        out: &mut String,
        _style: FieldStyle,
    ) -> Result<(), AllocError> {
        write!(out, "{self}")
    }
}

impl Text for bool {
    ghost use Rattle.ua_fields.specs.Leaves.{boolean_leaf};

    ghost leaf = { boolean_leaf };

    fn push_text(
        &self,
        _alloc: Global,
        out: &mut String,
        _style: FieldStyle,
    ) -> Result<(), AllocError> {
        out.push_str(if *self { "true" } else { "false" })
    }
}

impl Text for u8 {
    ghost use Rattle.ua_fields.specs.Leaves.{number_leaf};

    ghost leaf = { number_leaf };

    fn push_text(
        &self,
        _alloc: Global,
        out: &mut String,
        _style: FieldStyle,
    ) -> Result<(), AllocError> {
        write!(out, "{self}")
    }
}

impl Text for u32 {
    ghost use Rattle.ua_fields.specs.Leaves.{number_leaf};

    ghost leaf = { number_leaf };

    fn push_text(
        &self,
        _alloc: Global,
        out: &mut String,
        _style: FieldStyle,
    ) -> Result<(), AllocError> {
        write!(out, "{self}")
    }
}

impl Text for i32 {
    ghost use Rattle.ua_fields.specs.Leaves.{signed_leaf};

    ghost leaf = { signed_leaf };

    fn push_text(
        &self,
        _alloc: Global,
        out: &mut String,
        _style: FieldStyle,
    ) -> Result<(), AllocError> {
        write!(out, "{self}")
    }
}

impl Text for DoubleBits {
    ghost use Rattle.ua_fields.specs.Leaves.{double_leaf};

    ghost leaf = { double_leaf };

    fn push_text(
        &self,
        _alloc: Global,
        out: &mut String,
        style: FieldStyle,
    ) -> Result<(), AllocError> {
        if style.plain {
            push_double(out, *self)
        } else {
            push_wide_pattern(out, self.bits)
        }
    }
}

impl Text for DateTime {
    ghost use Rattle.ua_fields.specs.Tree.{moment_of};

    ghost leaf = { moment_of };

    fn push_text(
        &self,
        _alloc: Global,
        out: &mut String,
        style: FieldStyle,
    ) -> Result<(), AllocError> {
        if style.plain {
            push_moment(out, *self)
        } else {
            write!(out, "{}", self.ticks)
        }
    }
}

impl Text for StatusCode {
    ghost use Rattle.ua_fields.specs.Leaves.{code_leaf};

    ghost leaf = { code_leaf };

    fn push_text(
        &self,
        _alloc: Global,
        out: &mut String,
        style: FieldStyle,
    ) -> Result<(), AllocError> {
        push_code_as(out, *self, style.names)
    }
}

impl Text for UaString {
    ghost use Rattle.ua_fields.specs.Leaves.{string_leaf};

    ghost leaf = { string_leaf };

    fn push_text(
        &self,
        _alloc: Global,
        out: &mut String,
        _style: FieldStyle,
    ) -> Result<(), AllocError> {
        push_escaped_string(out, self)
    }
}

impl Text for UaBytes {
    ghost use Rattle.ua_fields.specs.Leaves.{bytes_leaf};

    ghost leaf = { bytes_leaf };

    fn push_text(
        &self,
        _alloc: Global,
        out: &mut String,
        _style: FieldStyle,
    ) -> Result<(), AllocError> {
        push_base64(out, self)
    }
}

impl Text for NodeId {
    ghost use Rattle.ua_fields.specs.Leaves.{node_leaf};

    ghost leaf = { node_leaf };

    fn push_text(
        &self,
        alloc: Global,
        out: &mut String,
        _style: FieldStyle,
    ) -> Result<(), AllocError> {
        push_node(alloc, out, self)
    }
}

impl Text for QualifiedName {
    ghost use Rattle.ua_fields.specs.Leaves.{name_leaf};

    ghost leaf = { name_leaf };

    #[tactic(auto, unfolding(crate::specs::Leaves::encoded_text))]
    fn push_text(
        &self,
        alloc: Global,
        out: &mut String,
        style: FieldStyle,
    ) -> Result<(), AllocError> {
        let is_null = is_null_name(self);
        if style.plain && !is_null {
            push_plain_name(out, self, false)
        } else {
            push_encoded_or_null(alloc, out, is_null, self)
        }
    }
}

impl Text for LocalizedText {
    ghost use Rattle.ua_fields.specs.Leaves.{localized_leaf};

    ghost leaf = { localized_leaf };

    #[tactic(auto, unfolding(crate::specs::Leaves::encoded_text))]
    fn push_text(
        &self,
        alloc: Global,
        out: &mut String,
        style: FieldStyle,
    ) -> Result<(), AllocError> {
        let is_null = is_null_text(self);
        if style.plain && !is_null {
            push_plain_localized(out, self, false)
        } else {
            push_encoded_or_null(alloc, out, is_null, self)
        }
    }
}

impl Text for DiagnosticInfo {
    ghost use Rattle.ua_fields.specs.Leaves.{diagnostic_leaf};

    ghost leaf = { diagnostic_leaf };

    #[tactic(auto, unfolding(crate::specs::Leaves::encoded_text))]
    fn push_text(
        &self,
        alloc: Global,
        out: &mut String,
        style: FieldStyle,
    ) -> Result<(), AllocError> {
        let is_null = is_empty(self);
        if style.plain && !is_null {
            push_diagnostic(out, self, style.names)
        } else {
            push_encoded_or_null(alloc, out, is_null, self)
        }
    }
}

impl Text for HeldVariant {
    ghost use Rattle.ua_fields.specs.Tree.{value_of};

    ghost leaf = { value_of };

    fn push_text(
        &self,
        alloc: Global,
        out: &mut String,
        style: FieldStyle,
    ) -> Result<(), AllocError> {
        if style.plain {
            push_plain_variant(alloc, out, self.get(), style.names)
        } else {
            push_variant(alloc, out, self.get())
        }
    }
}
