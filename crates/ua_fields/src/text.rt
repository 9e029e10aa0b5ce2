//! Texts of values.

ghost use Rattle.std.specs.Prelude.{◌≡◌, ◌++◌, cond, codes, string_bytes, OnOk};
ghost use Rattle.ua_builtin.specs.NodeText.{node_text};
ghost use Rattle.ua_texts.specs.Shown.{escaped, written_text};

use std::alloc::{AllocError, Global};
use ua_builtin::{NodeId, Wire};
use ua_texts::{push_encoded, push_escaped};

/// Appends the text of a NodeId, control characters and backslashes escaped: a text from the
/// network breaks no line.
pub fn push_node(alloc: Global, out: &mut String, node: &NodeId) -> Result<(), AllocError>
    ensures { OnOk result (string_bytes out.new ≡ string_bytes out.old ++ escaped (node_text node.now)) }
{
    let text = node.to_text(alloc)?;
    push_escaped(out, &text)
}

/// Appends the bytes of a value, or `null` for a null one.
pub(crate) fn push_encoded_or_null<T: Wire>(
    alloc: Global,
    out: &mut String,
    is_null: bool,
    value: &T,
) -> Result<(), AllocError>
    ensures { OnOk result (string_bytes out.new ≡ string_bytes out.old ++ cond is_null (codes "null")
        (written_text (T.format.encodable value.now) (T.format.canonical value.now))) }
{
    if is_null {
        return out.push_str("null");
    }
    push_encoded(alloc, out, value)
}
