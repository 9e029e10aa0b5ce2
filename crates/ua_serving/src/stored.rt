//! The lines of `ua serve --writes`.

ghost use Rattle.std.specs.Prelude.{IfOk, string_bytes};
ghost use Rattle.ua_texts.specs.PlainLeaf.{Adds};
ghost use Rattle.ua_serving.specs.Stored.{AreStoredLines, IsStoredLine, IsValuePart};

use std::alloc::{AllocError, Global};
use ua_server::Written;
use ua_services::WriteValue;
use ua_texts::{push_plain_variant, push_variant};
use ua_variant::HeldVariant;

/// The line for stored items whose lines could not be made, since an allocation failed.
pub const LOST_LINE: &str = "write NoMemory\n";

/// The lines of items that were stored, in their order.
pub(crate) fn stored_lines(
    alloc: Global,
    written: &Written,
    plain: bool,
) -> Result<String, AllocError>
    ensures { IfOk result (λ text. AreStoredLines plain written.now (string_bytes text)) }
{
    let mut text = String::new(alloc);
    let items = written.values(alloc)?;
    push_lines(alloc, &mut text, &items, plain)?;
    Ok(text)
}

/// Appends the lines of items that were stored, in their order.
fn push_lines(
    alloc: Global,
    out: &mut String,
    items: &[WriteValue],
    plain: bool,
) -> Result<(), AllocError>
    ensures { Adds result (string_bytes out.old) (string_bytes out.new) (AreStoredLines plain items.now) }
{
    for item in items {
        push_line(alloc, out, item, plain)?;
    }
    Ok(())
}

/// Appends the line of an item that was stored: `write NODE TYPE VALUE`, with the value as `ua
/// read` prints it.
fn push_line(
    alloc: Global,
    out: &mut String,
    item: &WriteValue,
    plain: bool,
) -> Result<(), AllocError>
    ensures { Adds result (string_bytes out.old) (string_bytes out.new) (IsStoredLine plain item.now) }
{
    let node = item.node_id.to_text(alloc)?;
    out.push_str("write ")?;
    out.push_str(&node)?;
    push_value(alloc, out, &item.value.value, plain)?;
    out.push_str("\n")
}

/// Appends a value after a space, if there is one.
fn push_value(
    alloc: Global,
    out: &mut String,
    value: &Option<HeldVariant>,
    plain: bool,
) -> Result<(), AllocError>
    ensures { Adds result (string_bytes out.old) (string_bytes out.new) (IsValuePart plain value.now) }
{
    let Some(value) = value else {
        return Ok(());
    };
    out.push_str(" ")?;
    if plain {
        push_plain_variant(alloc, out, value.get(), false)
    } else {
        push_variant(alloc, out, value.get())
    }
}
