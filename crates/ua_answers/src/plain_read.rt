//! Parsing of values in the human-readable form.

ghost use Rattle.std.specs.Prelude.{◌≡◌, ◌++◌, IfOk, IsErrOf, None, OnOk, Some, string_bytes};
ghost use Rattle.ua_nodes.specs.declared.fault.ValueFault.TheVariants.{NotValue};
ghost use Rattle.ua_answers.specs.PlainRead.{exact_element, exact_elements, exact_text as exact_text_of, plain_denoted};
ghost use Rattle.ua_texts.specs.Values.{item_text};
ghost use Rattle.ua_variant.specs.View.{variant_of};

use std::alloc::{AllocError, Global};
use std::fmt::Write;
use ua_nodes::{ValueFault, parse_value};
use ua_plain::{parse_double, parse_float, parse_moment};
use ua_texts::{push_pattern, push_wide_pattern};
use ua_variant::Variant;

/// Parses the text form of a value of a type id, or of an array of it, as `parse_value` of
/// `ua_nodes` does; a Float and a Double may also be a decimal, which gives the nearest number, and
/// a DateTime an RFC 3339 timestamp.
///
/// The error is `NotValue` if the text is none of these, and `OutOfMemory` if an allocation fails.
pub fn parse_plain_value(
    alloc: Global,
    kind: u8,
    array: bool,
    text: &str,
) -> Result<Variant, ValueFault>
    ensures value { IfOk result (λ v. plain_denoted kind array text.now ≡ Some (variant_of v)) }
    ensures none { IsErrOf result NotValue → plain_denoted kind array text.now ≡ None }
{
    let exact = exact_text(alloc, kind, array, text)?;
    parse_value(alloc, kind, array, &exact)
}

/// A text with the bit pattern in place of each decimal, and the ticks in place of each time.
fn exact_text(alloc: Global, kind: u8, array: bool, text: &str) -> Result<String, AllocError>
    ensures { IfOk result (λ exact. string_bytes exact ≡ exact_text_of kind array text.now) }
{
    let mut exact = String::new(alloc);
    push_exact_text(&mut exact, kind, array, text)?;
    Ok(exact)
}

/// Appends a text with the bit pattern in place of each decimal, and the ticks in place of each
/// time.
pub(crate) fn push_exact_text(
    out: &mut String,
    kind: u8,
    array: bool,
    text: &str,
) -> Result<(), AllocError>
    ensures { OnOk result (string_bytes out.new ≡ string_bytes out.old ++ exact_text_of kind array text.now) }
{
    if array {
        push_exact_elements(out, kind, text)
    } else {
        push_exact(out, kind, text)
    }
}

/// Appends the elements of an array in this form, separated by commas.
fn push_exact_elements(out: &mut String, kind: u8, text: &str) -> Result<(), AllocError>
    ensures { OnOk result (string_bytes out.new ≡ string_bytes out.old ++ exact_elements kind text.now) }
{
    let mut index = 0;
    for element in text.split(',') {
        push_exact_item(out, kind, index, element)?;
        index += 1;
    }
    Ok(())
}

/// Appends the element at an index in this way, after a comma unless it is the first.
fn push_exact_item(
    out: &mut String,
    kind: u8,
    index: usize,
    element: &str,
) -> Result<(), AllocError>
    ensures { OnOk result
        (string_bytes out.new ≡ string_bytes out.old ++ item_text index (exact_element kind element.now)) }
{
    if index > 0 {
        out.push_str(",")?;
    }
    push_exact(out, kind, element)
}

/// Appends a Float's or Double's bit pattern for its decimal, a DateTime's ticks for its time, or
/// the text unchanged.
fn push_exact(out: &mut String, kind: u8, text: &str) -> Result<(), AllocError>
    ensures { OnOk result (string_bytes out.new ≡ string_bytes out.old ++ exact_element kind text.now) }
{
    match kind {
        10 => match parse_float(text) {
            Some(value) => push_pattern(out, value.bits),
            None => out.push_str(text),
        },
        11 => match parse_double(text) {
            Some(value) => push_wide_pattern(out, value.bits),
            None => out.push_str(text),
        },
        13 => match parse_moment(text) {
            Some(moment) => write!(out, "{}", moment.ticks),
            None => out.push_str(text),
        },
        _ => out.push_str(text),
    }
}
