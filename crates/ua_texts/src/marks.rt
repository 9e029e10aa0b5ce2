//! Texts between delimiters, which are called marks.

ghost use Rattle.std.specs.Prelude.{◌≡◌, ◌++◌, string_bytes, OnOk, Some, None, if◌then◌else◌};
ghost use Rattle.ua_texts.specs.Marks.{before_bar, before_semicolon, is_mark, marked};
ghost use Rattle.ua_texts.specs.Marks.{marked_char, marked_string, of as marks_of};

use crate::text::{push_char, push_escaped_octet};
use std::alloc::AllocError;
use ua_builtin::UaString;

/// The characters that delimit a text, and are escaped in it.
#[derive(Clone, Copy, PartialEq, Eq, Debug)]
pub struct Marks {
    /// A bar follows the text.
    pub bar: bool,
    /// A semicolon follows the text.
    pub semicolon: bool,
    /// The text is within an array or within brackets.
    pub within: bool,
}

impl Marks {
    /// The marks of a text alone, or within an array or brackets.
    pub fn of(within: bool) -> Marks
        ensures { result ≡ marks_of within }
    {
        Marks {
            bar: false,
            semicolon: false,
            within,
        }
    }

    /// The marks of a text before a bar.
    pub(crate) fn before_bar(within: bool) -> Marks
        ensures { result ≡ before_bar within }
    {
        Marks {
            bar: true,
            semicolon: false,
            within,
        }
    }

    /// The marks of a text before a semicolon.
    pub(crate) fn before_semicolon(within: bool) -> Marks
        ensures { result ≡ before_semicolon within }
    {
        Marks {
            bar: false,
            semicolon: true,
            within,
        }
    }
}

/// Appends a text with each mark by its digits, and each other character as it is shown.
pub(crate) fn push_marked(out: &mut String, text: &str, marks: Marks) -> Result<(), AllocError>
    ensures { OnOk result (string_bytes out.new ≡ string_bytes out.old ++ marked marks text.now) }
{
    for c in text.chars() {
        push_marked_char(out, c, marks)?;
    }
    Ok(())
}

/// Appends a character of a text between marks: a mark by its digits, any other as it is shown.
pub(crate) fn push_marked_char(out: &mut String, c: char, marks: Marks) -> Result<(), AllocError>
    ensures { OnOk result (string_bytes out.new ≡ string_bytes out.old ++ marked_char marks c) }
{
    match mark_octet(c, marks) {
        Some(octet) => push_escaped_octet(out, octet),
        None => push_char(out, c),
    }
}

/// The byte of a mark.
fn mark_octet(c: char, marks: Marks) -> Option<u8>
    ensures { result ≡ (if is_mark marks c then Some c else None) }
{
    let is_mark = match c {
        '|' => marks.bar,
        ';' => marks.semicolon,
        ',' | '(' | ')' | '{' | '}' => marks.within,
        _ => false,
    };
    if is_mark { Some(c as u8) } else { None }
}

/// Appends a String with its marks escaped, null as `null`.
pub(crate) fn push_marked_string(
    out: &mut String,
    text: &UaString,
    marks: Marks,
) -> Result<(), AllocError>
    ensures { OnOk result (string_bytes out.new ≡ string_bytes out.old ++ marked_string marks text.now) }
{
    match text.as_str() {
        Some(text) => push_marked(out, text, marks),
        None => out.push_str("null"),
    }
}
