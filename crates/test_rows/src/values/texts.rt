//! Values as texts: names of types, the texts of node files, and what the program prints.

use crate::values::fault::Fault;
use crate::values::shown::{encoded, page, quoted};
use crate::values::words::{cut, text_of, type_of, value_in};
use std::alloc::Global;
use ua_answers::parse_plain_value;
use ua_nodes::{parse_type, parse_value};
use ua_texts::{push_plain_variant, push_variant};
use ua_variant::Variant;

/// The type that a text names: its id, with `[]` after it where it is that of arrays.
pub fn type_named(alloc: Global, words: &str) -> Result<String, Fault> {
    let text = text_of(alloc, words)?;
    let (kind, is_array) = parse_type(text.as_str()).ok_or(Fault::NoValue)?;
    let brackets = if is_array { "[]" } else { "" };
    Ok(format!(in alloc; "{kind}{brackets}")?)
}

/// The bytes of the value of a type that a text denotes.
pub fn value(alloc: Global, words: &str) -> Result<String, Fault> {
    let (kind, words) = cut(words)?;
    let (kind, is_array) = type_of(kind)?;
    let text = text_of(alloc, words)?;
    octets(alloc, kind, is_array, text.as_str())
}

fn octets(alloc: Global, kind: u8, is_array: bool, text: &str) -> Result<String, Fault> {
    encoded(alloc, &parse_value(alloc, kind, is_array, text)?)
}

/// The bytes of the value of a type that a text denotes where people write decimals and times.
pub fn plain_value(alloc: Global, words: &str) -> Result<String, Fault> {
    let (kind, words) = cut(words)?;
    let (kind, is_array) = type_of(kind)?;
    let text = text_of(alloc, words)?;
    plain_octets(alloc, kind, is_array, text.as_str())
}

fn plain_octets(alloc: Global, kind: u8, is_array: bool, text: &str) -> Result<String, Fault> {
    encoded(alloc, &parse_plain_value(alloc, kind, is_array, text)?)
}

/// What a Variant prints as, and the bytes of the value that its type and its text denote.
pub fn print(alloc: Global, words: &str) -> Result<String, Fault> {
    let value = value_in::<Variant>(alloc, words)?;
    let mut out = page(alloc);
    push_variant(alloc, &mut out, &value)?;
    drop(value);
    let denoted = back(alloc, out.as_str());
    printed(alloc, out.as_str(), denoted)
}

fn back(alloc: Global, text: &str) -> Result<String, Fault> {
    let (kind, text) = cut(text)?;
    let (kind, is_array) = parse_type(kind).ok_or(Fault::NoValue)?;
    octets(alloc, kind, is_array, text)
}

/// What a Variant prints as where people read it, with the names of StatusCodes or without, and the
/// bytes of the value that its type and its text denote there.
pub fn plain(alloc: Global, words: &str, names: bool) -> Result<String, Fault> {
    let value = value_in::<Variant>(alloc, words)?;
    let mut out = page(alloc);
    push_plain_variant(alloc, &mut out, &value, names)?;
    drop(value);
    let denoted = plain_back(alloc, out.as_str());
    printed(alloc, out.as_str(), denoted)
}

fn plain_back(alloc: Global, text: &str) -> Result<String, Fault> {
    let (kind, text) = cut(text)?;
    let (kind, is_array) = parse_type(kind).ok_or(Fault::NoValue)?;
    plain_octets(alloc, kind, is_array, text)
}

/// A text, and the bytes that it denotes, if any.
fn printed(alloc: Global, text: &str, denoted: Result<String, Fault>) -> Result<String, Fault> {
    let text = quoted(alloc, text)?;
    match denoted {
        Ok(octets) => Ok(format!(in alloc; "{text} back {octets}")?),
        Err(Fault::Memory) => Err(Fault::Memory),
        Err(_) => Ok(text),
    }
}
