//! The words of a row: numbers, bytes and texts.
//!
//! Bytes are words of hexadecimal digits. A text stands within `"`; `\t`, `\n`, `\r`, `\s` and `\\`
//! in it are a tab, a line feed, a carriage return, a space and a backslash, `\0` is U+0000, and
//! `\b` the byte order mark. `300*"n_,"` is the text three hundred times, each time with its number,
//! from 0, in the place of `_`.

use crate::values::fault::Fault;
use std::alloc::Global;
use std::str::FromStr;
use ua_builtin::{Octets, Source, Wire};

/// The first word, and those after it.
pub fn cut(words: &str) -> Result<(&str, &str), Fault> {
    words.split_once(' ').ok_or(Fault::NoRow)
}

/// The number that a word is.
pub fn number<T: FromStr>(word: &str) -> Result<T, Fault>
where
    T::Err: Drop,
{
    word.parse::<T>().ok().ok_or(Fault::NoRow)
}

/// The StatusCode of eight hexadecimal digits.
pub fn code_of(word: &str) -> Result<u32, Fault> {
    u32::from_str_radix(word, 16).ok().ok_or(Fault::NoRow)
}

/// The type id of a word, and whether it is that of arrays: `6`, `6[]`.
pub fn type_of(word: &str) -> Result<(u8, bool), Fault> {
    match word.strip_suffix("[]") {
        Some(digits) => Ok((number(digits)?, true)),
        None => Ok((number(word)?, false)),
    }
}

/// The value that bytes encode, with nothing after it.
pub fn value_in<T: Wire + Drop>(alloc: Global, words: &str) -> Result<T, Fault> {
    let digits = words.replace(alloc, ' ', "")?;
    let octets = hex::decode(alloc, digits.as_str())
        .ok()
        .ok_or(Fault::NoRow)?;
    let mut src = Octets::new(octets.as_slice());
    let value = T::read(alloc, &mut src, 100)?;
    if src.left() > 0 {
        drop(value);
        return Err(Fault::NoRow);
    }
    Ok(value)
}

/// The text of a row.
pub fn text_of(alloc: Global, words: &str) -> Result<String, Fault> {
    if words.starts_with('"') {
        return unescaped(alloc, words);
    }
    let (times, words) = words.split_once('*').ok_or(Fault::NoRow)?;
    let unit = unescaped(alloc, words)?;
    numbered(alloc, number(times)?, unit.as_str())
}

/// A text this many times, each with its number in the place of `_`.
fn numbered(alloc: Global, times: u32, unit: &str) -> Result<String, Fault> {
    let mut text = String::new(alloc);
    for number in 0..times {
        let digits = format!(in alloc; "{number}")?;
        let part = unit.replace(alloc, '_', digits.as_str())?;
        text.push_str(part.as_str())?;
    }
    Ok(text)
}

/// The text within quotes.
fn unescaped(alloc: Global, words: &str) -> Result<String, Fault> {
    let written = words.strip_prefix('"').ok_or(Fault::NoRow)?;
    let written = written.strip_suffix('"').ok_or(Fault::NoRow)?;
    let mut text = String::new(alloc);
    let mut is_escaped = false;
    for c in written.chars() {
        if is_escaped {
            text.push(meant(c)?)?;
            is_escaped = false;
        } else if c == '\\' {
            is_escaped = true;
        } else {
            text.push(c)?;
        }
    }
    Ok(text)
}

/// What a character after a backslash means.
fn meant(c: char) -> Result<char, Fault> {
    match c {
        't' => Ok('\t'),
        'n' => Ok('\n'),
        'r' => Ok('\r'),
        's' => Ok(' '),
        '\\' => Ok('\\'),
        '0' => Ok('\0'),
        'b' => Ok('\u{feff}'),
        _ => Err(Fault::NoRow),
    }
}
