//! What is printed of values and texts.

use crate::values::fault::Fault;
use std::alloc::Global;
use ua_builtin::Wire;

/// The canonical encoding of a value, as hexadecimal digits.
pub fn encoded<T: Wire>(alloc: Global, value: &T) -> Result<String, Fault> {
    let mut octets = Vec::new(alloc);
    value.write(&mut octets)?;
    Ok(hex::encode(alloc, octets.as_slice())?)
}

/// A text within quotes, with `\n` for a line feed and `\\` for a backslash.
pub fn quoted(alloc: Global, text: &str) -> Result<String, Fault> {
    let text = text.replace(alloc, '\\', "\\\\")?;
    let text = text.replace(alloc, '\n', "\\n")?;
    Ok(format!(in alloc; "\"{text}\"")?)
}

/// A text to print into. It says nothing of being empty: a proof that knew it would unfold all that
/// is printed.
pub fn page(alloc: Global) -> String {
    String::new(alloc)
}
