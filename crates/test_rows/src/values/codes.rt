//! Status codes with their names, and the lines of the answers to a Write.

use crate::values::fault::Fault;
use crate::values::lines::style_of;
use crate::values::shown::{page, quoted};
use crate::values::words::{code_of, cut};
use std::alloc::Global;
use ua_answers::push_write_line;
use ua_builtin::{NodeId, StatusCode};
use ua_texts::push_code_as;

/// A StatusCode with its name.
pub fn named(alloc: Global, words: &str) -> Result<String, Fault> {
    let code = code_of(words)?;
    let mut out = page(alloc);
    push_code_as(&mut out, StatusCode { code }, true)?;
    quoted(alloc, out.as_str())
}

/// The line of the answer to an item of a Write, in the style of the first word.
pub fn write_line(alloc: Global, words: &str) -> Result<String, Fault> {
    let (style, words) = cut(words)?;
    let (node, code) = cut(words)?;
    let code = code_of(code)?;
    let node = NodeId::parse_text(alloc, node)?;
    let mut out = page(alloc);
    push_write_line(alloc, &mut out, &node, StatusCode { code }, style_of(style))?;
    quoted(alloc, out.as_str())
}
