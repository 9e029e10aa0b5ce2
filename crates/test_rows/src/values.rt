//! Rows of values: their texts, the lines that the program prints of them, and node files.

mod codes;
mod fault;
mod lines;
mod nodes;
mod shown;
mod texts;
mod words;

use crate::values::fault::Fault;
use std::alloc::{AllocError, Global};

/// The answer to a row of values; none, where the line is of another kind.
pub fn answered(alloc: Global, line: &str) -> Result<Option<String>, AllocError> {
    let Some((kind, words)) = line.split_once(' ') else {
        return Ok(None);
    };
    match answer(alloc, kind, words) {
        Ok(text) => Ok(Some(text)),
        Err(Fault::OtherKind) => Ok(None),
        Err(fault) => Ok(Some(String::from_str(alloc, fault.text())?)),
    }
}

fn answer(alloc: Global, kind: &str, words: &str) -> Result<String, Fault> {
    match kind {
        "type" => texts::type_named(alloc, words),
        "value" => texts::value(alloc, words),
        "plain-value" => texts::plain_value(alloc, words),
        "print" => texts::print(alloc, words),
        "plain" => texts::plain(alloc, words, false),
        "plain-names" => texts::plain(alloc, words, true),
        "node" => nodes::named(alloc, words),
        "text" => nodes::text(alloc, words),
        "load" => nodes::load(alloc, words),
        _ => line_answer(alloc, kind, words),
    }
}

fn line_answer(alloc: Global, kind: &str, words: &str) -> Result<String, Fault> {
    match kind {
        "named" => codes::named(alloc, words),
        "write-line" => codes::write_line(alloc, words),
        "read-line" => lines::read_line(alloc, words),
        "endpoint" => lines::endpoint(alloc, words),
        _ => Err(Fault::OtherKind),
    }
}
