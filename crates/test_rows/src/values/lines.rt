//! The lines that the program prints: of the answers to a Read, and of endpoints.

use crate::values::fault::Fault;
use crate::values::shown::{page, quoted};
use crate::values::words::{cut, value_in};
use std::alloc::Global;
use ua_answers::{EndpointStyle, LineStyle, push_endpoint_line, push_read_line};
use ua_builtin::NodeId;
use ua_structures::EndpointDescription;
use ua_variant::DataValue;

/// The style that a word names.
pub fn style_of(word: &str) -> LineStyle {
    LineStyle {
        names: word.contains("names"),
        times: word.contains("times"),
        json: word.contains("json"),
    }
}

/// The line of the answer to an item of a Read, in the style of the first word.
pub fn read_line(alloc: Global, words: &str) -> Result<String, Fault> {
    let (style, words) = cut(words)?;
    let (node, words) = cut(words)?;
    let node = NodeId::parse_text(alloc, node)?;
    let answer = value_in::<DataValue>(alloc, words)?;
    let mut out = page(alloc);
    push_read_line(alloc, &mut out, &node, &answer, style_of(style))?;
    drop(answer);
    quoted(alloc, out.as_str())
}

/// The lines of an endpoint, in the style of the first word.
pub fn endpoint(alloc: Global, words: &str) -> Result<String, Fault> {
    let (style, words) = cut(words)?;
    let style = EndpointStyle {
        policies: style.contains("policies"),
        json: style.contains("json"),
    };
    let endpoint = value_in::<EndpointDescription>(alloc, words)?;
    let mut out = page(alloc);
    push_endpoint_line(alloc, &mut out, &endpoint, style)?;
    drop(endpoint);
    quoted(alloc, out.as_str())
}
