//! The texts of NodeIds, and node files.

use crate::values::fault::Fault;
use crate::values::shown::encoded;
use crate::values::words::{text_of, value_in};
use std::alloc::Global;
use ua_builtin::NodeId;
use ua_nodes::{LoadFault, NodeTable};

/// The NodeId that a text names: its bytes, and its own text.
pub fn named(alloc: Global, text: &str) -> Result<String, Fault> {
    let node = NodeId::parse_text(alloc, text)?;
    let octets = encoded(alloc, &node)?;
    let text = node.to_text(alloc)?;
    Ok(format!(in alloc; "{octets} {text}")?)
}

/// The text of the NodeId that bytes encode.
pub fn text(alloc: Global, words: &str) -> Result<String, Fault> {
    Ok(value_in::<NodeId>(alloc, words)?.to_text(alloc)?)
}

/// How many nodes a node file has, or its first bad line and the reason.
pub fn load(alloc: Global, words: &str) -> Result<String, Fault> {
    let text = text_of(alloc, words)?;
    match NodeTable::load(alloc, text.as_str()) {
        Ok(table) => {
            let count = table.len();
            Ok(format!(in alloc; "{count} nodes")?)
        }
        Err(LoadFault::Line { line, reason }) => Ok(format!(in alloc; "line {line} {reason}")?),
        Err(LoadFault::OutOfMemory) => Err(Fault::Memory),
    }
}
