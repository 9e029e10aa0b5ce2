//! Questions in the words of a command line.

ghost use Rattle.std.specs.Prelude.{IfOk, IfErr, option_map};
ghost use Rattle.ua_answers.specs.PlainLines.{exact_typed as exact_typed_of};
ghost use Rattle.ua_session.specs.Words.{AreNodes, GivesIdOfWord, GivesRange, GivesRead};
ghost use Rattle.ua_session.specs.Words.{GivesTyped, GivesWrite, NamesNoNodes};

use crate::fault::WordFault;
use crate::question::Question;
use std::alloc::Global;
use ua_answers::exact_typed;
use ua_builtin::{NodeId, UaString};
use ua_nodes::{is_range, parse_type, parse_value};
use ua_variant::Variant;

/// The NodeId that a word denotes; `BadNode` where it denotes none.
fn parse_node(alloc: Global, text: &str) -> Result<NodeId, WordFault>
    ensures { GivesIdOfWord text.now result }
{
    Ok(NodeId::parse_text(alloc, text)?)
}

/// The NodeIds that words denote, in their order.
fn parse_node_list(alloc: Global, texts: &[&str]) -> Result<Vec<NodeId>, WordFault>
    ensures nodes { IfOk result (λ nodes. AreNodes (λ text. text.now) texts.now nodes.items) }
    ensures faults { IfErr result (λ fault. NamesNoNodes (λ text. text.now) texts.now fault) }
{
    let mut nodes = Vec::with_capacity(alloc, texts.len())?;
    for text in texts {
        let node = parse_node(alloc, text)?;
        let Ok(()) = nodes.push(node) else {
            return Err(WordFault::NoMemory);
        };
    }
    Ok(nodes)
}

/// The value that a type and a text denote; `BadValue` where they denote none.
fn parse_typed(alloc: Global, kind: &str, text: &str) -> Result<Variant, WordFault>
    ensures { GivesTyped kind.now text.now result }
{
    let (kind, array) = parse_type(kind).ok_or(WordFault::BadValue)?;
    Ok(parse_value(alloc, kind, array, text)?)
}

/// The index range that a text denotes, null where there is no text; `BadRange` where it denotes
/// none.
fn parse_range(alloc: Global, text: Option<&str>) -> Result<UaString, WordFault>
    ensures { GivesRange (option_map (λ t. t.now) text.entry) result }
{
    let Some(text) = text else {
        return Ok(UaString::null());
    };
    if !is_range(text) {
        return Err(WordFault::BadRange);
    }
    match UaString::from_str(alloc, text) {
        Ok(range) => Ok(range),
        Err(_) => Err(WordFault::NoMemory),
    }
}

impl Question {
    /// The question of the texts of nodes: to read an attribute of them, by its id (OPC 10000-6,
    /// A.1), in their order, or the part of it that an index range selects. `BadNode` where one of
    /// them is not a NodeId, else `BadRange` where the text of the range is not one that `ua_nodes`
    /// serves.
    pub fn parse_read(
        alloc: Global,
        nodes: &[&str],
        attribute: u32,
        range: Option<&str>,
    ) -> Result<Question, WordFault>
        ensures { GivesRead (λ text. text.now) nodes.now attribute (option_map (λ t. t.now) range.entry) result }
    {
        let nodes = match parse_node_list(alloc, nodes) {
            Ok(nodes) => nodes,
            Err(fault) => return Err(fault),
        };
        match parse_range(alloc, range) {
            Ok(range) => Ok(Question::Read {
                nodes,
                attribute,
                range,
            }),
            Err(fault) => Err(fault),
        }
    }

    /// The question of the texts of a node, of a type, as `Int32` or `Int32[]`, and of a value: to
    /// set the Value of the node to this one. `BadNode` where the first is not a NodeId, else
    /// `BadValue` where the others denote no value.
    pub fn parse_write(
        alloc: Global,
        node: &str,
        kind: &str,
        text: &str,
    ) -> Result<Question, WordFault>
        ensures { GivesWrite node.now kind.now text.now result }
    {
        let node = match parse_node(alloc, node) {
            Ok(node) => node,
            Err(fault) => return Err(fault),
        };
        match parse_typed(alloc, kind, text) {
            Ok(value) => Ok(Question::Write(node, value)),
            Err(fault) => Err(fault),
        }
    }

    /// The same, where the value may be written as people write it: a decimal or a time in place of
    /// a bit pattern or of ticks.
    pub fn parse_plain_write(
        alloc: Global,
        node: &str,
        kind: &str,
        text: &str,
    ) -> Result<Question, WordFault>
        ensures { GivesWrite node.now kind.now (exact_typed_of kind.now text.now) result }
    {
        match exact_typed(alloc, kind, text) {
            Ok(exact) => Question::parse_write(alloc, node, kind, &exact),
            Err(_) => Err(WordFault::NoMemory),
        }
    }
}
