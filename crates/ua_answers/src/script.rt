//! Scripts and their steps.

ghost use Rattle.std.specs.Prelude.{◌≡◌, ◌∷◌, [], codes, IfOk, IfErr};
ghost use Rattle.ua_nodes.specs.NodeFile.{fields};
ghost use Rattle.ua_answers.specs.Script.{AsksFor, GivesIdOfScriptField, GivesStep, GivesValue};
ghost use Rattle.ua_answers.specs.Script.{IsCutBehindFirst, RefusesScriptLines, range_of};

use crate::fault::{ScriptFault, ScriptLineFault};
use std::alloc::{AllocError, Global};
use ua_builtin::{NodeId, UaString};
use ua_nodes::{MOST_OCTETS, is_read, parse_type, parse_value, without_return};
use ua_variant::Variant;

/// The step that a line of a script requests.
#[derive(Debug, Drop)]
pub enum Step {
    /// Read the Value of a node, or the part of an array that an index range selects.
    Read { node: NodeId, range: UaString },
    /// Write the Value of a node.
    Write { node: NodeId, value: Variant },
    /// Renew the token of the SecureChannel.
    Renew,
}

/// A line of a script with its number, counted from 1.
#[derive(Debug, Drop)]
pub struct ScriptLine {
    pub number: usize,
    pub step: Step,
}

/// Parses the steps of a script. Its lines end at LF, the last one at the end of the text; one CR
/// at the end of a line is dropped. Lines that are empty or begin with `#` are skipped, but
/// counted. Each other line is `read` and a NodeId, optionally followed by an index range; or
/// `write`, a NodeId, a type and a value; or `renew`; with one tab between fields.
pub fn parse_script(alloc: Global, text: &str) -> Result<Vec<ScriptLine>, ScriptFault>
    ensures steps { IfOk result (λ steps. AsksFor text.now steps.items) }
    ensures fault { IfErr result (λ fault. RefusesScriptLines text.now fault) }
{
    let mut steps = Vec::new(alloc);
    let mut number = 0;
    for line in text.split('\n') {
        number += 1;
        let line = without_return(line);
        if !is_read(line) {
            continue;
        }
        match parse_step(alloc, line) {
            Ok(step) => steps.push(ScriptLine { number, step })?,
            Err(fault) => return Err(fault.at(number)),
        }
    }
    Ok(steps)
}

/// The request of a line.
fn parse_step(alloc: Global, line: &str) -> Result<Step, ScriptLineFault>
    ensures { GivesStep (fields line.now) result }
{
    let Some((word, rest)) = line.split_once('\t') else {
        return parse_word(line);
    };
    match word {
        "read" => parse_read(alloc, rest),
        "write" => parse_write(alloc, rest),
        _ => Err(ScriptLineFault::Bad),
    }
}

/// The request of a line of one field.
fn parse_word(line: &str) -> Result<Step, ScriptLineFault>
    ensures { GivesStep (line.now ∷ []) result }
{
    match line {
        "renew" => Ok(Step::Renew),
        _ => Err(ScriptLineFault::Bad),
    }
}

/// The request of a line that begins with `read` and a tab.
fn parse_read(alloc: Global, rest: &str) -> Result<Step, ScriptLineFault>
    ensures { GivesStep (codes "read" ∷ fields rest.now) result }
{
    let (id, range) = split_range(rest);
    if range.contains('\t') {
        return Err(ScriptLineFault::Bad);
    }
    if range.len() > MOST_OCTETS {
        return Err(ScriptLineFault::Bad);
    }
    let node = parse_node(alloc, id)?;
    let range = parse_range(alloc, range)?;
    Ok(Step::Read { node, range })
}

/// The first field, and the text after it, which is empty if there is no other field.
fn split_range(rest: &str) -> (&str, &str)
    ensures { IsCutBehindFirst rest.now result.0.now result.1.now }
{
    rest.split_once('\t').unwrap_or((rest, ""))
}

/// The request of a line that begins with `write` and a tab.
fn parse_write(alloc: Global, rest: &str) -> Result<Step, ScriptLineFault>
    ensures { GivesStep (codes "write" ∷ fields rest.now) result }
{
    let Some((id, rest)) = rest.split_once('\t') else {
        return Err(ScriptLineFault::Bad);
    };
    let Some((kind, text)) = rest.split_once('\t') else {
        return Err(ScriptLineFault::Bad);
    };
    if text.contains('\t') {
        return Err(ScriptLineFault::Bad);
    }
    let node = parse_node(alloc, id)?;
    let value = parse_typed(alloc, kind, text)?;
    Ok(Step::Write { node, value })
}

/// The NodeId that a field names.
fn parse_node(alloc: Global, text: &str) -> Result<NodeId, ScriptLineFault>
    ensures { GivesIdOfScriptField text.now result }
{
    if text.len() > MOST_OCTETS {
        return Err(ScriptLineFault::Bad);
    }
    Ok(NodeId::parse_text(alloc, text)?)
}

/// The index range of a field, null if it is empty.
fn parse_range(alloc: Global, text: &str) -> Result<UaString, AllocError>
    ensures { IfOk result (λ range. range ≡ range_of text.now) }
{
    if text.is_empty() {
        return Ok(UaString::null());
    }
    UaString::from_str(alloc, text)
}

/// The value that a type and a text denote.
fn parse_typed(alloc: Global, kind: &str, text: &str) -> Result<Variant, ScriptLineFault>
    ensures { GivesValue kind.now text.now result }
{
    let (kind, array) = parse_type(kind).ok_or(ScriptLineFault::Bad)?;
    Ok(parse_value(alloc, kind, array, text)?)
}
