//! Node files.

ghost use Rattle.std.specs.Prelude.{◌≡◌, ◌≢◌, ◌+◌, ◌*◌, ◌≤◌, ◌∷◌, [], length, MatchOption, IfOk, IfErr, OnOk};
ghost use Rattle.std.specs.Str.Lines.{strip_carriage_return};
ghost use Rattle.ua_nodes.specs.NodeFile.{node_lines, WriteNodes, RefusesNodeFile};
ghost use Rattle.ua_nodes.specs.NodeFile.{AddsNodeOfLine, RefusesLine, GivesNode};
ghost use Rattle.ua_nodes.specs.NodeFile.{GivesId, GivesName, access_denoted, fields, is_read as is_read_line};
ghost use Rattle.ua_nodes.specs.Sound.{AreNodesSound};

use crate::fault::{LineFault, LineReason, LoadFault};
use crate::node::{Access, Node};
use crate::table::NodeTable;
use crate::type_name::parse_type;
use crate::value::{MOST_OCTETS, parse_value};
use std::alloc::Global;
use ua_builtin::{NodeId, UaString};

impl NodeTable {
    /// Loads the nodes of a node file. Its lines end at LF, the last one at the end of the text;
    /// one CR at the end of a line is dropped. Lines that are empty or begin with `#` are skipped,
    /// but counted. Each other line has five fields with one tab between them: a NodeId in its text
    /// form, `r`, `w`, `rw` or `-`, a name, a type and a value.
    pub fn load(alloc: Global, text: &str) -> Result<NodeTable, LoadFault>
        ensures nodes { IfOk result (λ t. WriteNodes (node_lines text.now) t) }
        ensures fault { IfErr result (λ e. RefusesNodeFile (node_lines text.now) e) }
        ensures sound { IfOk result (λ t. AreNodesSound t) }
    {
        let mut table = NodeTable::new(alloc);
        table.make_room(most_nodes(text));
        let mut number = 0;
        for line in text.split('\n') {
            number += 1;
            if let Err(fault) = table.add_line(alloc, without_return(line)) {
                return Err(fault.at(number));
            }
        }
        Ok(table)
    }

    /// Appends the node of a line, unless the line is skipped.
    fn add_line(&mut self, alloc: Global, line: &str) -> Result<(), LineFault>
        ensures adds { OnOk result (AddsNodeOfLine line.now self.old self.new) }
        ensures refuses { IfErr result (λ e. RefusesLine line.now self.old e) }
    {
        if !is_read(line) {
            return Ok(());
        }
        self.insert(parse_node(alloc, line)?)?;
        Ok(())
    }
}

/// The bytes of the shortest line that writes a node, with its LF.
const LEAST_OCTETS: usize = 14;

/// How many nodes a file may write, at most: no more than its bytes have room for.
fn most_nodes(text: &str) -> usize
    ensures { 14 * result ≤ length text.now + 14 }
{
    let lines = text.split('\n').filter(|line| is_read(line)).count();
    lines.min(text.len() / LEAST_OCTETS + 1)
}

/// Whether a line of a file is neither empty nor a comment, which begins with `#`.
pub fn is_read(line: &str) -> bool
    ensures { result ≡ is_read_line line.now }
{
    !line.is_empty() && !line.starts_with('#')
}

/// A line of a file without the CR at its end, if it has one.
pub fn without_return(line: &str) -> &str
    ensures { result.now ≡ strip_carriage_return line.now }
{
    line.strip_suffix('\r').unwrap_or(line)
}

/// The fields of a line.
#[derive(Clone, Copy)]
struct Fields<'a> {
    id: &'a str,
    access: &'a str,
    name: &'a str,
    kind: &'a str,
    value: &'a str,
}

/// The five fields of a line, if it has just five.
fn split_fields(line: &str) -> Option<Fields<'_>>
    ensures { MatchOption result (length (fields line.now) ≢ 5)
        (λ f. fields line.now ≡ f.id.now ∷ f.access.now ∷ f.name.now ∷ f.kind.now ∷ f.value.now ∷ []) }
{
    let (id, rest) = line.split_once('\t')?;
    let (access, rest) = rest.split_once('\t')?;
    let (name, rest) = rest.split_once('\t')?;
    let (kind, value) = rest.split_once('\t')?;
    if value.contains('\t') {
        return None;
    }
    Some(Fields {
        id,
        access,
        name,
        kind,
        value,
    })
}

/// The node that a line writes.
fn parse_node(alloc: Global, line: &str) -> Result<Node, LineFault>
    ensures { GivesNode line.now result }
{
    let fields = split_fields(line).ok_or(LineReason::Fields)?;
    let id = parse_id(alloc, fields.id)?;
    let access = parse_access(fields.access).ok_or(LineReason::Access)?;
    let name = parse_name(alloc, fields.name)?;
    let (kind, array) = parse_type(fields.kind).ok_or(LineReason::Kind)?;
    let value = parse_value(alloc, kind, array, fields.value)?;
    Ok(Node {
        id,
        name,
        kind,
        array,
        access,
        value,
        status: None,
        source_time: None,
        source_picoseconds: None,
    })
}

fn parse_id(alloc: Global, text: &str) -> Result<NodeId, LineFault>
    ensures { GivesId text.now result }
{
    if text.len() > MOST_OCTETS {
        return Err(LineFault::Bad(LineReason::Node));
    }
    Ok(NodeId::parse_text(alloc, text)?)
}

fn parse_access(text: &str) -> Option<Access>
    ensures { result ≡ access_denoted text.now }
{
    let (readable, writable) = match text {
        "r" => (true, false),
        "w" => (false, true),
        "rw" => (true, true),
        "-" => (false, false),
        _ => return None,
    };
    Some(Access { readable, writable })
}

fn parse_name(alloc: Global, text: &str) -> Result<UaString, LineFault>
    ensures { GivesName text.now result }
{
    if text.is_empty() || text.len() > MOST_OCTETS {
        return Err(LineFault::Bad(LineReason::Name));
    }
    Ok(UaString::from_str(alloc, text)?)
}
