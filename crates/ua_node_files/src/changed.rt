//! What a new reading of a node file changes.

ghost use Rattle.std.specs.Prelude.{◌≡◌, ◌++◌, ◌∷◌, [], ℕ, List, IfOk, IfErr, OnOk, map, filter};
ghost use Rattle.std.specs.BTreeSet.{contains_by};
ghost use Rattle.std.specs.Cmp.Lexicographic.{slice_cmp};
ghost use Rattle.std.specs.Map.Iter.{deref_pair};
ghost use Rattle.std.specs.Option.{option_copied, option_map};
ghost use Rattle.std.specs.Ordering.{nat_cmp};
ghost use Rattle.ua_nodes.specs.NodeFile.{RefusesNodeFile, is_read as is_read_line, node_lines};
ghost use Rattle.ua_nodes.specs.Sound.{AreNodesSound};
ghost use Rattle.ua_node_files.specs.Changed.{Changes, changed_of, entry_of, is_among};
ghost use Rattle.ua_node_files.specs.Changed.{is_known_at, nodes_of_new, one_new, written_lines};

use std::alloc::{AllocError, Global};
use std::collections::BTreeSet;
use ua_builtin::NodeId;
use ua_nodes::{LoadFault, Node, NodeTable, Variable, is_read, without_return};

/// The nodes that a new reading of a node file changes, in the order of their lines: those whose
/// lines the text `last` lacks. Their lines differ from those of the last reading, or they came.
/// Fails where [`NodeTable::load`] of the new reading does.
#[tactic(auto, using(crate::proofs::Changing::changes_so))]
pub fn changed_nodes(alloc: Global, last: &str, text: &str) -> Result<Vec<Node>, LoadFault>
    ensures changes { IfOk result (λ changed. Changes last.now text.now (map entry_of changed.items)) }
    ensures sound { IfOk result (λ changed. AreNodesSound (map entry_of changed.items)) }
    ensures fault { IfErr result (λ fault. RefusesNodeFile (node_lines text.now) fault) }
{
    let nodes = match NodeTable::load(alloc, text) {
        Ok(nodes) => nodes,
        Err(fault) => return Err(fault),
    };
    match pick_changed(alloc, last, text, &nodes) {
        Ok(changed) => Ok(changed),
        Err(AllocError) => Err(LoadFault::OutOfMemory),
    }
}

/// Copies of the nodes of a text whose lines the text `last` lacks.
fn pick_changed<'t>(
    alloc: Global,
    last: &'t str,
    text: &'t str,
    nodes: &NodeTable,
) -> Result<Vec<Node>, AllocError>
    requires { AreNodesSound nodes.now }
    ensures picked { IfOk result (λ changed. map entry_of changed.items ≡ changed_of last.now text.now nodes.now) }
    ensures sound { IfOk result (λ changed. AreNodesSound (map entry_of changed.items)) }
{
    let before = lines_written(alloc, last)?;
    let known = set_of(alloc, &before)?;
    let lines = lines_written(alloc, text)?;
    copy_new(alloc, &known, &lines, nodes)
}

/// The lines of a text that write nodes, in order.
fn lines_written<'t>(alloc: Global, text: &'t str) -> Result<Vec<&'t str>, AllocError>
    ensures { IfOk result (λ lines. map (λ line. line.now) lines.items ≡ written_lines text.now) }
{
    let mut lines = Vec::new(alloc);
    for line in text.split('\n') {
        push_written(&mut lines, without_return(line))?;
    }
    Ok(lines)
}

/// Adds a line, if it writes a node.
#[tactic(auto, using(crate::proofs::Changing::pushed_line, crate::proofs::Changing::left_line))]
fn push_written<'t>(lines: &mut Vec<&'t str>, line: &'t str) -> Result<(), AllocError>
    ensures { OnOk result (map (λ line. line.now) lines.new.items ≡ map (λ line. line.now) lines.old.items
        ++ filter is_read_line (line.now ∷ [])) }
{
    if is_read(line) {
        lines.push(line)?;
    }
    Ok(())
}

/// The set of these lines.
fn set_of<'t>(alloc: Global, lines: &[&'t str]) -> Result<BTreeSet<&'t str>, AllocError>
    ensures { IfOk result (λ known. (line : List ℕ) → contains_by (λ k. slice_cmp nat_cmp line k.now) known
        ≡ is_among (map (λ line. line.now) lines.now) line) }
{
    lines.iter().copied().collect(alloc)
}

/// Copies of the nodes whose lines are not known. The lines are those of the nodes, in order.
fn copy_new<'t>(
    alloc: Global,
    known: &BTreeSet<&'t str>,
    lines: &[&'t str],
    nodes: &NodeTable,
) -> Result<Vec<Node>, AllocError>
    ensures { IfOk result
        (λ changed. map entry_of changed.items
        ≡ nodes_of_new (λ line. contains_by (λ k. slice_cmp nat_cmp line k.now) known.now)
        (map (λ line. line.now) lines.now) nodes.now) }
{
    let mut changed = Vec::new(alloc);
    for place in 0..lines.len() {
        let is_known = has_line(known, lines.get(place));
        push_new(alloc, &mut changed, is_known, nodes.get_index(place))?;
    }
    Ok(changed)
}

/// Whether a line is in the set, where there is one.
fn has_line<'t>(known: &BTreeSet<&'t str>, line: Option<&&'t str>) -> bool
    ensures { result ≡ is_known_at (λ line. contains_by (λ k. slice_cmp nat_cmp line k.now) known.now)
        (option_copied line.entry) }
{
    match line {
        Some(line) => known.contains(line),
        None => true,
    }
}

/// Adds a copy of a node, if there is one and its line is not known.
fn push_new(
    alloc: Global,
    changed: &mut Vec<Node>,
    is_known: bool,
    found: Option<(&NodeId, &Variable)>,
) -> Result<(), AllocError>
    ensures { OnOk result (map entry_of changed.new.items ≡ map entry_of changed.old.items ++ one_new is_known
        (option_map deref_pair found.entry)) }
{
    if let Some((id, variable)) = found {
        if !is_known {
            changed.push(copy_of(alloc, id, variable)?)?;
        }
    }
    Ok(())
}

/// A copy of a node of a table.
fn copy_of(alloc: Global, id: &NodeId, variable: &Variable) -> Result<Node, AllocError>
    ensures { IfOk result (λ node. entry_of node ≡ (id.now, variable.now)) }
{
    Ok(Node {
        id: id.try_clone()?,
        name: variable.name.try_clone()?,
        kind: variable.kind,
        array: variable.array,
        access: variable.access,
        value: variable.value.try_clone(alloc)?,
        status: variable.status,
        source_time: variable.source_time,
        source_picoseconds: variable.source_picoseconds,
    })
}
