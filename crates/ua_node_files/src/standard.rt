//! The nodes of namespace 0 that clients read first.

ghost use Rattle.std.specs.Prelude.{◌≡◌, ◌++◌, IfOk, OnOk, codes, map, string_bytes};
ghost use Rattle.std.specs.List.{flat_map};
ghost use Rattle.ua_node_files.specs.Standard.{added_line, lacks as lacks_node, limit_lines, standard_line_of};
ghost use Rattle.ua_node_files.specs.Standard.{more_uris, namespace_array, server_lines, standard_text};

use std::alloc::{AllocError, Global};
use ua_builtin::{Identifier, NodeId};
use ua_nodes::NodeTable;

/// The line of the NamespaceArray but for the URIs that the file names.
const NAMESPACE_ARRAY: &str =
    "i=2255\tr\tNamespaceArray\tString[]\thttp://opcfoundation.org/UA/,urn:ua:server";

/// The text of a node file that writes these nodes, followed by a line for each standard node that
/// they lack (OPC 10000-5, 6.3): the ServerArray, the NamespaceArray, which ends with these URIs,
/// the server's time and state, its ServiceLevel, and the maximum number of nodes in a Read and in
/// a Write.
pub fn with_standard(
    alloc: Global,
    text: &str,
    nodes: &NodeTable,
    uris: &[&str],
) -> Result<String, AllocError>
    ensures { IfOk result
        (λ whole. string_bytes whole ≡ standard_text nodes.now (map (λ uri. uri.now) uris.now) text.now) }
{
    let mut whole = String::from_str(alloc, text)?;
    push_server(&mut whole, nodes, uris)?;
    push_limits(&mut whole, nodes)?;
    Ok(whole)
}

/// Appends the lines that say what the server is and how it is, where their nodes are lacking.
fn push_server(out: &mut String, nodes: &NodeTable, uris: &[&str]) -> Result<(), AllocError>
    ensures { OnOk result (string_bytes out.new ≡ string_bytes out.old ++ flat_map (added_line nodes.now)
        (server_lines (map (λ uri. uri.now) uris.now))) }
{
    push_line(
        out,
        nodes,
        2254,
        "i=2254\tr\tServerArray\tString[]\turn:ua:server",
    )?;
    push_namespace_array(out, nodes, uris)?;
    push_line(out, nodes, 2258, "i=2258\tr\tCurrentTime\tDateTime\t0")?;
    push_line(out, nodes, 2259, "i=2259\tr\tState\tInt32\t0")?;
    push_line(out, nodes, 2267, "i=2267\tr\tServiceLevel\tByte\t255")
}

/// Appends the lines that say what the server takes at once, where their nodes are lacking.
fn push_limits(out: &mut String, nodes: &NodeTable) -> Result<(), AllocError>
    ensures { OnOk result (string_bytes out.new ≡ string_bytes out.old ++ flat_map (added_line nodes.now) limit_lines) }
{
    push_line(
        out,
        nodes,
        11705,
        "i=11705\tr\tMaxNodesPerRead\tUInt32\t1000",
    )?;
    push_line(
        out,
        nodes,
        11707,
        "i=11707\tr\tMaxNodesPerWrite\tUInt32\t1000",
    )
}

/// Appends the line of a node of namespace 0, where the nodes have none of this number.
fn push_line(out: &mut String, nodes: &NodeTable, number: u32, line: &str) -> Result<(), AllocError>
    ensures { OnOk result (string_bytes out.new ≡ string_bytes out.old ++ added_line nodes.now
        (standard_line_of number line.now)) }
{
    if !lacks(nodes, number) {
        return Ok(());
    }
    out.push_str("\n")?;
    out.push_str(line)
}

/// Appends the line of the NamespaceArray, which ends with these URIs, where its node is lacking.
fn push_namespace_array(
    out: &mut String,
    nodes: &NodeTable,
    uris: &[&str],
) -> Result<(), AllocError>
    ensures { OnOk result (string_bytes out.new ≡ string_bytes out.old ++ added_line nodes.now
        (namespace_array (map (λ uri. uri.now) uris.now))) }
{
    if !lacks(nodes, 2255) {
        return Ok(());
    }
    out.push_str("\n")?;
    out.push_str(NAMESPACE_ARRAY)?;
    push_uris(out, uris)
}

/// Appends URIs, each after a comma.
fn push_uris(out: &mut String, uris: &[&str]) -> Result<(), AllocError>
    ensures { OnOk result (string_bytes out.new ≡ string_bytes out.old ++ more_uris (map (λ uri. uri.now) uris.now)) }
{
    for uri in uris {
        push_uri(out, uri)?;
    }
    Ok(())
}

/// Appends a URI after a comma.
fn push_uri(out: &mut String, uri: &str) -> Result<(), AllocError>
    ensures { OnOk result (string_bytes out.new ≡ string_bytes out.old ++ codes "," ++ uri.now) }
{
    out.push_str(",")?;
    out.push_str(uri)
}

/// Whether the nodes have none of this number in namespace 0.
fn lacks(nodes: &NodeTable, number: u32) -> bool
    ensures { result ≡ lacks_node nodes.now number }
{
    nodes
        .get(&NodeId::new(0, Identifier::Numeric(number)))
        .is_none()
}
