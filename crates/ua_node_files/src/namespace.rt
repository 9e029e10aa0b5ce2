//! The namespaces that a node file names.

ghost use Rattle.std.specs.Prelude.{◌≡◌, ℕ, List, MatchOption, IfOk, IfErr, map, string_bytes};
ghost use Rattle.std.specs.List.{list_all};
ghost use Rattle.ua_node_files.specs.Namespaces.{AreNamed, NamesBehind, NamesUri, RefusesNamespaces};
ghost use Rattle.ua_node_files.specs.Namespaces.{namespace_line_start, is_namespace_line as is_line, is_of_uri};
ghost use Rattle.ua_node_files.specs.Namespaces.{is_uri as is_uri_text, namespace_lines};

use std::alloc::{AllocError, AllocFailed, Global};
use thiserror::Error;
use ua_nodes::without_return;

/// The reason why the namespaces of a file were not read.
#[derive(Clone, Copy, PartialEq, Eq, Debug, Error)]
pub enum NamespaceFault {
    /// The line of this number, counted from 1, begins with `# namespace`, but does not name the
    /// next namespace.
    #[error("line {0}: Fields")]
    Line(usize),
    /// An allocation failed.
    #[error("out of memory")]
    OutOfMemory,
}

impl From<AllocError> for NamespaceFault {
    ghost use Rattle.std.specs.Prelude.{◌≡◌};
    ghost use Rattle.ua_node_files.specs.declared.namespace.NamespaceFault.TheVariants.{OutOfMemory};

    ghost from_gives = { λ _ e. e ≡ OutOfMemory };

    fn from(_: AllocError) -> NamespaceFault {
        NamespaceFault::OutOfMemory
    }
}

impl<T: Drop> From<AllocFailed<T>> for NamespaceFault {
    ghost use Rattle.std.specs.Prelude.{◌≡◌};
    ghost use Rattle.ua_node_files.specs.declared.namespace.NamespaceFault.TheVariants.{OutOfMemory};

    ghost from_gives = { λ _ e. e ≡ OutOfMemory };

    fn from(_: AllocFailed<T>) -> NamespaceFault {
        NamespaceFault::OutOfMemory
    }
}

/// The index of the first namespace that a file names: 0 is the standard's, and 1 the server's own.
const FIRST_INDEX: usize = 2;

/// The URIs of the namespaces from index 2 on, which a file names in order by lines such as `#
/// namespace 2 urn:plant`. A URI has no comma and no byte below 0x21. A line that begins with `#
/// namespace` but does not name the next index in this form is an error.
pub fn namespaces<'a>(alloc: Global, text: &'a str) -> Result<Vec<&'a str>, NamespaceFault>
    ensures named { IfOk result (λ uris. AreNamed (namespace_lines text.now) (map (λ uri. uri.now) uris.items)) }
    ensures fault { IfErr result (λ fault. RefusesNamespaces (namespace_lines text.now) fault) }
{
    let mut uris = Vec::new(alloc);
    let mut number = 0;
    for line in text.split('\n') {
        number += 1;
        let line = without_return(line);
        if is_namespace_line(line) {
            match uri_at(alloc, line, FIRST_INDEX + uris.len())? {
                Some(uri) => uris.push(uri)?,
                None => return Err(NamespaceFault::Line(number)),
            }
        }
    }
    Ok(uris)
}

/// Whether a line names a namespace, or was meant to.
fn is_namespace_line(line: &str) -> bool
    ensures { result ≡ is_line line.now }
{
    line.starts_with("# namespace")
}

/// The URI that a line names for an index, if it names one.
fn uri_at<'a>(alloc: Global, line: &'a str, index: usize) -> Result<Option<&'a str>, AllocError>
    ensures { IfOk result (λ found. MatchOption found ((uri : List ℕ) → ¬ (NamesUri index line.now uri))
        (λ uri. NamesUri index line.now uri.now)) }
{
    let front = format!(in alloc; "# namespace {index} ")?;
    Ok(uri_behind(line, &front))
}

/// The URI that a line names after a front, if it names one.
fn uri_behind<'a>(line: &'a str, front: &str) -> Option<&'a str>
    ensures { MatchOption result ((uri : List ℕ) → ¬ (NamesBehind front.now line.now uri))
        (λ uri. NamesBehind front.now line.now uri.now) }
{
    let uri = line.strip_prefix(front)?;
    if is_uri(uri) { Some(uri) } else { None }
}

/// Whether a text is a URI as a file names it.
fn is_uri(text: &str) -> bool
    ensures { result ≡ is_uri_text text.now }
{
    !text.is_empty() && are_of_uri(text.as_bytes())
}

/// Whether each byte is one of a URI: no comma and no byte below 0x21.
fn are_of_uri(octets: &[u8]) -> bool
    ensures { result ≡ list_all is_of_uri octets.now }
{
    for octet in octets {
        if *octet <= b' ' || *octet == b',' {
            return false;
        }
    }
    true
}
