//! The standard nodes that `ua serve --standard` adds to those of a file.

ghost use Rattle.std.specs.Prelude.{◌≡◌, ◌⊎◌, IfOk, IfErr, map, string_bytes};
ghost use Rattle.ua_node_files.specs.Namespaces.{AreNamed, namespace_lines};
ghost use Rattle.ua_serving.specs.Refused.{RefusesNamespace, RefusesStandard};
ghost use Rattle.ua_serving.specs.Standard.{BeginsStandard, IsWithStandardNodes};
ghost use Rattle.ua_report.specs.declared.fault.Fault.TheVariants.{NoMemory};

use crate::serve::services;
use std::alloc::Global;
use ua_node_files::{NamespaceFault, lacks_current_time, namespaces, with_standard};
use ua_nodes::LineReason;
use ua_report::{Fault, parse_nodes};
use ua_server::Services;

/// What is served, and how.
#[derive(Debug, Drop)]
pub struct StandardServices {
    /// The services.
    pub services: Services,
    /// Whether the server itself keeps CurrentTime, and sets it before each response.
    pub keeps_time: bool,
}

/// The services on a port of this machine over the nodes of a file with this text and the standard
/// nodes that it lacks. A line that begins with `# namespace` and does not name the next namespace
/// is invalid.
pub(crate) fn standard_services<'a>(
    alloc: Global,
    text: &str,
    port: u16,
) -> Result<StandardServices, Fault<'a>>
    ensures begins { IfOk result (λ made. BeginsStandard text.now port made.keeps_time made.services) }
    ensures faults { IfErr result (λ fault. RefusesStandard text.now fault) }
{
    let whole = whole_of(alloc, text)?;
    match services(alloc, &whole.text, port) {
        Ok(services) => Ok(StandardServices {
            services,
            keeps_time: whole.keeps_time,
        }),
        Err(fault) => Err(fault),
    }
}

/// The text of a node file with the standard nodes that it lacks after it.
#[derive(Drop)]
struct WholeFile {
    text: String,
    /// Whether CurrentTime is one of them.
    keeps_time: bool,
}

/// The text of a node file with the standard nodes that it lacks after it.
fn whole_of<'a>(alloc: Global, text: &str) -> Result<WholeFile, Fault<'a>>
    ensures whole { IfOk result (λ whole. IsWithStandardNodes text.now whole.keeps_time (string_bytes whole.text)) }
    ensures faults { IfErr result (λ fault. RefusesStandard text.now fault) }
{
    let uris = named(alloc, text)?;
    let nodes = parse_nodes(alloc, text)?;
    let keeps_time = lacks_current_time(&nodes);
    let text = with_standard(alloc, text, &nodes, &uris)?;
    Ok(WholeFile { text, keeps_time })
}

/// The URIs of the namespaces that a node file names.
fn named<'a, 't>(alloc: Global, text: &'t str) -> Result<Vec<&'t str>, Fault<'a>>
    ensures named { IfOk result (λ uris. AreNamed (namespace_lines text.now) (map (λ uri. uri.now) uris.items)) }
    ensures faults { IfErr result (λ fault. (fault ≡ NoMemory) ⊎ RefusesNamespace text.now fault) }
{
    match namespaces(alloc, text) {
        Ok(uris) => Ok(uris),
        Err(NamespaceFault::Line(line)) => Err(Fault::Line {
            line,
            reason: LineReason::Fields,
        }),
        Err(NamespaceFault::OutOfMemory) => Err(Fault::NoMemory),
    }
}
