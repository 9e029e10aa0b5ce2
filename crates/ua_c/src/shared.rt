//! Nodes apart from connections: one node table and endpoint, for any number of connections.

ghost use Rattle.std.specs.Prelude.{◌≡◌, ◌+◌, IfOk, IfErr, OnOk};
ghost use Rattle.ua_nodes.specs.NodeFile.{place};
ghost use Rattle.ua_server.specs.Endpoint.{IsEndpointEncodable};
ghost use Rattle.ua_c.specs.Shared.{IsAbout, IsNoAbout, MakesNodes, MakesShared};
ghost use Rattle.ua_c.specs.Texts.{IsNoString, IsStringOf};

use crate::handle::UaNodes;
use crate::holding::Machine;
use crate::making::{nodes_of, seat};
use crate::status::{TEXT_APPLICATION_URI, TEXT_NAME, TEXT_NODES, TEXT_URL};
use crate::texts::string_of;
use std::alloc::Global;
use ua_builtin::UaString;
use ua_nodes::LineReason;
use ua_server::{Endpoint, Services};

/// A line does not have exactly five fields.
const LINE_FIELDS: u32 = 1;
/// The first field of a line names no NodeId.
const LINE_NODE: u32 = 2;
/// The second field is none of `r`, `w`, `rw` and `-`.
const LINE_ACCESS: u32 = 3;
/// The third field is empty.
const LINE_NAME: u32 = 4;
/// The fourth field names no type.
const LINE_TYPE: u32 = 5;
/// The fifth field denotes no value of the type.
const LINE_VALUE: u32 = 6;
/// A line before it has the same NodeId.
const LINE_DUPLICATE: u32 = 7;

/// The services over nodes, which C names by their positions: no step changes these.
#[derive(Debug, Drop)]
pub struct SharedNodes {
    pub services: Services,
}

/// The number of a reason against a line.
pub(crate) fn reason_number(reason: LineReason) -> u32
    ensures { result ≡ place reason + 1 }
{
    match reason {
        LineReason::Fields => LINE_FIELDS,
        LineReason::Node => LINE_NODE,
        LineReason::Access => LINE_ACCESS,
        LineReason::Name => LINE_NAME,
        LineReason::Kind => LINE_TYPE,
        LineReason::Value => LINE_VALUE,
        LineReason::Duplicate => LINE_DUPLICATE,
    }
}

/// The String that bytes are, or a status; then `reason` is the number of this text.
fn text_of(alloc: Global, octets: &[u8], number: u32, reason: &mut u32) -> Result<UaString, u32>
    ensures value { IfOk result (λ value. IsStringOf octets.now value) }
    ensures fault { IfErr result (λ status. IsNoString octets.now status) }
    ensures reason { reason.new ≡ number }
{
    *reason = number;
    string_of(alloc, octets)
}

/// What a server is to tell about itself, as C gives it.
#[derive(Clone, Copy)]
struct Described<'a> {
    url: &'a [u8],
    application_uri: &'a [u8],
    name: &'a [u8],
    max_message_size: u32,
}

/// What a server tells about itself, or a status and the number of the text that is none.
#[tactic(auto, using(crate::proofs::Connected::about_made))]
fn about(alloc: Global, server: &Described<'_>, reason: &mut u32) -> Result<Endpoint, u32>
    ensures endpoint { IfOk result (λ e. IsAbout server.now.url.now server.now.application_uri.now server.now.name.now
        server.now.max_message_size e) }
    ensures fits { IfOk result (λ e. IsEndpointEncodable e) }
    ensures fault { IfErr result (λ status. IsNoAbout server.now.url.now server.now.application_uri.now
        server.now.name.now reason.new status) }
{
    Ok(Endpoint {
        url: text_of(alloc, server.url, TEXT_URL, reason)?,
        application_uri: text_of(alloc, server.application_uri, TEXT_APPLICATION_URI, reason)?,
        name: text_of(alloc, server.name, TEXT_NAME, reason)?,
        message_limit: server.max_message_size,
    })
}

/// The nodes of a file with the endpoint of their server, or a status, the number of the first bad
/// line and that of the reason.
fn shared(
    alloc: Global,
    file: &[u8],
    server: &Described<'_>,
    line: &mut usize,
    reason: &mut u32,
) -> Result<SharedNodes, u32>
    ensures { MakesShared file.now server.now.url.now server.now.application_uri.now server.now.name.now
        server.now.max_message_size line.new reason.new result }
{
    *line = 0;
    let endpoint = about(alloc, server, reason)?;
    let nodes = nodes_of(alloc, file, line, reason)?;
    Ok(SharedNodes {
        services: Services::new(nodes, endpoint),
    })
}

/// Makes the nodes of a node file, with the endpoint of their server, for any number of
/// connections, and puts them into a handle. For a bad node file it gives the first bad line and
/// the reason.
#[unsafe(no_mangle)]
pub extern "C" fn ua_nodes_new(
    alloc: Global,
    file: &[u8],
    url: &[u8],
    application_uri: &[u8],
    name: &[u8],
    max_message_size: u32,
    out: &mut UaNodes,
    line: &mut usize,
    reason: &mut u32,
) -> u32
    ensures { MakesNodes file.now url.now application_uri.now name.now max_message_size out.old.value out.new.value
        line.new reason.new result }
{
    let server = Described {
        url,
        application_uri,
        name,
        max_message_size,
    };
    match shared(alloc, file, &server, line, reason) {
        Ok(nodes) => seat(alloc, Machine::Nodes(nodes), out),
        Err(status) => status,
    }
}
