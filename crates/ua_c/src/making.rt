//! Servers and clients for C, as they begin.

ghost use Rattle.std.specs.Prelude.{◌≡◌, ◌⊎◌, [], Some, IsTrue, IfOk, IfErr, OnOk};
ghost use Rattle.std.specs.declared.option.Option.{Option as Maybe};
ghost use Rattle.std.specs.Str.{IsUtf8};
ghost use Rattle.ua_nodes.specs.NodeFile.{WriteNodes, node_lines};
ghost use Rattle.ua_nodes.specs.Sound.{AreNodesSound};
ghost use Rattle.ua_wire.specs.Counted.{text};
ghost use Rattle.ua_server.specs.State.{fresh};
ghost use Rattle.ua_c.specs.Making.{MakesClient, MakesServer, MakesStation, RefusesFile, Seats, endpoint_of};
ghost use Rattle.ua_c.specs.Status.{no_memory};

use crate::handle::UaHandle;
use crate::holding::{Holding, Machine};
use crate::limits::{UaLimits, allowed};
use crate::shared::reason_number;
use crate::station::Station;
use crate::status::{BAD_LIMITS, BAD_NODES, BAD_TEXT, NO_MEMORY, OK, TEXT_NODES};
use crate::texts::string_of;
use crate::waiting::Waiting;
use std::alloc::{AllocError, Global};
use std::str;
use ua_builtin::UaString;
use ua_channel::ClientChannel;
use ua_frame::Limits;
use ua_nodes::{LoadFault, NodeTable};
use ua_server::{Endpoint, Services};

/// Puts a machine into a handle, in the place of what it held.
pub(crate) fn seat(alloc: Global, machine: Machine, out: &mut UaHandle) -> u32
    ensures { Seats machine out.old.value out.new.value result }
{
    let holding = Holding {
        machine,
        waiting: Waiting::none(alloc),
    };
    match Box::new(alloc, holding) {
        Ok(held) => {
            *out = UaHandle::of(held);
            OK
        }
        Err(_) => NO_MEMORY,
    }
}

/// Makes a client with these limits for the server of this URL, and puts it into a handle.
#[unsafe(no_mangle)]
pub extern "C" fn ua_client_new(
    alloc: Global,
    limits: &UaLimits,
    url: &[u8],
    out: &mut UaHandle,
) -> u32
    ensures { MakesClient limits.now url.now out.old.value out.new.value result }
{
    let Some(limits) = allowed(limits) else {
        return BAD_LIMITS;
    };
    match string_of(alloc, url) {
        Ok(url) => {
            let client = ClientChannel::new(alloc, limits, url);
            seat(alloc, Machine::Client(client), out)
        }
        Err(status) => status,
    }
}

/// The nodes that the lines of a text describe, or a status, the number of the first bad line and
/// that of the reason.
pub(crate) fn nodes_of(
    alloc: Global,
    octets: &[u8],
    line: &mut usize,
    reason: &mut u32,
) -> Result<NodeTable, u32>
    ensures nodes { IfOk result (λ nodes. WriteNodes (node_lines octets.now) nodes) }
    ensures utf8 { OnOk result (IsUtf8 octets.now) }
    ensures sound { IfOk result (λ nodes. AreNodesSound nodes) }
    ensures fault { IfErr result (λ status. RefusesFile octets.now line.new reason.new status) }
    ensures none { OnOk result ((line.new ≡ 0) × (reason.new ≡ 0)) }
{
    *line = 0;
    *reason = 0;
    let Ok(text) = str::from_utf8(octets) else {
        *reason = TEXT_NODES;
        return Err(BAD_TEXT);
    };
    match NodeTable::load(alloc, text) {
        Ok(nodes) => Ok(nodes),
        Err(
            LoadFault::Line {
                line: number,
                reason: why,
            },
        ) => {
            *line = number;
            *reason = reason_number(why);
            Err(BAD_NODES)
        }
        Err(LoadFault::OutOfMemory) => Err(NO_MEMORY),
    }
}

/// What a server tells about itself.
fn endpoint(alloc: Global, url: UaString, message_limit: u32) -> Result<Endpoint, AllocError>
    ensures { IfOk result (λ e. e ≡ endpoint_of url message_limit) }
{
    Ok(Endpoint {
        url,
        application_uri: UaString::from_str(alloc, "urn:ua:server")?,
        name: UaString::from_str(alloc, "ua")?,
        message_limit,
    })
}

/// The services over nodes, under a URL.
fn services(
    alloc: Global,
    nodes: NodeTable,
    url: UaString,
    message_limit: u32,
) -> Result<Services, AllocError>
    requires sound { AreNodesSound nodes }
    requires writable { IsTrue (text.encodable url) }
    ensures { IfOk result (λ s. s ≡ fresh nodes (endpoint_of url message_limit)) }
{
    let endpoint = endpoint(alloc, url, message_limit)?;
    Ok(Services::new(nodes, endpoint))
}

/// A server with these limits over nodes, or a status and the number of the first bad line.
fn station(
    alloc: Global,
    nodes: &[u8],
    limits: Limits,
    url: &[u8],
    channel: u32,
    line: &mut usize,
) -> Result<Station, u32>
    ensures { MakesStation nodes.now limits url.now channel line.new result }
{
    *line = 0;
    let url = string_of(alloc, url)?;
    let mut reason = 0;
    let nodes = nodes_of(alloc, nodes, line, &mut reason)?;
    match services(alloc, nodes, url, limits.max_message_size) {
        Ok(services) => Ok(Station::new(alloc, services, limits, channel)),
        Err(_) => Err(NO_MEMORY),
    }
}

/// Makes a server with these limits and this URL over the nodes of a node file, for a channel with
/// this SecureChannelId, and puts it into a handle. For a bad node file it gives the first bad
/// line.
#[unsafe(no_mangle)]
pub extern "C" fn ua_server_new(
    alloc: Global,
    nodes: &[u8],
    limits: &UaLimits,
    url: &[u8],
    channel: u32,
    out: &mut UaHandle,
    line: &mut usize,
) -> u32
    ensures { MakesServer nodes.now limits.now url.now channel out.old.value out.new.value line.new result }
{
    let Some(limits) = allowed(limits) else {
        *line = 0;
        return BAD_LIMITS;
    };
    match station(alloc, nodes, limits, url, channel, line) {
        Ok(station) => seat(alloc, Machine::Server(station), out),
        Err(status) => status,
    }
}
