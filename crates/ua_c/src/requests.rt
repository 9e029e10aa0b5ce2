//! Requests from texts.

ghost use Rattle.std.specs.Prelude.{◌≡◌, IfOk, IfErr};
ghost use Rattle.ua_services.specs.SessionRequests.{activate_session, close_session, create_session, get_endpoints};
ghost use Rattle.ua_c.specs.Requests.{LinesNameNodes, AreNoNodes, AreNodeTexts};
ghost use Rattle.ua_c.specs.Requests.{AreUnnamed, IsNoNode, IsNoText, IsNodeText};
ghost use Rattle.ua_c.specs.Requests.{IsRangeText, IsUnnamed, MakesRequestBody, MakesActivation, MakesOfUrl, MakesRead};
ghost use Rattle.ua_c.specs.Requests.{MakesUnder, MakesWrite, Names, PutsBody, PutsMade};
ghost use Rattle.ua_c.specs.Requests.{PutsTold, MakesRequestBodyTelling, items_of_read};
ghost use Rattle.ua_c.specs.BadText.{index_in};
ghost use Rattle.ua_c.specs.Status.{text_node};

use crate::bad_text::BadText;
use crate::status::{
    BAD_TEXT, NO_MEMORY, TEXT_NODE, TEXT_NODES, TEXT_POLICY, TEXT_RANGE, TEXT_TOKEN,
};
use crate::texts::{put, string_of, value_by};
use std::alloc::{AllocError, Global};
use std::str;
use ua_builtin::{DateTime, NodeId, TextFault, UaString, WriteFault};
use ua_services::session_requests::{
    activate_session_request, activate_session_request_as, close_session_request,
    create_session_request, get_endpoints_request, read_item, read_request, write_item,
    write_request,
};
use ua_services::{ReadValueId, Request, request_body};

/// The NodeId that a text names, or a status.
fn node_named(alloc: Global, text: &str) -> Result<NodeId, u32>
    ensures node { IfOk result (λ node. Names text.now node) }
    ensures fault { IfErr result (λ status. IsUnnamed text.now status) }
{
    match NodeId::parse_text(alloc, text) {
        Ok(node) => Ok(node),
        Err(TextFault::NotNodeId) => Err(BAD_TEXT),
        Err(TextFault::OutOfMemory) => Err(NO_MEMORY),
    }
}

/// The NodeId that bytes name, or a status.
pub(crate) fn node_of(alloc: Global, octets: &[u8]) -> Result<NodeId, u32>
    ensures node { IfOk result (λ node. IsNodeText octets.now node) }
    ensures fault { IfErr result (λ status. IsNoNode octets.now status) }
{
    match str::from_utf8(octets) {
        Ok(text) => node_named(alloc, text),
        Err(_) => Err(BAD_TEXT),
    }
}

/// A node among lines that is none, by the place of its line.
fn bad_line(index: usize, status: u32) -> BadText
    ensures { result ≡ record { status = status; text = text_node; index = index } }
{
    BadText {
        status,
        text: TEXT_NODE,
        index,
    }
}

/// The NodeIds that the lines of a text name, or the first line that names none.
fn nodes_named(alloc: Global, text: &str) -> Result<Vec<NodeId>, BadText>
    ensures nodes { IfOk result (λ nodes. LinesNameNodes text.now nodes.items) }
    ensures fault { IfErr result (λ bad. AreUnnamed text.now bad) }
{
    let mut nodes = Vec::new(alloc);
    for line in text.split('\n') {
        let node = match node_named(alloc, line) {
            Ok(node) => node,
            Err(status) => return Err(bad_line(nodes.as_slice().len(), status)),
        };
        let Ok(()) = nodes.push(node) else {
            return Err(BadText::only(TEXT_NODES, NO_MEMORY));
        };
    }
    Ok(nodes)
}

/// The NodeIds that the lines in these bytes name, or why there are none.
pub(crate) fn nodes_of(alloc: Global, octets: &[u8]) -> Result<Vec<NodeId>, BadText>
    ensures nodes { IfOk result (λ nodes. AreNodeTexts octets.now nodes.items) }
    ensures fault { IfErr result (λ bad. AreNoNodes octets.now bad) }
{
    match str::from_utf8(octets) {
        Ok(text) => nodes_named(alloc, text),
        Err(_) => Err(BadText::only(TEXT_NODES, BAD_TEXT)),
    }
}

/// The index range that bytes are, null if there are none, or a status.
fn range_of(alloc: Global, octets: &[u8]) -> Result<UaString, u32>
    ensures range { IfOk result (λ range. IsRangeText octets.now range) }
    ensures fault { IfErr result (λ status. IsNoText octets.now status) }
{
    if octets.is_empty() {
        return Ok(UaString::null());
    }
    let Ok(text) = str::from_utf8(octets) else {
        return Err(BAD_TEXT);
    };
    match UaString::from_str(alloc, text) {
        Ok(range) => Ok(range),
        Err(_) => Err(NO_MEMORY),
    }
}

/// Puts the body of a request into a buffer.
fn put_request(alloc: Global, request: Request, buffer: &mut [u8], needed: &mut usize) -> u32
    ensures { PutsBody request buffer.old buffer.new needed.new result }
{
    *needed = 0;
    match request_body(alloc, request) {
        Ok(body) => put(body.as_slice(), buffer, needed),
        Err(WriteFault::NotWritable) => BAD_TEXT,
        Err(WriteFault::OutOfMemory) => NO_MEMORY,
    }
}

/// Puts the body of a request into a buffer, if there is one, and tells which text is bad if
/// there is none.
fn put_told(
    alloc: Global,
    made: Result<Request, BadText>,
    buffer: &mut [u8],
    needed: &mut usize,
    reason: &mut u32,
) -> u32
    ensures { PutsTold made buffer.old buffer.new needed.new reason.new result }
{
    *reason = 0;
    match made {
        Ok(request) => put_request(alloc, request, buffer, needed),
        Err(bad) => {
            *needed = 0;
            *reason = bad.text;
            bad.status
        }
    }
}

/// The index of the line that is bad, 0 if none is.
fn index_in(made: &Result<Request, BadText>) -> usize
    ensures { result ≡ index_in made.now }
{
    match made {
        Ok(_) => 0,
        Err(bad) => bad.index,
    }
}

/// Puts the body of a request into a buffer, if there is one.
fn put_made(alloc: Global, made: Result<Request, u32>, buffer: &mut [u8], needed: &mut usize) -> u32
    ensures { PutsMade made buffer.old buffer.new needed.new result }
{
    match made {
        Ok(request) => put_request(alloc, request, buffer, needed),
        Err(status) => {
            *needed = 0;
            status
        }
    }
}

/// A request of CreateSession.
fn creating(alloc: Global, url: &[u8], moment: DateTime, handle: u32) -> Result<Request, u32>
    ensures { MakesOfUrl (λ u. create_session u moment handle) url.now result }
{
    let url = match string_of(alloc, url) {
        Ok(url) => url,
        Err(status) => return Err(status),
    };
    match create_session_request(alloc, url, moment, handle) {
        Ok(request) => Ok(request),
        Err(_) => Err(NO_MEMORY),
    }
}

/// A request of ActivateSession under a token.
fn activating(alloc: Global, token: &[u8], moment: DateTime, handle: u32) -> Result<Request, u32>
    ensures { MakesUnder (λ id. activate_session id moment handle) token.now result }
{
    let token = match node_of(alloc, token) {
        Ok(token) => token,
        Err(status) => return Err(status),
    };
    match activate_session_request(alloc, token, moment, handle) {
        Ok(request) => Ok(request),
        Err(_) => Err(NO_MEMORY),
    }
}

/// A request of ActivateSession under a token, by the token policy with this PolicyId.
fn activating_as(
    alloc: Global,
    token: &[u8],
    policy: &[u8],
    moment: DateTime,
    handle: u32,
) -> Result<Request, BadText>
    ensures { MakesActivation token.now policy.now moment handle result }
{
    let policy = match string_of(alloc, policy) {
        Ok(policy) => policy,
        Err(status) => return Err(BadText::only(TEXT_POLICY, status)),
    };
    let token = match node_of(alloc, token) {
        Ok(token) => token,
        Err(status) => return Err(BadText::only(TEXT_TOKEN, status)),
    };
    match activate_session_request_as(alloc, token, policy, moment, handle) {
        Ok(request) => Ok(request),
        Err(WriteFault::NotWritable) => Err(BadText::only(TEXT_POLICY, BAD_TEXT)),
        Err(WriteFault::OutOfMemory) => Err(BadText::only(TEXT_POLICY, NO_MEMORY)),
    }
}

/// The items of a Read of the Values of nodes, or of the parts of them that an index range names.
fn items_of(
    alloc: Global,
    nodes: &[NodeId],
    range: &UaString,
) -> Result<Vec<ReadValueId>, AllocError>
    ensures { IfOk result (λ items. items.items ≡ items_of_read range.now nodes.now) }
{
    let mut items = Vec::with_capacity(alloc, nodes.len())?;
    for node in nodes {
        items.push(read_item(node.try_clone()?, range.try_clone()?))?;
    }
    Ok(items)
}

/// What the header of a request under a token has, as C gives it.
#[derive(Clone, Copy)]
struct Heading<'a> {
    /// The AuthenticationToken.
    token: &'a [u8],
    /// The Timestamp.
    moment: DateTime,
    /// The RequestHandle.
    handle: u32,
}

/// A request of Read for the Values of the nodes that lines name, or for the parts of them that an
/// index range names, under a token.
fn reading(
    alloc: Global,
    heading: &Heading<'_>,
    nodes: &[u8],
    range: &[u8],
) -> Result<Request, BadText>
    ensures { MakesRead heading.now.token.now heading.now.moment heading.now.handle nodes.now range.now result }
{
    let range = match range_of(alloc, range) {
        Ok(range) => range,
        Err(status) => return Err(BadText::only(TEXT_RANGE, status)),
    };
    let nodes = match nodes_of(alloc, nodes) {
        Ok(nodes) => nodes,
        Err(bad) => return Err(bad),
    };
    let token = match node_of(alloc, heading.token) {
        Ok(token) => token,
        Err(status) => return Err(BadText::only(TEXT_TOKEN, status)),
    };
    match items_of(alloc, nodes.as_slice(), &range) {
        Ok(items) => Ok(read_request(token, heading.moment, heading.handle, items)),
        Err(_) => Err(BadText::only(TEXT_NODES, NO_MEMORY)),
    }
}

/// A request of Write for the Value of a node, under a token.
fn writing(
    alloc: Global,
    heading: &Heading<'_>,
    node: &[u8],
    kind: &[u8],
    text: &[u8],
) -> Result<Request, BadText>
    ensures { MakesWrite heading.now.token.now heading.now.moment heading.now.handle node.now kind.now text.now result }
{
    let value = match value_by(alloc, kind, text, false) {
        Ok(value) => value,
        Err(bad) => return Err(bad),
    };
    let node = match node_of(alloc, node) {
        Ok(node) => node,
        Err(status) => return Err(BadText::only(TEXT_NODE, status)),
    };
    let token = match node_of(alloc, heading.token) {
        Ok(token) => token,
        Err(status) => return Err(BadText::only(TEXT_TOKEN, status)),
    };
    let mut items = Vec::new(alloc);
    match items.push(write_item(node, value)) {
        Ok(()) => Ok(write_request(token, heading.moment, heading.handle, items)),
        Err(_) => Err(BadText::only(TEXT_NODE, NO_MEMORY)),
    }
}

/// The body of a GetEndpoints for the server of this URL.
#[unsafe(no_mangle)]
pub extern "C" fn ua_get_endpoints_request(
    alloc: Global,
    url: &[u8],
    moment: i64,
    handle: u32,
    buffer: &mut [u8],
    needed: &mut usize,
) -> u32
    ensures { MakesRequestBody
        (λ made. MakesOfUrl (λ u. get_endpoints u (record { ticks = moment }) handle) url.now made)
        buffer.old buffer.new needed.new result }
{
    let made = match string_of(alloc, url) {
        Ok(url) => Ok(get_endpoints_request(url, DateTime { ticks: moment }, handle)),
        Err(status) => Err(status),
    };
    put_made(alloc, made, buffer, needed)
}

/// The body of a CreateSession for the server of this URL.
#[unsafe(no_mangle)]
pub extern "C" fn ua_create_session_request(
    alloc: Global,
    url: &[u8],
    moment: i64,
    handle: u32,
    buffer: &mut [u8],
    needed: &mut usize,
) -> u32
    ensures { MakesRequestBody
        (λ made. MakesOfUrl (λ u. create_session u (record { ticks = moment }) handle) url.now made)
        buffer.old buffer.new needed.new result }
{
    let made = creating(alloc, url, DateTime { ticks: moment }, handle);
    put_made(alloc, made, buffer, needed)
}

/// The body of an ActivateSession under this token, by an anonymous user.
#[unsafe(no_mangle)]
pub extern "C" fn ua_activate_session_request(
    alloc: Global,
    token: &[u8],
    moment: i64,
    handle: u32,
    buffer: &mut [u8],
    needed: &mut usize,
) -> u32
    ensures { MakesRequestBody
        (λ made. MakesUnder (λ id. activate_session id (record { ticks = moment }) handle) token.now made)
        buffer.old buffer.new needed.new result }
{
    let made = activating(alloc, token, DateTime { ticks: moment }, handle);
    put_made(alloc, made, buffer, needed)
}

/// The body of an ActivateSession under this token, by an anonymous user, under the token policy
/// with this PolicyId.
#[unsafe(no_mangle)]
pub extern "C" fn ua_activate_session_request_as(
    alloc: Global,
    token: &[u8],
    policy: &[u8],
    moment: i64,
    handle: u32,
    buffer: &mut [u8],
    needed: &mut usize,
    reason: &mut u32,
) -> u32
    ensures { MakesRequestBodyTelling
        (λ made. MakesActivation token.now policy.now (record { ticks = moment }) handle made) buffer.old
        buffer.new needed.new reason.new result }
{
    let made = activating_as(alloc, token, policy, DateTime { ticks: moment }, handle);
    put_told(alloc, made, buffer, needed, reason)
}

/// The body of a CloseSession under this token.
#[unsafe(no_mangle)]
pub extern "C" fn ua_close_session_request(
    alloc: Global,
    token: &[u8],
    moment: i64,
    handle: u32,
    buffer: &mut [u8],
    needed: &mut usize,
) -> u32
    ensures { MakesRequestBody (λ made. MakesUnder (λ id. close_session id (record { ticks = moment }) handle) token.now
        made)
        buffer.old buffer.new needed.new result }
{
    let made = match node_of(alloc, token) {
        Ok(token) => Ok(close_session_request(token, DateTime { ticks: moment }, handle)),
        Err(status) => Err(status),
    };
    put_made(alloc, made, buffer, needed)
}

/// The body of a Read for the Values of the nodes that lines name, or for the parts of them that an
/// index range names.
#[unsafe(no_mangle)]
pub extern "C" fn ua_read_request(
    alloc: Global,
    token: &[u8],
    moment: i64,
    handle: u32,
    nodes: &[u8],
    range: &[u8],
    buffer: &mut [u8],
    needed: &mut usize,
    reason: &mut u32,
    index: &mut usize,
) -> u32
    ensures { MakesRequestBodyTelling
        (λ made. MakesRead token.now (record { ticks = moment }) handle nodes.now range.now made
        × (index.new ≡ index_in made)) buffer.old buffer.new needed.new reason.new result }
{
    let heading = Heading {
        token,
        moment: DateTime { ticks: moment },
        handle,
    };
    let made = reading(alloc, &heading, nodes, range);
    *index = index_in(&made);
    put_told(alloc, made, buffer, needed, reason)
}

/// The body of a Write that sets the Value of a node to the one that a type and a text denote.
#[unsafe(no_mangle)]
pub extern "C" fn ua_write_request(
    alloc: Global,
    token: &[u8],
    moment: i64,
    handle: u32,
    node: &[u8],
    kind: &[u8],
    text: &[u8],
    buffer: &mut [u8],
    needed: &mut usize,
    reason: &mut u32,
) -> u32
    ensures { MakesRequestBodyTelling
        (λ made. MakesWrite token.now (record { ticks = moment }) handle node.now kind.now text.now made)
        buffer.old buffer.new needed.new reason.new result }
{
    let heading = Heading {
        token,
        moment: DateTime { ticks: moment },
        handle,
    };
    let made = writing(alloc, &heading, node, kind, text);
    put_told(alloc, made, buffer, needed, reason)
}
