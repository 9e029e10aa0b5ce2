//! A conversation over a transport.

ghost use Rattle.std.specs.Prelude.{◌≡◌, ◌∷◌, [], length, IfOk, IsTrue};
ghost use Rattle.ua_services.specs.SessionRequests.{read, write};
ghost use Rattle.ua_wire.specs.Counted.{text};
ghost use Rattle.example_callers.specs.Talk.{ExampleTalk};

use std::alloc::Global;
use ua_builtin::{DateTime, NodeId, UaString};
use ua_channel::Line;
use ua_client::{Client, ClientFault, Reply};
use ua_frame::Limits;
use ua_services::Request;
use ua_services::session_requests::{read_request, write_request};
use ua_structures::{ReadValueId, WriteValue};

/// Opens a connection over a transport, begins a session, writes values, then reads values, and
/// closes: gives the replies to the Write and to the Read.
pub fn write_and_read<L: Line>(
    alloc: Global,
    line: &mut L,
    limits: Limits,
    url: UaString,
    moment: DateTime,
    writes: Vec<WriteValue>,
    reads: Vec<ReadValueId>,
) -> Result<Vec<Reply>, ClientFault>
    requires { IsTrue (text.encodable url) }
    ensures talks { IfOk result (λ replies. ExampleTalk limits url moment writes.items reads.items (L.traffic line.old)
        (L.traffic line.new) replies.items) }
    ensures count { IfOk result (λ replies. length replies.items ≡ 2) }
{
    let mut client = Client::open(alloc, line, limits, url, moment)?;
    let token = client.begin_session(line, moment)?;
    let requests = requests_of(alloc, token, moment, writes, reads)?;
    let replies = client.call_all(line, &requests, moment)?;
    client.close(line, moment)?;
    Ok(replies)
}

/// The Write and the Read, in a session, under the RequestHandles 1 and 2.
fn requests_of(
    alloc: Global,
    token: NodeId,
    moment: DateTime,
    writes: Vec<WriteValue>,
    reads: Vec<ReadValueId>,
) -> Result<Vec<Request>, ClientFault>
    ensures { IfOk result
        (λ requests. requests.items ≡ write token moment 1 writes.items ∷ read token moment 2 reads.items ∷ []) }
{
    let Ok(same) = token.try_clone() else {
        return Err(ClientFault::OutOfMemory);
    };
    let mut requests = Vec::new(alloc);
    let first = write_request(same, moment, 1, writes);
    if requests.push(first).is_err() {
        return Err(ClientFault::OutOfMemory);
    }
    let second = read_request(token, moment, 2, reads);
    if requests.push(second).is_err() {
        return Err(ClientFault::OutOfMemory);
    }
    Ok(requests)
}
