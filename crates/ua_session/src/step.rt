//! The steps of a conversation with a server.

ghost use Rattle.std.specs.Prelude.{◌≡◌, IfOk, IsTrue};
ghost use Rattle.ua_wire.specs.Counted.{text};
ghost use Rattle.ua_client.specs.Client.{IsReady};
ghost use Rattle.ua_session.specs.Steps.{BeginsSessionBy, CallsRequest, ClosesClient};
ghost use Rattle.ua_session.specs.Steps.{OpensServer, first_fault_of, told};

use crate::fault::{NotBegun, QuestionFault};
use std::alloc::Global;
use ua_builtin::laws::moment_is_encodable;
use ua_builtin::{DateTime, NodeId, UaString};
use ua_channel::{Line, Moments};
use ua_client::{Client, ClientFault, Reply, SessionFault};
use ua_frame::Limits;
use ua_services::Request;

/// The next timestamp.
pub(crate) fn next_moment<M: Moments>(moments: &mut M) -> DateTime
    ensures { M.gives moments.old result.ticks moments.new }
{
    DateTime {
        ticks: moments.next(),
    }
}

/// The result of a client, with its fault as it is reported.
pub fn told<A: Drop>(answer: Result<A, ClientFault>) -> Result<A, QuestionFault>
    ensures { result ≡ told answer }
{
    match answer {
        Ok(found) => Ok(found),
        Err(fault) => Err(QuestionFault::from(fault)),
    }
}

/// The first of two faults, or what the first step returned where there is none. A failed
/// allocation in the second step takes the place of a fault of the first, unless that is a failed
/// writer.
pub fn first_of<A: Drop>(
    first: Result<A, QuestionFault>,
    second: Result<(), QuestionFault>,
) -> Result<A, QuestionFault>
    ensures { result ≡ first_fault_of first second }
{
    match (first, second) {
        (Ok(found), Ok(())) => Ok(found),
        (Err(QuestionFault::Output(error)), _) => Err(QuestionFault::Output(error)),
        (Err(_), Err(QuestionFault::NoMemory)) => Err(QuestionFault::NoMemory),
        (Ok(_), Err(fault)) | (Err(fault), _) => Err(fault),
    }
}

/// Opens a client to a server, by this URL.
pub fn open<L: Line>(
    alloc: Global,
    line: &mut L,
    limits: Limits,
    url: &UaString,
    moment: DateTime,
) -> Result<Client, QuestionFault>
    requires { IsTrue (text.encodable url.now) }
    ensures opens { OpensServer limits url.now moment
        (record { traffic = L.traffic line.old; failures = L.failures line.old })
        (record { traffic = L.traffic line.new; failures = L.failures line.new }) result }
    ensures ready { IfOk result (λ client. IsReady client) }
{
    let Ok(url) = url.try_clone() else {
        return Err(QuestionFault::NoMemory);
    };
    moment_is_encodable(&moment);
    told(Client::open(alloc, line, limits, url, moment))
}

/// Begins a session by the token policy with an id.
pub fn begin<L: Line>(
    line: &mut L,
    client: &mut Client,
    policy_id: UaString,
    moment: DateTime,
) -> Result<NodeId, NotBegun>
    ensures { BeginsSessionBy policy_id moment client.old client.new
        (record { traffic = L.traffic line.old; failures = L.failures line.old })
        (record { traffic = L.traffic line.new; failures = L.failures line.new }) result }
{
    match client.try_begin_session(line, policy_id, moment) {
        Ok(token) => Ok(token),
        Err(SessionFault { token, fault }) => Err(NotBegun {
            token,
            fault: QuestionFault::from(fault),
        }),
    }
}

/// Calls a request.
pub fn call<L: Line>(
    line: &mut L,
    client: &mut Client,
    request: Request,
    moment: DateTime,
) -> Result<Reply, QuestionFault>
    ensures { CallsRequest request client.old client.new
        (record { traffic = L.traffic line.old; failures = L.failures line.old })
        (record { traffic = L.traffic line.new; failures = L.failures line.new }) result }
{
    let answer = client.call(line, &request, moment);
    drop(request);
    told(answer)
}

/// Closes a client, where it did not fail before.
pub fn close<L: Line>(
    line: &mut L,
    mut client: Client,
    moment: DateTime,
) -> Result<(), QuestionFault>
    ensures { ClosesClient moment client (record { traffic = L.traffic line.old; failures = L.failures line.old })
        (record { traffic = L.traffic line.new; failures = L.failures line.new }) result }
{
    told(client.close(line, moment))
}
