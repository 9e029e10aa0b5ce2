//! `ua endpoints`: the endpoints of a server.

ghost use Rattle.std.specs.Prelude.{IfErr, IsTrue, OnOk};
ghost use Rattle.ua_wire.specs.Counted.{text};
ghost use Rattle.ua_session.specs.Endpoints.{AsksEndpoints, CallsEndpoints, RunsEndpoints};
ghost use Rattle.ua_session.specs.Line.{LineFailedConversing};
ghost use Rattle.ua_session.specs.Printed.{AreEndpointLines, HasAdded, LeavesLines};

use crate::answer::print_endpoints;
use crate::fault::QuestionFault;
use crate::inquiry::Opening;
use crate::step::{call, close, first_of, next_moment, open};
use std::io::Write;
use ua_answers::EndpointStyle;
use ua_builtin::{DateTime, UaString};
use ua_channel::{Line, Moments};
use ua_client::{Client, Reply};
use ua_services::session_requests::get_endpoints_request;

/// The RequestId of the first call of a client: its OPN has 1.
const FIRST_CALL: u32 = 2;

/// Calls GetEndpoints of a server by this URL.
pub(crate) fn call_endpoints<L: Line>(
    line: &mut L,
    client: &mut Client,
    url: &UaString,
    moment: DateTime,
) -> Result<Reply, QuestionFault>
    ensures { CallsEndpoints url.now moment client.old client.new
        (record { traffic = L.traffic line.old; failures = L.failures line.old })
        (record { traffic = L.traffic line.new; failures = L.failures line.new }) result }
{
    let Ok(url) = url.try_clone() else {
        return Err(QuestionFault::NoMemory);
    };
    let request = get_endpoints_request(url, moment, FIRST_CALL);
    call(line, client, request, moment)
}

/// Calls GetEndpoints, and writes the lines of the endpoints.
fn ask_endpoints<L: Line, M: Moments, O: Write>(
    line: &mut L,
    client: &mut Client,
    opening: &Opening<'_>,
    style: EndpointStyle,
    moments: &mut M,
    out: &mut O,
) -> Result<(), QuestionFault>
    ensures { AsksEndpoints M.gives O.contents opening.now.url.now style moments.old moments.new client.old client.new
        (record { traffic = L.traffic line.old; failures = L.failures line.old })
        (record { traffic = L.traffic line.new; failures = L.failures line.new }) out.old out.new result }
{
    let moment = next_moment(moments);
    let called = call_endpoints(line, client, opening.url, moment);
    print_endpoints(opening.alloc, out, called, style)
}

/// Asks the server at the other end of a transport for its endpoints, and writes their lines in
/// this style. The connection has to be at its beginning. A client is opened, calls
/// GetEndpoints without a session and is closed, also after a fault that lets it go on. The lines
/// are written and flushed as soon as the response is read, before the client is closed. The
/// function returns the first fault, but a failed allocation in a later step takes its place unless
/// it is a failed writer. Each of these steps takes the next timestamp.
pub fn endpoints_over<L: Line, M: Moments, O: Write>(
    line: &mut L,
    opening: &Opening<'_>,
    style: EndpointStyle,
    moments: &mut M,
    out: &mut O,
) -> Result<(), QuestionFault>
    requires { IsTrue (text.encodable opening.now.url.now) }
    ensures runs { RunsEndpoints M.gives O.contents opening.now.limits opening.now.url.now style moments.old moments.new
        (record { traffic = L.traffic line.old; failures = L.failures line.old })
        (record { traffic = L.traffic line.new; failures = L.failures line.new }) out.old out.new result }
    ensures answered { OnOk result (HasAdded (AreEndpointLines style) (O.contents out.old) (O.contents out.new)) }
    ensures left { IfErr result (λ fault. LeavesLines O.contents (AreEndpointLines style) fault out.old out.new) }
    ensures failed { LineFailedConversing (L.failures line.old) result (L.failures line.new) }
{
    let Opening { alloc, limits, url } = *opening;
    let opened_at = next_moment(moments);
    match open(alloc, line, limits, url, opened_at) {
        Ok(mut client) => {
            let asked = ask_endpoints(line, &mut client, opening, style, moments, out);
            let closed_at = next_moment(moments);
            let closed = close(line, client, closed_at);
            first_of(asked, closed)
        }
        Err(fault) => Err(fault),
    }
}
