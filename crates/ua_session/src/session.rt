//! `ua read` and `ua write`: a question in a session of its own.

ghost use Rattle.std.specs.Prelude.{◌≡◌, ◌<◌, ◌^◌, IfErr, IsTrue, OnOk};
ghost use Rattle.ua_wire.specs.Counted.{text};
ghost use Rattle.ua_session.specs.Line.{LineFailedConversing};
ghost use Rattle.ua_session.specs.Printed.{AreAnswerLines, HasAdded, LeavesLines};
ghost use Rattle.ua_session.specs.Question.{request_of_question};
ghost use Rattle.ua_session.specs.Session.{AsksByPolicy, AsksInSession, AsksUnder, EndsSession, EndsUnbegun};
ghost use Rattle.ua_session.specs.Session.{FindsPolicy, RunsQuestion, first_call};
ghost use Rattle.ua_session.specs.Session.{handle_behind_question, handle_unbegun};
ghost use Rattle.ua_session.specs.Steps.{AsksRequest};

use crate::answer::expect_done;
use crate::endpoints::call_endpoints;
use crate::fault::{NotBegun, QuestionFault};
use crate::inquiry::{Inquiry, Opening};
use crate::policy::{TokenPolicy, choose_by};
use crate::question::Question;
use crate::step::{begin, call, close, first_of, next_moment, open};
use crate::verdict::Verdict;
use std::alloc::Global;
use std::io::Write;
use ua_builtin::{DateTime, NodeId, UaString};
use ua_channel::{Line, Moments};
use ua_client::{Client, Reply};
use ua_services::session_requests::close_session_request;

/// The PolicyId by which a session is to be begun; the server is asked for it where none is named.
pub(crate) fn find_policy<L: Line, M: Moments>(
    line: &mut L,
    client: &mut Client,
    url: &UaString,
    policy: &TokenPolicy,
    moments: &mut M,
) -> Result<UaString, QuestionFault>
    ensures { FindsPolicy M.gives url.now policy.now moments.old moments.new client.old client.new
        (record { traffic = L.traffic line.old; failures = L.failures line.old })
        (record { traffic = L.traffic line.new; failures = L.failures line.new }) result }
{
    match policy {
        TokenPolicy::Named(id) => match id.try_clone() {
            Ok(id) => Ok(id),
            Err(_) => Err(QuestionFault::NoMemory),
        },
        TokenPolicy::Auto => {
            let moment = next_moment(moments);
            let called = call_endpoints(line, client, url, moment);
            choose_by(called)
        }
    }
}

/// The RequestId of the first call in a session: the OPN has 1, those that begin a session have 2
/// and 3, and one more where the server is asked for the token policy first.
pub(crate) fn first_call(policy: &TokenPolicy) -> u32
    ensures handle { result ≡ first_call policy.now }
    ensures few { result < 2 ^ 31 }
    ensures some { 0 < result }
{
    match policy {
        TokenPolicy::Named(_) => 4,
        TokenPolicy::Auto => 5,
    }
}

/// What the header of a request in a session has.
#[derive(Clone, Copy)]
pub struct Heading<'a> {
    /// The AuthenticationToken.
    pub token: &'a NodeId,
    /// The Timestamp.
    pub moment: DateTime,
    /// The RequestHandle.
    pub handle: u32,
}

/// Calls the request that asks a question, under this heading.
pub(crate) fn call_question<L: Line>(
    alloc: Global,
    line: &mut L,
    client: &mut Client,
    question: &Question,
    heading: &Heading<'_>,
) -> Result<Reply, QuestionFault>
    ensures { AsksRequest (request_of_question question.now heading.now.token.now heading.now.moment heading.now.handle)
        client.old client.new (record { traffic = L.traffic line.old; failures = L.failures line.old })
        (record { traffic = L.traffic line.new; failures = L.failures line.new }) result }
{
    let Ok(token) = heading.token.try_clone() else {
        return Err(QuestionFault::NoMemory);
    };
    match question.request(alloc, token, heading.moment, heading.handle) {
        Ok(request) => call(line, client, request, heading.moment),
        Err(_) => Err(QuestionFault::NoMemory),
    }
}

/// The RequestId of the call after a question: a question that was not sent used none.
fn handle_behind(handle: u32, called: &Result<Reply, QuestionFault>) -> u32
    requires few { handle < 2 ^ 31 }
    ensures { result ≡ handle_behind_question handle called.now }
{
    match called {
        Ok(_) => handle + 1,
        Err(_) => handle,
    }
}

/// Ends a session.
pub(crate) fn end_session<L: Line>(
    line: &mut L,
    client: &mut Client,
    token: NodeId,
    handle: u32,
    moment: DateTime,
) -> Result<(), QuestionFault>
    ensures { EndsSession token handle moment client.old client.new
        (record { traffic = L.traffic line.old; failures = L.failures line.old })
        (record { traffic = L.traffic line.new; failures = L.failures line.new }) result }
{
    let request = close_session_request(token, moment, handle);
    let called = call(line, client, request, moment);
    expect_done(called)
}

/// Asks a question under the token of a session, writes the lines of the answers, and ends the
/// session.
fn ask_under<L: Line, M: Moments, O: Write>(
    line: &mut L,
    client: &mut Client,
    inquiry: &Inquiry<'_>,
    token: NodeId,
    moments: &mut M,
    out: &mut O,
) -> Result<Verdict, QuestionFault>
    ensures { AsksUnder M.gives O.contents inquiry.now.style inquiry.now.question.now token
        (first_call inquiry.now.policy.now) moments.old moments.new client.old client.new
        (record { traffic = L.traffic line.old; failures = L.failures line.old })
        (record { traffic = L.traffic line.new; failures = L.failures line.new }) out.old out.new result }
{
    let alloc = inquiry.opening.alloc;
    let handle = first_call(inquiry.policy);
    let moment = next_moment(moments);
    let heading = Heading {
        token: &token,
        moment,
        handle,
    };
    let called = call_question(alloc, line, client, inquiry.question, &heading);
    let behind = handle_behind(handle, &called);
    let printed = inquiry.question.print(alloc, out, called, inquiry.style);
    let ended_at = next_moment(moments);
    let ended = end_session(line, client, token, behind, ended_at);
    first_of(printed, ended)
}

/// The RequestId of the call after a session that was not begun, where that of the first call in it
/// would have been this: one less, unless a service answered that it failed.
fn handle_unbegun(handle: u32, fault: QuestionFault) -> u32
    requires some { 0 < handle }
    ensures { result ≡ handle_unbegun handle fault }
{
    match fault {
        QuestionFault::Service(_) => handle,
        _ => handle - 1,
    }
}

/// Ends the session that stays at the server where it was not begun, if there is one. The outcome
/// of that is not reported.
pub(crate) fn end_unbegun<L: Line, M: Moments>(
    line: &mut L,
    client: &mut Client,
    refused: NotBegun,
    handle: u32,
    moments: &mut M,
) -> QuestionFault
    requires some { 0 < handle }
    ensures fault { result ≡ refused.fault }
    ensures ends { EndsUnbegun M.gives refused.token (handle_unbegun handle refused.fault) moments.old moments.new
        client.old client.new (record { traffic = L.traffic line.old; failures = L.failures line.old })
        (record { traffic = L.traffic line.new; failures = L.failures line.new }) }
{
    let NotBegun { token, fault } = refused;
    if let Some(token) = token {
        let moment = next_moment(moments);
        let _ = end_session(line, client, token, handle_unbegun(handle, fault), moment);
    }
    fault
}

/// Begins a session by the token policy with an id, asks a question in it, writes the lines of the
/// answers, and ends the session.
fn ask_in_session<L: Line, M: Moments, O: Write>(
    line: &mut L,
    client: &mut Client,
    inquiry: &Inquiry<'_>,
    policy_id: UaString,
    moments: &mut M,
    out: &mut O,
) -> Result<Verdict, QuestionFault>
    ensures { AsksInSession M.gives O.contents inquiry.now.style inquiry.now.question.now policy_id
        (first_call inquiry.now.policy.now) moments.old moments.new client.old client.new
        (record { traffic = L.traffic line.old; failures = L.failures line.old })
        (record { traffic = L.traffic line.new; failures = L.failures line.new }) out.old out.new result }
{
    let handle = first_call(inquiry.policy);
    let begun_at = next_moment(moments);
    match begin(line, client, policy_id, begun_at) {
        Ok(token) => ask_under(line, client, inquiry, token, moments, out),
        Err(refused) => Err(end_unbegun(line, client, refused, handle, moments)),
    }
}

/// Finds the token policy, and asks a question in a session that is begun by it.
fn ask_by_policy<L: Line, M: Moments, O: Write>(
    line: &mut L,
    client: &mut Client,
    inquiry: &Inquiry<'_>,
    moments: &mut M,
    out: &mut O,
) -> Result<Verdict, QuestionFault>
    ensures { AsksByPolicy M.gives O.contents inquiry.now.opening.url.now inquiry.now.policy.now inquiry.now.style
        inquiry.now.question.now moments.old moments.new client.old client.new
        (record { traffic = L.traffic line.old; failures = L.failures line.old })
        (record { traffic = L.traffic line.new; failures = L.failures line.new }) out.old out.new result }
{
    match find_policy(line, client, inquiry.opening.url, inquiry.policy, moments) {
        Ok(id) => ask_in_session(line, client, inquiry, id, moments, out),
        Err(fault) => Err(fault),
    }
}

/// Asks the server at the other end of a transport a question in a session of its own, and writes
/// the lines of the answers. The connection has to be at its beginning. A client is opened, begins a
/// session by the token policy, asks, ends the session and is closed,
/// these two also after a fault that lets it go on. A session that CreateSession made, and
/// ActivateSession did not begin, is ended, too; the outcome of that is not reported, and the fault
/// is that of ActivateSession. The lines are written and flushed as soon as the response is read,
/// before the session is ended. The function returns the first fault, but a failed allocation in a
/// later step takes its place unless it is a failed writer. For [`TokenPolicy::Auto`] the client
/// calls GetEndpoints before it begins the session; where the endpoints give no policy the fault is
/// `NoPolicy`, and no session is begun. Each of these steps takes the next timestamp.
pub fn ask_over<L: Line, M: Moments, O: Write>(
    line: &mut L,
    inquiry: &Inquiry<'_>,
    moments: &mut M,
    out: &mut O,
) -> Result<Verdict, QuestionFault>
    requires { IsTrue (text.encodable inquiry.now.opening.url.now) }
    ensures runs { RunsQuestion M.gives O.contents inquiry.now.opening.limits inquiry.now.opening.url.now
        inquiry.now.policy.now inquiry.now.style inquiry.now.question.now moments.old moments.new
        (record { traffic = L.traffic line.old; failures = L.failures line.old })
        (record { traffic = L.traffic line.new; failures = L.failures line.new }) out.old out.new result }
    ensures answered { OnOk result
        (HasAdded (AreAnswerLines inquiry.now.style) (O.contents out.old) (O.contents out.new)) }
    ensures left { IfErr result
        (λ fault. LeavesLines O.contents (AreAnswerLines inquiry.now.style) fault out.old out.new) }
    ensures failed { LineFailedConversing (L.failures line.old) result (L.failures line.new) }
{
    let Opening { alloc, limits, url } = inquiry.opening;
    let opened_at = next_moment(moments);
    match open(alloc, line, limits, url, opened_at) {
        Ok(mut client) => {
            let asked = ask_by_policy(line, &mut client, inquiry, moments, out);
            let closed_at = next_moment(moments);
            let closed = close(line, client, closed_at);
            first_of(asked, closed)
        }
        Err(fault) => Err(fault),
    }
}
