//! A session that is kept for one question after the other.

ghost use Rattle.std.specs.Prelude.{◌≡◌, ◌<◌, IfErr, IsTrue, OnOk};
ghost use Rattle.ua_wire.specs.Counted.{text};
ghost use Rattle.ua_services.specs.SessionRequests.{get_endpoints};
ghost use Rattle.ua_session.specs.InSession.{AsksEndpointsIn, AsksQuestion, BeginsByPolicy, BeginsNamed};
ghost use Rattle.ua_session.specs.InSession.{OpensSession, EndsAll, IsNextHandle, RenewsToken};
ghost use Rattle.ua_session.specs.Printed.{AreAnswerLines, AreEndpointLines, HasAdded, LeavesLines};
ghost use Rattle.ua_session.specs.Steps.{AsksRequest};

use crate::answer::print_endpoints;
use crate::fault::QuestionFault;
use crate::policy::TokenPolicy;
use crate::question::Question;
use crate::session::{Heading, call_question, end_session, end_unbegun, find_policy, first_call};
use crate::step::{begin, call, close, first_of, next_moment, open, told};
use crate::verdict::Verdict;
use std::alloc::Global;
use std::io::Write;
use ua_answers::{AnswerStyle, EndpointStyle};
use ua_builtin::{DateTime, NodeId, UaString};
use ua_channel::{Line, Moments};
use ua_client::{Client, Reply};
use ua_frame::Limits;
use ua_services::session_requests::get_endpoints_request;

/// Begins a session by the token policy with an id. One that stays at the server where it was not
/// begun is ended; the first call after those that begin a session would have had this RequestId.
fn begin_named<L: Line, M: Moments>(
    line: &mut L,
    client: &mut Client,
    policy_id: UaString,
    handle: u32,
    moments: &mut M,
) -> Result<NodeId, QuestionFault>
    requires some { 0 < handle }
    ensures { BeginsNamed M.gives policy_id handle moments.old moments.new client.old client.new
        (record { traffic = L.traffic line.old; failures = L.failures line.old })
        (record { traffic = L.traffic line.new; failures = L.failures line.new }) result }
{
    let begun_at = next_moment(moments);
    match begin(line, client, policy_id, begun_at) {
        Ok(token) => Ok(token),
        Err(refused) => Err(end_unbegun(line, client, refused, handle, moments)),
    }
}

/// Finds the token policy, and begins a session by it.
fn begin_by_policy<L: Line, M: Moments>(
    line: &mut L,
    client: &mut Client,
    url: &UaString,
    policy: &TokenPolicy,
    moments: &mut M,
) -> Result<NodeId, QuestionFault>
    ensures { BeginsByPolicy M.gives url.now policy.now moments.old moments.new client.old client.new
        (record { traffic = L.traffic line.old; failures = L.failures line.old })
        (record { traffic = L.traffic line.new; failures = L.failures line.new }) result }
{
    let found = find_policy(line, client, url, policy, moments);
    let handle = first_call(policy);
    match found {
        Ok(id) => begin_named(line, client, id, handle, moments),
        Err(fault) => Err(fault),
    }
}

/// Calls GetEndpoints with this RequestHandle.
fn call_endpoints<L: Line>(
    line: &mut L,
    client: &mut Client,
    url: &UaString,
    handle: u32,
    moment: DateTime,
) -> Result<Reply, QuestionFault>
    ensures { AsksRequest (get_endpoints url.now moment handle) client.old client.new
        (record { traffic = L.traffic line.old; failures = L.failures line.old })
        (record { traffic = L.traffic line.new; failures = L.failures line.new }) result }
{
    let Ok(url) = url.try_clone() else {
        return Err(QuestionFault::NoMemory);
    };
    let request = get_endpoints_request(url, moment, handle);
    call(line, client, request, moment)
}

/// The RequestHandle of the next request of a client: the RequestId of its call; 0 where all were
/// used, and the request is not sent.
fn next_handle(client: &Client) -> u32
    ensures { IsNextHandle client.now result }
{
    match client.next_id() {
        Some(id) => id,
        None => 0,
    }
}

/// A session with a server over a transport, in which one question is asked after the other. Each
/// call takes the transport that the session was begun over.
#[derive(Debug)]
pub struct ClientSession {
    alloc: Global,
    client: Client,
    /// The URL of the server.
    url: UaString,
    /// The AuthenticationToken.
    token: NodeId,
}

// By hand, so that a function that lets a session go calls this, and proves nothing of what lies in
// it.
impl Drop for ClientSession {
    fn drop(self) {
        let ClientSession {
            alloc: _,
            client,
            url,
            token,
        } = self;
        drop(client);
        drop(url);
        drop(token);
    }
}

impl ClientSession {
    /// Opens a client to the server at the other end of a transport, by this URL, and begins a
    /// session by a token policy, as [`ask_over`](crate::ask_over) does. Where the session is not
    /// begun the client is closed.
    pub fn begin<L: Line, M: Moments>(
        alloc: Global,
        line: &mut L,
        limits: Limits,
        url: UaString,
        policy: &TokenPolicy,
        moments: &mut M,
    ) -> Result<ClientSession, QuestionFault>
        requires { IsTrue (text.encodable url) }
        ensures { OpensSession M.gives limits url policy.now moments.old moments.new
            (record { traffic = L.traffic line.old; failures = L.failures line.old })
            (record { traffic = L.traffic line.new; failures = L.failures line.new }) result }
    {
        let opened_at = next_moment(moments);
        let mut client = match open(alloc, line, limits, &url, opened_at) {
            Ok(client) => client,
            Err(fault) => return Err(fault),
        };
        match begin_by_policy(line, &mut client, &url, policy, moments) {
            Ok(token) => Ok(ClientSession {
                alloc,
                client,
                url,
                token,
            }),
            Err(fault) => {
                let closed_at = next_moment(moments);
                let closed = close(line, client, closed_at);
                first_of(Err(fault), closed)
            }
        }
    }

    /// Asks a question, and writes and flushes the lines of the answers in this style: what
    /// [`ask_over`](crate::ask_over) asks and writes within its session.
    pub fn ask<L: Line, O: Write>(
        &mut self,
        line: &mut L,
        question: &Question,
        style: AnswerStyle,
        moment: DateTime,
        out: &mut O,
    ) -> Result<Verdict, QuestionFault>
        ensures asks { AsksQuestion O.contents style question.now moment self.old self.new
            (record { traffic = L.traffic line.old; failures = L.failures line.old })
            (record { traffic = L.traffic line.new; failures = L.failures line.new }) out.old out.new result }
        ensures answered { OnOk result (HasAdded (AreAnswerLines style) (O.contents out.old) (O.contents out.new)) }
        ensures left { IfErr result (λ fault. LeavesLines O.contents (AreAnswerLines style) fault out.old out.new) }
    {
        let heading = Heading {
            token: &self.token,
            moment,
            handle: next_handle(&self.client),
        };
        let called = call_question(self.alloc, line, &mut self.client, question, &heading);
        question.print(self.alloc, out, called, style)
    }

    /// Asks the server for its endpoints, and writes and flushes their lines in this style.
    pub fn ask_endpoints<L: Line, O: Write>(
        &mut self,
        line: &mut L,
        style: EndpointStyle,
        moment: DateTime,
        out: &mut O,
    ) -> Result<(), QuestionFault>
        ensures asks { AsksEndpointsIn O.contents style moment self.old self.new
            (record { traffic = L.traffic line.old; failures = L.failures line.old })
            (record { traffic = L.traffic line.new; failures = L.failures line.new }) out.old out.new result }
        ensures answered { OnOk result (HasAdded (AreEndpointLines style) (O.contents out.old) (O.contents out.new)) }
        ensures left { IfErr result (λ fault. LeavesLines O.contents (AreEndpointLines style) fault out.old out.new) }
    {
        let handle = next_handle(&self.client);
        let called = call_endpoints(line, &mut self.client, &self.url, handle, moment);
        print_endpoints(self.alloc, out, called, style)
    }

    /// Renews the token of the SecureChannel (OPC 10000-4, 5.6.2).
    pub fn renew<L: Line>(&mut self, line: &mut L, moment: DateTime) -> Result<(), QuestionFault>
        ensures { RenewsToken moment self.old self.new
            (record { traffic = L.traffic line.old; failures = L.failures line.old })
            (record { traffic = L.traffic line.new; failures = L.failures line.new }) result }
    {
        told(self.client.renew(line, moment))
    }

    /// Ends the session and closes the client, also after a fault that lets it go on.
    pub fn end<L: Line, M: Moments>(
        self,
        line: &mut L,
        moments: &mut M,
    ) -> Result<(), QuestionFault>
        ensures { EndsAll M.gives self moments.old moments.new
            (record { traffic = L.traffic line.old; failures = L.failures line.old })
            (record { traffic = L.traffic line.new; failures = L.failures line.new }) result }
    {
        let ClientSession {
            alloc: _,
            mut client,
            url,
            token,
        } = self;
        drop(url);
        let handle = next_handle(&client);
        let ended_at = next_moment(moments);
        let ended = end_session(line, &mut client, token, handle, ended_at);
        let closed_at = next_moment(moments);
        let closed = close(line, client, closed_at);
        first_of(ended, closed)
    }
}
