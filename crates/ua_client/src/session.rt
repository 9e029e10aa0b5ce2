//! The beginning of a session over a transport.

ghost use Rattle.std.specs.Prelude.{◌≡◌, None, IfOk, IfErr};
ghost use Rattle.ua_channel.specs.Client.{url_of};
ghost use Rattle.ua_client.specs.Hearing.{channel_of_connection, failures_behind};
ghost use Rattle.ua_client.specs.Session.{CallsOneAt, DoesIdle, IsFailure, LacksToken, MakesRequest, ServesAt};
ghost use Rattle.ua_client.specs.Session.{TriesSession, activating_at, brings_any, brings_token, creating_at};
ghost use Rattle.ua_client.specs.Session.{is_reply, reply_failure, response_failure, session_alone};
ghost use Rattle.ua_client.specs.Renewing.{StandsSettled};
ghost use Rattle.ua_client.specs.ClientPlace.{ClientPlace, StandsAt};

use crate::connection::Connection;
use crate::fault::{ClientFault, SessionFault};
use crate::laws::clients_are_settled;
use crate::reply::{Reply, only_reply};
use std::alloc::AllocError;
use std::slice;
use ua_builtin::{DateTime, NodeId, StatusCode, UaString, WriteFault};
use ua_channel::Line;
use ua_services::session_requests::{activate_session_request_as, create_session_request};
use ua_services::{Request, Response, ResponseKind};

/// Why the service that a response answers failed, if it did.
fn failure_of(response: &Response) -> Option<StatusCode>
    ensures { result ≡ response_failure response.now }
{
    let code = response.header().service_result;
    if matches!(response.kind(), ResponseKind::ServiceFault) || code.is_bad() {
        return Some(code);
    }
    None
}

/// A reply, unless the service failed.
fn judge_reply(reply: Reply) -> Result<Reply, ClientFault>
    ensures good { IfOk result (λ r. (r ≡ reply) × (reply_failure reply ≡ None)) }
    ensures bad { IfErr result (λ fault. IsFailure reply fault) }
{
    let failure = match &reply {
        Reply::Response(response) => failure_of(response),
        Reply::Aborted(code) => Some(*code),
    };
    match failure {
        Some(code) => {
            drop(reply);
            Err(ClientFault::Service(code))
        }
        None => Ok(reply),
    }
}

/// The token in a reply to CreateSession.
#[tactic(auto, using(crate::proofs::Tokens::no_token))]
fn token_of(reply: Reply) -> Result<NodeId, ClientFault>
    ensures token { IfOk result (λ token. brings_token token reply) }
    ensures fault { IfErr result (λ fault. LacksToken reply fault) }
{
    match reply {
        Reply::Response(response) => match response.into_create_session() {
            Ok(message) => Ok(message.authentication_token),
            Err(other) => {
                drop(other);
                Err(ClientFault::UnknownResponse)
            }
        },
        Reply::Aborted(_) => Err(ClientFault::UnknownResponse),
    }
}

impl Connection {
    /// The reply to a request that is called by itself.
    fn call_one<L: Line>(
        &mut self,
        line: &mut L,
        reads: &mut u64,
        request: &Request,
        moment: DateTime,
    ) -> Result<Reply, ClientFault>
        ensures calls { DoesIdle (λ s sent taken. CallsOneAt request.now s self.new sent taken result) self.old self.new
            (L.traffic line.old) (L.traffic line.new) reads.old reads.new result }
        ensures failed { L.failures line.new ≡ failures_behind (L.failures line.old) result }
    {
        let mut replies = Vec::new(self.alloc);
        let group = slice::from_ref(request);
        match self.call_group(line, reads, group, moment, &mut replies) {
            Ok(()) => Ok(only_reply(replies)),
            Err(calls) => {
                drop(replies);
                Err(calls.fault)
            }
        }
    }

    /// The reply to a request that is called by itself, unless the service failed.
    fn serve<L: Line>(
        &mut self,
        line: &mut L,
        reads: &mut u64,
        request: Request,
        moment: DateTime,
    ) -> Result<Reply, ClientFault>
        ensures serves { DoesIdle (λ s sent taken. ServesAt request is_reply s self.new sent taken result) self.old
            self.new (L.traffic line.old) (L.traffic line.new) reads.old reads.new result }
        ensures failed { L.failures line.new ≡ failures_behind (L.failures line.old) result }
    {
        let replied = self.call_one(line, reads, &request, moment);
        drop(request);
        match replied {
            Ok(reply) => judge_reply(reply),
            Err(fault) => Err(fault),
        }
    }

    /// The CreateSession that would be sent next.
    fn creating(&self, moment: DateTime) -> Result<Request, AllocError>
        ensures { (s : ClientPlace) → StandsAt (channel_of_connection self.now) s
            → IfOk result (λ r. r ≡ creating_at (url_of (channel_of_connection self.now)) moment s) }
    {
        let url = self.channel.url().try_clone()?;
        create_session_request(self.alloc, url, moment, self.channel.next_id())
    }

    /// The ActivateSession under a token, by the token policy with an id, that would be sent next.
    fn activating(
        &self,
        token: &NodeId,
        policy_id: UaString,
        moment: DateTime,
    ) -> Result<Request, ClientFault>
        ensures { MakesRequest (activating_at policy_id token.now moment) (channel_of_connection self.now) result }
    {
        let Ok(token) = token.try_clone() else {
            return Err(ClientFault::OutOfMemory);
        };
        let handle = self.channel.next_id();
        match activate_session_request_as(self.alloc, token, policy_id, moment, handle) {
            Ok(request) => Ok(request),
            Err(WriteFault::OutOfMemory) => Err(ClientFault::OutOfMemory),
            Err(WriteFault::NotWritable) => Err(ClientFault::NotWritable),
        }
    }

    /// Calls CreateSession, and returns the token of the session.
    fn create_session<L: Line>(
        &mut self,
        line: &mut L,
        reads: &mut u64,
        moment: DateTime,
    ) -> Result<NodeId, ClientFault>
        ensures creates { DoesIdle
            (λ s sent taken. ServesAt (creating_at (url_of (channel_of_connection self.old)) moment s) brings_token s
            self.new sent
            taken result) self.old self.new (L.traffic line.old) (L.traffic line.new) reads.old reads.new result }
        ensures failed { L.failures line.new ≡ failures_behind (L.failures line.old) result }
    {
        let Ok(request) = self.creating(moment) else {
            return Err(ClientFault::OutOfMemory);
        };
        match self.serve(line, reads, request, moment) {
            Ok(reply) => token_of(reply),
            Err(fault) => Err(fault),
        }
    }

    /// Calls ActivateSession under the token of a session, by the token policy with an id.
    fn activate_session<L: Line>(
        &mut self,
        line: &mut L,
        reads: &mut u64,
        token: &NodeId,
        policy_id: UaString,
        moment: DateTime,
    ) -> Result<(), ClientFault>
        ensures activates { DoesIdle
            (λ s sent taken. ServesAt (activating_at policy_id token.now moment s) brings_any s self.new sent taken
            result) self.old self.new (L.traffic line.old) (L.traffic line.new) reads.old reads.new result }
        ensures failed { L.failures line.new ≡ failures_behind (L.failures line.old) result }
    {
        let request = match self.activating(token, policy_id, moment) {
            Ok(request) => request,
            Err(fault) => return Err(fault),
        };
        match self.serve(line, reads, request, moment) {
            Ok(reply) => {
                drop(reply);
                Ok(())
            }
            Err(fault) => Err(fault),
        }
    }

    /// Begins a session: CreateSession and, after a good response, ActivateSession under its token,
    /// by the token policy with an id.
    pub fn begin_session<L: Line>(
        &mut self,
        line: &mut L,
        policy_id: UaString,
        moment: DateTime,
    ) -> Result<NodeId, SessionFault>
        requires settled { StandsSettled (channel_of_connection self.old) }
        ensures begins { TriesSession policy_id moment self.old self.new (L.traffic line.old) (L.traffic line.new)
            result }
        ensures failed { L.failures line.new ≡ failures_behind (L.failures line.old) (session_alone result) }
    {
        clients_are_settled();
        let mut reads = u64::MAX;
        let token = match self.create_session(line, &mut reads, moment) {
            Ok(token) => token,
            Err(fault) => return Err(SessionFault { token: None, fault }),
        };
        match self.activate_session(line, &mut reads, &token, policy_id, moment) {
            Ok(()) => Ok(token),
            Err(fault) => Err(SessionFault {
                token: Some(token),
                fault,
            }),
        }
    }
}
