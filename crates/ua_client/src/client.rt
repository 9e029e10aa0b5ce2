//! A client over a transport.

ghost use Rattle.std.specs.Prelude.{◌≡◌, false};
ghost use Rattle.ua_client.specs.Renewing.{StandsSettled};

use crate::collecting::no_replies;
use crate::connection::Connection;
use crate::fault::{CallsFault, ClientFault, SessionFault};
use crate::laws::clients_are_settled;
use crate::reply::{Reply, only_reply};
use std::alloc::Global;
use std::slice;
use ua_builtin::{DateTime, NodeId, UaString};
use ua_channel::Line;
use ua_frame::Limits;
use ua_services::Request;

/// The PolicyId of the token policy of a session for which no other is given.
const ANONYMOUS: &str = "anonymous";

/// The first number that is the RequestId of no call and of no renewal; the CLO may have it.
const NO_ID: u32 = u32::MAX;

/// A client whose channel is open, until the client fails or is closed.
#[derive(Debug)]
pub struct Client {
    connection: Connection,
    /// Whether the client failed or was closed.
    is_done: bool,
    /// Unless the client is done, its channel is open, and all calls and renewals are answered.
    pub ghost settled: { is_done ≡ false → StandsSettled connection.channel },
}

// By hand, so that a function that lets a client go calls this, and proves nothing of what lies in
// it.
impl Drop for Client {
    fn drop(self) {
        let Client {
            connection,
            is_done: _,
        } = self;
        drop(connection);
    }
}

impl Client {
    ghost use Rattle.std.specs.Prelude.{◌≡◌, ◌⊎◌, ◌+◌, ◌<◌, ◌≤◌, ◌∷◌, []};
    ghost use Rattle.std.specs.Prelude.{length, None, IsTrue, IfOk, IfErr, OnOk, Err};
    ghost use Rattle.ua_wire.specs.Counted.{text};
    ghost use Rattle.ua_channel.specs.Client.{IsClientDone, client_bound, WhateverPassed};
    ghost use Rattle.ua_channel.specs.Client.{client_bound_behind, client_limits, held_octets};
    ghost use Rattle.ua_channel.specs.Received.{received};
    ghost use Rattle.ua_client.specs.Calls.{CallsAll};
    ghost use Rattle.ua_client.specs.Client.{OpensNothing, OpensClient, HasFailedOrClosed, IsReady};
    ghost use Rattle.ua_client.specs.Client.{IsLeft, Closes, client_channel, connection_of};
    ghost use Rattle.ua_client.specs.Hearing.{failures_behind, fault_alone};
    ghost use Rattle.ua_client.specs.Kept.{CallsInto, closed_at_request};
    ghost use Rattle.ua_client.specs.Renewing.{Renews, IsRefusal};
    ghost use Rattle.ua_client.specs.Session.{BeginsSession, BeginsSessionAs};
    ghost use Rattle.ua_client.specs.Session.{TriesSession, session_alone, session_closed};
    ghost use Rattle.ua_client.specs.ClientPlace.{ClientPlace, StandsAt, id_at, usable_id};
    ghost use Rattle.ua_client.specs.declared.fault.ClientFault.TheVariants.{Closed};

    /// Opens a connection over a transport, and a SecureChannel on it, to the server of this URL:
    /// writes the HEL, and the OPN after the ACK.
    pub fn open<L: Line>(
        alloc: Global,
        line: &mut L,
        limits: Limits,
        url: UaString,
        moment: DateTime,
    ) -> Result<Client, ClientFault>
        requires { IsTrue (text.encodable url) }
        ensures opens { OpensNothing (L.traffic line.old) (L.traffic line.new) result
            ⊎ OpensClient limits url moment (L.traffic line.old) (L.traffic line.new) result }
        ensures failed { L.failures line.new ≡ failures_behind (L.failures line.old) result }
    {
        clients_are_settled();
        let mut connection = match Connection::new(alloc, limits, url) {
            Ok(connection) => connection,
            Err(fault) => return Err(fault),
        };
        match connection.open(line, moment) {
            Ok(()) => Ok(Client {
                connection,
                is_done: false,
            }),
            Err(fault) => Err(fault),
        }
    }

    /// Begins a session by the token policy `anonymous`, as [`Client::begin_session_as`] does.
    pub fn begin_session<L: Line>(
        &mut self,
        line: &mut L,
        moment: DateTime,
    ) -> Result<NodeId, ClientFault>
        ensures begins { IsReady self.old → BeginsSession moment (connection_of self.old) (connection_of self.new)
            (L.traffic line.old) (L.traffic line.new) result }
        ensures left { IsReady self.old → IsLeft result self.new }
        ensures closed { HasFailedOrClosed self.old → (result ≡ Err Closed) × (self.new ≡ self.old)
            × (line.new ≡ line.old) }
        ensures failed { L.failures line.new ≡ failures_behind (L.failures line.old) result }
    {
        if self.is_done {
            return Err(ClientFault::Closed);
        }
        match UaString::from_str(self.connection.alloc, ANONYMOUS) {
            Ok(policy_id) => self.begin_session_as(line, policy_id, moment),
            Err(_) => {
                self.is_done = true;
                Err(ClientFault::OutOfMemory)
            }
        }
    }

    /// Begins a session of the client `urn:ua:client` at the server, and returns its
    /// AuthenticationToken, which the requests of the session carry in their headers. It calls
    /// CreateSession and, after a good response, ActivateSession for an anonymous user by the token
    /// policy with this PolicyId, as the server's endpoints name it, each as [`Client::call`] does,
    /// with the RequestId as RequestHandle (OPC 10000-4, 5.7.2 and 5.7.3).
    ///
    /// It returns `Service` with the StatusCode of a ServiceFault, of a reply that the server
    /// aborted, or of a bad ServiceResult. After `Service`, `TooLarge`, `NotWritable` and
    /// `Exhausted` the client may be called again: all that it sent was answered. After any other
    /// fault it is done.
    ///
    /// A session that was created by then stays at the server: [`Client::try_begin_session`]
    /// returns its token.
    pub fn begin_session_as<L: Line>(
        &mut self,
        line: &mut L,
        policy_id: UaString,
        moment: DateTime,
    ) -> Result<NodeId, ClientFault>
        ensures begins { IsReady self.old → BeginsSessionAs policy_id moment (connection_of self.old)
            (connection_of self.new) (L.traffic line.old) (L.traffic line.new) result }
        ensures left { IsReady self.old → IsLeft result self.new }
        ensures closed { HasFailedOrClosed self.old → (result ≡ Err Closed) × (self.new ≡ self.old)
            × (line.new ≡ line.old) }
        ensures failed { L.failures line.new ≡ failures_behind (L.failures line.old) result }
    {
        match self.try_begin_session(line, policy_id, moment) {
            Ok(token) => Ok(token),
            Err(failed) => Err(failed.fault),
        }
    }

    /// Begins a session, as [`Client::begin_session_as`] does. Where CreateSession brought a token
    /// and ActivateSession failed, the fault has that token: the session stays at the server, and a
    /// client that may be called again can close it by a CloseSession under the token (OPC 10000-4,
    /// 5.7.4).
    pub fn try_begin_session<L: Line>(
        &mut self,
        line: &mut L,
        policy_id: UaString,
        moment: DateTime,
    ) -> Result<NodeId, SessionFault>
        ensures begins { IsReady self.old → TriesSession policy_id moment (connection_of self.old)
            (connection_of self.new) (L.traffic line.old) (L.traffic line.new) result }
        ensures left { IsReady self.old → IsLeft (session_alone result) self.new }
        ensures closed { HasFailedOrClosed self.old → (result ≡ Err session_closed) × (self.new ≡ self.old)
            × (line.new ≡ line.old) }
        ensures failed { L.failures line.new ≡ failures_behind (L.failures line.old) (session_alone result) }
    {
        if self.is_done {
            return Err(SessionFault {
                token: None,
                fault: ClientFault::Closed,
            });
        }
        match self.connection.begin_session(line, policy_id, moment) {
            Ok(token) => Ok(token),
            Err(failed) => {
                self.is_done = failed.fault.ends();
                Err(failed)
            }
        }
    }

    /// Calls one request and returns its reply, as [`Client::call_all`] does.
    pub fn call<L: Line>(
        &mut self,
        line: &mut L,
        request: &Request,
        moment: DateTime,
    ) -> Result<Reply, ClientFault>
        ensures calls { IsReady self.old → CallsAll (λ reply. reply ∷ []) (request.now ∷ []) (connection_of self.old)
            (connection_of self.new) (L.traffic line.old) (L.traffic line.new) result }
        ensures left { IsReady self.old → IsLeft result self.new }
        ensures closed { HasFailedOrClosed self.old → (result ≡ Err Closed) × (self.new ≡ self.old)
            × (line.new ≡ line.old) }
        ensures failed { L.failures line.new ≡ failures_behind (L.failures line.old) result }
    {
        match self.call_all(line, slice::from_ref(request), moment) {
            Ok(replies) => Ok(only_reply(replies)),
            Err(fault) => Err(fault),
        }
    }

    /// Calls requests and returns the replies in the order of the requests. The requests are sent
    /// in groups of 64, the last of which may have fewer: each group is checked as a whole, written
    /// and then answered. After `TooLarge`, `NotWritable` and `Exhausted` the client is in its
    /// state after the groups before, and nothing of the group was written; after any other fault
    /// it is done.
    ///
    /// At a fault the replies that arrived are dropped: [`Client::call_into`] keeps them, and names
    /// the request that was not answered.
    pub fn call_all<L: Line>(
        &mut self,
        line: &mut L,
        requests: &[Request],
        moment: DateTime,
    ) -> Result<Vec<Reply>, ClientFault>
        ensures calls { IsReady self.old → CallsAll (λ replies. replies.items) requests.now (connection_of self.old)
            (connection_of self.new) (L.traffic line.old) (L.traffic line.new) result }
        ensures count { IfOk result (λ replies. length replies.items ≡ length requests.now) }
        ensures left { IsReady self.old → IsLeft result self.new }
        ensures closed { HasFailedOrClosed self.old → (result ≡ Err Closed) × (self.new ≡ self.old)
            × (line.new ≡ line.old) }
        ensures failed { L.failures line.new ≡ failures_behind (L.failures line.old) result }
    {
        let mut replies = no_replies(self.connection.alloc, requests.len());
        match self.call_into(line, requests, moment, &mut replies) {
            Ok(()) => Ok(replies),
            Err(calls) => {
                drop(replies);
                Err(calls.fault)
            }
        }
    }

    /// Appends the replies to requests to a vector, in the order of the requests. It calls as
    /// [`Client::call_all`] does, and keeps the replies where not all requests are answered.
    ///
    /// At a fault the vector has the replies to the groups before, and of the group that failed
    /// those that arrived up to the first that is missing; a reply that arrived out of order after
    /// a missing one is dropped. After `TooLarge`, `NotWritable` and `Exhausted` the fault names
    /// the first request of its group to which a reason applies, after any other fault the first
    /// one that has no reply in the vector. Memory for the replies of a group is reserved before
    /// the group is sent, so that no reply that arrives in order is lost; where that allocation
    /// fails, the group is not sent.
    pub fn call_into<L: Line>(
        &mut self,
        line: &mut L,
        requests: &[Request],
        moment: DateTime,
        replies: &mut Vec<Reply>,
    ) -> Result<(), CallsFault>
        ensures calls { IsReady self.old → CallsInto requests.now (connection_of self.old) (connection_of self.new)
            (L.traffic line.old) (L.traffic line.new) result replies.old.items replies.new.items }
        ensures count { OnOk result (length replies.new.items ≡ length replies.old.items + length requests.now) }
        ensures names { IsReady self.old → IfErr result (λ calls. calls.request < length requests.now) }
        ensures left { IsReady self.old → IsLeft (fault_alone result) self.new }
        ensures closed { HasFailedOrClosed self.old → (result ≡ Err (closed_at_request 0)) × (self.new ≡ self.old)
            × (line.new ≡ line.old) × (replies.new ≡ replies.old) }
        ensures failed { L.failures line.new ≡ failures_behind (L.failures line.old) (fault_alone result) }
    {
        if self.is_done {
            return Err(CallsFault {
                request: 0,
                fault: ClientFault::Closed,
            });
        }
        match self.connection.call_groups(line, requests, moment, replies) {
            Ok(()) => Ok(()),
            Err(calls) => {
                self.is_done = calls.fault.ends();
                Err(calls)
            }
        }
    }

    /// The number of bytes held that are incomplete: of a frame, and of unfinished messages. Bytes
    /// that were read and are not yet taken are not counted; they are at most 4096.
    pub fn held(&self) -> usize
        ensures held { WhateverPassed (client_channel self.now) (λ asks octets frames rest.
            result ≡ held_octets frames rest) }
        ensures bound { WhateverPassed (client_channel self.now) (λ asks octets frames rest.
            result ≤ client_bound (client_channel self.now)) }
        ensures done { IsClientDone (client_channel self.now) → result ≡ 0 }
    {
        self.connection.channel.held()
    }

    /// The maximum number of bytes that may be held: the largest frame that the server sends, and 4
    /// times the largest message that the client accepts.
    pub fn bound(&self) -> usize
        ensures stands { WhateverPassed (client_channel self.now) (λ asks octets frames rest.
            result ≡ client_bound_behind (client_limits (client_channel self.now)) (received frames).ack) }
        ensures is { result ≡ client_bound (client_channel self.now) }
    {
        self.connection.channel.bound()
    }

    /// The RequestId of the next call; `None` where all were used, or the client is done.
    pub fn next_id(&self) -> Option<u32>
        ensures ready { IsReady self.now → (s : ClientPlace) → StandsAt (client_channel self.now) s
            → result ≡ usable_id (id_at s) }
        ensures done { HasFailedOrClosed self.now → result ≡ None }
    {
        if self.is_done {
            return None;
        }
        let id = self.connection.channel.next_id();
        if id == NO_ID {
            return None;
        }
        Some(id)
    }

    /// Renews the token of the channel: sends an OPN request (OPC 10000-4, 5.6.2), and waits for
    /// the response. Calls are sent under the new token from then on.
    ///
    /// After `TooManyTokens` and `Exhausted` nothing has changed; after any other fault the client
    /// is done.
    pub fn renew<L: Line>(&mut self, line: &mut L, moment: DateTime) -> Result<(), ClientFault>
        ensures renews { IsReady self.old → Renews moment (connection_of self.old) (connection_of self.new)
            (L.traffic line.old) (L.traffic line.new) result }
        ensures left { IsReady self.old → IsLeft result self.new }
        ensures unchanged { IsRefusal result → (self.new ≡ self.old) × (line.new ≡ line.old) }
        ensures closed { HasFailedOrClosed self.old → (result ≡ Err Closed) × (self.new ≡ self.old)
            × (line.new ≡ line.old) }
        ensures failed { L.failures line.new ≡ failures_behind (L.failures line.old) result }
    {
        if self.is_done {
            return Err(ClientFault::Closed);
        }
        match self.connection.renew(line, moment) {
            Ok(()) => Ok(()),
            Err(fault) => {
                self.is_done = fault.ends();
                Err(fault)
            }
        }
    }

    /// Closes the channel by the CLO, after which the client is done.
    pub fn close<L: Line>(&mut self, line: &mut L, moment: DateTime) -> Result<(), ClientFault>
        ensures closes { IsReady self.old → Closes moment (client_channel self.old) (L.traffic line.old)
            (L.traffic line.new) result }
        ensures done { HasFailedOrClosed self.new }
        ensures closed { HasFailedOrClosed self.old → (result ≡ Err Closed) × (self.new ≡ self.old)
            × (line.new ≡ line.old) }
        ensures failed { L.failures line.new ≡ failures_behind (L.failures line.old) result }
    {
        if self.is_done {
            return Err(ClientFault::Closed);
        }
        self.is_done = true;
        self.connection.close(line, moment)
    }
}
