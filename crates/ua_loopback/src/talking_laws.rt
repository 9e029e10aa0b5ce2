//! Laws of a client's calls over any transport whose server-to-client bytes are a server's output
//! for its client-to-server bytes. Each is the contract of a function that does nothing.
//!
//! They state what the clauses of a [`ua_client::Client`] call come to there, call by call, whatever
//! the limits of both ends and the timestamp of each answer of the server. Where it succeeds
//! after a talk so far, the server reads just what the call asks, each request whole, once, in order
//! and under its own RequestId; each reply is that of its own request in the state that those before
//! it left; and the talk goes on with this operation more, so that the laws apply to the next call
//! again. Where it fails, the server's output is not the cause. `Client::open` begins a talk.

ghost use Rattle.std.specs.Prelude.{◌≡◌, ◌⊎◌, ◌≤◌, ◌++◌, [], ℕ, List, Option, None, Some, Result};
ghost use Rattle.std.specs.Prelude.{IfErr, IfOk, IsTrue, OnOk, map};
ghost use Rattle.ua_wire.specs.Counted.{text};
ghost use Rattle.ua_builtin.specs.DateTime.{date_time};
ghost use Rattle.ua_builtin.specs.declared.date_time.DateTime.{DateTime};
ghost use Rattle.ua_builtin.specs.declared.node_id.NodeId.{NodeId};
ghost use Rattle.ua_frame.specs.Agreement.{url_length};
ghost use Rattle.ua_services.specs.declared.request.Request.{Request};
ghost use Rattle.ua_channel.specs.Line.{Traffic};
ghost use Rattle.ua_client.specs.Calls.{CallsAll};
ghost use Rattle.ua_client.specs.Client.{IsLeft, OpensClient, OpensNothing, connection_of};
ghost use Rattle.ua_client.specs.Hearing.{fault_alone};
ghost use Rattle.ua_client.specs.Kept.{CallsInto};
ghost use Rattle.ua_client.specs.Renewing.{Renews};
ghost use Rattle.ua_client.specs.Session.{BeginsSessionAs};
ghost use Rattle.ua_client.specs.declared.client.Client.{Client};
ghost use Rattle.ua_client.specs.declared.connection.Connection.{Connection};
ghost use Rattle.ua_client.specs.declared.fault.CallsFault.{CallsFault};
ghost use Rattle.ua_client.specs.declared.fault.ClientFault.{ClientFault};
ghost use Rattle.ua_client.specs.declared.fault.ClientFault.TheVariants.{UnknownResponse};
ghost use Rattle.ua_client.specs.declared.reply.Reply.{Reply};
ghost use Rattle.ua_server.specs.Sound.{IsSoundState};
ghost use Rattle.ua_loopback.specs.Accepted.{IsTurnFault, turn_refusal_under};
ghost use Rattle.ua_loopback.specs.Beginning.{Beginning};
ghost use Rattle.ua_loopback.specs.Faults.{FailsBehind, IsOutside};
ghost use Rattle.ua_loopback.specs.Replies.{HaveMisanswer, lane_back_by_token, requests_replies, turn_state};
ghost use Rattle.ua_loopback.specs.Says.{services_after};
ghost use Rattle.ua_loopback.specs.Talking.{CanBegin, FailsSession, IsBehindFirst, IsLineTo, IsSentOver, IsTalking};
ghost use Rattle.ua_loopback.specs.Talking.{Reads, SoFar, StopsOver, acked_in};
ghost use Rattle.ua_loopback.specs.Talking.{answers_in, id_in, newest_in};
ghost use Rattle.ua_loopback.specs.Talking.{octets_of_turn, opening, session_requests};
ghost use Rattle.ua_loopback.specs.Talking.{state_in, told_so_far, with_turn};
ghost use Rattle.ua_loopback.specs.Turns.{turn_told};

use ua_builtin::DateTime;
use ua_client::laws::{calls_are_told_behind, clients_are_settled};
use ua_frame::Limits;

/// `Client::open` begins a talk over a transport to a server.
pub fn openings_begin_talks(limits: Limits, moment: DateTime)
    // The server agreed, and issued the first token.
    ensures begins { (b : Beginning) (url : Option (List ℕ)) (before after : Option Traffic)
        (result : Result Client ClientFault) →
        IsTrue (text.encodable url) → CanBegin b → IsLineTo b [] [] before →
        (OpensNothing before after result ⊎ OpensClient limits url moment before after result) →
        IfOk result (λ client. IsTalking (opening b limits url moment) client after) }
    // The server's output does not make it fail; the server takes a URL of at most 4095 bytes
    // (OPC 10000-6, 7.1.2.3).
    ensures fails { (b : Beginning) (url : Option (List ℕ)) (before after : Option Traffic)
        (result : Result Client ClientFault) →
        IsTrue (text.encodable url) → CanBegin b → IsLineTo b [] [] before → url_length url ≤ 4095 →
        (OpensNothing before after result ⊎ OpensClient limits url moment before after result) →
        IfErr result (λ fault. IsOutside fault) }
    // Where the transport failed, the server refused nothing of what was sent, and waits for more.
    ensures stops { (b : Beginning) (url : Option (List ℕ)) (before after : Option Traffic)
        (result : Result Client ClientFault) →
        IsTrue (text.encodable url) → CanBegin b → IsLineTo b [] [] before → url_length url ≤ 4095 →
        (OpensNothing before after result ⊎ OpensClient limits url moment before after result) →
        IfErr result (λ fault. StopsOver fault b [] before after) }
{
    clients_are_settled();
}

/// So it does at any time that can be encoded, also one that only a clause names.
pub fn dated_openings_begin_talks(limits: Limits)
    ensures begins { (b : Beginning) (url : Option (List ℕ)) (moment : DateTime) (before after : Option Traffic)
        (result : Result Client ClientFault) →
        IsTrue (date_time.encodable moment) → IsTrue (text.encodable url) → CanBegin b → IsLineTo b [] [] before →
        (OpensNothing before after result ⊎ OpensClient limits url moment before after result) →
        IfOk result (λ client. IsTalking (opening b limits url moment) client after) }
{
    clients_are_settled();
}

/// In a talk that goes on with an operation, the server reads just this operation more.
pub fn talks_reach_the_server()
    // Its requests, each whole, once, in order, under its own RequestId and the newest token; or
    // the OPN of a renewal, for which it issues the next token, for an hour (OPC 10000-4, 5.6.2).
    ensures reaches { (t : SoFar) (moment : DateTime) (turn : Option (List Request)) (x : Client)
        (now : Option Traffic) → IsTalking (with_turn t moment turn) x now →
        Reads t.server (with_turn t moment turn).octets (told_so_far t ++ turn_told (newest_in t) (id_in t) turn) }
    // Its services are as these requests leave them, one after the other; a renewal leaves them as
    // they were.
    ensures state { (t : SoFar) (moment : DateTime) (turn : Option (List Request)) (x : Client)
        (now : Option Traffic) → IsTalking (with_turn t moment turn) x now →
        services_after t.server (with_turn t moment turn).octets ≡ turn_state (state_in t) t.server.moments
        (answers_in t) turn }
{}

/// `Client::call` and `Client::call_all` go on with a talk: what they return has these replies.
pub fn calls_go_on<A>()
    // The talk goes on with this operation more.
    ensures stays { (replies : A → List Reply) (t : SoFar) (requests : List Request) (moment : DateTime)
        (x y : Client) (before after : Option Traffic) (result : Result A ClientFault) → IsTalking t x before →
        CallsAll replies requests (connection_of x) (connection_of y) before after result → IsLeft result y →
        OnOk result (IsTalking (with_turn t moment (Some requests)) y after) }
    // Just the bytes of these requests are sent.
    ensures sends { (replies : A → List Reply) (t : SoFar) (requests : List Request) (moment : DateTime)
        (x y : Client) (before after : Option Traffic) (result : Result A ClientFault) → IsTalking t x before →
        CallsAll replies requests (connection_of x) (connection_of y) before after result →
        OnOk result (IsSentOver (octets_of_turn t moment (Some requests)) before after) }
    // Each reply is that of its own request in the state that those before it left.
    ensures replied { (replies : A → List Reply) (t : SoFar) (requests : List Request)
        (x y : Client) (before after : Option Traffic) (result : Result A ClientFault) → IsTalking t x before →
        CallsAll replies requests (connection_of x) (connection_of y) before after result →
        IfOk result (λ found. map Some (replies found) ≡
        requests_replies (lane_back_by_token t.server t.limits t.url (newest_in t)) (state_in t) t.server.moments
        (answers_in t) requests) }
    // A fault that is an error of a request is the first error among them, and the talk goes on
    // with the first of these requests, which were asked.
    ensures refused { (replies : A → List Reply) (t : SoFar) (requests : List Request)
        (x y : Client) (before after : Option Traffic) (result : Result A ClientFault) → IsTalking t x before →
        CallsAll replies requests (connection_of x) (connection_of y) before after result →
        IfErr result (λ fault. IsTurnFault fault → turn_refusal_under (acked_in t) t.turns (Some requests)
        ≡ Some fault) }
    ensures before { (replies : A → List Reply) (t : SoFar) (requests : List Request) (moment : DateTime)
        (x y : Client) (before after : Option Traffic) (result : Result A ClientFault) → IsTalking t x before →
        CallsAll replies requests (connection_of x) (connection_of y) before after result → IsLeft result y →
        IfErr result (λ fault. IsTurnFault fault → IsBehindFirst t moment requests y after) }
    // The server's output does not make it fail: the replies come and are read. UnknownResponse
    // comes only where the server's answer is no response, so never where its services are sound,
    // as those of each server are.
    ensures fails { (replies : A → List Reply) (t : SoFar) (requests : List Request)
        (x y : Client) (before after : Option Traffic) (result : Result A ClientFault) → IsTalking t x before →
        CallsAll replies requests (connection_of x) (connection_of y) before after result →
        IfErr result (λ fault. FailsBehind (HaveMisanswer (state_in t) t.server.moments (answers_in t) requests)
        fault) }
    ensures answered { (replies : A → List Reply) (t : SoFar) (requests : List Request)
        (x y : Client) (before after : Option Traffic) (result : Result A ClientFault) → IsTalking t x before →
        CallsAll replies requests (connection_of x) (connection_of y) before after result →
        IsSoundState t.server.first → IfErr result (λ fault. fault ≡ UnknownResponse → ⊥) }
    // Where the transport failed, the server refused nothing of what was sent, and waits for more.
    ensures stops { (replies : A → List Reply) (t : SoFar) (requests : List Request)
        (x y : Client) (before after : Option Traffic) (result : Result A ClientFault) → IsTalking t x before →
        CallsAll replies requests (connection_of x) (connection_of y) before after result →
        IfErr result (λ fault. StopsOver fault t.server t.octets before after) }
{
    clients_are_settled();
    calls_are_told_behind();
}

/// `Client::call_into` calls as `Client::call_all` does, so that `calls_go_on` states what becomes
/// of a talk. The replies are those that it adds.
pub fn calls_into_call_all<A>()
    ensures { (requests : List Request) (x y : Connection) (before after : Option Traffic)
        (result : Result A CallsFault) (had have : List Reply) →
        CallsInto requests x y before after result had have → (added : List Reply) × (have ≡ had ++ added)
        × CallsAll (λ (found : A). added) requests x y before after (fault_alone result) }
{}

/// `Client::begin_session_as` goes on with a talk.
pub fn sessions_go_on()
    // By an operation of two requests: CreateSession, and ActivateSession with the token that the
    // server gave.
    ensures stays { (t : SoFar) (policy_id : Option (List ℕ)) (moment : DateTime) (x y : Client)
        (before after : Option Traffic) (result : Result NodeId ClientFault) → IsTalking t x before →
        BeginsSessionAs policy_id moment (connection_of x) (connection_of y) before after result → IsLeft result y →
        IfOk result (λ token.
        IsTalking (with_turn t moment (Some (session_requests t policy_id token moment))) y after) }
    // Just their bytes are sent.
    ensures sends { (t : SoFar) (policy_id : Option (List ℕ)) (moment : DateTime) (x y : Client)
        (before after : Option Traffic) (result : Result NodeId ClientFault) → IsTalking t x before →
        BeginsSessionAs policy_id moment (connection_of x) (connection_of y) before after result →
        IfOk result (λ token.
        IsSentOver (octets_of_turn t moment (Some (session_requests t policy_id token moment))) before after) }
    // The server's output makes it fail in one way only: with Service, where the reply to one of
    // the two is that the service failed, with this code.
    ensures fails { (t : SoFar) (policy_id : Option (List ℕ)) (moment : DateTime) (x y : Client)
        (before after : Option Traffic) (result : Result NodeId ClientFault) → IsTalking t x before →
        BeginsSessionAs policy_id moment (connection_of x) (connection_of y) before after result →
        IfErr result (λ fault. FailsSession t policy_id moment fault) }
    ensures answered { (t : SoFar) (policy_id : Option (List ℕ)) (moment : DateTime) (x y : Client)
        (before after : Option Traffic) (result : Result NodeId ClientFault) → IsTalking t x before →
        BeginsSessionAs policy_id moment (connection_of x) (connection_of y) before after result →
        IsSoundState t.server.first → IfErr result (λ fault. fault ≡ UnknownResponse → ⊥) }
{
    clients_are_settled();
    calls_are_told_behind();
}

/// `Client::renew` goes on with a talk.
pub fn renewals_go_on(moment: DateTime)
    // The talk goes on with this operation more: calls go out under the next token.
    ensures stays { (t : SoFar) (x y : Client) (before after : Option Traffic)
        (result : Result (Unit {0}) ClientFault) → IsTalking t x before →
        Renews moment (connection_of x) (connection_of y) before after result → IsLeft result y →
        OnOk result (IsTalking (with_turn t moment None) y after) }
    // Just the bytes of an OPN are sent.
    ensures sends { (t : SoFar) (x y : Client) (before after : Option Traffic)
        (result : Result (Unit {0}) ClientFault) → IsTalking t x before →
        Renews moment (connection_of x) (connection_of y) before after result →
        OnOk result (IsSentOver (octets_of_turn t moment None) before after) }
    // A fault that is an error of a renewal is the first error against it.
    ensures refused { (t : SoFar) (x y : Client) (before after : Option Traffic)
        (result : Result (Unit {0}) ClientFault) → IsTalking t x before →
        Renews moment (connection_of x) (connection_of y) before after result →
        IfErr result (λ fault. IsTurnFault fault → turn_refusal_under (acked_in t) t.turns None ≡ Some fault) }
    // The server's output does not make it fail.
    ensures fails { (t : SoFar) (x y : Client) (before after : Option Traffic)
        (result : Result (Unit {0}) ClientFault) → IsTalking t x before →
        Renews moment (connection_of x) (connection_of y) before after result →
        IfErr result (λ fault. FailsBehind ⊥ fault) }
    // Where the transport failed, the server refused nothing of what was sent, and waits for more.
    ensures stops { (t : SoFar) (x y : Client) (before after : Option Traffic)
        (result : Result (Unit {0}) ClientFault) → IsTalking t x before →
        Renews moment (connection_of x) (connection_of y) before after result →
        IfErr result (λ fault. StopsOver fault t.server t.octets before after) }
{}
