//! Laws of when a call of a client is answered, over any transport whose server-to-client bytes are
//! a server's output for its client-to-server bytes. Each is the contract of a function that does
//! nothing.

ghost use Rattle.std.specs.Prelude.{◌≡◌, ◌⊎◌, ◌≤◌, [], ℕ, List, Option, None, Some, Result, Ok, IfErr, IsTrue, map};
ghost use Rattle.ua_wire.specs.Counted.{text};
ghost use Rattle.ua_builtin.specs.declared.date_time.DateTime.{DateTime};
ghost use Rattle.ua_frame.specs.Agreement.{url_length};
ghost use Rattle.ua_services.specs.declared.request.Request.{Request};
ghost use Rattle.ua_channel.specs.Line.{Traffic};
ghost use Rattle.ua_client.specs.Calls.{CallsAll};
ghost use Rattle.ua_client.specs.Client.{IsLeft, OpensClient, OpensNothing, connection_of};
ghost use Rattle.ua_client.specs.Renewing.{Renews};
ghost use Rattle.ua_client.specs.declared.client.Client.{Client};
ghost use Rattle.ua_client.specs.declared.fault.ClientFault.{ClientFault};
ghost use Rattle.ua_client.specs.declared.reply.Reply.{Reply};
ghost use Rattle.ua_server.specs.Sound.{IsSoundState};
ghost use Rattle.ua_loopback.specs.Accepted.{IsAcceptedUnder, turn_refusal_under};
ghost use Rattle.ua_loopback.specs.Beginning.{Beginning};
ghost use Rattle.ua_loopback.specs.Faults.{IsOutside};
ghost use Rattle.ua_loopback.specs.Replies.{lane_back_by_token, requests_replies};
ghost use Rattle.ua_loopback.specs.Talking.{CanBegin, IsLineTo, IsTalking, SoFar, acked_in, answers_in, newest_in};
ghost use Rattle.ua_loopback.specs.Talking.{opening, state_in, with_turn};
ghost use Rattle.ua_headline.specs.Answering.{HasNoFailure, SendsFew};

use ua_builtin::DateTime;
use ua_frame::Limits;
use ua_loopback::talking_laws::{calls_go_on, openings_begin_talks, renewals_go_on};

/// `Client::open` begins a talk where neither the transport nor an allocation fails, and fewer bytes
/// come than the call may make reads.
pub fn openings_are_answered(limits: Limits, moment: DateTime)
    ensures answered { (b : Beginning) (url : Option (List ℕ)) (before after : Option Traffic)
        (result : Result Client ClientFault) →
        IsTrue (text.encodable url) → CanBegin b → IsLineTo b [] [] before → url_length url ≤ 4095 →
        (OpensNothing before after result ⊎ OpensClient limits url moment before after result) →
        HasNoFailure result → SendsFew b [] before after →
        (client : Client) × (result ≡ Ok client) × IsTalking (opening b limits url moment) client after }
{
    openings_begin_talks(limits, moment);
}

/// `Client::call` and `Client::call_all`, after a talk so far with a server whose services are sound,
/// as every `Services` is.
pub fn accepted_calls_are_answered<A>()
    // The fault is the first reason against these requests; or it is the transport's, or that of an
    // allocation, or comes after as many reads as a call may make.
    ensures faults { (replies : A → List Reply) (t : SoFar) (requests : List Request) (x y : Client)
        (before after : Option Traffic) (result : Result A ClientFault) → IsTalking t x before →
        CallsAll replies requests (connection_of x) (connection_of y) before after result →
        IsSoundState t.server.first →
        IfErr result (λ fault. (turn_refusal_under (acked_in t) t.turns (Some requests) ≡ Some fault)
        ⊎ IsOutside fault) }
    // Requests that are accepted are answered where neither failed, and fewer bytes come than the
    // call may make reads: each by its own reply in the state that those before it left.
    ensures answered { (replies : A → List Reply) (t : SoFar) (requests : List Request) (x y : Client)
        (before after : Option Traffic) (result : Result A ClientFault) → IsTalking t x before →
        CallsAll replies requests (connection_of x) (connection_of y) before after result →
        IsSoundState t.server.first → IsAcceptedUnder (acked_in t) t.turns (Some requests) →
        HasNoFailure result → SendsFew t.server t.octets before after →
        (found : A) × (result ≡ Ok found) × (map Some (replies found) ≡
        requests_replies (lane_back_by_token t.server t.limits t.url (newest_in t)) (state_in t) t.server.moments
        (answers_in t) requests) }
{
    calls_go_on::<A>();
}

/// The same of `Client::renew`, whatever the services.
pub fn accepted_renewals_are_answered(moment: DateTime)
    ensures faults { (t : SoFar) (x y : Client) (before after : Option Traffic)
        (result : Result (Unit {0}) ClientFault) → IsTalking t x before →
        Renews moment (connection_of x) (connection_of y) before after result →
        IfErr result (λ fault. (turn_refusal_under (acked_in t) t.turns None ≡ Some fault) ⊎ IsOutside fault) }
    ensures answered { (t : SoFar) (x y : Client) (before after : Option Traffic)
        (result : Result (Unit {0}) ClientFault) → IsTalking t x before →
        Renews moment (connection_of x) (connection_of y) before after result → IsLeft result y →
        IsAcceptedUnder (acked_in t) t.turns None → HasNoFailure result → SendsFew t.server t.octets before after →
        (result ≡ Ok tt) × IsTalking (with_turn t moment None) y after }
{
    renewals_go_on(moment);
}
