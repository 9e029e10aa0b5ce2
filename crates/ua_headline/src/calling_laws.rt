//! Laws of what a program did that calls a `ua_client::Client`, over any transport: also one that
//! does not tell its bytes, as a socket. Each is the contract of a function that does nothing.
//!
//! Their premises are the clauses of `Client::open`, of `Client::call` and `Client::call_all`, of
//! `Client::renew` and of `Client::begin_session_as`; `calls_into_call_all` of `ua_loopback` leads
//! from that of `Client::call_into` to that of `Client::call_all`.

ghost use Rattle.std.specs.Prelude.{◌≡◌, ◌⊎◌, ◌++◌, ◌∷◌, [], ℕ, List, None, Ok, Err, Option, Result, map};
ghost use Rattle.ua_builtin.specs.declared.date_time.DateTime.{DateTime};
ghost use Rattle.ua_builtin.specs.declared.node_id.NodeId.{NodeId};
ghost use Rattle.ua_services.specs.declared.request.Request.{Request};
ghost use Rattle.ua_channel.specs.Line.{Traffic};
ghost use Rattle.ua_client.specs.Calls.{CallsAll};
ghost use Rattle.ua_client.specs.Client.{OpensClient, connection_of};
ghost use Rattle.ua_client.specs.Renewing.{IsRefusal, Renews};
ghost use Rattle.ua_client.specs.Session.{BeginsSessionAs};
ghost use Rattle.ua_client.specs.declared.client.Client.{Client};
ghost use Rattle.ua_client.specs.declared.fault.ClientFault.{ClientFault};
ghost use Rattle.ua_client.specs.declared.reply.Reply.{Reply};
ghost use Rattle.ua_server.specs.Served.{channel_in};
ghost use Rattle.ua_headline.specs.Calling.{AreGroupsOf, AreServersReplies, FailsAfter, FailsInGroup};
ghost use Rattle.ua_headline.specs.Calling.{FailsService, HasDone, HasDoneAll, IsOneConnection, IsRejected};
ghost use Rattle.ua_headline.specs.Calling.{activating_after, creating_after, with_creating};
ghost use Rattle.ua_headline.specs.Clients.Deed.{Calls, Renews as Renewal};
ghost use Rattle.ua_headline.specs.Clients.{Deed, IsLinked, turn_of, turns_of};
ghost use Rattle.ua_headline.specs.EachCall.{operations_of};
ghost use Rattle.ua_headline.specs.Talk.{Ends, IsPrefix, told_by_turns};

use ua_builtin::DateTime;
use ua_channel_laws::asking_laws::client_asks_earlier;
use ua_channel_laws::group_laws::{ends_connect, rounds_reach_both_ends};
use ua_client::laws::clients_are_settled;
use ua_server::Server;

/// A client that `Client::open` returned did no operation yet.
pub fn opened_clients_did_nothing()
    ensures opened { (e : Ends) (x : Client) (before after : Option Traffic)
        (k : OpensClient e.client e.url e.opened before after (Ok x)) →
        HasDoneAll e [] x k.opens.moves.got k.opens.sent }
{
    clients_are_settled();
}

/// A call of requests adds to what a client did the groups of 64 in which it sends them, and what it
/// read and wrote of them.
pub fn calls_add_operations<A>()
    // Where it succeeds each group is answered.
    ensures answered { (replies : A → List Reply) (e : Ends) (deeds : List Deed) (requests : List Request)
        (x y : Client) (read written : List ℕ) (before after : Option Traffic) (found : A) →
        HasDoneAll e deeds x read written →
        (k : CallsAll replies requests (connection_of x) (connection_of y) before after (Ok found)) →
        (groups : List (List Request)) × AreGroupsOf requests groups
        × HasDoneAll e (deeds ++ map Calls groups) y (read ++ k.moves.got) (written ++ k.sent) }
    // Where it fails those before one are, of which it sent a part or all, and took a part of the
    // replies; or which it refused.
    ensures failed { (replies : A → List Reply) (e : Ends) (deeds : List Deed) (requests : List Request)
        (x y : Client) (read written : List ℕ) (before after : Option Traffic) (fault : ClientFault) →
        HasDoneAll e deeds x read written →
        (k : CallsAll replies requests (connection_of x) (connection_of y) before after (Err fault)) →
        FailsInGroup e deeds requests fault y (read ++ k.moves.got) (written ++ k.sent) }
{}

/// So does a renewal.
pub fn renewals_add_operations(moment: DateTime)
    ensures answered { (e : Ends) (deeds : List Deed) (x y : Client) (read written : List ℕ)
        (before after : Option Traffic) (done : Unit {0}) → HasDoneAll e deeds x read written →
        (k : Renews moment (connection_of x) (connection_of y) before after (Ok done)) →
        HasDoneAll e (deeds ++ Renewal moment ∷ []) y (read ++ k.moves.got) (written ++ k.sent) }
    // One that is refused leaves the client as it was.
    ensures failed { (e : Ends) (deeds : List Deed) (x y : Client) (read written : List ℕ)
        (before after : Option Traffic) (fault : ClientFault) → HasDoneAll e deeds x read written →
        (k : Renews {A = Unit {0}} moment (connection_of x) (connection_of y) before after (Err fault)) →
        (IsRefusal {A = Unit {0}} (Err fault) → y ≡ x) →
        FailsAfter e deeds (Renewal moment) fault y (read ++ k.moves.got) (written ++ k.sent) }
{}

/// So does a session that is begun: two calls of a request each.
pub fn sessions_add_operations()
    ensures answered { (e : Ends) (deeds : List Deed) (policy_id : Option (List ℕ)) (moment : DateTime) (x y : Client)
        (read written : List ℕ) (before after : Option Traffic) (token : NodeId) → HasDoneAll e deeds x read written →
        (k : BeginsSessionAs policy_id moment (connection_of x) (connection_of y) before after (Ok token)) →
        HasDoneAll e
        (with_creating e deeds moment ++ activating_after (with_creating e deeds moment) policy_id token moment ∷ [])
        y (read ++ k.moves.got) (written ++ k.sent) }
    // One of the two failed.
    ensures failed { (e : Ends) (deeds : List Deed) (policy_id : Option (List ℕ)) (moment : DateTime) (x y : Client)
        (read written : List ℕ) (before after : Option Traffic) (fault : ClientFault) →
        HasDoneAll e deeds x read written →
        (k : BeginsSessionAs policy_id moment (connection_of x) (connection_of y) before after (Err fault)) →
        FailsService e deeds (creating_after e deeds moment) fault y (read ++ k.moves.got) (written ++ k.sent)
        ⊎ ((token : NodeId) × FailsService e (with_creating e deeds moment)
        (activating_after (with_creating e deeds moment) policy_id token moment) fault y (read ++ k.moves.got)
        (written ++ k.sent)) }
{}

/// Over any transport, where what the server took is a prefix of what the client wrote, and what the
/// client read is a prefix of what the server wrote: the headline holds of what the client did.
pub fn connected_clients_do_turns(server: &Server, moment: DateTime)
    // The premise of `clients_do_turns`.
    ensures linked { (e : Ends) (deeds : List Deed) (now : Option Deed) (x : Client) (read written : List ℕ)
        (h : HasDone e deeds now x read written) → IsOneConnection e (channel_in server.now) read written →
        IsLinked e deeds now (channel_in server.now) h.asks h.taken }
    // The server was told a prefix of these operations, each call whole, once, in order, under its
    // own RequestId.
    ensures told { (e : Ends) (deeds : List Deed) (now : Option Deed) (x : Client) (read written : List ℕ) →
        HasDone e deeds now x read written → (j : IsOneConnection e (channel_in server.now) read written) →
        IsPrefix j.told (told_by_turns e (turns_of deeds now)) }
    // No renewal fails as the server rejects, or as the client does.
    ensures not_rejected { (e : Ends) (deeds : List Deed) (x y : Client) (read written : List ℕ)
        (before after : Option Traffic) (fault : ClientFault) → HasDoneAll e deeds x read written →
        (k : Renews {A = Unit {0}} moment (connection_of x) (connection_of y) before after (Err fault)) →
        IsOneConnection e (channel_in server.now) (read ++ k.moves.got) (written ++ k.sent) →
        IsRejected fault → ⊥ }
{
    ends_connect();
    rounds_reach_both_ends();
    client_asks_earlier();
}

/// The same of a call of requests there.
pub fn connected_calls_are_answered<A>(server: &Server)
    // Each reply that it returns is the server's, to its own request.
    ensures replied { (replies : A → List Reply) (e : Ends) (deeds : List Deed) (requests : List Request)
        (x y : Client) (read written : List ℕ) (before after : Option Traffic) (found : A) →
        HasDoneAll e deeds x read written →
        (k : CallsAll replies requests (connection_of x) (connection_of y) before after (Ok found)) →
        IsOneConnection e (channel_in server.now) (read ++ k.moves.got) (written ++ k.sent) →
        AreServersReplies e (operations_of (map turn_of deeds)) requests (replies found) }
    // It does not fail as the server rejects, or as the client does.
    ensures not_rejected { (replies : A → List Reply) (e : Ends) (deeds : List Deed) (requests : List Request)
        (x y : Client) (read written : List ℕ) (before after : Option Traffic) (fault : ClientFault) →
        HasDoneAll e deeds x read written →
        (k : CallsAll replies requests (connection_of x) (connection_of y) before after (Err fault)) →
        IsOneConnection e (channel_in server.now) (read ++ k.moves.got) (written ++ k.sent) →
        IsRejected fault → ⊥ }
{
    ends_connect();
    rounds_reach_both_ends();
    client_asks_earlier();
}
