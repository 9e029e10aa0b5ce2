//! Laws of the replies of a client: each is the response of the server's services itself, with each
//! of its fields, and not only what is read of some bytes; and the token of a session is the one that
//! the services made. Each is the contract of a function that does nothing.
//!
//! Their premise is that the services are sound, as every `Services` is
//! (`laws::services_are_sound` of `ua_server`).

ghost use Rattle.std.specs.Prelude.{◌≡◌, ◌↔◌, ◌++◌, ℕ, IsTrue, List, Option, Some, Ok, map};
ghost use Rattle.std.specs.List.{AllByRecursion};
ghost use Rattle.ua_builtin.specs.DateTime.{date_time};
ghost use Rattle.ua_builtin.specs.declared.date_time.DateTime.{DateTime};
ghost use Rattle.ua_builtin.specs.declared.node_id.NodeId.{NodeId};
ghost use Rattle.ua_chunk.specs.declared.lane.Lane.{Lane};
ghost use Rattle.ua_services.specs.Request.{kind_of_request, request};
ghost use Rattle.ua_services.specs.Response.{response};
ghost use Rattle.ua_services.specs.declared.request.Request.{Request};
ghost use Rattle.ua_channel.specs.ClientTold.ClientTold.{Answered};
ghost use Rattle.ua_channel.specs.Line.{Traffic};
ghost use Rattle.ua_channel_laws.specs.Outgoing.{Outgoing};
ghost use Rattle.ua_client.specs.Calls.{CallsAll};
ghost use Rattle.ua_client.specs.Client.{connection_of};
ghost use Rattle.ua_client.specs.Replies.{IsReplyBy};
ghost use Rattle.ua_client.specs.Session.{BeginsSessionAs};
ghost use Rattle.ua_client.specs.declared.client.Client.{Client};
ghost use Rattle.ua_client.specs.declared.reply.Reply.{Reply};
ghost use Rattle.ua_client.specs.declared.reply.Reply.TheVariants.{Response as Responds};
ghost use Rattle.ua_server.specs.Answer.{answer};
ghost use Rattle.ua_server.specs.Served.{channel_in};
ghost use Rattle.ua_server.specs.Sound.{IsSoundState};
ghost use Rattle.ua_server.specs.State.{State};
ghost use Rattle.ua_loopback.specs.Replies.{lane_back_by_token, requests_replies};
ghost use Rattle.ua_loopback.specs.Talking.{IsTalking, SoFar, answers_in, newest_in, state_in};
ghost use Rattle.ua_headline.specs.AsAnswered.{IsSessionOfServices, replies_after, replies_of_services};
ghost use Rattle.ua_headline.specs.Calling.{AreServersReplies, HasDoneAll, IsOneConnection};
ghost use Rattle.ua_headline.specs.Clients.{Deed, turn_of};
ghost use Rattle.ua_headline.specs.EachCall.{operations_of};
ghost use Rattle.ua_headline.specs.Talk.{CanOpen, Ends};

use crate::calling_laws::connected_calls_are_answered;
use ua_channel_laws::group_laws::ends_connect;
use ua_loopback::talking_laws::calls_go_on;
use ua_server::Server;

/// The response of sound services to a request that can be encoded, and what is read of its bytes:
/// that response, and nothing else (OPC 10000-4, 5.3).
pub fn replies_are_the_responses()
    // Of the bytes of the response the reply is the response itself.
    ensures itself { (s : State) (moment : DateTime) (m : Request) (id : ℕ) (reply : Reply) → IsSoundState s →
        IsTrue (date_time.encodable moment) → IsTrue (request.encodable m) →
        (IsReplyBy (kind_of_request m) id (Answered id (response.canonical (answer s moment m).1)) reply
        ↔ (reply ≡ Responds (answer s moment m).1)) }
    // So `requests_replies`, what is read of the answers to requests, are the services' responses to
    // them, each in the state that those before it left.
    ensures read { (back : Lane) (s : State) (moments : ℕ → DateTime) (n : ℕ) (requests : List Request) →
        IsSoundState s → ((k : ℕ) → IsTrue (date_time.encodable (moments k))) →
        AllByRecursion (λ (m : Request). IsTrue (request.encodable m)) requests →
        requests_replies back s moments n requests ≡ map Some (replies_of_services back s moments n requests) }
    // And `AreServersReplies`, the server's replies after these operations, are the services'
    // responses in the state that the operations left.
    ensures after { (e : Ends) (before : List Outgoing) (requests : List Request) (replies : List Reply) →
        CanOpen e → IsSoundState e.first →
        AllByRecursion (λ (m : Request). IsTrue (request.encodable m)) requests →
        AreServersReplies e before requests replies → replies ≡ replies_after e before requests }
{}

/// Over any transport to a server with sound services, the replies that `Client::call` and
/// `Client::call_all` return are the services' responses themselves.
pub fn talked_replies_are_the_responses<A>()
    ensures replied { (replies : A → List Reply) (t : SoFar) (requests : List Request) (x y : Client)
        (before after : Option Traffic) (found : A) → IsTalking t x before →
        CallsAll replies requests (connection_of x) (connection_of y) before after (Ok found) →
        IsSoundState t.server.first → replies found ≡
        replies_of_services (lane_back_by_token t.server t.limits t.url (newest_in t)) (state_in t) t.server.moments
        (answers_in t) requests }
{
    calls_go_on::<A>();
}

/// So they are at the ends of one connection, over a socket too.
pub fn connected_replies_are_the_responses<A>(server: &Server)
    ensures replied { (replies : A → List Reply) (e : Ends) (deeds : List Deed) (requests : List Request)
        (x y : Client) (read written : List ℕ) (before after : Option Traffic) (found : A) →
        HasDoneAll e deeds x read written →
        (k : CallsAll replies requests (connection_of x) (connection_of y) before after (Ok found)) →
        IsOneConnection e (channel_in server.now) (read ++ k.moves.got) (written ++ k.sent) →
        IsSoundState e.first → replies found ≡ replies_after e (operations_of (map turn_of deeds)) requests }
{
    connected_calls_are_answered::<A>(server);
}

/// There `Client::begin_session_as` returns the token that the services made for this session, and
/// they have that session then, activated; and so does `Client::begin_session`, of which
/// `BeginsSession` says the same by the policy `anonymous`.
pub fn sessions_are_of_the_services(server: &Server)
    ensures begun { (e : Ends) (deeds : List Deed) (policy_id : Option (List ℕ)) (moment : DateTime) (x y : Client)
        (read written : List ℕ) (before after : Option Traffic) (token : NodeId) → HasDoneAll e deeds x read written →
        (k : BeginsSessionAs policy_id moment (connection_of x) (connection_of y) before after (Ok token)) →
        IsOneConnection e (channel_in server.now) (read ++ k.moves.got) (written ++ k.sent) →
        IsSoundState e.first → IsSessionOfServices e deeds policy_id moment token }
{
    ends_connect();
}
