//! The headline. The contract of its function, which only looks, is the law: a caller may rely on
//! it.

ghost use Rattle.std.specs.Prelude.{◌≡◌, ◌↔◌, ◌≤◌, ◌++◌, ◌∷◌, [], ℕ, IsTrue, List, map, Option};
ghost use Rattle.ua_builtin.specs.declared.date_time.DateTime.{DateTime};
ghost use Rattle.ua_services.specs.Request.{request};
ghost use Rattle.ua_services.specs.Response.{response};
ghost use Rattle.ua_services.specs.declared.request.Request.{Request};
ghost use Rattle.ua_frame.specs.declared.frame.Frame.{Frame};
ghost use Rattle.ua_channel.specs.Asks.{Placed};
ghost use Rattle.ua_channel.specs.Client.{ClientEnded, ClientGoes, ClientStands};
ghost use Rattle.ua_channel.specs.Client.{client_bound_behind, client_limits, held_octets};
ghost use Rattle.ua_channel.specs.ClientTold.{ClientTold, Why};
ghost use Rattle.ua_channel.specs.Received.{received};
ghost use Rattle.ua_channel.specs.ServerStands.{ChannelStands, ClosedAt, Goes, RefusedAt};
ghost use Rattle.ua_channel.specs.ServerStands.{bound_after, held_after, limits_of};
ghost use Rattle.ua_channel.specs.ServerTold.{Told};
ghost use Rattle.ua_channel_laws.specs.Outgoing.Outgoing.{CallWith};
ghost use Rattle.ua_channel_laws.specs.Outgoing.{Outgoing};
ghost use Rattle.ua_client.specs.Told.{told_of};
ghost use Rattle.ua_server.specs.Answer.{answer};
ghost use Rattle.ua_server.specs.Said.{first_time};
ghost use Rattle.ua_server.specs.Served.{channel_in};
ghost use Rattle.ua_server.specs.State.{State};
ghost use Rattle.ua_server.specs.Stepping.{ServerStands};
ghost use Rattle.ua_headline.specs.Clients.{Deed, IsLinked, turn_of, turns_of};
ghost use Rattle.ua_headline.specs.EachCall.{body_answered, client_events, id_after, operations_of};
ghost use Rattle.ua_headline.specs.EachCall.{reply_to_call, server_bytes};
ghost use Rattle.ua_headline.specs.Talk.{AreRoundsAccepted, AreFirstOf, CanOpen, Ends, GotOf, IsPrefix, TookOf};
ghost use Rattle.ua_headline.specs.Talk.{asks_in, both_opened, heard_in, rounds_in};
ghost use Rattle.ua_headline.specs.Talk.{sent_in, state_behind_turns, told_by_turns};

use ua_channel::ClientChannel;
use ua_channel_laws::asking_laws::client_asks_earlier;
use ua_channel_laws::group_laws::{ends_connect, rounds_reach_both_ends};
use ua_server::Server;

/// A client sent operations so far, calls and renewals, and a server took a prefix of their bytes,
/// in whatever fragments; the bytes that the client got are a prefix of those that the server
/// wrote. Then the server's events are just the calls and renewals that were sent whole, each once,
/// in order, under its own RequestId; it refused nothing, and its services are as these leave them.
/// The client's events for its calls are the server's answers to them, each under the RequestId of
/// its own call; the client refused nothing. Neither end holds more than its bound, whatever came.
pub fn the_headline(server: &Server, client: &ClientChannel)
    // The server's events are a prefix of the client's operations: each call whole, once, in order,
    // under its own RequestId.
    ensures told { (e : Ends) (turns : List (List Outgoing)) (took : List ℕ) (told : List Told) →
        TookOf e turns (channel_in server.now) took →
        Goes (channel_in server.now) took told → IsPrefix told (told_by_turns e turns) }
    // The events of the first operations are among them exactly where all bytes of these came.
    ensures whole { (e : Ends) (turns first : List (List Outgoing)) (took : List ℕ) (told : List Told) →
        TookOf e turns (channel_in server.now) took →
        Goes (channel_in server.now) took told → AreFirstOf first turns →
        IsPrefix (sent_in e first) took ↔ IsPrefix (told_by_turns e first) told }
    // Its services are as its events leave them.
    ensures state { (e : Ends) (turns first : List (List Outgoing)) (took : List ℕ) (told : List Told) (now : State) →
        TookOf e turns (channel_in server.now) took →
        ServerStands (channel_in server.now) took told e.first e.times now → AreFirstOf first turns →
        told ≡ told_by_turns e first → now ≡ state_behind_turns e first }
    // It refused nothing, and nothing closed its channel.
    ensures not_refused { (e : Ends) (turns : List (List Outgoing)) (took : List ℕ) (told : List Told) (code : ℕ) →
        TookOf e turns (channel_in server.now) took →
        RefusedAt (channel_in server.now) took told code → ⊥ }
    ensures not_closed { (e : Ends) (turns : List (List Outgoing)) (took : List ℕ) (told : List Told) →
        TookOf e turns (channel_in server.now) took →
        ClosedAt (channel_in server.now) took told → ⊥ }
    // The client's events are a prefix of the server's answers, each under the RequestId of its own
    // call.
    ensures answered { (e : Ends) (turns : List (List Outgoing)) (asks : List Placed) (got : List ℕ)
        (heard : List ClientTold) → GotOf e turns (channel_in server.now) client.now asks got →
        ClientGoes client.now asks got heard → IsPrefix heard (heard_in e turns) }
    // And none answers a call that is not among the server's events.
    ensures no_other { (e : Ends) (turns first : List (List Outgoing)) (asks : List Placed) (got : List ℕ)
        (heard : List ClientTold) (k : GotOf e turns (channel_in server.now) client.now asks got) →
        ClientGoes client.now asks got heard → AreFirstOf first turns → k.told ≡ told_by_turns e first →
        IsPrefix heard (heard_in e first) }
    // The client refused none of them, and the server sent it no ERR.
    ensures not_failed { (e : Ends) (turns : List (List Outgoing)) (asks : List Placed) (got : List ℕ)
        (heard : List ClientTold) (why : Why) → GotOf e turns (channel_in server.now) client.now asks got →
        ClientEnded client.now asks got heard why → ⊥ }
    // Neither holds more than was agreed, whatever came.
    ensures server_holds { (octets : List ℕ) (frames : List Frame) (rest : List ℕ) →
        ChannelStands (channel_in server.now) octets frames rest →
        held_after (received frames) rest ≤ bound_after (limits_of (channel_in server.now)) (received frames) }
    ensures client_holds { (asks : List Placed) (octets : List ℕ) (frames : List Frame) (rest : List ℕ) →
        ClientStands client.now asks octets frames rest →
        held_octets frames rest ≤ client_bound_behind (client_limits client.now) (received frames).ack }
{
    ends_connect();
    rounds_reach_both_ends();
    client_asks_earlier();
    let _held = server.held();
    let _holds = client.held();
}

/// A client of `ua_client` is such a client: what it did so far, over an honest transport, is a
/// sequence of operations, and it may be in the middle of the last. It opened its channel, called
/// requests or renewed its token, each time where the calls before it were answered, and it may
/// have sent a part of a further call, and have a part of the answers.
pub fn clients_do_turns(server: &Server, client: &ClientChannel)
    ensures turns { (e : Ends) (deeds : List Deed) (now : Option Deed) (asks : List Placed) (got : List ℕ) →
        IsLinked e deeds now (channel_in server.now) asks got → client_limits client.now ≡ e.client →
        GotOf e (turns_of deeds now) (channel_in server.now) client.now asks got }
    // After those of them that are answered, its events are just the server's answers.
    ensures told { (e : Ends) (deeds : List Deed) (now : Option Deed) (asks : List Placed) (got : List ℕ)
        (k : IsLinked e deeds now (channel_in server.now) asks got) →
        k.did.last.told ≡ heard_in e (map turn_of deeds) }
{
    ends_connect();
}

/// By bytes alone, with any limits of both ends, any URL and any SecureChannelId: of what a server
/// sends for what a client sent, by the definition of its answers, the client is told of each call
/// just once, by the definition of its reading: under the RequestId of that call, the response of the
/// services to its body, in the state in which the calls before it left them; or that the call was
/// aborted, as the response is larger than the client takes, or than the server allows itself.
pub fn each_call_has_its_reply()
    ensures whole { (e : Ends) (turns : List (List Outgoing)) (before after : List Outgoing) (body : List ℕ) →
        CanOpen e → AreRoundsAccepted e (both_opened e) (rounds_in e turns) →
        operations_of turns ≡ before ++ CallWith body ∷ after →
        told_of (id_after before) (client_events e (asks_in e turns) (server_bytes e (sent_in e turns)))
        ≡ reply_to_call e before body ∷ [] }
    // Beside these it is told only what was agreed, and each token: nothing else.
    ensures alone { (e : Ends) (turns : List (List Outgoing)) →
        CanOpen e → AreRoundsAccepted e (both_opened e) (rounds_in e turns) →
        client_events e (asks_in e turns) (server_bytes e (sent_in e turns)) ≡ heard_in e turns }
    // Where a part of either is still on its way it is told that, or nothing yet.
    ensures part { (e : Ends) (turns : List (List Outgoing)) (before after : List Outgoing) (body took got : List ℕ) →
        CanOpen e → AreRoundsAccepted e (both_opened e) (rounds_in e turns) →
        operations_of turns ≡ before ++ CallWith body ∷ after →
        IsPrefix took (sent_in e turns) → IsPrefix got (server_bytes e took) →
        IsPrefix (told_of (id_after before) (client_events e (asks_in e turns) got))
        (reply_to_call e before body ∷ []) }
    // A request that can be encoded is answered as that request.
    ensures requests { (services : State × List DateTime) (m : Request) → IsTrue (request.encodable m) →
        body_answered services (request.canonical m)
        ≡ response.canonical (answer services.0 (first_time services.1) m).1 }
{
    ends_connect();
    rounds_reach_both_ends();
}
