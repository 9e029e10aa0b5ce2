//! The headline in words of calls and replies alone. The contract of its function, which only looks,
//! is the law.

ghost use Rattle.std.specs.Prelude.{◌≡◌, ◌↔◌, ◌⊎◌, ◌<◌, ◌≤◌, ◌+◌, ◌++◌, ◌∷◌, []};
ghost use Rattle.std.specs.Prelude.{ℕ, IsTrue, List, None, Some, Ok, length, take};
ghost use Rattle.ua_builtin.specs.DateTime.{date_time};
ghost use Rattle.ua_builtin.specs.declared.date_time.DateTime.{DateTime};
ghost use Rattle.ua_channel.specs.Client.{ClientEnded, ClientGoes, ClientStands, SameClient, SendsCall, SendsRenewal};
ghost use Rattle.ua_channel.specs.Client.{WhateverPassed, call_refused, client_limits};
ghost use Rattle.ua_channel.specs.Client.{client_next, client_rules_of, renewal_refused};
ghost use Rattle.ua_channel.specs.Client.{client_bound_behind, held_octets};
ghost use Rattle.ua_channel.specs.ClientAnswers.{ClientAnswers};
ghost use Rattle.ua_channel.specs.declared.client.fault.AskFault.{AskFault};
ghost use Rattle.ua_channel.specs.declared.client.event.ClientEvent.{ClientEvent};
ghost use Rattle.ua_channel.specs.Asks.{Placed, asked_in};
ghost use Rattle.ua_channel.specs.Asks.Asking.{Call, Renewal};
ghost use Rattle.ua_channel.specs.ClientTold.{ClientTold, Why};
ghost use Rattle.ua_channel.specs.Received.{received};
ghost use Rattle.ua_channel.specs.ServerStands.{ChannelStands, bound_after, held_after};
ghost use Rattle.ua_channel.specs.ServerStands.{ClosedAt, Goes, RefusedAt, channel_of, limits_of, rules_of};
ghost use Rattle.ua_channel.specs.ServerTold.{Told};
ghost use Rattle.ua_channel.specs.declared.client.channel.ClientChannel.{ClientChannel};
ghost use Rattle.ua_channel_laws.specs.Outgoing.Outgoing.{CallWith, RenewalAt};
ghost use Rattle.ua_channel_laws.specs.Outgoing.{Outgoing};
ghost use Rattle.ua_services.specs.Request.{request};
ghost use Rattle.ua_services.specs.declared.request.Request.{Request};
ghost use Rattle.ua_server.specs.Answer.{answer};
ghost use Rattle.ua_server.specs.Reply.{answered};
ghost use Rattle.ua_server.specs.Said.{behind_first, output_of};
ghost use Rattle.ua_server.specs.Served.{channel_in};
ghost use Rattle.ua_server.specs.State.{State};
ghost use Rattle.ua_server.specs.Stepping.{ServerStands};
ghost use Rattle.ua_frame.specs.declared.frame.Frame.{Frame};
ghost use Rattle.ua_frame.specs.FirstWrong.{FirstWrong};
ghost use Rattle.ua_frame.specs.Frames.{Frames};
ghost use Rattle.ua_frame.specs.Run.{Going};
ghost use Rattle.ua_headline.specs.Headline.{AreAnswered, AreTold, CameBack, Did, History};
ghost use Rattle.ua_headline.specs.Headline.{MayRefuse, asked_from, handed_in, replies_in};
ghost use Rattle.ua_headline.specs.Headline.{renewals_in, tokens_in, with_bytes, with_op};
ghost use Rattle.ua_headline.specs.Talk.{CanOpen, Ends, IsPrefix, left_by};

use ua_channel::ClientChannel;
use ua_channel_laws::asking_laws::client_asks_earlier;
use ua_channel_laws::client_laws::client_reads;
use ua_channel_laws::group_laws::{ends_connect, rounds_reach_both_ends};
use ua_channel_laws::laws::server_reads;
use ua_server::Server;

/// A client calls, whatever calls are unanswered, renews its token where all is answered, and takes
/// what comes, in whatever fragments; a server took a prefix of what it sent. Then the server was told
/// of the first of these calls, each whole, once, in order, under its own RequestId, exactly of those
/// that came whole; it refused nothing, and its services are as these leave them. The client was told
/// of the first of these the reply that is due to each, once, under the RequestId of its own call; of
/// all, where all came; and it refused nothing. Neither end holds more than its bound.
pub fn calls_are_answered(server: &Server, client: &ClientChannel)
    // Each call got its own RequestId: the first 2, and each the next.
    ensures own_ids { (e : Ends) (y : ClientChannel) (h : History) → CanOpen e → Did e y h →
        asked_in h.asks ≡ asked_from 2 h.ops }
    // It refuses a call only where it has to.
    ensures refuses_few { (e : Ends) (h : History) (body : List ℕ) (why : AskFault) → CanOpen e → Did e client.now h →
        call_refused client.now 0 body ≡ Some why → MayRefuse e h body why }
    // The server was told of the first calls, and its services are as these leave them.
    ensures told { (e : Ends) (y : ClientChannel) (h : History) (took : List ℕ) (told : List Told) → CanOpen e →
        Did e y h → limits_of (channel_in server.now) ≡ e.server → channel_of (channel_in server.now) ≡ e.channel →
        IsPrefix took h.sent → Goes (channel_in server.now) took told →
        (done : List Outgoing) × AreTold h.ops done told
        × ((now : State) → ServerStands (channel_in server.now) took told e.first e.times now →
        now ≡ (left_by e.first (behind_first e.times) done).0) }
    // Of some of the calls it was told exactly where all bytes of these came.
    ensures whole { (e : Ends) (y z : ClientChannel) (h first : History) (took : List ℕ) (told : List Told) → CanOpen e
        →
        Did e y h → Did e z first → IsPrefix first.ops h.ops →
        limits_of (channel_in server.now) ≡ e.server → channel_of (channel_in server.now) ≡ e.channel →
        IsPrefix took h.sent → Goes (channel_in server.now) took told →
        IsPrefix first.sent took ↔ (length first.ops + 2 ≤ length told) }
    // It refused nothing, and nothing closed its channel.
    ensures not_refused { (e : Ends) (y : ClientChannel) (h : History) (took : List ℕ) (told : List Told) (code : ℕ) →
        CanOpen e → Did e y h → limits_of (channel_in server.now) ≡ e.server →
        channel_of (channel_in server.now) ≡ e.channel → IsPrefix took h.sent →
        RefusedAt (channel_in server.now) took told code → ⊥ }
    ensures not_closed { (e : Ends) (y : ClientChannel) (h : History) (took : List ℕ) (told : List Told) → CanOpen e →
        Did e y h → limits_of (channel_in server.now) ≡ e.server → channel_of (channel_in server.now) ≡ e.channel →
        IsPrefix took h.sent → ClosedAt (channel_in server.now) took told → ⊥ }
    // The client has the reply to each of the first calls, and to none of which the server was not
    // told.
    ensures answered { (e : Ends) (h : History) → CanOpen e → Did e client.now h →
        (done : List Outgoing) × AreAnswered e h.ops done h.heard
        × ((c : CameBack e h.sent h.got) → length (replies_in h.heard) ≤ length (handed_in c.told)) }
    // Where the server took all that it sent, and it got all that the server wrote, it has each.
    ensures all { (e : Ends) (h : History) → CanOpen e → Did e client.now h → (c : CameBack e h.sent h.got) →
        c.took ≡ h.sent → h.got ≡ output_of e.channel e.first c.told Going e.times →
        AreAnswered e h.ops h.ops h.heard × (length h.heard ≡ length h.ops + 2) }
    // It refuses nothing that comes, and no ERR comes.
    ensures not_failed { (e : Ends) (y : ClientChannel) (h : History) (more : List ℕ) (told : List ClientTold)
        (why : Why) →
        CanOpen e → Did e y h → CameBack e h.sent (h.got ++ more) → client_limits client.now ≡ e.client →
        ClientEnded client.now h.asks (h.got ++ more) told why → ⊥ }
    // At either end bytes with a wrong frame end in a refusal, for the first reason of the table against
    // the first such frame.
    ensures refuses { (octets : List ℕ) (frames : List (List ℕ)) (rest : List ℕ) (told : List Told) (code : ℕ) →
        Frames octets frames rest → RefusedAt (channel_in server.now) octets told code →
        FirstWrong (rules_of (channel_in server.now)) frames rest code }
    ensures misses_none { (octets : List ℕ) (frames : List (List ℕ)) (rest : List ℕ) (told : List Told) (code : ℕ) →
        Frames octets frames rest → FirstWrong (rules_of (channel_in server.now)) frames rest code →
        (Goes (channel_in server.now) octets told ⊎ ClosedAt (channel_in server.now) octets told) → ⊥ }
    ensures client_refuses { (asks : List Placed) (octets : List ℕ) (frames : List (List ℕ)) (rest : List ℕ)
        (told : List ClientTold) (why : Why) → Frames octets frames rest → ClientEnded client.now asks octets told why →
        FirstWrong (client_rules_of client.now asks) frames rest why }
    ensures client_misses_none { (asks : List Placed) (octets : List ℕ) (frames : List (List ℕ)) (rest : List ℕ)
        (told : List ClientTold) (why : Why) → Frames octets frames rest →
        FirstWrong (client_rules_of client.now asks) frames rest why → ClientGoes client.now asks octets told → ⊥ }
    // A request that can be encoded is answered as that request.
    ensures requests { (s : State) (time : DateTime) (m : Request) → IsTrue (request.encodable m) →
        answered s time (request.canonical m) ≡ answer s time m }
    // Neither holds more than was agreed, whatever came.
    ensures server_holds { (octets : List ℕ) (frames : List Frame) (rest : List ℕ) →
        ChannelStands (channel_in server.now) octets frames rest →
        held_after (received frames) rest ≤ bound_after (limits_of (channel_in server.now)) (received frames) }
    ensures client_holds { (asks : List Placed) (octets : List ℕ) (frames : List Frame) (rest : List ℕ) →
        ClientStands client.now asks octets frames rest →
        held_octets frames rest ≤ client_bound_behind (client_limits client.now) (received frames).ack }
{
    ends_connect();
    rounds_reach_both_ends();
    client_asks_earlier();
    server_reads();
    client_reads();
    let _held = server.held();
    let _holds = client.held();
}

/// What a `ClientChannel` does makes such histories, and nothing else is asked of it: the premises are
/// the clauses of `ask` and `renew` (`answers`, `sent`, `same`, `stands`) and of `take` (`answers`,
/// `next`, `same`).
pub fn histories_go_on()
    ensures called { (e : Ends) (x y : ClientChannel) (h : History) (id : ℕ) (body out : List ℕ) → Did e x h →
        length (tokens_in h.heard) ≡ renewals_in h.ops + 1 → 0 < length body → call_refused x 0 body ≡ None
        → SendsCall x (client_next x) body id out (client_next y) →
        SameClient x y → WhateverPassed x (λ asks octets frames rest.
        ClientStands y (asks ++ (length octets, Call id) ∷ []) octets frames rest)
        → Did e y (with_op h id (CallWith body) out) }
    ensures renewed { (e : Ends) (x y : ClientChannel) (h : History) (id : ℕ) (time : DateTime) (out : List ℕ)
        → Did e x h →
        length h.heard ≡ length h.ops + 2 → IsTrue (date_time.encodable time) → renewal_refused x ≡ None →
        SendsRenewal x (client_next x) time id out (client_next y) →
        SameClient x y → WhateverPassed x (λ asks octets frames rest.
        ClientStands y (asks ++ (length octets, Renewal id) ∷ []) octets frames rest) →
        Did e y (with_op h id (RenewalAt time) out) }
    // What comes over an honest transport it takes; or it refuses it, which `not_failed` excludes.
    ensures took { (e : Ends) (x y : ClientChannel) (h : History) (moment : DateTime) (piece : List ℕ) (n : ℕ)
        (event : ClientEvent) → Did e x h → CameBack e h.sent (h.got ++ take n piece) →
        ClientAnswers moment piece (Ok (n, event)) y h.asks h.got h.heard → client_next y ≡ client_next x →
        SameClient x y → ((told : List ClientTold) × Did e y (with_bytes h (take n piece) told))
        ⊎ ((why : Why) × ClientEnded y h.asks (h.got ++ take n piece) h.heard why) }
{}
