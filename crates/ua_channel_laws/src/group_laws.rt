//! Laws of what a client sends at once and what a server answers to it, over bytes alone: any calls
//! and renewals, any answers to them, and a connection of any such rounds.
//! `both_ends::server_follows` and `client_follows` say that the fragmentation of the bytes does
//! not matter.
//!
//! Each function has no effect; its contract is the law. Both ends are in any state that they may
//! have between two messages, with any limits, URL and channel, and each OPN has a timestamp of its
//! own.

ghost use Rattle.std.specs.Prelude.{◌<◌, ◌≤◌, ◌^◌, ◌++◌, ◌∷◌, [], ℕ, List, Option, IsTrue, length};
ghost use Rattle.ua_builtin.specs.DateTime.{date_time};
ghost use Rattle.ua_builtin.specs.declared.date_time.DateTime.{DateTime};
ghost use Rattle.ua_frame.specs.Agreement.{ack_to, url_length};
ghost use Rattle.ua_frame.specs.Frames.{frame_octets};
ghost use Rattle.ua_frame.specs.Messages.{ack, ack_frame, hello};
ghost use Rattle.ua_frame.specs.declared.limits.Limits.{Limits};
ghost use Rattle.ua_channel.specs.Agreement.{agreement_of};
ghost use Rattle.ua_channel.specs.Asks.{Placed};
ghost use Rattle.ua_channel_laws.specs.ClientReads.{IsAnswered};
ghost use Rattle.ua_channel_laws.specs.ClientReads.{opened_at};
ghost use Rattle.ua_channel.specs.ClientSends.{first_open, hello_frame, hello_to};
ghost use Rattle.ua_channel.specs.ClientTold.{ClientTold, ClientTold as client_told};
ghost use Rattle.ua_channel_laws.specs.Rounds.{AreConnected, AreRounds, BothEnds, Round, rounds_asks};
ghost use Rattle.ua_channel_laws.specs.Rounds.{rounds_behind, rounds_down, rounds_heard, rounds_told, rounds_up};
ghost use Rattle.ua_channel_laws.specs.ServerReads.{greeted_at, with_token};
ghost use Rattle.ua_channel.specs.ServerSends.{opened_frame};
ghost use Rattle.ua_channel.specs.ServerTold.{Told, Told as server_told};

/// A server and a client are connected after the opening, with any limits, URL and channel for
/// which the HEL, the ACK and the OPNs can be written: the client sends the HEL and the first OPN,
/// the server the ACK and the OPN response.
pub fn ends_connect()
    ensures { (server client : Limits) (url : Option (List ℕ)) (channel lifetime : ℕ) (asked answered : DateTime) →
        IsTrue (hello.encodable (hello_to client url)) → url_length url ≤ 4095
        → IsTrue (ack.encodable (ack_to (hello_to client url) server)) →
        IsTrue (date_time.encodable asked) → IsAnswered channel 1 1 0 1 lifetime answered →
        AreConnected server client url channel (frame_octets (hello_frame (hello_to client url))
        ++ frame_octets (first_open asked))
        (server_told.Agreed (agreement_of server (hello_to client url)) ∷ (server_told.Opened 1 0 1 3600000 ∷ []))
        [] (frame_octets (ack_frame (ack_to (hello_to client url) server))
        ++ frame_octets (opened_frame channel 1 1 0 1 lifetime answered))
        (client_told.Agreed (ack_to (hello_to client url) server) ∷ (client_told.Opened channel 1 ∷ []))
        (record {
          server = with_token (greeted_at (hello_to client url));
          client = opened_at (ack_to (hello_to client url) server) channel 1 2;
          id = 2;
        }) }
{}

/// Both ends stay connected by any rounds of calls, renewals and answers, each of which is allowed.
/// The server reports exactly what the client sent, in order, each body complete, once and under
/// its own RequestId, and each renewal. The client reports exactly what was answered: for each
/// answered call its own reply or, where that exceeds its limits, the abort in its place, and each
/// further token. What is sent in a round may be answered in that round or in any later one; the
/// client sends after it took all earlier answers.
pub fn rounds_reach_both_ends()
    ensures { (server client : Limits) (url : Option (List ℕ)) (channel : ℕ) (up : List ℕ) (told : List Told)
        (asks : List Placed) (down : List ℕ) (heard : List ClientTold) (at : BothEnds) (rounds : List Round) →
        channel < 2 ^ 32 → AreConnected server client url channel up told asks down heard at
        → AreRounds server channel at rounds →
        AreConnected server client url channel (up ++ rounds_up server channel at rounds)
        (told ++ rounds_told server channel at rounds) (asks ++ rounds_asks server channel (length down) at rounds)
        (down ++ rounds_down server channel at rounds) (heard ++ rounds_heard server channel at rounds)
        (rounds_behind server channel at rounds) }
{}
