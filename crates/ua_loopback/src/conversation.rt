//! A client and a server that converse.

ghost use Rattle.std.specs.Prelude.{◌≡◌, ◌<◌, ◌≤◌, ◌∷◌, ◌++◌, [], ℕ, List, Option};
ghost use Rattle.std.specs.Prelude.{Some, IsTrue, IfErr, IfOk, OnOk, length, map};
ghost use Rattle.std.specs.List.{list_all};
ghost use Rattle.ua_builtin.specs.DateTime.{date_time};
ghost use Rattle.ua_wire.specs.Counted.{text};
ghost use Rattle.ua_frame.specs.Agreement.{url_length};
ghost use Rattle.ua_frame.specs.declared.limits.Limits.{Limits};
ghost use Rattle.ua_channel.specs.Line.{Traffic};
ghost use Rattle.ua_channel_laws.specs.ServerReads.{ServerCloses};
ghost use Rattle.ua_client.specs.Client.{IsReady, connection_of};
ghost use Rattle.ua_client.specs.Hearing.{failures_behind, most_reads};
ghost use Rattle.ua_client.specs.ClientPlace.{ClientPlace};
ghost use Rattle.ua_loopback.specs.Accepted.{AreAcceptedUnder, FirstRefusedUnder};
ghost use Rattle.ua_loopback.specs.Accepted.{IsTurnFault, acknowledged, turn_refusal_under};
ghost use Rattle.ua_loopback.specs.Beginning.{Beginning, beginning_of};
ghost use Rattle.ua_loopback.specs.Course.{Converses};
ghost use Rattle.ua_server.specs.declared.step.End.TheVariants.{Closed};
ghost use Rattle.ua_loopback.specs.Kept.{EndsAtStage, LeavesAtStage};
ghost use Rattle.ua_loopback.specs.Says.{services_after, server_output};
ghost use Rattle.ua_loopback.specs.Faults.{BehindRefused, FailsAtStage, FailsBehind, IsOutside};
ghost use Rattle.ua_loopback.specs.Replies.{replies_to_turns, turns_state};
ghost use Rattle.ua_loopback.specs.Sends.{conversation_octets};
ghost use Rattle.ua_loopback.specs.Turns.{conversation_told, ids_behind};
ghost use Rattle.ua_loopback.specs.declared.stage.Stage.TheVariants.{Ended};
ghost use Rattle.ua_services.specs.declared.request.Request.{Request};
ghost use Rattle.ua_loopback.specs.Talking.{IsLineTo, StopsOver};
ghost use Rattle.ua_loopback.specs.inside.Talking.{CanOpenTo, HasMisanswer, HaveMisanswers};
ghost use Rattle.ua_loopback.specs.inside.Talking.{StaysBefore, StaysBehindTurn};
ghost use Rattle.ua_loopback.specs.inside.Talking.{StaysTalking, Talked, HasOpenedTo};
ghost use Rattle.ua_loopback.specs.inside.Talking.{WentBefore, fault_at_stage, outcome_at};

use crate::fragments::Fragments;
use crate::operation::AsOperation;
use crate::served_line::{Began, ServedLine};
use crate::server_setup::ServerSetup;
use crate::stage::Stage;
use std::alloc::Global;
use std::marker::Brand;
use ua_builtin::laws::moment_is_encodable;
use ua_builtin::{DateTime, UaString};
use ua_channel::Line;
use ua_client::laws::{calls_are_told_behind, clients_are_settled};
use ua_client::{Client, ClientFault, Reply};
use ua_frame::Limits;
use ua_server::Services;
use ua_server::laws::services_are_sound;

/// The bytes that went over a connection, and the state afterwards.
#[derive(Debug, Drop)]
pub struct ConversationLog {
    /// The client-to-server bytes.
    pub up: Vec<u8>,
    /// The server-to-client bytes.
    pub down: Vec<u8>,
    /// How many of its operations the client completed.
    pub taken: usize,
    /// The replies to the requests, in their order, as far as they came.
    pub replies: Vec<Reply>,
    /// Why the client did not complete all operations, if it did not.
    pub outcome: Result<(), ClientFault>,
    /// The state of the connection at the server.
    pub stage: Stage,
    /// The services, as they are now.
    pub services: Services,
}

/// A client before it connects.
#[derive(Debug, Drop)]
struct ClientSetup {
    limits: Limits,
    /// The URL of the server.
    url: UaString,
    /// The timestamp of each OPN and of the CLO.
    moment: DateTime,
}

/// How far a client has come.
#[derive(Debug, Drop)]
struct Progress {
    /// The replies so far.
    replies: Vec<Reply>,
    /// How many operations it completed.
    taken: usize,
}

/// Opens a client.
fn begin<L: Line>(alloc: Global, line: &mut L, setup: ClientSetup) -> Result<Client, ClientFault>
    requires { IsTrue (text.encodable setup.url) }
    ensures went { IfOk result (λ client. (b : Beginning) → CanOpenTo b setup.limits setup.url setup.moment
        → IsLineTo b [] [] (L.traffic line.old)
        → HasOpenedTo b setup.limits setup.url setup.moment (connection_of client) (L.traffic line.old)
        (L.traffic line.new)) }
    ensures ready { IfOk result (λ client. IsReady client) }
    ensures faults { IfErr result (λ fault. IsTurnFault fault → ⊥) }
    ensures fails { IfErr result (λ fault. (b : Beginning) → CanOpenTo b setup.limits setup.url setup.moment
        → IsLineTo b [] [] (L.traffic line.old) → url_length setup.url ≤ 4095 → IsOutside fault) }
    ensures stops { IfErr result (λ fault. (b : Beginning) → CanOpenTo b setup.limits setup.url setup.moment
        → IsLineTo b [] [] (L.traffic line.old) → url_length setup.url ≤ 4095
        → StopsOver fault b [] (L.traffic line.old) (L.traffic line.new)) }
    ensures failed { L.failures line.new ≡ failures_behind (L.failures line.old) result }
{
    clients_are_settled();
    match Client::open(alloc, line, setup.limits, setup.url, setup.moment) {
        Ok(client) => Ok(client),
        Err(fault) => Err(fault),
    }
}

/// Performs an operation, and adds the replies.
fn take_turn<T: AsOperation, L: Line>(
    client: &mut Client,
    line: &mut L,
    turn: &T,
    moment: DateTime,
    replies: &mut Vec<Reply>,
) -> Result<(), ClientFault>
    requires { IsReady client.old }
    ensures stays { OnOk result ((b : Beginning) (limits : Limits) (url : Option (List ℕ)) (opened : ClientPlace)
        (turns : List (Option (List Request))) (first : Option Traffic)
        → StaysTalking b limits url moment opened turns (connection_of client.old) first (L.traffic line.old)
        replies.old.items
        → StaysTalking b limits url moment opened (turns ++ T.turn turn.now ∷ []) (connection_of client.new) first
        (L.traffic line.new) replies.new.items) }
    ensures refused { IfErr result (λ fault. IsTurnFault fault
        → (b : Beginning) (limits : Limits) (url : Option (List ℕ)) (opened : ClientPlace)
        (turns : List (Option (List Request))) (first : Option Traffic)
        → StaysTalking b limits url moment opened turns (connection_of client.old) first (L.traffic line.old)
        replies.old.items
        → turn_refusal_under (acknowledged b.limits limits url) turns (T.turn turn.now) ≡ Some fault) }
    ensures fails { IfErr result
        (λ fault. (b : Beginning) (limits : Limits) (url : Option (List ℕ)) (opened : ClientPlace)
        (turns : List (Option (List Request))) (first : Option Traffic)
        → StaysTalking b limits url moment opened turns (connection_of client.old) first (L.traffic line.old)
        replies.old.items
        → FailsBehind (HasMisanswer (turns_state b.first b.moments 1 turns) b.moments (ids_behind 1 turns)
        (T.turn turn.now)) fault) }
    ensures stops { IfErr result
        (λ fault. (b : Beginning) (limits : Limits) (url : Option (List ℕ)) (opened : ClientPlace)
        (turns : List (Option (List Request))) (first : Option Traffic)
        → StaysTalking b limits url moment opened turns (connection_of client.old) first (L.traffic line.old)
        replies.old.items
        → StopsOver fault b [] first (L.traffic line.new)) }
    ensures failed { L.failures line.new ≡ failures_behind (L.failures line.old) result }
    ensures before { IfErr result (λ fault. IsTurnFault fault
        → (b : Beginning) (limits : Limits) (url : Option (List ℕ)) (opened : ClientPlace)
        (turns : List (Option (List Request))) (first : Option Traffic)
        → StaysTalking b limits url moment opened turns (connection_of client.old) first (L.traffic line.old)
        replies.old.items
        → StaysBehindTurn b limits url moment opened turns (T.turn turn.now) (connection_of client.new) first
        (L.traffic line.new) replies.new.items) }
    ensures ready { OnOk result (IsReady client.new) }
{
    clients_are_settled();
    calls_are_told_behind();
    match turn.requests() {
        Some(requests) => match client.call_into(line, requests, moment, replies) {
            Ok(()) => Ok(()),
            Err(calls) => Err(calls.fault),
        },
        None => match client.renew(line, moment) {
            Ok(()) => Ok(()),
            Err(fault) => Err(fault),
        },
    }
}

/// Performs all operations, adds the replies, and counts the operations.
fn take_turns<T: AsOperation, L: Line>(
    client: &mut Client,
    line: &mut L,
    turns: &[T],
    moment: DateTime,
    progress: &mut Progress,
) -> Result<(), ClientFault>
    requires ready { IsReady client.old }
    requires none { progress.old.taken ≡ 0 }
    ensures stays { OnOk result ((b : Beginning) (limits : Limits) (url : Option (List ℕ)) (opened : ClientPlace)
        (first : Option Traffic) → StaysTalking b limits url moment opened [] (connection_of client.old) first
        (L.traffic line.old) progress.old.replies.items
        → StaysTalking b limits url moment opened (map T.turn turns.now) (connection_of client.new) first
        (L.traffic line.new) progress.new.replies.items) }
    ensures taken { OnOk result (progress.new.taken ≡ length turns.now) }
    ensures refused { IfErr result (λ fault. IsTurnFault fault
        → (b : Beginning) (limits : Limits) (url : Option (List ℕ)) (opened : ClientPlace) (first : Option Traffic)
        → StaysTalking b limits url moment opened [] (connection_of client.old) first (L.traffic line.old)
        progress.old.replies.items
        → FirstRefusedUnder (acknowledged b.limits limits url) (map T.turn turns.now) progress.new.taken fault) }
    ensures fails { IfErr result
        (λ fault. (b : Beginning) (limits : Limits) (url : Option (List ℕ)) (opened : ClientPlace)
        (first : Option Traffic) → StaysTalking b limits url moment opened [] (connection_of client.old) first
        (L.traffic line.old) progress.old.replies.items
        → FailsBehind (HaveMisanswers b.first b.moments 1 (map T.turn turns.now)) fault) }
    ensures stops { IfErr result
        (λ fault. (b : Beginning) (limits : Limits) (url : Option (List ℕ)) (opened : ClientPlace)
        (first : Option Traffic) → StaysTalking b limits url moment opened [] (connection_of client.old) first
        (L.traffic line.old) progress.old.replies.items
        → StopsOver fault b [] first (L.traffic line.new)) }
    ensures failed { L.failures line.new ≡ failures_behind (L.failures line.old) result }
    ensures before { IfErr result (λ fault. IsTurnFault fault
        → (b : Beginning) (limits : Limits) (url : Option (List ℕ)) (opened : ClientPlace) (first : Option Traffic)
        → StaysTalking b limits url moment opened [] (connection_of client.old) first (L.traffic line.old)
        progress.old.replies.items
        → StaysBefore b limits url moment opened (map T.turn turns.now) progress.new.taken (connection_of client.new)
        first (L.traffic line.new) progress.new.replies.items) }
    ensures ready { OnOk result (IsReady client.new) }
{
    for turn in turns {
        match take_turn(client, line, turn, moment, &mut progress.replies) {
            Ok(()) => progress.taken += 1,
            Err(fault) => return Err(fault),
        }
    }
    Ok(())
}

/// Opens a client, performs all operations and closes it; adds the replies, and counts the
/// operations.
fn talk<T: AsOperation, L: Line>(
    alloc: Global,
    line: &mut L,
    setup: ClientSetup,
    turns: &[T],
    progress: &mut Progress,
) -> Result<(), ClientFault>
    requires url { IsTrue (text.encodable setup.url) }
    requires none { progress.old.replies.items ≡ [] }
    requires first { progress.old.taken ≡ 0 }
    ensures talked { OnOk result ((b : Beginning) → CanOpenTo b setup.limits setup.url setup.moment
        → IsLineTo b [] [] (L.traffic line.old)
        → Talked b setup.limits setup.url setup.moment (map T.turn turns.now) (L.traffic line.old) (L.traffic line.new)
        progress.new.replies.items) }
    ensures taken { OnOk result (progress.new.taken ≡ length turns.now) }
    ensures refused { IfErr result (λ fault. IsTurnFault fault → (b : Beginning)
        → CanOpenTo b setup.limits setup.url setup.moment → IsLineTo b [] [] (L.traffic line.old)
        → FirstRefusedUnder (acknowledged b.limits setup.limits setup.url) (map T.turn turns.now) progress.new.taken
        fault) }
    ensures fails { IfErr result (λ fault. (b : Beginning) → CanOpenTo b setup.limits setup.url setup.moment
        → IsLineTo b [] [] (L.traffic line.old) → url_length setup.url ≤ 4095
        → FailsBehind (HaveMisanswers b.first b.moments 1 (map T.turn turns.now)) fault) }
    ensures stops { IfErr result (λ fault. (b : Beginning) → CanOpenTo b setup.limits setup.url setup.moment
        → IsLineTo b [] [] (L.traffic line.old) → url_length setup.url ≤ 4095
        → StopsOver fault b [] (L.traffic line.old) (L.traffic line.new)) }
    ensures failed { L.failures line.new ≡ failures_behind (L.failures line.old) result }
    ensures before { IfErr result (λ fault. IsTurnFault fault → (b : Beginning)
        → CanOpenTo b setup.limits setup.url setup.moment → IsLineTo b [] [] (L.traffic line.old)
        → WentBefore b setup.limits setup.url setup.moment (map T.turn turns.now) progress.new.taken
        (L.traffic line.old) (L.traffic line.new) progress.new.replies.items) }
{
    let moment = setup.moment;
    let mut client = match begin(alloc, line, setup) {
        Ok(client) => client,
        Err(fault) => return Err(fault),
    };
    match take_turns(&mut client, line, turns, moment, progress) {
        Ok(()) => {}
        Err(fault) => return Err(fault),
    }
    match client.close(line, moment) {
        Ok(()) => Ok(()),
        Err(fault) => Err(fault),
    }
}

/// No slice has as many bytes as a call may make reads.
fn fewer_than_reads(octets: &[u8])
    ensures { length octets.now < most_reads }
{
    let _len = octets.len();
}

/// Each timestamp can be encoded.
fn times_are_encodable(times: &[DateTime])
    ensures { IsTrue (list_all date_time.encodable times.now) }
{
    for time in times {
        moment_is_encodable(time);
    }
}

/// The fault that is reported over a transport whose connection is at this stage: where the
/// transport is broken, an error of the client's operation becomes a failed allocation.
fn fault_at(stage: Stage, fault: ClientFault) -> ClientFault
    ensures { result ≡ fault_at_stage stage fault }
{
    match stage {
        Stage::Going | Stage::Ended(_) => fault,
        Stage::Broken => match fault {
            ClientFault::NotWritable
            | ClientFault::Exhausted
            | ClientFault::TooLarge
            | ClientFault::TooManyTokens => ClientFault::OutOfMemory,
            other => other,
        },
    }
}

/// The same for an outcome of the client.
fn outcome_at(stage: Stage, outcome: Result<(), ClientFault>) -> Result<(), ClientFault>
    ensures { result ≡ outcome_at stage outcome }
{
    match outcome {
        Ok(()) => Ok(()),
        Err(fault) => Err(fault_at(stage, fault)),
    }
}

/// Runs a client against a server of the beginning that the parameter names.
fn converse_with<T: AsOperation, W: Began>(
    alloc: Global,
    server: ServerSetup,
    url: UaString,
    turns: &[T],
    fragments: Fragments,
) -> ConversationLog
    requires url { IsTrue (text.encodable url) }
    requires began { W.beginning ≡ beginning_of server }
    ensures down { result.down.items ≡ server_output W.beginning result.up.items }
    ensures services { LeavesAtStage result.stage W.beginning result.up.items result.services }
    ensures ends { EndsAtStage result.stage W.beginning result.up.items }
    ensures converses { OnOk result.outcome
        (Converses server.limits url server.moment (map T.turn turns.now) result.up.items result.down.items
        result.replies.items) }
    ensures heard { OnOk result.outcome
        (ServerCloses server.limits server.channel_id result.up.items
        (conversation_told server.limits server.limits url (map T.turn turns.now))) }
    ensures closed { OnOk result.outcome (result.stage ≡ Ended Closed) }
    ensures left { OnOk result.outcome (result.services ≡ services_after W.beginning result.up.items) }
    ensures sent { OnOk result.outcome (result.up.items
        ≡ conversation_octets server.limits server.limits url server.channel_id server.moment
        (map T.turn turns.now)) }
    ensures replied { OnOk result.outcome (map Some result.replies.items
        ≡ replies_to_turns (beginning_of server) server.limits url server.services 1 1 (map T.turn turns.now)) }
    ensures state { OnOk result.outcome
        (result.services ≡ turns_state server.services (beginning_of server).moments 1 (map T.turn turns.now)) }
    ensures accepted { OnOk result.outcome
        (AreAcceptedUnder (acknowledged server.limits server.limits url) (map T.turn turns.now)) }
    ensures taken { OnOk result.outcome (result.taken ≡ length turns.now) }
    ensures refused { IfErr result.outcome (λ fault. IsTurnFault fault
        → FirstRefusedUnder (acknowledged server.limits server.limits url) (map T.turn turns.now) result.taken
        fault) }
    ensures fails { IfErr result.outcome (λ fault. url_length url ≤ 4095 → FailsAtStage result.stage fault) }
    ensures before { IfErr result.outcome (λ fault. IsTurnFault fault
        → BehindRefused (beginning_of server) server.limits url server.moment (map T.turn turns.now) result.taken
        result.up.items result.replies.items) }
{
    services_are_sound(&server.services);
    times_are_encodable(&server.later);
    let setup = ClientSetup {
        limits: server.limits,
        url,
        moment: server.moment,
    };
    let mut line: ServedLine<W> = ServedLine::new(alloc, server, fragments);
    let mut progress = Progress {
        replies: Vec::new(alloc),
        taken: 0,
    };
    let outcome = talk(alloc, &mut line, setup, turns, &mut progress);
    fewer_than_reads(line.down());
    let stage = line.stage();
    let (up, down, services) = line.into_parts();
    let told = outcome_at(stage, outcome);
    ConversationLog {
        up,
        down,
        taken: progress.taken,
        replies: progress.replies,
        outcome: told,
        stage,
        services,
    }
}

/// Runs a client through these operations, from the HEL to the CLO, over a transport to a server,
/// both with the same limits. It gives the bytes each way, the replies, and the services afterwards.
/// No clause mentions the fragment lengths: the result is the same for all of them.
///
/// The timestamp of the first answer is also that of each OPN and of the CLO. If the client did not
/// complete all operations, the outcome gives the reason, and the transcript has the bytes and the
/// state up to then.
pub fn converse<T: AsOperation>(
    alloc: Global,
    server: ServerSetup,
    url: UaString,
    turns: &[T],
    fragments: Fragments,
) -> ConversationLog
    requires { IsTrue (text.encodable url) }

    // The server's bytes are its output for the client's bytes, and the services are as these leave
    // them.
    ensures down { result.down.items ≡ server_output (beginning_of server) result.up.items }
    // The stage tells how the connection ends there.
    ensures services { LeavesAtStage result.stage (beginning_of server) result.up.items result.services }
    ensures ends { EndsAtStage result.stage (beginning_of server) result.up.items }

    // The client sent just its operations and took all of the server's output, and each request has
    // its own reply.
    ensures converses { OnOk result.outcome
        (Converses server.limits url server.moment (map T.turn turns.now) result.up.items result.down.items
        result.replies.items) }

    // The server refused none of it. Its events are just these operations: each request once, in
    // order, under its own RequestId, and the next token at each renewal. The CLO closed the
    // channel, and the services are as all of that leaves them.
    ensures heard { OnOk result.outcome
        (ServerCloses server.limits server.channel_id result.up.items
        (conversation_told server.limits server.limits url (map T.turn turns.now))) }
    ensures closed { OnOk result.outcome (result.stage ≡ Ended Closed) }
    ensures left { OnOk result.outcome (result.services ≡ services_after (beginning_of server) result.up.items) }

    // The client's bytes, the replies and the services are functions of the operations.
    ensures sent { OnOk result.outcome (result.up.items
        ≡ conversation_octets server.limits server.limits url server.channel_id server.moment
        (map T.turn turns.now)) }
    ensures replied { OnOk result.outcome (map Some result.replies.items
        ≡ replies_to_turns (beginning_of server) server.limits url server.services 1 1 (map T.turn turns.now)) }
    ensures state { OnOk result.outcome
        (result.services ≡ turns_state server.services (beginning_of server).moments 1 (map T.turn turns.now)) }

    // Each operation was accepted; or the client stopped before the first that is not, and its
    // fault is the first error against it.
    ensures accepted { OnOk result.outcome
        (AreAcceptedUnder (acknowledged server.limits server.limits url) (map T.turn turns.now)) }
    ensures taken { OnOk result.outcome (result.taken ≡ length turns.now) }
    ensures refused { IfErr result.outcome (λ fault. IsTurnFault fault
        → FirstRefusedUnder (acknowledged server.limits server.limits url) (map T.turn turns.now) result.taken
        fault) }
    // Then the bytes sent, the replies and the state are those of the requests and renewals before
    // it, and of no more.
    ensures before { IfErr result.outcome (λ fault. IsTurnFault fault
        → BehindRefused (beginning_of server) server.limits url server.moment (map T.turn turns.now) result.taken
        result.up.items result.replies.items) }

    // The client fails for an error against an operation, after which the connection goes on, or
    // for a failed allocation: its own, or the server's, whose transport is then broken. The server
    // takes a URL of at most 4095 bytes (OPC 10000-6, 7.1.2.3).
    ensures fails { IfErr result.outcome (λ fault. url_length url ≤ 4095 → FailsAtStage result.stage fault) }
{
    converse_with::<T, Brand>(alloc, server, url, turns, fragments)
}
