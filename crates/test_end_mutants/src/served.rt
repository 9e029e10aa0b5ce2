//! A client and a server in one process.

ghost use Rattle.std.specs.Prelude.{◌≡◌, ◌≤◌, IfErr, IsTrue, OnOk, map};
ghost use Rattle.ua_wire.specs.Counted.{text};
ghost use Rattle.ua_frame.specs.Agreement.{url_length};
ghost use Rattle.ua_loopback.specs.Accepted.{IsTurnFault};
ghost use Rattle.ua_loopback.specs.Asked.{asked_by};
ghost use Rattle.ua_loopback.specs.Beginning.{beginning_of};
ghost use Rattle.ua_loopback.specs.Faults.{BehindRefused, FailsAtStage, FailsBehind};
ghost use Rattle.ua_loopback.specs.Kept.{LeavesAtStage};
ghost use Rattle.ua_loopback.specs.Says.{services_after};
ghost use Rattle.ua_loopback.specs.Talking.{IsTalking, SoFar};
ghost use Rattle.ua_loopback.specs.declared.stage.Stage.TheVariants.{Ended};
ghost use Rattle.ua_server.specs.declared.step.End.TheVariants.{Closed};

use std::alloc::Global;
use ua_builtin::{DateTime, UaString};
use ua_channel::Line;
use ua_client::{Client, ClientFault};
use ua_loopback::talking_laws::renewals_go_on;
use ua_loopback::{ConversationLog, Fragments, Operation, ServerSetup, converse};
use ua_server::Services;

/// The outcome of a client's operations over a transport to a server. Services that are the same as
/// the server's stand beside it.
pub fn converse_over(
    alloc: Global,
    server: ServerSetup,
    before: &mut Services,
    url: UaString,
    turns: &[Operation],
    fragments: Fragments,
) -> ConversationLog
    requires url { IsTrue (text.encodable url) }
    requires same { before.old ≡ server.services }
    ensures services { LeavesAtStage result.stage (beginning_of server) result.up.items result.services }
    ensures closed { OnOk result.outcome (result.stage ≡ Ended Closed) }
    ensures left { OnOk result.outcome (result.services ≡ services_after (beginning_of server) result.up.items) }
    ensures before { IfErr result.outcome (λ fault. IsTurnFault fault
        → BehindRefused (beginning_of server) server.limits url server.moment (map asked_by turns.now) result.taken
        result.up.items result.replies.items) }
    ensures fails { IfErr result.outcome (λ fault. url_length url ≤ 4095 → FailsAtStage result.stage fault) }
{
    let _before = before;
    converse(alloc, server, url, turns, fragments)
}

/// Renews the token of a client that talks to a server.
pub fn renew_in_talk<L: Line>(
    client: &mut Client,
    line: &mut L,
    moment: DateTime,
) -> Result<(), ClientFault>
    ensures { (t : SoFar) → IsTalking t client.old (L.traffic line.old) → IfErr result (λ fault. FailsBehind ⊥ fault) }
{
    renewals_go_on(moment);
    client.renew(line, moment)
}
