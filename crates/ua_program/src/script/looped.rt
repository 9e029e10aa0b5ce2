//! A script that is run over nodes.

ghost use Rattle.std.specs.Prelude.{◌≡◌, string_bytes, IfOk, IfErr};
ghost use Rattle.std.specs.List.{list_any};
ghost use Rattle.ua_exchange.specs.Accepted.{AreAccepted};
ghost use Rattle.ua_exchange.specs.Exchanged.{IsRefusedFor, down_octets};
ghost use Rattle.ua_exchange.specs.Turns.{up_octets};
ghost use Rattle.ua_program.specs.Conversed.{ConversesByScript};
ghost use Rattle.ua_program.specs.ScriptFaults.{StopsScriptLines, place_in};
ghost use Rattle.ua_program.specs.ScriptPrinted.{AreLoopLines, IsTextOf, told_fault};
ghost use Rattle.ua_program.specs.ScriptPrinted.{is_bad_reply, script_has_bad, script_told};
ghost use Rattle.ua_program.specs.Script.{script_moment, script_turns as turns_of_script};
ghost use Rattle.ua_nodes.specs.Sound.{AreNodesSound};

use crate::script::lines::{MOMENT, script_turns};
use crate::script::printed::push_transcript;
use std::alloc::Global;
use ua_answers::ScriptLine;
use ua_exchange::{PairFault, Reply, Transcript, exchange};
use ua_nodes::NodeTable;
use ua_report::LoopFault;
use ua_session::is_bad_response;

/// The number of client operations that begin the session, before those of the lines.
const OPENING_TURNS: usize = 2;

/// The result of a script.
#[derive(Debug, Drop)]
pub struct Looped {
    /// The client-to-server bytes.
    pub up: Vec<u8>,
    /// The server-to-client bytes.
    pub down: Vec<u8>,
    /// The output: the answers before the first fault; without a fault all of them, and the number
    /// of bytes in each direction.
    pub text: String,
    /// The first fault among the replies, if there is one.
    pub fault: Option<LoopFault>,
    /// Whether any reply to a Read or a Write has a bad StatusCode: its own, or that of a result.
    /// Where there is no fault, each such result is printed.
    pub has_bad: bool,
}

/// The index of the client operation that is to blame.
fn turn_in(fault: PairFault) -> Option<usize>
    ensures { result ≡ place_in fault }
{
    match fault {
        PairFault::Request(index, _) => Some(index),
        PairFault::NotWritable(index) => Some(index),
        PairFault::OutOfMemory => None,
    }
}

/// Why the client operations of a script are not run.
fn stopped_by(fault: PairFault, lines: &[ScriptLine]) -> LoopFault
    ensures { IsRefusedFor (turns_of_script lines.now) fault → StopsScriptLines lines.now result }
{
    let Some(index) = turn_in(fault) else {
        return LoopFault::NoMemory;
    };
    match lines.get(index.saturating_sub(OPENING_TURNS)) {
        Some(line) => LoopFault::ScriptLine(line.number),
        None => LoopFault::Exhausted,
    }
}

/// Lets a client send the requests of the lines, each end taking what the other wrote in fragments
/// of this many bytes.
fn converse(
    alloc: Global,
    nodes: NodeTable,
    lines: &[ScriptLine],
    cut: u16,
) -> Result<Transcript, LoopFault>
    requires sound { AreNodesSound nodes }
    ensures { ConversesByScript nodes lines.now result }
{
    let turns = script_turns(alloc, lines)?;
    let cuts = [usize::from(cut)];
    let conversed = exchange(alloc, nodes, &turns, &cuts, &cuts, MOMENT);
    drop(turns);
    match conversed {
        Ok(transcript) => Ok(transcript),
        Err(fault) => Err(stopped_by(fault, lines)),
    }
}

/// Whether a reply has a bad StatusCode, its own or that of a result.
fn is_bad(reply: &Reply) -> bool
    ensures { result ≡ is_bad_reply reply.now }
{
    match reply {
        Reply::Response(response) => is_bad_response(response),
        Reply::Aborted(_) => false,
    }
}

/// Whether any of the replies has.
fn are_bad(replies: &[Reply]) -> bool
    ensures { result ≡ list_any is_bad_reply replies.now }
{
    for reply in replies {
        if is_bad(reply) {
            return true;
        }
    }
    false
}

/// Lets a client send the requests of a script's lines to a server over these nodes, within one
/// session, and returns the bytes in each direction and the output for the replies. No clause
/// mentions the fragmentation: the result is the same for each value of `cut`.
///
/// CreateSession and ActivateSession begin the session, and CloseSession ends it after the lines.
/// Every timestamp is 1970-01-01 00:00 UTC, the SecureChannelId is 1, and the server's address is
/// `opc.tcp://localhost:4840`. Each end takes what the other wrote in fragments of at most `cut`
/// bytes; 0 counts as 1. With `names` the names of StatusCodes stand after them; with `plain`
/// values are written as people write them.
pub(crate) fn run_lines(
    alloc: Global,
    nodes: NodeTable,
    lines: &[ScriptLine],
    cut: u16,
    names: bool,
    plain: bool,
) -> Result<Looped, LoopFault>
    requires sound { AreNodesSound nodes }
    ensures accepted { IfOk result (λ l. AreAccepted (turns_of_script lines.now)) }
    ensures refused { IfErr result (λ fault. StopsScriptLines lines.now fault) }
    ensures up { IfOk result (λ l. l.up.items ≡ up_octets script_moment (turns_of_script lines.now)) }
    ensures down { IfOk result (λ l. l.down.items ≡ down_octets nodes script_moment (turns_of_script lines.now)) }
    ensures text { IfOk result (λ l. IsTextOf plain names (script_told names nodes lines.now) (string_bytes l.text)) }
    ensures fault { IfOk result (λ l. l.fault ≡ told_fault (script_told names nodes lines.now)) }
    ensures lines { IfOk result (λ l. AreLoopLines plain names (string_bytes l.text)) }
    ensures bad { IfOk result (λ l. l.has_bad ≡ script_has_bad nodes lines.now) }
{
    let transcript = converse(alloc, nodes, lines, cut)?;
    let mut text = String::new(alloc);
    let fault = match push_transcript(alloc, &mut text, lines, &transcript, names, plain) {
        Ok(()) => None,
        Err(LoopFault::NoMemory) => return Err(LoopFault::NoMemory),
        Err(fault) => Some(fault),
    };
    let has_bad = are_bad(&transcript.replies);
    let Transcript { up, down, .. } = transcript;
    Ok(Looped {
        up,
        down,
        text,
        fault,
        has_bad,
    })
}
