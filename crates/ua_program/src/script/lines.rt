//! The requests of a script, as client operations.

ghost use Rattle.std.specs.Prelude.{◌≡◌, ◌+◌, ◌∷◌, [], min, IfOk, IfErr};
ghost use Rattle.ua_channel.specs.ClientAsks.{no_id};
ghost use Rattle.ua_exchange.specs.declared.turn.Turn.TheVariants.{Ask};
ghost use Rattle.ua_program.specs.ScriptFaults.{Unread};
ghost use Rattle.ua_program.specs.Script.{session_opening_turns, read_of_node, script_turns as turns_of_script};
ghost use Rattle.ua_program.specs.Script.{step_turn as turn_of_step, token as own_token, write_to_node};
ghost use Rattle.ua_answers.specs.Script.{AsksFor};

use std::alloc::{AllocError, Global};
use ua_answers::{ScriptLine, Step, parse_script};
use ua_builtin::{DateTime, Identifier, NodeId, UaString};
use ua_exchange::Turn;
use ua_report::LoopFault;
use ua_services::Request;
use ua_services::session_requests::{
    activate_session_request, close_session_request, create_session_request, local_url, read_item,
    read_request, write_item, write_request,
};
use ua_variant::Variant;

/// The timestamp of everything that is sent: 1970-01-01 00:00 UTC.
pub const MOMENT: DateTime = DateTime {
    ticks: 116_444_736_000_000_000,
};

/// The port in the server's address.
const PORT: u16 = 4840;

/// The RequestId of the first line: the OPN has 1, and the requests that begin the session 2 and 3.
const FIRST_ID: u32 = 4;

/// Parses a script: returns the lines that ask for something, each with its number. The form is
/// that of `ua_answers::parse_script`.
pub(crate) fn parse_lines(alloc: Global, text: &str) -> Result<Vec<ScriptLine>, LoopFault>
    ensures lines { IfOk result (λ lines. AsksFor text.now lines.items) }
    ensures fault { IfErr result (λ fault. Unread text.now fault) }
{
    Ok(parse_script(alloc, text)?)
}

/// The token of the session.
fn token() -> NodeId
    ensures { result ≡ own_token }
{
    NodeId::new(2, Identifier::Numeric(1))
}

/// The RequestHandle, which is the RequestId, of the request after this many lines.
fn handle_behind(count: usize) -> u32
    ensures { result ≡ min (count + 4) no_id }
{
    u32::try_from(count)
        .unwrap_or(u32::MAX)
        .saturating_add(FIRST_ID)
}

/// A Read of the Value of a node, or of a part of it.
fn read_of(
    alloc: Global,
    node: &NodeId,
    range: &UaString,
    handle: u32,
) -> Result<Request, AllocError>
    ensures { IfOk result (λ request. request ≡ read_of_node handle node.now range.now) }
{
    let mut items = Vec::with_capacity(alloc, 1)?;
    items.push(read_item(node.try_clone()?, range.try_clone()?))?;
    Ok(read_request(token(), MOMENT, handle, items))
}

/// A Write that sets the Value of a node.
fn write_to(
    alloc: Global,
    node: &NodeId,
    value: &Variant,
    handle: u32,
) -> Result<Request, AllocError>
    ensures { IfOk result (λ request. request ≡ write_to_node handle node.now value.now) }
{
    let mut items = Vec::with_capacity(alloc, 1)?;
    items.push(write_item(node.try_clone()?, value.try_clone(alloc)?))?;
    Ok(write_request(token(), MOMENT, handle, items))
}

/// The client operation of a step, whose request has this RequestHandle.
fn step_turn(alloc: Global, step: &Step, handle: u32) -> Result<Turn, AllocError>
    ensures { IfOk result (λ turn. turn ≡ turn_of_step handle step.now) }
{
    match step {
        Step::Read { node, range } => Ok(Turn::Ask(read_of(alloc, node, range, handle)?)),
        Step::Write { node, value } => Ok(Turn::Ask(write_to(alloc, node, value, handle)?)),
        Step::Renew => Ok(Turn::Renew),
    }
}

/// The client operations that begin the session.
fn opening_turns(alloc: Global) -> Result<Vec<Turn>, AllocError>
    ensures { IfOk result (λ turns. turns.items ≡ session_opening_turns) }
{
    let mut turns = Vec::new(alloc);
    let create = create_session_request(alloc, local_url(alloc, PORT)?, MOMENT, 2)?;
    turns.push(Turn::Ask(create))?;
    let activate = activate_session_request(alloc, token(), MOMENT, 3)?;
    turns.push(Turn::Ask(activate))?;
    Ok(turns)
}

/// The client operations of a session in which the lines of a script are run.
pub(crate) fn script_turns(alloc: Global, lines: &[ScriptLine]) -> Result<Vec<Turn>, AllocError>
    ensures { IfOk result (λ turns. turns.items ≡ turns_of_script lines.now) }
{
    let mut turns = opening_turns(alloc)?;
    for (index, line) in lines.iter().enumerate() {
        turns.push(step_turn(alloc, &line.step, handle_behind(index))?)?;
    }
    let close = close_session_request(token(), MOMENT, handle_behind(lines.len()));
    turns.push(Turn::Ask(close))?;
    Ok(turns)
}
