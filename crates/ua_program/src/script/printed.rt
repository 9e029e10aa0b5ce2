//! The output for the replies to a script.

ghost use Rattle.std.specs.Prelude.{◌≡◌, ◌++◌, ◌∷◌, [], ℕ, Bool, List, Option, Some, Ok};
ghost use Rattle.std.specs.Prelude.{Err, drop, length, map, string_bytes, IfOk, IfErr, OnOk};
ghost use Rattle.std.specs.List.{slice_get};
ghost use Rattle.ua_client.specs.declared.reply.Reply.TheVariants as reply;
ghost use Rattle.ua_report.specs.LoopFaults.{of_line_answer};
ghost use Rattle.ua_program.specs.ScriptPrinted.{AddsAll, AddsTold, asked_behind, asked_for, end_text};
ghost use Rattle.ua_program.specs.ScriptPrinted.{replies_told, reply_told, response_told, said, totals_line};
ghost use Rattle.ua_answers.specs.declared.script.Step.{Step};

use std::alloc::{AllocError, Global};
use std::fmt::Write;
use std::slice;
use ua_answers::{
    AnswerFault, AnswerStyle, LineStyle, ScriptLine, Step, push_read_answers_as, push_write_answers,
};
use ua_exchange::{Reply, Transcript};
use ua_report::LoopFault;
use ua_server::End;
use ua_services::Response;
use ua_texts::push_code_as;

/// The index of the first reply to a line: the replies to the requests that begin the session come
/// before it.
const FIRST_REPLY: usize = 2;

/// The response at an index among replies.
fn response_at(replies: &[Reply], place: usize) -> Result<&Response, LoopFault>
    ensures found { IfOk result (λ response. slice_get replies.now place ≡ Some (reply.Response response.now)) }
    ensures failed { IfErr result (λ fault. (names : Bool) (step : Option Step)
        → reply_told names step (slice_get replies.now place) ≡ Err fault) }
{
    match replies.get(place) {
        Some(Reply::Response(response)) => Ok(response),
        Some(Reply::Aborted(code)) => Err(LoopFault::Service(*code)),
        // Never: each request has its own reply.
        None => Err(LoopFault::UnknownResponse),
    }
}

/// Checks that a service of the session succeeded, by the reply at an index.
fn expect_done(replies: &[Reply], place: usize) -> Result<(), LoopFault>
    ensures { (people names : Bool) (text : List ℕ)
        → AddsTold people names (reply_told names None (slice_get replies.now place)) result text text }
{
    match response_at(replies, place)? {
        Response::ServiceFault(fault) => {
            Err(LoopFault::Service(fault.response_header.service_result))
        }
        _ => Ok(()),
    }
}

/// Appends the line of the answer to a step.
fn push_step(
    alloc: Global,
    out: &mut String,
    step: &Step,
    response: &Response,
    names: bool,
    plain: bool,
) -> Result<(), LoopFault>
    ensures { AddsTold plain names (reply_told names (Some step.now) (Some (reply.Response response.now))) result
        (string_bytes out.old) (string_bytes out.new) }
{
    let lines = LineStyle::plain(names);
    let style = AnswerStyle { lines, plain };
    match step {
        Step::Read { node, .. } => {
            Ok(push_read_answers_as(alloc, out, slice::from_ref(node), response, style)?)
        }
        Step::Write { node, .. } => {
            Ok(push_write_answers(alloc, out, slice::from_ref(node), response, lines)?)
        }
        // Never: a renewal sends no request.
        Step::Renew => Err(LoopFault::UnknownResponse),
    }
}

/// Appends the lines of the answers to the lines of a script, from the third reply on, and expects
/// the reply after them to tell that the session is ended.
fn push_answers(
    alloc: Global,
    out: &mut String,
    lines: &[ScriptLine],
    replies: &[Reply],
    names: bool,
    plain: bool,
) -> Result<(), LoopFault>
    ensures { AddsAll plain names (replies_told names (asked_behind lines.now) (drop 2 (map Some replies.now))) result
        (string_bytes out.old) (string_bytes out.new) }
{
    let mut place = FIRST_REPLY;
    for line in lines {
        if let Step::Renew = line.step {
            continue;
        }
        let response = response_at(replies, place)?;
        push_step(alloc, out, &line.step, response, names, plain)?;
        place += 1;
    }
    expect_done(replies, place)
}

/// Appends how the server saw a connection end, with the name of a StatusCode if `names` is set.
pub(crate) fn push_end(out: &mut String, end: End, names: bool) -> Result<(), AllocError>
    ensures { OnOk result (string_bytes out.new ≡ string_bytes out.old ++ end_text names end) }
{
    match end {
        End::Closed => out.push_str("Closed"),
        End::NoClose => out.push_str("NoClose"),
        End::Cut => out.push_str("Cut"),
        End::Refused(status) => {
            out.push_str("Refused ")?;
            push_code_as(out, status, names)
        }
    }
}

/// Appends the number of bytes in each direction, and how the connection ended.
#[tactic(auto, unfolding(crate::specs::ScriptPrinted::totals_line))]
fn push_totals(out: &mut String, transcript: &Transcript, names: bool) -> Result<(), AllocError>
    ensures { OnOk result
        (string_bytes out.new ≡ string_bytes out.old ++ totals_line names (length transcript.now.up.items)
        (length transcript.now.down.items) transcript.now.end) }
{
    let up = transcript.up.len();
    let down = transcript.down.len();
    write!(out, "up {up} down {down} end ")?;
    push_end(out, transcript.end, names)?;
    out.push_str("\n")
}

/// Appends the output for the replies to the lines of a script, up to the first fault, and after it
/// the number of bytes in each direction, with the names of StatusCodes and with values as people
/// write them where these are asked for.
pub(crate) fn push_transcript(
    alloc: Global,
    out: &mut String,
    lines: &[ScriptLine],
    transcript: &Transcript,
    names: bool,
    plain: bool,
) -> Result<(), LoopFault>
    ensures { AddsAll plain names (replies_told names (asked_for lines.now) (map Some transcript.now.replies.items)
        ++ Ok (said
        (totals_line names (length transcript.now.up.items) (length transcript.now.down.items) transcript.now.end))
        ∷ []) result (string_bytes out.old) (string_bytes out.new) }
{
    expect_done(&transcript.replies, 0)?;
    expect_done(&transcript.replies, 1)?;
    push_answers(alloc, out, lines, &transcript.replies, names, plain)?;
    Ok(push_totals(out, transcript, names)?)
}
