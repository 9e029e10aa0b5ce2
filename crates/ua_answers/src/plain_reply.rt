//! The output for Read responses, with values and timestamps in the human-readable form.

ghost use Rattle.std.specs.Prelude.{◌≡◌, length, string_bytes, IfErr, OnOk};
ghost use Rattle.ua_answers.specs.PlainAnswers.{ArePlainReads, AreReads};
ghost use Rattle.ua_texts.specs.PlainLeaf.{Adds};
ghost use Rattle.ua_answers.specs.PlainReplies.{HaveLines};
ghost use Rattle.ua_answers.specs.Replies.{Leaves, NoAnswers, values_in};

use crate::fault::AnswerFault;
use crate::plain_answer::push_plain_read_line;
use crate::reply::push_read_answers;
use crate::style::{AnswerStyle, LineStyle};
use std::alloc::{AllocError, Global};
use ua_builtin::NodeId;
use ua_services::Response;
use ua_variant::DataValue;

/// Appends the lines of the results of a Read of these nodes, in their order, in this style: each
/// as [`push_plain_read_line`] appends it.
pub(crate) fn push_plain_read_answers(
    alloc: Global,
    out: &mut String,
    nodes: &[NodeId],
    response: &Response,
    style: LineStyle,
) -> Result<(), AnswerFault>
    ensures lines { OnOk result (HaveLines (values_in response.now) (length nodes.now) (ArePlainReads style nodes.now)
        (string_bytes out.old) (string_bytes out.new)) }
    ensures faults { IfErr result (NoAnswers (values_in response.now) (length nodes.now) response.now) }
    ensures kept { IfErr result (Leaves (string_bytes out.old) (string_bytes out.new)) }
{
    let answers = match response {
        Response::Read(message) => message.results.as_items(),
        Response::ServiceFault(fault) => {
            return Err(AnswerFault::Service(fault.response_header.service_result));
        }
        _ => None,
    };
    match answers {
        Some(answers) if answers.len() == nodes.len() => {
            Ok(push_plain_read_lines(alloc, out, nodes, answers, style)?)
        }
        _ => Err(AnswerFault::Unknown),
    }
}

fn push_plain_read_lines(
    alloc: Global,
    out: &mut String,
    nodes: &[NodeId],
    answers: &[DataValue],
    style: LineStyle,
) -> Result<(), AllocError>
    requires { length answers.now ≡ length nodes.now }
    ensures { Adds result (string_bytes out.old) (string_bytes out.new) (ArePlainReads style nodes.now answers.now) }
{
    for (index, answer) in answers.iter().enumerate() {
        push_plain_read_line(alloc, out, &nodes[index], answer, style)?;
    }
    Ok(())
}

/// Appends the lines of the results of a Read of these nodes, in their order, in this style: those
/// of [`push_plain_read_answers`] if the style is the human-readable one, else those of
/// [`push_read_answers`].
pub fn push_read_answers_as(
    alloc: Global,
    out: &mut String,
    nodes: &[NodeId],
    response: &Response,
    style: AnswerStyle,
) -> Result<(), AnswerFault>
    ensures lines { OnOk result (HaveLines (values_in response.now) (length nodes.now) (AreReads style nodes.now)
        (string_bytes out.old) (string_bytes out.new)) }
    ensures faults { IfErr result (NoAnswers (values_in response.now) (length nodes.now) response.now) }
    ensures kept { IfErr result (Leaves (string_bytes out.old) (string_bytes out.new)) }
{
    if style.plain {
        push_plain_read_answers(alloc, out, nodes, response, style.lines)
    } else {
        push_read_answers(alloc, out, nodes, response, style.lines)
    }
}
