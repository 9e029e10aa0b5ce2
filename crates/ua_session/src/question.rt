//! The question that is asked in a session.

ghost use Rattle.std.specs.Prelude.{◌≡◌, ◌∷◌, [], string_bytes, IfOk, IfErr, OnOk};
ghost use Rattle.ua_session.specs.Question.{AnswersNothing, AnswersQuestion, PrintsAnswers};
ghost use Rattle.ua_session.specs.Question.{item_for, items_of_question, request_of_question, verdict_of};
ghost use Rattle.ua_session.specs.Replies.{IsRefusedBy};
ghost use Rattle.ua_session.specs.Told.{of_answer};
ghost use Rattle.ua_client.specs.declared.reply.Reply.TheVariants.{Response as Responds};

use crate::answer::{is_bad_response, print_lines, response_of};
use crate::fault::QuestionFault;
use crate::verdict::Verdict;
use std::alloc::{AllocError, Global};
use std::io::Write;
use std::slice;
use ua_answers::{AnswerFault, AnswerStyle, push_read_answers_as, push_write_answers};
use ua_builtin::{DateTime, NodeId, UaString};
use ua_client::Reply;
use ua_services::session_requests::{read_attribute_item, read_request, write_item, write_request};
use ua_services::{ReadValueId, Request, Response, WriteValue};
use ua_variant::Variant;

/// The question that is asked in a session.
#[derive(Debug, Drop)]
pub enum Question {
    /// To read an attribute of nodes, by its id (OPC 10000-6, A.1), or the part of it that an index
    /// range selects, where this is not null (OPC 10000-4, 7.27).
    Read {
        nodes: Vec<NodeId>,
        attribute: u32,
        range: UaString,
    },
    /// To set the Value of a node to this one.
    Write(NodeId, Variant),
}

/// The items of a Read of an attribute of nodes, or of a part of it.
fn read_items(
    alloc: Global,
    nodes: &[NodeId],
    attribute: u32,
    range: &UaString,
) -> Result<Vec<ReadValueId>, AllocError>
    ensures { IfOk result (λ items. items.items ≡ items_of_question attribute range.now nodes.now) }
{
    let mut items = Vec::with_capacity(alloc, nodes.len())?;
    for node in nodes {
        let item = read_attribute_item(node.try_clone()?, attribute, range.try_clone()?);
        items.push(item)?;
    }
    Ok(items)
}

/// The one item of a Write that sets the Value of a node.
fn write_items(alloc: Global, node: &NodeId, value: &Variant) -> Result<Vec<WriteValue>, AllocError>
    ensures { IfOk result (λ items. items.items ≡ item_for node.now value.now ∷ []) }
{
    let mut items = Vec::with_capacity(alloc, 1)?;
    items.push(write_item(node.try_clone()?, value.try_clone(alloc)?))?;
    Ok(items)
}

/// Whether a response has a bad StatusCode, its own or that of an answer.
fn verdict_of(response: &Response) -> Verdict
    ensures { result ≡ verdict_of (Responds response.now) }
{
    if is_bad_response(response) {
        return Verdict::SomeBad;
    }
    Verdict::AllGood
}

impl Question {
    /// The request of the question, under the token of a session.
    pub(crate) fn request(
        &self,
        alloc: Global,
        token: NodeId,
        moment: DateTime,
        handle: u32,
    ) -> Result<Request, AllocError>
        ensures { IfOk result (λ request. request ≡ request_of_question self.now token moment handle) }
    {
        match self {
            Question::Read {
                nodes,
                attribute,
                range,
            } => {
                let items = read_items(alloc, nodes, *attribute, range)?;
                Ok(read_request(token, moment, handle, items))
            }
            Question::Write(node, value) => {
                let items = write_items(alloc, node, value)?;
                Ok(write_request(token, moment, handle, items))
            }
        }
    }

    /// Appends the lines of its answers in a response, in this style.
    fn push(
        &self,
        alloc: Global,
        out: &mut String,
        response: &Response,
        style: AnswerStyle,
    ) -> Result<(), AnswerFault>
        ensures lines { OnOk result (AnswersQuestion style self.now (Responds response.now) (string_bytes out.old)
            (string_bytes out.new)) }
        ensures faults { IfErr result (λ fault. IsRefusedBy (AnswersNothing self.now (Responds response.now))
            (Responds response.now) (of_answer fault)) }
    {
        match self {
            Question::Read { nodes, .. } => {
                push_read_answers_as(alloc, out, nodes, response, style)
            }
            Question::Write(node, _) => {
                push_write_answers(alloc, out, slice::from_ref(node), response, style.lines)
            }
        }
    }

    /// Writes the lines of its answers in a reply, in this style, and flushes them: all or none,
    /// unless the writer fails. Returns whether the reply has a bad StatusCode.
    pub(crate) fn print<O: Write>(
        &self,
        alloc: Global,
        out: &mut O,
        called: Result<Reply, QuestionFault>,
        style: AnswerStyle,
    ) -> Result<Verdict, QuestionFault>
        ensures { PrintsAnswers O.contents style self.now out.old out.new called result }
    {
        let response = response_of(called)?;
        let mut lines = String::new(alloc);
        let pushed = self.push(alloc, &mut lines, &response, style);
        let verdict = verdict_of(&response);
        drop(response);
        pushed?;
        print_lines(out, &lines)?;
        Ok(verdict)
    }
}
