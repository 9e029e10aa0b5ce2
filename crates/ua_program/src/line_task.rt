//! The lines of `ua ask`.

ghost use Rattle.std.specs.Prelude.{◌≡◌, IfOk, IfErr, IfSome};
ghost use Rattle.ua_program.specs.LineTask.{GivesOwn, IsBare, IsPause, IsQuestionOf};
ghost use Rattle.ua_program.specs.LineTask.{IsTaskOf, RefusesTaskLine, Requests};
ghost use Rattle.ua_answers.specs.declared.script.Step.TheVariants.{Read};

use crate::script::parse_lines;
use std::alloc::{AllocError, Global};
use ua_answers::Step;
use ua_builtin::{NodeId, UaString};
use ua_nodes::without_return;
use ua_report::LoopFault;
use ua_session::Question;
use ua_words::parse_size;

/// The number of the attribute Value (OPC 10000-6, A.1).
const VALUE: u32 = 13;

/// What a line asks for.
#[derive(Debug, Drop)]
pub enum LineTask {
    /// Nothing: the line is empty, or begins with `#`.
    Nothing,
    /// To read the Value of a node, or to write it.
    Ask(Question),
    /// The server's endpoints.
    Endpoints,
    /// To renew the token of the SecureChannel.
    Renew,
    /// To wait so many milliseconds.
    Sleep(u32),
}

/// A line without the LF, or CR and LF, at its end.
pub fn bare(line: &str) -> &str
    ensures { IsBare line.now result.now }
{
    without_return(line.strip_suffix('\n').unwrap_or(line))
}

/// The question that reads the Value of a node, or the part of it that an index range selects.
fn read_one(alloc: Global, node: NodeId, range: UaString) -> Result<Question, AllocError>
    ensures { IfOk result (IsQuestionOf (Read node range)) }
{
    let mut nodes = Vec::new(alloc);
    nodes.push(node)?;
    Ok(Question::Read {
        nodes,
        attribute: VALUE,
        range,
    })
}

/// What a step asks for.
fn task_of(alloc: Global, step: Step) -> Result<LineTask, AllocError>
    ensures { IfOk result (IsTaskOf step) }
{
    match step {
        Step::Read { node, range } => Ok(LineTask::Ask(read_one(alloc, node, range)?)),
        Step::Write { node, value } => Ok(LineTask::Ask(Question::Write(node, value))),
        Step::Renew => Ok(LineTask::Renew),
    }
}

/// A pause of so many milliseconds, from 1 to 4294967295.
fn sleep_of(time: &str) -> Result<LineTask, LoopFault>
    ensures { IsPause time.now result }
{
    match parse_size(time) {
        Some(milliseconds) => Ok(LineTask::Sleep(milliseconds)),
        None => Err(LoopFault::ScriptLine(1)),
    }
}

/// What words ask for that the scripts of `ua loop` do not have, if these are such.
fn own_task(words: &str) -> Option<Result<LineTask, LoopFault>>
    ensures { IfSome result (GivesOwn words.now) }
{
    if words == "endpoints" {
        return Some(Ok(LineTask::Endpoints));
    }
    match words.split_once('\t') {
        Some(("sleep", time)) => Some(sleep_of(time)),
        _ => None,
    }
}

/// What a line asks for: `endpoints`; `sleep`, a tab and milliseconds; or a line of a script of `ua
/// loop`. A line that asks for nothing has the fault `ScriptLine`, with its number 1.
pub(crate) fn parse_task(alloc: Global, line: &str) -> Result<LineTask, LoopFault>
    ensures task { IfOk result (Requests line.now) }
    ensures fault { IfErr result (RefusesTaskLine line.now) }
{
    if let Some(task) = own_task(bare(line)) {
        return task;
    }
    let mut steps = parse_lines(alloc, line)?;
    match steps.pop() {
        Some(last) => Ok(task_of(alloc, last.step)?),
        None => Ok(LineTask::Nothing),
    }
}
