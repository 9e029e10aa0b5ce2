//! The session of `ua ask`, and what its lines ask for.

ghost use Rattle.std.specs.Prelude.{◌≡◌, ◌⊎◌, IfErr, OnOk};
ghost use Rattle.ua_session.specs.Printed.{HasAdded, LeavesLines};
ghost use Rattle.ua_program.specs.Talked.{AreTalkLines, AsksNow, ListsNow, Performs, RenewsFirst};
ghost use Rattle.ua_program.specs.Talked.{RenewsIfDue, RenewsTalk, beside, ticks_of, worse};

use crate::lifetime::is_due;
use crate::line_task::LineTask;
use std::io::Write;
use ua_answers::{AnswerStyle, EndpointStyle};
use ua_builtin::DateTime;
use ua_channel::Line;
use ua_session::{ClientSession, Question, QuestionFault, Verdict};

/// The ticks of a time as a count, 0 before 1601.
pub(crate) fn ticks_of(moment: DateTime) -> u64
    ensures { result ≡ ticks_of moment.ticks }
{
    match u64::try_from(moment.ticks) {
        Ok(ticks) => ticks,
        Err(_) => 0,
    }
}

/// The verdict on several answers, by that on those before the last one.
fn worse(old: Verdict, verdict: Verdict) -> Verdict
    ensures { result ≡ worse old verdict }
{
    match verdict {
        Verdict::SomeBad => Verdict::SomeBad,
        Verdict::AllGood => old,
    }
}

/// How endpoints are printed beside answers in this style.
fn beside(style: AnswerStyle) -> EndpointStyle
    ensures { result ≡ beside style }
{
    EndpointStyle {
        policies: false,
        json: style.lines.json,
    }
}

/// A session, how its answers are printed, and what became of it so far.
#[derive(Debug, Drop)]
pub struct Talk {
    /// The session.
    pub session: ClientSession,
    /// How the answers are printed.
    pub style: AnswerStyle,
    /// When the token of the channel was asked for, in ticks of 100 ns since 1601.
    pub renewed_at: u64,
    /// Whether a StatusCode of an answer was bad.
    pub verdict: Verdict,
}

impl Talk {
    /// Renews the token of the channel.
    fn renew<L: Line>(&mut self, line: &mut L, moment: DateTime) -> Result<(), QuestionFault>
        ensures { RenewsTalk moment self.old self.new
            (record { traffic = L.traffic line.old; failures = L.failures line.old })
            (record { traffic = L.traffic line.new; failures = L.failures line.new }) result }
    {
        match self.session.renew(line, moment) {
            Ok(()) => {
                self.renewed_at = ticks_of(moment);
                Ok(())
            }
            Err(fault) => Err(fault),
        }
    }

    /// Renews the token of the channel, which has this lifetime in milliseconds, if it is due.
    fn renew_if_due<L: Line>(
        &mut self,
        line: &mut L,
        lifetime: u32,
        moment: DateTime,
    ) -> Result<(), QuestionFault>
        ensures { RenewsIfDue lifetime moment self.old self.new
            (record { traffic = L.traffic line.old; failures = L.failures line.old })
            (record { traffic = L.traffic line.new; failures = L.failures line.new }) result }
    {
        if is_due(ticks_of(moment), self.renewed_at, lifetime) {
            return self.renew(line, moment);
        }
        Ok(())
    }

    /// Asks a question, and prints the answers.
    fn ask<L: Line, O: Write>(
        &mut self,
        line: &mut L,
        question: &Question,
        moment: DateTime,
        out: &mut O,
    ) -> Result<(), QuestionFault>
        ensures asks { AsksNow O.contents question.now moment self.old self.new
            (record { traffic = L.traffic line.old; failures = L.failures line.old })
            (record { traffic = L.traffic line.new; failures = L.failures line.new }) out.old out.new result }
        ensures answered { OnOk result
            (HasAdded (AreTalkLines self.old.style) (O.contents out.old) (O.contents out.new)) }
        ensures left { IfErr result
            (λ fault. LeavesLines O.contents (AreTalkLines self.old.style) fault out.old out.new) }
    {
        match self.session.ask(line, question, self.style, moment, out) {
            Ok(verdict) => {
                self.verdict = worse(self.verdict, verdict);
                Ok(())
            }
            Err(fault) => Err(fault),
        }
    }

    /// Prints the endpoints.
    fn list<L: Line, O: Write>(
        &mut self,
        line: &mut L,
        moment: DateTime,
        out: &mut O,
    ) -> Result<(), QuestionFault>
        ensures asks { ListsNow O.contents moment self.old self.new
            (record { traffic = L.traffic line.old; failures = L.failures line.old })
            (record { traffic = L.traffic line.new; failures = L.failures line.new }) out.old out.new result }
        ensures answered { OnOk result
            (HasAdded (AreTalkLines self.old.style) (O.contents out.old) (O.contents out.new)) }
        ensures left { IfErr result
            (λ fault. LeavesLines O.contents (AreTalkLines self.old.style) fault out.old out.new) }
    {
        self.session
            .ask_endpoints(line, beside(self.style), moment, out)
    }

    /// Asks a question, and prints the answers; before it the token is renewed, if that is due.
    fn ask_first<L: Line, O: Write>(
        &mut self,
        line: &mut L,
        lifetime: u32,
        question: &Question,
        moment: DateTime,
        out: &mut O,
    ) -> Result<(), QuestionFault>
        ensures asks { RenewsFirst lifetime moment self.old self.new
            (record { traffic = L.traffic line.old; failures = L.failures line.old })
            (record { traffic = L.traffic line.new; failures = L.failures line.new }) out.old out.new result
            (λ between once. AsksNow O.contents question.now moment between self.new once
            (record { traffic = L.traffic line.new; failures = L.failures line.new }) out.old out.new result) }
        ensures style { self.new.style ≡ self.old.style }
        ensures answered { OnOk result
            (HasAdded (AreTalkLines self.old.style) (O.contents out.old) (O.contents out.new)) }
        ensures left { IfErr result
            (λ fault. LeavesLines O.contents (AreTalkLines self.old.style) fault out.old out.new) }
    {
        match self.renew_if_due(line, lifetime, moment) {
            Ok(()) => self.ask(line, question, moment, out),
            Err(fault) => Err(fault),
        }
    }

    /// Prints the endpoints; before that the token is renewed, if that is due.
    fn list_first<L: Line, O: Write>(
        &mut self,
        line: &mut L,
        lifetime: u32,
        moment: DateTime,
        out: &mut O,
    ) -> Result<(), QuestionFault>
        ensures asks { RenewsFirst lifetime moment self.old self.new
            (record { traffic = L.traffic line.old; failures = L.failures line.old })
            (record { traffic = L.traffic line.new; failures = L.failures line.new }) out.old out.new result
            (λ between once. ListsNow O.contents moment between self.new once
            (record { traffic = L.traffic line.new; failures = L.failures line.new }) out.old out.new result) }
        ensures style { self.new.style ≡ self.old.style }
        ensures answered { OnOk result
            (HasAdded (AreTalkLines self.old.style) (O.contents out.old) (O.contents out.new)) }
        ensures left { IfErr result
            (λ fault. LeavesLines O.contents (AreTalkLines self.old.style) fault out.old out.new) }
    {
        match self.renew_if_due(line, lifetime, moment) {
            Ok(()) => self.list(line, moment, out),
            Err(fault) => Err(fault),
        }
    }

    /// Does what a line asks for, but for a pause, and prints the answers: at most one call, and
    /// before it a renewal of the token, if that is due at this time by its lifetime in
    /// milliseconds.
    pub(crate) fn perform<L: Line, O: Write>(
        &mut self,
        line: &mut L,
        lifetime: u32,
        task: &LineTask,
        moment: DateTime,
        out: &mut O,
    ) -> Result<(), QuestionFault>
        ensures performs { Performs O.contents lifetime task.now moment self.old self.new
            (record { traffic = L.traffic line.old; failures = L.failures line.old })
            (record { traffic = L.traffic line.new; failures = L.failures line.new }) out.old out.new result }
        ensures style { self.new.style ≡ self.old.style }
        ensures answered { OnOk result
            ((out.new ≡ out.old) ⊎ HasAdded (AreTalkLines self.old.style) (O.contents out.old) (O.contents out.new)) }
        ensures left { IfErr result
            (λ fault. LeavesLines O.contents (AreTalkLines self.old.style) fault out.old out.new) }
    {
        match task {
            LineTask::Ask(question) => self.ask_first(line, lifetime, question, moment, out),
            LineTask::Endpoints => self.list_first(line, lifetime, moment, out),
            LineTask::Renew => self.renew(line, moment),
            LineTask::Nothing | LineTask::Sleep(_) => Ok(()),
        }
    }
}
