//! Laws of what `ask_over` of `ua_session` writes, and so `ua read` and `ua write`, over a transport
//! to a server: the lines of what the nodes of the server give. Each is the contract of a function
//! that does nothing.

ghost use Rattle.std.specs.Prelude.{[], ℕ, IsTrue, List, Ok, Option};
ghost use Rattle.ua_wire.specs.Counted.{text};
ghost use Rattle.ua_server.specs.Sound.{IsSoundState};
ghost use Rattle.ua_loopback.specs.Beginning.{Beginning};
ghost use Rattle.ua_loopback.specs.Talking.{CanBegin, IsLineTo};
ghost use Rattle.ua_answers.specs.declared.style.AnswerStyle.{AnswerStyle};
ghost use Rattle.ua_session.specs.Line.{LineState};
ghost use Rattle.ua_session.specs.Printed.{HasAdded};
ghost use Rattle.ua_session.specs.Session.{RunsQuestion};
ghost use Rattle.ua_session.specs.declared.policy.TokenPolicy.{TokenPolicy};
ghost use Rattle.ua_session.specs.declared.question.Question.{Question};
ghost use Rattle.ua_session.specs.declared.verdict.Verdict.{Verdict};
ghost use Rattle.ua_headline.specs.Questions.{AreLinesGiven, time_of_answer};

use crate::reply_laws::talked_replies_are_the_responses;
use std::io::Write;
use ua_channel::Moments;
use ua_client::Reply;
use ua_frame::Limits;
use ua_loopback::talking_laws::{calls_go_on, dated_openings_begin_talks, sessions_go_on};

/// Where `ask_over` succeeds over any transport to a server with sound services, as every `Services`
/// is, whatever the limits of both and the timestamps that it is given: just the lines of what the
/// nodes of that server give were written. The last premise is its clause `runs`.
pub fn questions_are_answered_by_the_nodes<M: Moments, O: Write>(limits: Limits)
    ensures lines { (b : Beginning) (url : Option (List ℕ)) (policy : TokenPolicy) (style : AnswerStyle)
        (question : Question) (first last : M) (before after : LineState) (had have : O) (verdict : Verdict) →
        CanBegin b → IsSoundState b.first → IsLineTo b [] [] before.traffic → IsTrue (text.encodable url) →
        RunsQuestion M.gives O.contents limits url policy style question first last before after had have (Ok verdict) →
        HasAdded (AreLinesGiven style question b.first (time_of_answer b policy)) (O.contents had) (O.contents have) }
{
    dated_openings_begin_talks(limits);
    calls_go_on::<Reply>();
    sessions_go_on();
    talked_replies_are_the_responses::<Reply>();
}
