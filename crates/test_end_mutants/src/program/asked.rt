//! What the program asks a server.

ghost use Rattle.std.specs.Prelude.{IfErr, IsTrue, OnOk};
ghost use Rattle.ua_wire.specs.Counted.{text};
ghost use Rattle.ua_session.specs.Printed.{AreAnswerLines, HasAdded, LeavesLines};

use std::io::Write;
use ua_channel::{Line, Moments};
use ua_session::{Inquiry, QuestionFault, Verdict, ask_over};

/// Asks a server a question, and writes the lines of the answers.
pub fn ask_server<L: Line, M: Moments, O: Write>(
    line: &mut L,
    inquiry: &Inquiry<'_>,
    moments: &mut M,
    out: &mut O,
) -> Result<Verdict, QuestionFault>
    requires { IsTrue (text.encodable inquiry.now.opening.url.now) }
    ensures answered { OnOk result
        (HasAdded (AreAnswerLines inquiry.now.style) (O.contents out.old) (O.contents out.new)) }
    ensures left { IfErr result
        (λ fault. LeavesLines O.contents (AreAnswerLines inquiry.now.style) fault out.old out.new) }
{
    ask_over(line, inquiry, moments, out)
}
