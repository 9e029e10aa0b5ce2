//! What is known of a status code in a fault: its name in the standard, and what helps.

ghost use Rattle.std.specs.Prelude.{◌≡◌, ◌++◌, option_map, string_bytes, OnOk};
ghost use Rattle.ua_report.specs.Known.{code_in_fault, hint_of, known_line, named_or_not};
ghost use Rattle.ua_texts.specs.Names.{name_of_code};

use crate::fault::Fault;
use crate::loop_fault::LoopFault;
use std::alloc::AllocError;
use ua_builtin::StatusCode;
use ua_client::ClientFault;
use ua_session::QuestionFault;
use ua_texts::{code_name, push_escaped};

/// The status code in a fault, if it has one.
pub fn code_of(fault: &Fault<'_>) -> Option<StatusCode>
    ensures { result ≡ code_in_fault fault.now }
{
    match fault {
        Fault::Asking(QuestionFault::Service(code)) => Some(*code),
        Fault::Asking(QuestionFault::Connection(ClientFault::Peer(code))) => Some(*code),
        Fault::Asking(QuestionFault::Connection(ClientFault::Refused(code))) => Some(*code),
        Fault::Looping(LoopFault::Service(code)) => Some(*code),
        _ => None,
    }
}

/// The standard's name of a code; or that there is none.
fn name_known(code: StatusCode) -> &'static str
    ensures { result.now ≡ named_or_not (name_of_code code.code) }
{
    match code_name(code) {
        Some(name) => name,
        None => "a code without a standard name",
    }
}

/// What helps against a code of a server that is there, where the program has a word for it.
fn hint_of(code: StatusCode) -> &'static str
    ensures { result.now ≡ hint_of code.code }
{
    match code.code {
        0x8010_0000 => " (try fewer nodes)",
        0x8020_0000 | 0x8021_0000 => " (try --policy auto)",
        0x8083_0000 => " (try --path /P or --url URL)",
        _ => "",
    }
}

/// Adds the line of a code: its name, what the server says beside it, and what helps.
pub(crate) fn push_code_line(
    out: &mut String,
    code: StatusCode,
    said: Option<&str>,
) -> Result<(), AllocError>
    ensures { OnOk result (string_bytes out.new ≡ string_bytes out.old ++ known_line code.code
        (option_map (λ text. text.now) said.entry)) }
{
    out.push_str("  because ")?;
    out.push_str(name_known(code))?;
    if let Some(text) = said {
        out.push_str(", ")?;
        push_escaped(out, text)?;
    }
    out.push_str(hint_of(code))?;
    out.push_str("\n")
}
