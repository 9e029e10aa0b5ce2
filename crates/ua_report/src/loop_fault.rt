//! Why a script is not run, or not printed to its end.

use std::alloc::AllocError;
use thiserror::Error;
use ua_answers::{AnswerFault, ScriptFault};
use ua_builtin::StatusCode;

/// Why a script is not run, or its output is incomplete; the text stands after `ua: ` on standard
/// error.
#[derive(Clone, Copy, PartialEq, Eq, Debug, Error)]
pub enum LoopFault {
    /// The line with this number, counted from 1, asks for nothing; or its request is the first
    /// that a client does not send.
    #[error("script line {0}")]
    ScriptLine(usize),
    /// The lines leave no RequestId for the request that ends the session.
    #[error("connection Exhausted")]
    Exhausted,
    /// A service failed: the StatusCode of a ServiceFault, or of a reply that the server aborted.
    #[error("service {code:08X}", code = .0.code)]
    Service(StatusCode),
    /// A reply is that of another service, or has another number of results than the one item that
    /// was asked for.
    #[error("connection UnknownResponse")]
    UnknownResponse,
    /// An allocation failed.
    #[error("no memory")]
    NoMemory,
}

impl From<ScriptFault> for LoopFault {
    ghost use Rattle.std.specs.Prelude.{◌≡◌};
    ghost use Rattle.ua_report.specs.LoopFaults.{of_script};

    ghost from_gives = { λ script fault. fault ≡ of_script script };

    fn from(fault: ScriptFault) -> LoopFault {
        match fault {
            ScriptFault::Line(number) => LoopFault::ScriptLine(number),
            ScriptFault::OutOfMemory => LoopFault::NoMemory,
        }
    }
}

impl From<AnswerFault> for LoopFault {
    ghost use Rattle.std.specs.Prelude.{◌≡◌};
    ghost use Rattle.ua_report.specs.LoopFaults.{of_line_answer};

    ghost from_gives = { λ answer fault. fault ≡ of_line_answer answer };

    fn from(fault: AnswerFault) -> LoopFault {
        match fault {
            AnswerFault::Service(code) => LoopFault::Service(code),
            AnswerFault::Unknown => LoopFault::UnknownResponse,
            AnswerFault::OutOfMemory => LoopFault::NoMemory,
        }
    }
}

impl From<AllocError> for LoopFault {
    ghost use Rattle.std.specs.Prelude.{◌≡◌};
    ghost use Rattle.ua_report.specs.declared.loop_fault.LoopFault.TheVariants.{NoMemory};

    ghost from_gives = { λ _ fault. fault ≡ NoMemory };

    fn from(_: AllocError) -> LoopFault {
        LoopFault::NoMemory
    }
}
