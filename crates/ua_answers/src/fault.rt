//! The reasons why a script was not parsed, or results were not printed.

use std::alloc::{AllocError, AllocFailed};
use thiserror::Error;
use ua_builtin::{StatusCode, TextFault};
use ua_nodes::ValueFault;

/// The reason why a script was not parsed.
#[derive(Clone, Copy, PartialEq, Eq, Debug, Error)]
pub enum ScriptFault {
    /// The first line that is no step, counted from 1.
    #[error("script line {0}")]
    Line(usize),
    /// An allocation failed.
    #[error("out of memory")]
    OutOfMemory,
}

impl<T: Drop> From<AllocFailed<T>> for ScriptFault {
    ghost use Rattle.std.specs.Prelude.{◌≡◌};
    ghost use Rattle.ua_answers.specs.declared.fault.ScriptFault.TheVariants.{OutOfMemory};

    ghost from_gives = { λ _ e. e ≡ OutOfMemory };

    fn from(_: AllocFailed<T>) -> ScriptFault {
        ScriptFault::OutOfMemory
    }
}

/// The reason why a line is no step.
#[derive(Clone, Copy, PartialEq, Eq, Debug)]
pub(crate) enum ScriptLineFault {
    /// The line is no step.
    Bad,
    NoMemory,
}

impl ScriptLineFault {
    ghost use Rattle.std.specs.Prelude.{◌≡◌};
    ghost use Rattle.ua_answers.specs.ScriptLineFault.{script_fault};

    /// The same of the line of a number.
    pub(crate) fn at(self, line: usize) -> ScriptFault
        ensures { result ≡ script_fault line self }
    {
        match self {
            ScriptLineFault::Bad => ScriptFault::Line(line),
            ScriptLineFault::NoMemory => ScriptFault::OutOfMemory,
        }
    }
}

impl From<TextFault> for ScriptLineFault {
    ghost use Rattle.std.specs.Prelude.{◌≡◌};
    ghost use Rattle.ua_answers.specs.ScriptLineFault.{script_id_fault};

    ghost from_gives = { λ t e. e ≡ script_id_fault t };

    fn from(fault: TextFault) -> ScriptLineFault {
        match fault {
            TextFault::NotNodeId => ScriptLineFault::Bad,
            TextFault::OutOfMemory => ScriptLineFault::NoMemory,
        }
    }
}

impl From<ValueFault> for ScriptLineFault {
    ghost use Rattle.std.specs.Prelude.{◌≡◌};
    ghost use Rattle.ua_answers.specs.ScriptLineFault.{script_value_fault};

    ghost from_gives = { λ v e. e ≡ script_value_fault v };

    fn from(fault: ValueFault) -> ScriptLineFault {
        match fault {
            ValueFault::NotValue => ScriptLineFault::Bad,
            ValueFault::OutOfMemory => ScriptLineFault::NoMemory,
        }
    }
}

impl From<AllocError> for ScriptLineFault {
    ghost use Rattle.std.specs.Prelude.{◌≡◌};
    ghost use Rattle.ua_answers.specs.declared.fault.ScriptLineFault.TheVariants.{NoMemory};

    ghost from_gives = { λ _ e. e ≡ NoMemory };

    fn from(_: AllocError) -> ScriptLineFault {
        ScriptLineFault::NoMemory
    }
}

/// The reason why the results of a response were not printed.
#[derive(Clone, Copy, PartialEq, Eq, Debug, Error)]
pub enum AnswerFault {
    /// The service call failed with this StatusCode.
    #[error("the service failed: {code:08X}", code = .0.code)]
    Service(StatusCode),
    /// The response is of another service, or has another number of results than the request has
    /// items.
    #[error("the response is unknown")]
    Unknown,
    /// An allocation failed.
    #[error("out of memory")]
    OutOfMemory,
}

impl From<AllocError> for AnswerFault {
    ghost use Rattle.std.specs.Prelude.{◌≡◌};
    ghost use Rattle.ua_answers.specs.declared.fault.AnswerFault.TheVariants.{OutOfMemory};

    ghost from_gives = { λ _ e. e ≡ OutOfMemory };

    fn from(_: AllocError) -> AnswerFault {
        AnswerFault::OutOfMemory
    }
}
