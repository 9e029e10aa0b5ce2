//! Why a command ends with status 1.

use crate::loop_fault::LoopFault;
use std::alloc::AllocError;
use thiserror::Error;
use ua_nodes::LineReason;
use ua_session::{QuestionFault, WordFault};

/// Why a command stopped; its text stands after `ua: ` on standard error.
#[derive(Clone, Copy, Debug, Error)]
pub enum Fault<'a> {
    /// This file cannot be read, or is not UTF-8 where it has to be.
    #[error("cannot read {0}")]
    CannotRead(&'a str),
    /// This file has something else than pairs of hexadecimal digits.
    #[error("{0} is not hexadecimal")]
    NotHexadecimal(&'a str),
    /// The first invalid line of a node file, and the first reason against it.
    #[error("line {line}: {reason}")]
    Line { line: usize, reason: LineReason },
    /// The first invalid line of a node file that is followed, and the first reason against it.
    #[error("nodes line {line}: {reason}")]
    NodesLine { line: usize, reason: LineReason },
    /// The program cannot listen on a port, or the port gives no connection.
    #[error("cannot listen")]
    CannotListen,
    /// A port accepts no connection.
    #[error("cannot connect")]
    CannotConnect,
    /// The output cannot be written.
    #[error("cannot write")]
    CannotWrite,
    /// The file of sent bytes of the record with this name cannot be written.
    #[error("cannot write {0}.up")]
    CannotWriteUp(&'a str),
    /// The file of received bytes of the record with this name cannot be written.
    #[error("cannot write {0}.down")]
    CannotWriteDown(&'a str),
    /// Words ask for nothing, and why.
    #[error("{0}")]
    Words(WordFault),
    /// A server gave no answers, and why.
    #[error("{0}")]
    Asking(QuestionFault),
    /// A script is not run, or its output is incomplete, and why.
    #[error("{0}")]
    Looping(LoopFault),
    /// An allocation failed.
    #[error("no memory")]
    NoMemory,
}

impl From<AllocError> for Fault<'_> {
    ghost use Rattle.std.specs.Prelude.{◌≡◌};
    ghost use Rattle.ua_report.specs.declared.fault.Fault.TheVariants.{NoMemory};

    ghost from_gives = { λ _ fault. fault ≡ NoMemory };

    fn from(_: AllocError) -> Self {
        Fault::NoMemory
    }
}
