//! The result of a step of a server.

ghost use Rattle.std.specs.Prelude.{◌≡◌, [], None};

use crate::watch::AnsweredRequest;
use std::alloc::Global;
use thiserror::Error;
use ua_builtin::StatusCode;

/// How a connection ends.
#[derive(Clone, Copy, PartialEq, Eq, Debug)]
pub enum End {
    /// A CLO came.
    Closed,
    /// The input ended, with no frame and no message unfinished.
    NoClose,
    /// The input ended within a frame or a message.
    Cut,
    /// The bytes were refused with this code, and the ERR frame was written.
    Refused(StatusCode),
}

/// The result of taking a fragment.
#[derive(Debug, Drop)]
pub struct Step {
    /// How many bytes of the fragment were taken.
    pub taken: usize,
    /// The bytes to be sent.
    pub out: Vec<u8>,
    /// How the connection ended, if it did.
    pub end: Option<End>,
}

impl Step {
    /// A step that sends nothing.
    pub(crate) fn silent(alloc: Global, taken: usize, end: Option<End>) -> Step
        ensures taken { result.taken ≡ taken }
        ensures out { result.out.items ≡ [] }
        ensures end { result.end ≡ end }
    {
        Step {
            taken,
            out: Vec::new(alloc),
            end,
        }
    }

    /// A step that sends these bytes, after which the connection goes on.
    pub(crate) fn saying(taken: usize, out: Vec<u8>) -> Step
        ensures { result ≡ record { taken = taken; out = out; end = None } }
    {
        Step {
            taken,
            out,
            end: None,
        }
    }
}

/// A step, and what it answered.
#[derive(Debug, Drop)]
pub(crate) struct Advanced {
    pub step: Step,
    /// Whether something was answered.
    pub answered: bool,
    /// Which request that was, if it was one.
    pub request: Option<AnsweredRequest>,
}

/// The answer to a message, and the request that it answers.
#[derive(Debug, Drop)]
pub(crate) struct AnsweredMessage {
    /// The bytes to be sent.
    pub out: Vec<u8>,
    /// The answered request.
    pub request: AnsweredRequest,
}

/// Why a server takes no bytes. After that it takes nothing more.
#[derive(Clone, Copy, PartialEq, Eq, Debug, Error)]
pub enum StepFault {
    /// The connection ended, or an earlier call failed.
    #[error("closed")]
    Closed,
    /// An allocation failed.
    #[error("out of memory")]
    OutOfMemory,
}
