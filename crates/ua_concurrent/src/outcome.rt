//! The phase of a conversation, and its outcome.

ghost use Rattle.std.specs.Prelude.{◌≡◌};
ghost use Rattle.ua_concurrent.specs.Talk.{is_going};
ghost use Rattle.ua_concurrent.specs.Turning.{phase_after_step};

use thiserror::Error;
use ua_builtin::StatusCode;
use ua_server::End;

/// How far the server has come with a client's bytes.
#[derive(Clone, Copy, PartialEq, Eq, Debug)]
pub enum Phase {
    /// The connection goes on.
    Going,
    /// A CLO came. Only buffered answers are still to be written.
    Closed,
    /// The bytes were refused with this code. Only buffered answers and the ERR frame are still to
    /// be written.
    Refused(StatusCode),
    /// An allocation failed in a step, or for its answer. Only buffered answers are still to be
    /// written.
    Starved,
}

impl Phase {
    /// Whether the client's bytes are still processed.
    pub(crate) fn is_going(self) -> bool
        ensures { result ≡ is_going self }
    {
        match self {
            Phase::Going => true,
            Phase::Closed => false,
            Phase::Refused(_) => false,
            Phase::Starved => false,
        }
    }

    /// The phase after a step that ended the connection so, or not. No step ends where the input
    /// does.
    pub(crate) fn behind(end: Option<End>) -> Phase
        ensures { result ≡ phase_after_step end }
    {
        match end {
            None => Phase::Going,
            Some(End::Refused(code)) => Phase::Refused(code),
            Some(_) => Phase::Closed,
        }
    }
}

/// Why the server stops serving a connection before it ended.
#[derive(Clone, Copy, PartialEq, Eq, Debug, Error)]
pub enum Failure {
    /// The socket could not be read.
    #[error("the socket cannot be read")]
    Read,
    /// The socket could not be written.
    #[error("the socket cannot be written")]
    Write,
    /// An allocation failed.
    #[error("out of memory")]
    OutOfMemory,
}

/// A connection that is over.
#[derive(Debug, Drop)]
pub struct Released<S> {
    /// Its number.
    pub number: u32,
    /// How it ended, or why the server stopped serving it.
    pub outcome: Result<End, Failure>,
    /// Its socket.
    pub socket: S,
}
