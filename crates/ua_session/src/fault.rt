//! Faults of asking a server, and of words that ask for nothing.

use crate::fault_name::FaultName;
use std::alloc::AllocError;
use std::io;
use thiserror::Error;
use ua_answers::AnswerFault;
use ua_builtin::{NodeId, StatusCode, TextFault};
use ua_client::ClientFault;
use ua_nodes::ValueFault;

/// Why a server gave no answers, why they were not written, or why the client was not closed after
/// them.
#[derive(Clone, Copy, Debug, Error)]
pub enum QuestionFault {
    /// A service failed: the StatusCode of a ServiceFault, or of a reply that the server aborted.
    #[error("service {code:08X}", code = .0.code)]
    Service(StatusCode),
    /// A connection failed, and why.
    #[error("connection {name}", name = FaultName(*.0))]
    Connection(ClientFault),
    /// No endpoint without security has a token policy for anonymous users.
    #[error("no anonymous policy")]
    NoPolicy,
    /// Answers could not be written, and why.
    #[error("cannot write")]
    Output(io::Error),
    /// An allocation failed.
    #[error("no memory")]
    NoMemory,
}

impl From<ClientFault> for QuestionFault {
    ghost use Rattle.std.specs.Prelude.{◌≡◌};
    ghost use Rattle.ua_session.specs.Told.{of_client};

    ghost from_gives = { λ client fault. fault ≡ of_client client };

    fn from(fault: ClientFault) -> QuestionFault {
        match fault {
            ClientFault::Service(code) => QuestionFault::Service(code),
            ClientFault::OutOfMemory => QuestionFault::NoMemory,
            fault => QuestionFault::Connection(fault),
        }
    }
}

impl From<AnswerFault> for QuestionFault {
    ghost use Rattle.std.specs.Prelude.{◌≡◌};
    ghost use Rattle.ua_session.specs.Told.{of_answer};

    ghost from_gives = { λ answer fault. fault ≡ of_answer answer };

    fn from(fault: AnswerFault) -> QuestionFault {
        match fault {
            AnswerFault::Service(code) => QuestionFault::Service(code),
            AnswerFault::Unknown => QuestionFault::Connection(ClientFault::UnknownResponse),
            AnswerFault::OutOfMemory => QuestionFault::NoMemory,
        }
    }
}

impl From<AllocError> for QuestionFault {
    ghost use Rattle.std.specs.Prelude.{◌≡◌};
    ghost use Rattle.ua_session.specs.declared.fault.QuestionFault.TheVariants.{NoMemory};

    ghost from_gives = { λ _ fault. fault ≡ NoMemory };

    fn from(_: AllocError) -> QuestionFault {
        QuestionFault::NoMemory
    }
}

/// Why a session was not begun.
#[derive(Debug, Drop)]
pub struct NotBegun {
    /// The token of a session that CreateSession brought, and that stays at the server.
    pub token: Option<NodeId>,
    /// The fault that is reported.
    pub fault: QuestionFault,
}

/// Why words are refused.
#[derive(Clone, Copy, PartialEq, Eq, Debug, Error)]
pub enum WordFault {
    /// A word is not a NodeId.
    #[error("bad node")]
    BadNode,
    /// A word is not a type, or another is not a value of it.
    #[error("bad value")]
    BadValue,
    /// A word is not an index range.
    #[error("bad range")]
    BadRange,
    /// An allocation failed.
    #[error("no memory")]
    NoMemory,
}

impl From<TextFault> for WordFault {
    ghost use Rattle.std.specs.Prelude.{◌≡◌};
    ghost use Rattle.ua_session.specs.Told.{of_text};

    ghost from_gives = { λ text fault. fault ≡ of_text text };

    fn from(fault: TextFault) -> WordFault {
        match fault {
            TextFault::NotNodeId => WordFault::BadNode,
            TextFault::OutOfMemory => WordFault::NoMemory,
        }
    }
}

impl From<ValueFault> for WordFault {
    ghost use Rattle.std.specs.Prelude.{◌≡◌};
    ghost use Rattle.ua_session.specs.Told.{of_value};

    ghost from_gives = { λ value fault. fault ≡ of_value value };

    fn from(fault: ValueFault) -> WordFault {
        match fault {
            ValueFault::NotValue => WordFault::BadValue,
            ValueFault::OutOfMemory => WordFault::NoMemory,
        }
    }
}

impl From<AllocError> for WordFault {
    ghost use Rattle.std.specs.Prelude.{◌≡◌};
    ghost use Rattle.ua_session.specs.declared.fault.WordFault.TheVariants.{NoMemory};

    ghost from_gives = { λ _ fault. fault ≡ NoMemory };

    fn from(_: AllocError) -> WordFault {
        WordFault::NoMemory
    }
}
