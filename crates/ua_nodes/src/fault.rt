//! The reasons why texts and readings are rejected.

ghost use Rattle.std.specs.Prelude.{◌≡◌};

use std::alloc::{AllocError, AllocFailed};
use thiserror::Error;
use ua_builtin::TextFault;

/// The reason why a text gave no value.
#[derive(Clone, Copy, PartialEq, Eq, Debug, Error)]
pub enum ValueFault {
    /// The text denotes no value of the type.
    #[error("the text is no value of the type")]
    NotValue,
    /// An allocation failed.
    #[error("out of memory")]
    OutOfMemory,
}

impl From<AllocError> for ValueFault {
    ghost use Rattle.ua_nodes.specs.declared.fault.ValueFault.TheVariants.{OutOfMemory};

    ghost from_gives = { λ _ e. e ≡ OutOfMemory };

    fn from(_: AllocError) -> ValueFault {
        ValueFault::OutOfMemory
    }
}

impl<T: Drop> From<AllocFailed<T>> for ValueFault {
    ghost use Rattle.ua_nodes.specs.declared.fault.ValueFault.TheVariants.{OutOfMemory};

    ghost from_gives = { λ _ e. e ≡ OutOfMemory };

    fn from(_: AllocFailed<T>) -> ValueFault {
        ValueFault::OutOfMemory
    }
}

/// The reason why a node was not inserted. The table is unchanged.
#[derive(Clone, Copy, PartialEq, Eq, Debug, Error)]
pub enum InsertFault {
    /// The table has a node with this NodeId.
    #[error("there is a node of that id")]
    Duplicate,
    /// An allocation failed.
    #[error("out of memory")]
    OutOfMemory,
}

impl<T: Drop> From<AllocFailed<T>> for InsertFault {
    ghost use Rattle.ua_nodes.specs.declared.fault.InsertFault.TheVariants.{OutOfMemory};

    ghost from_gives = { λ _ e. e ≡ OutOfMemory };

    fn from(_: AllocFailed<T>) -> InsertFault {
        InsertFault::OutOfMemory
    }
}

/// The reason why a reading was not set. The table is unchanged.
#[derive(Clone, Copy, PartialEq, Eq, Debug, Error)]
pub enum SetFault {
    /// The table has no node with this NodeId.
    #[error("there is no node of that id")]
    Unknown,
    /// The value is not of the node's type, or is an array with dimensions.
    #[error("the value is none of the node's type")]
    Mismatch,
    /// The value cannot be encoded in a DataValue: its nesting depth is too great, or a part of it
    /// cannot be encoded.
    #[error("the value cannot be written")]
    NotWritable,
}

/// The reason why a line of a node file is no node: the first of these that holds.
#[derive(Clone, Copy, PartialEq, Eq, Debug, Error)]
pub enum LineReason {
    /// The line has not exactly five fields.
    #[error("Fields")]
    Fields,
    /// The first field is no NodeId.
    #[error("Node")]
    Node,
    /// The second field is none of `r`, `w`, `rw` and `-`.
    #[error("Access")]
    Access,
    /// The third field is empty.
    #[error("Name")]
    Name,
    /// The fourth field is no type.
    #[error("Kind")]
    Kind,
    /// The fifth field denotes no value of the type.
    #[error("Value")]
    Value,
    /// An earlier line has a node with this NodeId.
    #[error("Duplicate")]
    Duplicate,
}

/// The reason why a node file was not loaded.
#[derive(Clone, Copy, PartialEq, Eq, Debug, Error)]
pub enum LoadFault {
    /// The first bad line, counted from 1, and the first reason why it is bad.
    #[error("line {line}: {reason}")]
    Line { line: usize, reason: LineReason },
    /// An allocation failed.
    #[error("out of memory")]
    OutOfMemory,
}

/// Why a line gave no node.
#[derive(Clone, Copy, PartialEq, Eq, Debug)]
pub(crate) enum LineFault {
    Bad(LineReason),
    NoMemory,
}

impl LineFault {
    ghost use Rattle.ua_nodes.specs.LineFault.{load_fault};

    /// The same of the line of a number.
    pub(crate) fn at(self, line: usize) -> LoadFault
        ensures { result ≡ load_fault line self }
    {
        match self {
            LineFault::Bad(reason) => LoadFault::Line { line, reason },
            LineFault::NoMemory => LoadFault::OutOfMemory,
        }
    }
}

impl From<LineReason> for LineFault {
    ghost use Rattle.ua_nodes.specs.declared.fault.LineFault.TheVariants.{Bad};

    ghost from_gives = { λ r e. e ≡ Bad r };

    fn from(reason: LineReason) -> LineFault {
        LineFault::Bad(reason)
    }
}

impl From<TextFault> for LineFault {
    ghost use Rattle.ua_nodes.specs.LineFault.{id_fault};

    ghost from_gives = { λ t e. e ≡ id_fault t };

    fn from(fault: TextFault) -> LineFault {
        match fault {
            TextFault::NotNodeId => LineFault::Bad(LineReason::Node),
            TextFault::OutOfMemory => LineFault::NoMemory,
        }
    }
}

impl From<ValueFault> for LineFault {
    ghost use Rattle.ua_nodes.specs.LineFault.{value_fault};

    ghost from_gives = { λ v e. e ≡ value_fault v };

    fn from(fault: ValueFault) -> LineFault {
        match fault {
            ValueFault::NotValue => LineFault::Bad(LineReason::Value),
            ValueFault::OutOfMemory => LineFault::NoMemory,
        }
    }
}

impl From<InsertFault> for LineFault {
    ghost use Rattle.ua_nodes.specs.LineFault.{insert_fault};

    ghost from_gives = { λ i e. e ≡ insert_fault i };

    fn from(fault: InsertFault) -> LineFault {
        match fault {
            InsertFault::Duplicate => LineFault::Bad(LineReason::Duplicate),
            InsertFault::OutOfMemory => LineFault::NoMemory,
        }
    }
}

impl From<AllocError> for LineFault {
    ghost use Rattle.ua_nodes.specs.declared.fault.LineFault.TheVariants.{NoMemory};

    ghost from_gives = { λ _ e. e ≡ NoMemory };

    fn from(_: AllocError) -> LineFault {
        LineFault::NoMemory
    }
}
