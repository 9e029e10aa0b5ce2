//! Why a row has no value for an answer.

use std::alloc::{AllocError, AllocFailed};
use ua_builtin::{ReadFault, TextFault, WriteFault};
use ua_nodes::ValueFault;

#[derive(Clone, Copy)]
pub enum Fault {
    /// The line is of another kind.
    OtherKind,
    /// The line is no row.
    NoRow,
    /// The bytes, or the text, are no value.
    NoValue,
    Memory,
}

impl Fault {
    pub fn text(self) -> &'static str {
        match self {
            Fault::OtherKind | Fault::NoRow => "no row",
            Fault::NoValue => "none",
            Fault::Memory => "out of memory",
        }
    }
}

impl From<AllocError> for Fault {
    fn from(_: AllocError) -> Fault {
        Fault::Memory
    }
}

impl<T: Drop> From<AllocFailed<T>> for Fault {
    fn from(_: AllocFailed<T>) -> Fault {
        Fault::Memory
    }
}

impl From<ReadFault> for Fault {
    fn from(fault: ReadFault) -> Fault {
        match fault {
            ReadFault::NoValue => Fault::NoValue,
            ReadFault::OutOfMemory => Fault::Memory,
        }
    }
}

impl From<WriteFault> for Fault {
    fn from(fault: WriteFault) -> Fault {
        match fault {
            WriteFault::NotWritable => Fault::NoValue,
            WriteFault::OutOfMemory => Fault::Memory,
        }
    }
}

impl From<TextFault> for Fault {
    fn from(fault: TextFault) -> Fault {
        match fault {
            TextFault::NotNodeId => Fault::NoValue,
            TextFault::OutOfMemory => Fault::Memory,
        }
    }
}

impl From<ValueFault> for Fault {
    fn from(fault: ValueFault) -> Fault {
        match fault {
            ValueFault::NotValue => Fault::NoValue,
            ValueFault::OutOfMemory => Fault::Memory,
        }
    }
}
