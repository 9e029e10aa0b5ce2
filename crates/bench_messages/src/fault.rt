//! Why the work stopped.

use std::alloc::AllocError;
use thiserror::Error;
use ua_builtin::{ReadFault, WriteFault};

/// Why the work stopped.
#[derive(Clone, Copy, PartialEq, Eq, Debug, Error)]
pub enum Fault {
    #[error("WORK FILE TIMES")]
    Words,
    #[error("cannot read the file")]
    File,
    #[error("the file does not hold one value")]
    Value,
    #[error("out of memory")]
    Memory,
}

impl From<AllocError> for Fault {
    fn from(_: AllocError) -> Fault {
        Fault::Memory
    }
}

impl From<ReadFault> for Fault {
    fn from(fault: ReadFault) -> Fault {
        match fault {
            ReadFault::NoValue => Fault::Value,
            ReadFault::OutOfMemory => Fault::Memory,
        }
    }
}

impl From<WriteFault> for Fault {
    fn from(fault: WriteFault) -> Fault {
        match fault {
            WriteFault::NotWritable => Fault::Value,
            WriteFault::OutOfMemory => Fault::Memory,
        }
    }
}
