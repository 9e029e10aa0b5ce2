//! The result of a step of a server, for C.

ghost use Rattle.std.specs.Prelude.{◌≡◌};
ghost use Rattle.ua_c.specs.Connecting.{stored_after};
ghost use Rattle.ua_c.specs.Serving.{Shows, status_report, code_of_end, status_of_end};
ghost use Rattle.ua_c.specs.Telling.{untold_in};

use crate::status::{CLOSED, ENDED, NO_MEMORY, OK, REFUSED};
use crate::untold::Untold;
use crate::waiting::Waiting;
use std::alloc::Global;
use ua_server::{End, Step, StepFault, Written};

/// A status, how many bytes were taken, and the StatusCode of a rejection.
#[derive(Clone, Copy, Debug)]
pub struct Report {
    pub status: u32,
    pub taken: usize,
    pub code: u32,
}

impl Report {
    /// Only a status: nothing was taken.
    pub(crate) fn only(status: u32) -> Report
        ensures { result ≡ status_report status }
    {
        Report {
            status,
            taken: 0,
            code: 0,
        }
    }

    /// The result of a step that took this many bytes, and ended the connection or not.
    fn from_end(taken: usize, end: Option<End>) -> Report
        ensures { result ≡ record { status = status_of_end end; taken = taken; code = code_of_end end } }
    {
        let (status, code) = match end {
            None => (OK, 0),
            Some(End::Refused(code)) => (REFUSED, code.code),
            Some(_) => (ENDED, 0),
        };
        Report {
            status,
            taken,
            code,
        }
    }

    /// The result of a step, whose output waits from now on.
    pub(crate) fn from_step(answer: Result<Step, StepFault>, waiting: &mut Waiting) -> Report
        ensures { Shows answer result waiting.old waiting.new }
    {
        match answer {
            Ok(Step { taken, out, end }) => {
                *waiting = Waiting::of(out);
                Report::from_end(taken, end)
            }
            Err(StepFault::Closed) => Report::only(CLOSED),
            Err(StepFault::OutOfMemory) => Report::only(NO_MEMORY),
        }
    }

    /// The same for a step, where the items that its Write stored are to be told from now on.
    pub(crate) fn from_stored(
        alloc: Global,
        answer: Result<Step, StepFault>,
        written: Written,
        waiting: &mut Waiting,
        left: &mut Untold,
    ) -> Report
        ensures shows { Shows answer result waiting.old waiting.new }
        ensures stored { untold_in left.new ≡ stored_after answer written (untold_in left.old) }
    {
        match answer {
            Ok(Step { taken, out, end }) => {
                *left = Untold::of(alloc, written);
                *waiting = Waiting::of(out);
                Report::from_end(taken, end)
            }
            Err(StepFault::Closed) => Report::only(CLOSED),
            Err(StepFault::OutOfMemory) => Report::only(NO_MEMORY),
        }
    }
}
