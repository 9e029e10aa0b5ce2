//! What `ua ask` asks for, one task after the other.

use crate::ask::read_question;
use crate::blame::blame_read;
use crate::line_task::{LineTask, parse_task};
use std::alloc::{AllocError, Global};
use std::io;
use std::io::BufRead;
use ua_report::{LoopFault, Stop, exact_form};
use ua_words::Rounds;

/// Why there is no next task.
#[derive(Debug, Drop)]
pub enum TaskFault {
    /// The lines cannot be read, and why.
    Read(io::Error),
    /// The line with this number asks for nothing; and its text.
    Line(usize, String),
    /// An allocation failed.
    NoMemory,
}

/// The tasks of a session.
pub trait Tasks {
    /// The next task; `None` after the last one.
    fn next_task(&mut self) -> Result<Option<LineTask>, TaskFault>;
}

/// The lines of a script, read as they come.
#[derive(Drop)]
pub struct Lines<I> {
    alloc: Global,
    /// Whether people write decimals and times in it.
    plain: bool,
    source: I,
    /// The number of the last line.
    number: usize,
}

impl<I: BufRead> Lines<I> {
    /// The lines of a source, of which none was read.
    pub fn new(alloc: Global, plain: bool, source: I) -> Lines<I> {
        Lines {
            alloc,
            plain,
            source,
            number: 0,
        }
    }

    /// The next line with its end, in its exact form; `None` at the end of the source.
    fn next_line(&mut self) -> Result<Option<String>, TaskFault> {
        let mut line = String::new(self.alloc);
        match self.source.read_line(&mut line) {
            Ok(0) => return Ok(None),
            Ok(_) => self.number = self.number.saturating_add(1),
            Err(error) => return Err(TaskFault::Read(error)),
        }
        match exact_form(self.alloc, line, self.plain) {
            Ok(line) => Ok(Some(line)),
            Err(AllocError) => Err(TaskFault::NoMemory),
        }
    }
}

impl<I: BufRead> Tasks for Lines<I> {
    fn next_task(&mut self) -> Result<Option<LineTask>, TaskFault> {
        let Some(line) = self.next_line()? else {
            return Ok(None);
        };
        match parse_task(self.alloc, &line) {
            Ok(task) => Ok(Some(task)),
            Err(LoopFault::ScriptLine(_)) => Err(TaskFault::Line(self.number, line)),
            Err(_) => Err(TaskFault::NoMemory),
        }
    }
}

/// Reads of the same nodes, with a pause between two of them.
#[derive(Drop)]
pub struct Repeated<'a, 'r> {
    alloc: Global,
    rounds: &'r Rounds<'a>,
    /// How many reads are to come; no number where there is no limit.
    left: Option<u16>,
    /// Whether the last task was a read, and a pause comes before the next one.
    pauses: bool,
}

impl<'a, 'r> Repeated<'a, 'r> {
    /// The reads of these words, of which none was done. Where a word names no node, that is told.
    pub fn new(alloc: Global, rounds: &'r Rounds<'a>) -> Result<Repeated<'a, 'r>, Stop<'a>> {
        match read_question(alloc, &rounds.nodes) {
            Ok(question) => drop(question),
            Err(fault) => return Err(blame_read(alloc, &rounds.nodes, fault)),
        }
        Ok(Repeated {
            alloc,
            rounds,
            left: rounds.count,
            pauses: false,
        })
    }
}

impl<'a, 'r> Tasks for Repeated<'a, 'r> {
    fn next_task(&mut self) -> Result<Option<LineTask>, TaskFault> {
        if self.left == Some(0) {
            return Ok(None);
        }
        self.pauses = !self.pauses;
        if !self.pauses {
            return Ok(Some(LineTask::Sleep(self.rounds.every)));
        }
        self.left = self.left.map(|left| left.saturating_sub(1));
        match read_question(self.alloc, &self.rounds.nodes) {
            Ok(question) => Ok(Some(LineTask::Ask(question))),
            // The words name nodes, as was seen before.
            Err(_) => Err(TaskFault::NoMemory),
        }
    }
}
