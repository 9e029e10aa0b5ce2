//! A transport over memory.

ghost use Rattle.std.specs.Prelude.{◌≡◌, ◌≤◌, ◌<◌, [], Some, Option, length, drop, min, IfOk, Ok};
ghost use Rattle.ua_channel.specs.Line.{HandsOut, WriteTakes, failures_after};
ghost use Rattle.ua_channel.specs.MemoryLine.{Pace as Calls, Memory, moves, after_call, traffic_of_stored};

use crate::line::{Line, LineFault};
use std::alloc::Global;
use std::marker::Model;

/// The calls of one direction: the maximum that each moves, and which of them fails.
#[derive(Debug, Drop)]
struct Pace {
    limits: Vec<usize>,
    fails: Option<usize>,
}

impl Model for Pace {
    ghost Value = { Calls };

    ghost view = { λ p. record { limits = p.limits.items; fails = p.fails } };
}

impl Pace {
    /// How many of so many bytes the next call moves, unless it fails.
    fn step(&mut self, octets: usize) -> Result<usize, LineFault>
        ensures moves { result ≡ moves self.old octets }
        ensures behind { self.new ≡ after_call self.old }
    {
        let count = match self.limits.first() {
            Some(most) => octets.min((*most).max(1)),
            None => octets,
        };
        if !self.limits.is_empty() {
            self.limits.rotate_left(1);
        }
        if self.fails == Some(1) {
            self.fails = None;
            return Err(LineFault::Failed);
        }
        self.fails = match self.fails {
            Some(n) => Some(n.saturating_sub(1)),
            None => None,
        };
        Ok(count)
    }
}

/// A transport over memory, for tests: it delivers given bytes and keeps those written, in
/// fragments of given lengths, and fails where it is told to.
#[derive(Debug)]
pub struct MemoryLine {
    octets: Vec<u8>,
    read: usize,
    written: Vec<u8>,
    failures: u64,
    reads: Pace,
    writes: Pace,
}

// By hand, so that a function that lets a line go calls this, and proves nothing of what lies in
// it.
impl Drop for MemoryLine {
    fn drop(self) {
        let MemoryLine {
            octets,
            read: _,
            written,
            failures: _,
            reads,
            writes,
        } = self;
        drop(octets);
        drop(written);
        drop(reads);
        drop(writes);
    }
}

impl Model for MemoryLine {
    ghost Value = { Memory };

    ghost view = { λ l. record {
      traffic = record { coming = drop l.read l.octets.items; written = l.written.items };
      failures = l.failures;
      reads = l.reads;
      writes = l.writes;
    } };

    ghost invariant = { λ l. l.read ≤ length l.octets.items };
}

impl MemoryLine {
    /// A transport from which these bytes come, in this order, and then the end.
    ///
    /// `reads` and `writes` are the maximum numbers of bytes of each read and each write, used in
    /// turn and again from the first; 0 counts as 1, and an empty list sets no limit. The read and
    /// the write whose numbers `fail_read` and `fail_write` give, counted from 1, fail once.
    pub fn new(
        alloc: Global,
        octets: Vec<u8>,
        reads: Vec<usize>,
        writes: Vec<usize>,
        fail_read: Option<usize>,
        fail_write: Option<usize>,
    ) -> MemoryLine
        ensures traffic { result.traffic ≡ record { coming = octets.items; written = [] } }
        ensures failures { result.failures ≡ 0 }
        ensures reads { result.reads ≡ record { limits = reads.items; fails = fail_read } }
        ensures writes { result.writes ≡ record { limits = writes.items; fails = fail_write } }
    {
        MemoryLine {
            octets,
            read: 0,
            written: Vec::new(alloc),
            failures: 0,
            reads: Pace {
                limits: reads,
                fails: fail_read,
            },
            writes: Pace {
                limits: writes,
                fails: fail_write,
            },
        }
    }

    /// The bytes written so far.
    pub fn written(&self) -> &[u8]
        ensures { result.now ≡ self.now.traffic.written }
    {
        &self.written
    }
}

impl Line for MemoryLine {
    ghost traffic = { λ l. Some (traffic_of_stored l.traffic) };

    ghost failures = { λ l. l.failures };

    fn read(&mut self, buffer: &mut [u8]) -> Result<usize, LineFault>
        ensures within { IfOk result (λ n. n ≤ length buffer.new) }
        ensures failed { self.new.failures ≡ failures_after self.old.failures result }
        ensures octets { HandsOut result buffer.new (traffic_of_stored self.old.traffic)
            (traffic_of_stored self.new.traffic) }
        ensures paced { result ≡ moves self.old.reads (min (length self.old.traffic.coming) (length buffer.old)) }
        ensures reads { self.new.reads ≡ after_call self.old.reads }
        ensures writes { self.new.writes ≡ self.old.writes }
    {
        let left = self.octets.len() - self.read;
        match self.reads.step(left.min(buffer.len())) {
            Ok(n) => {
                buffer[..n].copy_from_slice(&self.octets[self.read..self.read + n]);
                self.read += n;
                Ok(n)
            }
            Err(_) => {
                self.failures = self.failures.wrapping_add(1);
                Err(LineFault::Failed)
            }
        }
    }

    /// A write fails where it is told to, and where an allocation fails, as it may at each call.
    fn write(&mut self, octets: &[u8]) -> Result<usize, LineFault>
        ensures within { IfOk result (λ n. n ≤ length octets.now) }
        ensures some { 0 < length octets.now → IfOk result (λ n. 0 < n) }
        ensures failed { self.new.failures ≡ failures_after self.old.failures result }
        ensures octets { WriteTakes result octets.now (traffic_of_stored self.old.traffic)
            (traffic_of_stored self.new.traffic) }
        ensures paced { IfOk result (λ n. Ok n ≡ moves self.old.writes (length octets.now)) }
        ensures writes { self.new.writes ≡ after_call self.old.writes }
        ensures reads { self.new.reads ≡ self.old.reads }
    {
        let Ok(n) = self.writes.step(octets.len()) else {
            self.failures = self.failures.wrapping_add(1);
            return Err(LineFault::Failed);
        };
        match self.written.extend_from_slice(&octets[..n]) {
            Ok(()) => Ok(n),
            Err(_) => {
                self.failures = self.failures.wrapping_add(1);
                Err(LineFault::Failed)
            }
        }
    }
}
