//! A transport to a server in the same process.

ghost use Rattle.std.specs.Prelude.{◌≡◌, ◌++◌, ◌<◌, ◌≤◌, [], None, Some, IfOk, IfSome, OnErr, length, take};
ghost use Rattle.ua_channel.specs.Line.{HandsOut, WriteTakes, failures_after};
ghost use Rattle.ua_loopback.specs.Beginning.{Beginning, beginning_of, no_server};
ghost use Rattle.ua_loopback.specs.Kept.{EndsAtStage, IsOver, Keeps, LeavesAtStage, Served, BreaksAtWrite, traffic_of};
ghost use Rattle.ua_loopback.specs.Says.{server_output};
ghost use Rattle.ua_loopback.specs.declared.stage.Stage.TheVariants.{Going};

use crate::answer_clock::AnswerClock;
use crate::cuts::Cuts;
use crate::fragments::Fragments;
use crate::server_setup::ServerSetup;
use crate::stage::Stage;
use std::alloc::{AllocError, Global};
use std::marker::{Brand, Model, PhantomData};
use ua_channel::{Line, LineFault};
use ua_server::{Server, Services};

/// The beginning of the server behind a transport. A function over a transport to a server takes it
/// as a parameter, so that each transport of that type is known to lead to that server, also after
/// calls of a client over it.
pub trait Began {
    /// The server's limits, its SecureChannelId, its services, and the timestamps of its answers.
    ghost beginning: { Beginning };
}

impl Began for Brand {
    ghost beginning = { no_server };
}

/// Adds bytes to both vectors, or to neither.
fn add_both(
    up: &mut Vec<u8>,
    more_up: &[u8],
    down: &mut Vec<u8>,
    more_down: &[u8],
) -> Result<(), AllocError>
    ensures up { IfOk result (λ done. up.new.items ≡ up.old.items ++ more_up.now) }
    ensures down { IfOk result (λ done. down.new.items ≡ down.old.items ++ more_down.now) }
    ensures same_up { OnErr result (up.new.items ≡ up.old.items) }
    ensures same_down { OnErr result (down.new.items ≡ down.old.items) }
{
    let before = up.len();
    up.extend_from_slice(more_up)?;
    match down.extend_from_slice(more_down) {
        Ok(()) => Ok(()),
        Err(refused) => {
            up.truncate(before);
            Err(refused)
        }
    }
}

/// A transport whose other end is a server over its services. The server takes what is written to
/// it, in fragments of at most the lengths given, and what is read from it is the server's output,
/// in fragments too. The answers of the server have the timestamps of its setup, in order.
///
/// A write fails once the connection ended at the server. Where a write fails before that, the
/// transport is broken from then on.
#[derive(Debug, Drop)]
pub struct ServedLine<W: Began> {
    server: Server,
    services: Services,
    clock: AnswerClock,
    up: Vec<u8>,
    down: Vec<u8>,
    read: usize,
    stage: Stage,
    failures: u64,
    writes: Cuts,
    reads: Cuts,
    began: PhantomData<W>,
}

impl<W: Began> Model for ServedLine<W> {
    ghost use Rattle.std.specs.Coded.{codes};
    ghost use Rattle.ua_nodes.specs.contracts.node.NodeValue as value;
    ghost use Rattle.std.specs.Prelude.{◌<◌};
    ghost use Rattle.ua_loopback.specs.Kept.{IsOver, Keeps, Served};
    ghost use Rattle.ua_loopback.specs.Times.{times_of};

    ghost Value = { Served };

    ghost coded = { Prim.hlevel (codes, value.the_row.coded) };

    ghost view = { λ l. record {
      up = l.up.items;
      down = l.down.items;
      read = l.read;
      services = l.services;
      stage = l.stage;
      failures = l.failures;
    } };

    ghost invariant = { λ l. Keeps W.beginning l.server l.services (times_of l.clock) l.up.items l.down.items l.read
        l.stage × (0 < l.failures → IsOver l.stage) };
}

impl<W: Began> ServedLine<W> {
    /// A transport to a server that waits for a client, in fragments of at most these lengths.
    pub fn new(alloc: Global, server: ServerSetup, fragments: Fragments) -> ServedLine<W>
        requires { W.beginning ≡ beginning_of server }
        ensures { result
            ≡ record { up = []; down = []; read = 0; services = server.services; stage = Going; failures = 0 } }
    {
        ServedLine {
            server: Server::new(alloc, server.limits, server.channel_id),
            services: server.services,
            clock: AnswerClock::new(server.moment, server.later),
            up: Vec::new(alloc),
            down: Vec::new(alloc),
            read: 0,
            stage: Stage::Going,
            failures: 0,
            writes: Cuts::new(fragments.writes),
            reads: Cuts::new(fragments.reads),
            began: PhantomData,
        }
    }

    /// The bytes written so far.
    pub fn up(&self) -> &[u8]
        ensures { result.now ≡ self.now.up }
    {
        &self.up
    }

    /// The server's output so far, read or not.
    pub fn down(&self) -> &[u8]
        ensures value { result.now ≡ self.now.down }
        ensures said { result.now ≡ server_output W.beginning self.now.up }
    {
        &self.down
    }

    /// The state of the connection.
    pub fn stage(&self) -> Stage
        ensures is { result ≡ self.now.stage }
        // After a failed call the connection is over.
        ensures over { 0 < self.now.failures → IsOver result }
    {
        self.stage
    }

    /// The bytes written, the server's output, and its services.
    pub fn into_parts(self) -> (Vec<u8>, Vec<u8>, Services)
        ensures up { result.0.items ≡ self.up }
        ensures down { result.1.items ≡ server_output W.beginning self.up }
        ensures services { LeavesAtStage self.stage W.beginning self.up result.2 }
        ensures ends { EndsAtStage self.stage W.beginning self.up }
    {
        let ServedLine {
            services,
            up,
            down,
            ..
        } = self;
        (up, down, services)
    }

    /// Lets the server take bytes up to the end of the first frame that is answered, else all of
    /// them, and keeps its output. Returns how many it took; `None` where it takes nothing more.
    fn take(&mut self, piece: &[u8]) -> Option<usize>
        ensures within { IfSome result (λ n. n ≤ length piece.now) }
        ensures some { 0 < length piece.now → IfSome result (λ n. 0 < n) }
        ensures up { IfSome result (λ n. self.new.up ≡ self.old.up ++ take n piece.now) }
        ensures same { result ≡ None → self.new.up ≡ self.old.up }
        ensures stops { result ≡ None → BreaksAtWrite self.old.stage self.new.stage }
        ensures read { self.new.read ≡ self.old.read }
        ensures failures { self.new.failures ≡ self.old.failures }
    {
        if self.stage != Stage::Going {
            return None;
        }
        let moment = self.clock.moment();
        let step = match self.server.step(&mut self.services, piece, moment) {
            Ok(step) => step,
            Err(_) => {
                self.stage = Stage::Broken;
                return None;
            }
        };
        let taken = step.taken;
        let Ok(()) = add_both(&mut self.up, &piece[..taken], &mut self.down, &step.out) else {
            self.stage = Stage::Broken;
            return None;
        };
        match step.end {
            Some(end) => self.stage = Stage::Ended(end),
            None => self.clock.note(&step.out),
        }
        Some(taken)
    }
}

impl<W: Began> Line for ServedLine<W> {
    ghost traffic = { λ l. Some (traffic_of W.beginning l) };

    ghost failures = { λ l. l.failures };

    /// Never fails.
    fn read(&mut self, buffer: &mut [u8]) -> Result<usize, LineFault>
        ensures within { IfOk result (λ n. n ≤ length buffer.new) }
        ensures failed { self.new.failures ≡ failures_after self.old.failures result }
        ensures octets { HandsOut result buffer.new (traffic_of W.beginning self.old)
            (traffic_of W.beginning self.new) }
        ensures never { OnErr result ⊥ }
        ensures stage { self.new.stage ≡ self.old.stage }
    {
        let left = self.down.len() - self.read;
        let n = self.reads.front(left.min(buffer.len()));
        buffer[..n].copy_from_slice(&self.down[self.read..self.read + n]);
        self.read += n;
        Ok(n)
    }

    /// Fails only where the connection was over before, which it then stays, or where this write
    /// breaks the transport.
    fn write(&mut self, octets: &[u8]) -> Result<usize, LineFault>
        ensures within { IfOk result (λ n. n ≤ length octets.now) }
        ensures some { 0 < length octets.now → IfOk result (λ n. 0 < n) }
        ensures failed { self.new.failures ≡ failures_after self.old.failures result }
        ensures octets { WriteTakes result octets.now (traffic_of W.beginning self.old)
            (traffic_of W.beginning self.new) }
        ensures stops { OnErr result (BreaksAtWrite self.old.stage self.new.stage) }
    {
        if octets.is_empty() {
            return Ok(0);
        }
        let count = self.writes.front(octets.len());
        match self.take(&octets[..count]) {
            Some(n) => Ok(n),
            None => {
                self.failures = self.failures.wrapping_add(1);
                Err(LineFault::Failed)
            }
        }
    }
}
