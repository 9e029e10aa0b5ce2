//! Serving a transport.

ghost use Rattle.std.specs.Prelude.{◌≡◌, ◌<◌, ℕ, List, [], IfOk, length};
ghost use Rattle.ua_server.specs.Happening.{WasTold};
ghost use Rattle.ua_server.specs.Serving.{Serves, ServesTelling, LineFailed};
ghost use Rattle.ua_server.specs.ServingOver.{ServesApplication};
ghost use Rattle.ua_server.specs.ServingParts.{AreLentStill, most_at_once};
ghost use Rattle.ua_server.specs.State.{begun};

use crate::application::{Application, NoApplication};
use crate::serve_fault::ServeFault;
use crate::serve_terms::ServeTerms;
use crate::server::Server;
use crate::services::Services;
use crate::step::{Advanced, End, Step, StepFault};
use crate::surroundings::Surroundings;
use crate::watch::{Unwatched, Watch, tell};
use crate::written::Written;
use std::alloc::{AllocError, Global};
use ua_builtin::DateTime;
use ua_channel::{Line, Moments, Taken, write_whole};
use ua_frame::Limits;

/// The most bytes that are read at once.
const PIECE: usize = 4096;

/// Serves the client at the other end of a transport until its connection ends: reads at most 4096
/// bytes at a time, answers what they ask in order, and writes each answer whole, by as many calls
/// as the transport needs.
///
/// The services begin without a session. A timestamp is asked for before bytes are looked at,
/// unless the last one is not used yet; each OPN response and each reply uses one.
pub fn serve<L: Line, M: Moments>(
    alloc: Global,
    line: &mut L,
    services: &mut Services,
    limits: Limits,
    channel_id: u32,
    moments: &mut M,
) -> Result<End, ServeFault>
    ensures serves { Serves limits channel_id M.gives (begun services.old) moments.old result services.new moments.new
        (L.traffic line.old) (L.traffic line.new) }
    ensures failed { LineFailed (L.failures line.old) result (L.failures line.new) }
{
    let terms = ServeTerms {
        alloc,
        limits,
        channel_id,
    };
    serve_watched(line, services, terms, moments, &mut Unwatched)
}

/// Does what [`serve`] does, and tells `watch` of each request that is answered, in order. No
/// clause says when that happens relative to the writes. A message that the client gives up is not
/// answered.
pub(crate) fn serve_watched<L: Line, M: Moments, W: Watch>(
    line: &mut L,
    services: &mut Services,
    terms: ServeTerms,
    moments: &mut M,
    watch: &mut W,
) -> Result<End, ServeFault>
    ensures serves { ServesTelling terms.limits terms.channel_id M.gives W.notes (begun services.old)
        (moments.old, watch.old)
        result services.new (moments.new, watch.new) (L.traffic line.old) (L.traffic line.new) }
    ensures told { WasTold W.notes watch.old watch.new }
    ensures failed { LineFailed (L.failures line.old) result (L.failures line.new) }
{
    serve_application(line, services, terms, moments, watch, &mut NoApplication)
}

/// Does what [`serve_watched`] does, beside an application: before each step of the server it may
/// change the nodes and see what clients wrote. What is written is the output for the events of the
/// connection, changes and steps in order.
pub fn serve_application<L: Line, M: Moments, W: Watch, A: Application>(
    line: &mut L,
    services: &mut Services,
    terms: ServeTerms,
    moments: &mut M,
    watch: &mut W,
    application: &mut A,
) -> Result<End, ServeFault>
    ensures serves { ServesApplication terms.limits terms.channel_id M.gives W.notes A.changes
        (begun services.old, application.old) (moments.old, watch.old) result (services.new, application.new)
        (moments.new, watch.new) (L.traffic line.old) (L.traffic line.new) }
    ensures told { WasTold W.notes watch.old watch.new }
    ensures failed { LineFailed (L.failures line.old) result (L.failures line.new) }
{
    let mut around = Surroundings {
        moments,
        watch,
        application,
    };
    serve_around(line, services, terms, &mut around)
}

/// Serves a connection from its beginning, with these surroundings.
fn serve_around<L: Line, M: Moments, W: Watch, A: Application>(
    line: &mut L,
    services: &mut Services,
    terms: ServeTerms,
    around: &mut Surroundings<M, W, A>,
) -> Result<End, ServeFault>
    ensures serves { ServesApplication terms.limits terms.channel_id M.gives W.notes A.changes
        (begun services.old, around.old.application.now) (around.old.moments.now, around.old.watch.now) result
        (services.new, around.new.application.now) (around.new.moments.now, around.new.watch.now)
        (L.traffic line.old) (L.traffic line.new) }
    ensures told { WasTold W.notes around.old.watch.now around.new.watch.now }
    ensures lent { AreLentStill around.old around.new }
    ensures failed { LineFailed (L.failures line.old) result (L.failures line.new) }
{
    services.begin();
    let mut serving = Serving::new(terms);
    match piece(terms.alloc) {
        Ok(mut buffer) => serving.run(line, services, around, &mut buffer),
        Err(_) => Err(ServeFault::OutOfMemory),
    }
}

/// A buffer for the bytes that are read at once.
fn piece(alloc: Global) -> Result<Vec<u8>, AllocError>
    ensures { IfOk result (λ buffer. length buffer.items ≡ most_at_once) }
{
    let mut buffer = Vec::new(alloc);
    buffer.resize(PIECE, 0)?;
    Ok(buffer)
}

/// A connection that is served, as far as it has come.
#[derive(Debug, Drop)]
pub struct Serving {
    server: Server,
    /// The timestamp that was asked for and is not used yet.
    moment: Option<DateTime>,
    /// Whether the ACK was made: each answer after it uses a timestamp.
    greeted: bool,
    /// How many bytes were written, up to the greatest number.
    written: u64,
}

impl Serving {
    ghost use Rattle.std.specs.Prelude.{◌≡◌, ◌<◌, ◌≤◌, ◌++◌, ◌∷◌, ℕ, ℤ, List, []};
    ghost use Rattle.std.specs.Prelude.{map, IfOk, length, Bool, cond, None, Some};
    ghost use Rattle.ua_builtin.specs.declared.date_time.DateTime.{DateTime};
    ghost use Rattle.ua_channel.specs.Line.{IfTrafficKnown};
    ghost use Rattle.ua_channel.specs.Received.{listed};
    ghost use Rattle.ua_channel.specs.ServerStands.{WhateverCame};
    ghost use Rattle.ua_frame.specs.declared.limits.Limits.{Limits};
    ghost use Rattle.ua_server.specs.Served.{channel_in};
    ghost use Rattle.ua_server.specs.Happening.{Event, Happens, WasTold};
    ghost use Rattle.ua_server.specs.Serving.{moment_of, MovesTraffic, LineFailed};
    ghost use Rattle.ua_server.specs.ServingOver.{ServesApplication};
    ghost use Rattle.ua_server.specs.ServingParts.{AreLentStill, Asked, BeginsServing, Exchanged, Finishes, Handles};
    ghost use Rattle.ua_server.specs.ServingParts.{OwesNothing, OfEventsBetween, WritesCounted, Steps, Turns, noted};
    ghost use Rattle.ua_server.specs.Stepping.{StepTakes};
    ghost use Rattle.ua_server.specs.State.{State};

    /// Before the first byte of a client.
    fn new(terms: ServeTerms) -> Serving
        ensures { BeginsServing result terms.limits terms.channel_id }
    {
        Serving {
            server: Server::new(terms.alloc, terms.limits, terms.channel_id),
            moment: None,
            greeted: false,
            written: 0,
        }
    }

    /// How a connection ends whose input ends.
    fn finish(&self) -> End
        ensures { WhateverCame (channel_in self.now.server) (λ octets frames rest. Finishes result frames rest) }
    {
        if self.server.is_clean() {
            End::NoClose
        } else {
            End::Cut
        }
    }

    /// The timestamp that is kept, or else the next one, which is kept then.
    fn moment<M: Moments>(&mut self, moments: &mut M) -> DateTime
        ensures asked { Asked M.gives moments.old moments.new (λ ticks. listed self.old.moment ++ map moment_of ticks
            ≡ result ∷ []) }
        ensures kept { self.new ≡ record self.old { moment = Some result } }
    {
        match self.moment {
            Some(moment) => moment,
            None => {
                let moment = DateTime {
                    ticks: moments.next(),
                };
                self.moment = Some(moment);
                moment
            }
        }
    }

    /// One step of the server, before which the application acts. A timestamp that it used is kept
    /// no longer, and `watch` is told of the request that it answered.
    fn step<M: Moments, W: Watch, A: Application>(
        &mut self,
        services: &mut Services,
        around: &mut Surroundings<M, W, A>,
        piece: &[u8],
    ) -> Result<Step, StepFault>
        requires { 0 < length piece.now }
        ensures steps { (limits : Limits) (channel : ℕ) (first : State × A) (read written : List ℕ) (given : List Event)
            → OwesNothing A.changes self.old limits channel first read written given
            (services.old, around.old.application.now)
            → OfEventsBetween (Happens M.gives W.notes) (around.old.moments.now, around.old.watch.now)
            (around.new.moments.now, around.new.watch.now)
            (λ events. Steps A.changes result self.new limits channel first piece.now read written (given ++ events)
            (services.new, around.new.application.now)) }
        ensures told { WasTold W.notes around.old.watch.now around.new.watch.now }
        ensures lent { AreLentStill around.old around.new }
        ensures progress { IfOk result (λ step. StepTakes piece.now step) }
    {
        around.application.act(services);
        let moment = self.moment(around.moments);
        let mut unasked = Written::nothing();
        let Advanced {
            step,
            answered,
            request,
        } = match self.server.advance(services, piece, moment, &mut unasked) {
            Ok(found) => found,
            Err(fault) => return Err(fault),
        };
        if !answered {
            return Ok(step);
        }
        self.note_answer();
        tell(around.watch, request);
        Ok(step)
    }

    /// An answer was made. Those after the ACK use the timestamp that is kept.
    fn note_answer(&mut self)
        ensures { self.new ≡ noted self.old }
    {
        if self.greeted {
            self.moment = None;
        } else {
            self.greeted = true;
        }
    }

    /// Writes bytes whole, and counts them.
    fn say<L: Line>(&mut self, line: &mut L, octets: &[u8]) -> Result<(), ServeFault>
        ensures says { WritesCounted octets.now result self.old self.new (L.traffic line.old) (L.traffic line.new) }
        ensures failed { LineFailed (L.failures line.old) result (L.failures line.new) }
    {
        match write_whole(line, octets) {
            Ok(()) => {
                self.written = self.written.saturating_add(octets.len() as u64);
                Ok(())
            }
            Err(n) => Err(ServeFault::Write(self.written.saturating_add(n as u64))),
        }
    }

    /// One step of the server, and its answer. The outcome is how the connection ended, if it did.
    fn turn<L: Line, M: Moments, W: Watch, A: Application>(
        &mut self,
        line: &mut L,
        services: &mut Services,
        around: &mut Surroundings<M, W, A>,
        piece: &[u8],
    ) -> Result<Taken<Option<End>>, ServeFault>
        requires { 0 < length piece.now }
        ensures turns { (limits : Limits) (channel : ℕ) (first : State × A) (read written : List ℕ) (given : List Event)
            → OwesNothing A.changes self.old limits channel first read written given
            (services.old, around.old.application.now)
            → Exchanged (Happens M.gives W.notes) (around.old.moments.now, around.old.watch.now)
            (around.new.moments.now, around.new.watch.now) []
            (L.traffic line.old) (L.traffic line.new)
            (λ more events. Turns A.changes result self.new limits channel first piece.now read (written ++ more)
            (given ++ events) (services.new, around.new.application.now)) }
        ensures told { WasTold W.notes around.old.watch.now around.new.watch.now }
        ensures lent { AreLentStill around.old around.new }
        ensures progress { IfOk result (λ turn. (turn.size ≤ length piece.now)
            × (turn.outcome ≡ None → 0 < length piece.now → 0 < turn.size)) }
        ensures failed { LineFailed (L.failures line.old) result (L.failures line.new) }
    {
        let step = match self.step(services, around, piece) {
            Ok(step) => step,
            Err(_) => return Err(ServeFault::OutOfMemory),
        };
        match self.say(line, &step.out) {
            Ok(()) => Ok(Taken {
                size: step.taken,
                outcome: step.end,
            }),
            Err(fault) => Err(fault),
        }
    }

    /// Answers a fragment, up to its end or to that of the connection.
    fn handle<L: Line, M: Moments, W: Watch, A: Application>(
        &mut self,
        line: &mut L,
        services: &mut Services,
        around: &mut Surroundings<M, W, A>,
        piece: &[u8],
    ) -> Result<Option<End>, ServeFault>
        ensures handles { (limits : Limits) (channel : ℕ) (first : State × A) (read written : List ℕ)
            (given : List Event) → OwesNothing A.changes self.old limits channel first read written given
            (services.old, around.old.application.now)
            → Exchanged (Happens M.gives W.notes) (around.old.moments.now, around.old.watch.now)
            (around.new.moments.now, around.new.watch.now) []
            (L.traffic line.old) (L.traffic line.new)
            (λ more events. Handles A.changes result self.new limits channel first (read ++ piece.now) (written ++ more)
            (given ++ events) (services.new, around.new.application.now)) }
        ensures told { WasTold W.notes around.old.watch.now around.new.watch.now }
        ensures lent { AreLentStill around.old around.new }
        ensures failed { LineFailed (L.failures line.old) result (L.failures line.new) }
    {
        let mut taken = 0;
        while taken < piece.len() {
            let turn = match self.turn(line, services, around, &piece[taken..]) {
                Ok(turn) => turn,
                Err(fault) => return Err(fault),
            };
            match turn.outcome {
                Some(end) => return Ok(Some(end)),
                None => taken += turn.size,
            }
        }
        Ok(None)
    }

    /// Reads the transport into this buffer again and again, and answers what it reads.
    fn run<L: Line, M: Moments, W: Watch, A: Application>(
        &mut self,
        line: &mut L,
        services: &mut Services,
        around: &mut Surroundings<M, W, A>,
        buffer: &mut [u8],
    ) -> Result<End, ServeFault>
        requires { 0 < length buffer.old }
        ensures serves { (limits : Limits) (channel : ℕ) (first : State × A)
            → OwesNothing A.changes self.old limits channel first [] [] [] (services.old, around.old.application.now)
            → ServesApplication limits channel M.gives W.notes A.changes first
            (around.old.moments.now, around.old.watch.now) result
            (services.new, around.new.application.now) (around.new.moments.now, around.new.watch.now)
            (L.traffic line.old) (L.traffic line.new) }
        ensures told { WasTold W.notes around.old.watch.now around.new.watch.now }
        ensures lent { AreLentStill around.old around.new }
        ensures failed { LineFailed (L.failures line.old) result (L.failures line.new) }
    {
        for _reads in 0..u64::MAX {
            let n = match line.read(buffer) {
                Ok(n) => n,
                Err(_) => return Err(ServeFault::Read),
            };
            if n == 0 {
                return Ok(self.finish());
            }
            match self.handle(line, services, around, &buffer[..n]) {
                Ok(None) => {}
                Ok(Some(end)) => return Ok(end),
                Err(fault) => return Err(fault),
            }
        }
        Err(ServeFault::TooLong)
    }
}
