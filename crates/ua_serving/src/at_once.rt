//! `ua serve --at-once`: serves connections on a port of this machine, many at a time.

ghost use Rattle.std.specs.Prelude.{◌≡◌, ◌⊎◌, IfErr, IsOk, MatchResult, None, OnOk, Some, false};
ghost use Rattle.ua_serving.specs.AtOnce.{HasServedAtOnce, HasServedSomeAtOnce, IsUnwritten, SaysEnd};
ghost use Rattle.ua_serving.specs.AtOnce.{SaysStored, StopsAtHalt, halt_of, outcome_of, writes_of};
ghost use Rattle.ua_serving.specs.Live.{LooksAt};
ghost use Rattle.ua_report.specs.Reasons.{StopsWriting};

use crate::live::{LiveFile, follow};
use crate::serve::{is_of_connection, limits_for, outcome_line, say_listening, write_no_memory};
use crate::setup::Setup;
use crate::stored::{LOST_LINE, stored_lines};
use crate::time_keeper::set_current_time;
use mio::net::TcpListener;
use std::alloc::Global;
use std::io;
use std::io::Write;
use std::net::{Ipv4Addr, Net, SocketAddr};
use std::rt::Files;
use std::time::Clock;
use ua_builtin::DateTime;
use ua_channel::Moments;
use ua_concurrent::{Application, Failure};
use ua_poll::{AtOnce, Endings, NotTaken, PollFault, Retry, serve_at_once};
use ua_report::{Fault, Stop, Telling, cannot_listen, write_text};
use ua_server::{End, ServeFault, Services, Step, Written};
use ua_tcp::ClockMoments;
use ua_words::Serve;

/// Why no further connection is served.
#[derive(Clone, Copy)]
enum Halt {
    /// An allocation failed, where the server does not go on then.
    Memory,
    /// What is printed cannot be written, and why.
    Output(io::Error),
    /// The system gives no connection, and why, where the server does not go on then.
    Listener(io::Error),
}

/// What the program does beside the connections that it serves: it follows the node file, keeps
/// CurrentTime, and prints the line of each item that a client's Write stored, before the response,
/// and of each connection as it ends. It prints none after that failed.
#[derive(Drop)]
struct Host<'r, 'a, 'o, 'e, R, O, E> {
    moments: ClockMoments<'r, R>,
    /// Whether the server keeps CurrentTime.
    keeps_time: bool,
    /// The node file, if it is followed.
    live: Option<LiveFile<'r, 'a, R>>,
    /// Whether stored values are printed in the human-readable form, if they are printed.
    writes: Option<bool>,
    telling: Telling,
    /// Whether neither a failed allocation nor an error of the listener ends the server.
    goes_on: bool,
    out: &'o mut O,
    err: &'e mut E,
    /// Why no further connection is served, if so.
    halt: Option<Halt>,
}

impl<'r, 'a, 'o, 'e, R: Files + Clock + AllocGlobal, O: Write, E: Write> Application
    for Host<'r, 'a, 'o, 'e, R, O, E> {
    ghost use Rattle.ua_serving.specs.AtOnce.{ActsBeside};

    ghost acts = { ActsBeside O.contents };

    fn before_step(&mut self, services: &mut Services) -> DateTime {
        look(&mut self.live, services, self.telling, self.err);
        let moment = DateTime {
            ticks: self.moments.next(),
        };
        if self.keeps_time {
            set_current_time(services, moment);
        }
        moment
    }

    fn after_step(&mut self, number: u32, services: &Services, step: &Step, written: &Written) {
        if let (None, Some(plain)) = (self.halt, self.writes) {
            self.halt = say_stored(self.telling.alloc, written, plain, self.goes_on, self.out);
        }
    }
}

impl<'r, 'a, 'o, 'e, R, O: Write, E: Write> Endings for Host<'r, 'a, 'o, 'e, R, O, E> {
    ghost use Rattle.ua_serving.specs.AtOnce.{PrintsNews};

    ghost notes = { PrintsNews O.contents };

    fn ended(&mut self, number: u32, outcome: Result<End, Failure>) -> bool {
        let outcome = served(outcome);
        match self.halt {
            None => {
                self.halt = say_end(self.telling.alloc, number, outcome, self.goes_on, self.out)
            }
            Some(_) => {}
        }
        self.halt.is_none()
    }

    fn goes_on(&self) -> bool {
        self.halt.is_none()
    }

    fn not_taken(&mut self, why: NotTaken) -> Retry {
        match self.halt {
            None if self.goes_on => pass_over(self.telling, why, self.err),
            None => {
                self.halt = Some(halt_of(why));
                Retry::Never
            }
            Some(_) => Retry::Never,
        }
    }
}

/// Looks at a node file, if one is followed, and reports why it does not load or is gone.
fn look<'r, 'a, R: Files + Clock + AllocGlobal, E: Write>(
    live: &mut Option<LiveFile<'r, 'a, R>>,
    services: &mut Services,
    telling: Telling,
    err: &mut E,
)
    ensures looked { LooksAt live.old services.old live.new services.new }
    ensures quiet { telling.aloud ≡ false → err.new ≡ err.old }
{
    if let Some(file) = live
        && let Some(stop) = follow(file, services)
    {
        telling.tell_on(&stop, err);
    }
}

/// Prints the lines of what a Write stored, together, and none where nothing was. Where the server
/// goes on, one line tells of those for which an allocation failed.
fn say_stored<O: Write>(
    alloc: Global,
    written: &Written,
    plain: bool,
    goes_on: bool,
    out: &mut O,
) -> Option<Halt>
    ensures { SaysStored (Some plain) goes_on written.now result (O.contents out.old) (O.contents out.new) }
{
    match stored_lines(alloc, written, plain) {
        Ok(text) if text.is_empty() => None,
        Ok(text) => unwritten(write_text(out, &text)),
        Err(_) if goes_on => unwritten(write_text(out, LOST_LINE)),
        Err(_) => Some(Halt::Memory),
    }
}

/// The outcome of a connection, as of one that was served alone.
fn served(outcome: Result<End, Failure>) -> Result<End, ServeFault>
    ensures { result ≡ outcome_of outcome }
{
    match outcome {
        Ok(end) => Ok(end),
        Err(Failure::Read) => Err(ServeFault::Read),
        Err(Failure::Write) => Err(ServeFault::Write(0)),
        Err(Failure::OutOfMemory) => Err(ServeFault::OutOfMemory),
    }
}

/// Prints the line of a connection that ended. Where the server goes on, one at which an allocation
/// failed has its line, too.
fn say_end<O: Write>(
    alloc: Global,
    number: u32,
    outcome: Result<End, ServeFault>,
    goes_on: bool,
    out: &mut O,
) -> Option<Halt>
    ensures { SaysEnd goes_on number outcome result (O.contents out.old) (O.contents out.new) }
{
    match outcome_line(alloc, number, outcome) {
        Ok(text) => unwritten(write_text(out, &text)),
        Err(_) if goes_on => unwritten(write_no_memory(number, out)),
        Err(_) => Some(Halt::Memory),
    }
}

/// Why no further connection is served, where a line could not be written.
fn unwritten(written: io::Result<()>) -> Option<Halt>
    ensures { MatchResult written (λ _. result ≡ None) (λ _. IsUnwritten result) }
{
    match written {
        Ok(()) => None,
        Err(error) => Some(Halt::Output(error)),
    }
}

/// Why no further connection is served where this one cannot be.
fn halt_of(why: NotTaken) -> Halt
    ensures { result ≡ halt_of why }
{
    match why {
        NotTaken::System(error) => Halt::Listener(error),
        NotTaken::OutOfMemory => Halt::Memory,
    }
}

/// Passes over a peer that cannot be served, where the server goes on. An error of the system is
/// reported, and the next peer accepted later; after any other reason, it is accepted at once.
fn pass_over<E: Write>(telling: Telling, why: NotTaken, err: &mut E) -> Retry
    ensures quiet { telling.aloud ≡ false → err.new ≡ err.old }
{
    match why {
        NotTaken::System(error) if is_of_connection(&error) => Retry::AtOnce,
        NotTaken::System(error) => {
            telling.tell_on(&cannot_listen(error), err);
            Retry::Later
        }
        NotTaken::OutOfMemory => {
            telling.tell_on(&Stop::Fault(Fault::NoMemory), err);
            Retry::AtOnce
        }
    }
}

/// The result of the command, by why no further connection is served, and by how the loop ended.
fn ended<'a>(halt: Option<Halt>, served: Result<(), PollFault>) -> Result<(), Stop<'a>>
    ensures done { OnOk result ((halt ≡ None) × IsOk served) }
    ensures stopped { IfErr result (StopsAtHalt halt) }
{
    match halt {
        None => match served {
            Ok(()) => Ok(()),
            Err(fault) => Err(stop_of(fault)),
        },
        Some(Halt::Output(error)) => Err(Stop::Output(error)),
        Some(Halt::Listener(error)) => Err(cannot_listen(error)),
        Some(Halt::Memory) => Err(Stop::Fault(Fault::NoMemory)),
    }
}

/// Why the command stops where the loop did.
fn stop_of<'a>(fault: PollFault) -> Stop<'a> {
    match fault {
        PollFault::Watch(error) => cannot_listen(error),
        PollFault::TooLong => Stop::Fault(Fault::CannotListen),
        // Stopped is told of a halt alone, though no clause says so.
        PollFault::OutOfMemory | PollFault::Stopped => Stop::Fault(Fault::NoMemory),
    }
}

/// Accepts connections on a port of this machine from now on, without waiting for one.
fn listen<'a, R: Net>(rt: &R, port: u16) -> Result<TcpListener, Stop<'a>> {
    match TcpListener::bind(rt, SocketAddr::from((Ipv4Addr::LOCALHOST, port))) {
        Ok(listener) => Ok(listener),
        Err(error) => Err(cannot_listen(error)),
    }
}

/// What is served many at a time: services, and the node file that they follow, if they follow it.
#[derive(Drop)]
pub struct Plant<'r, 'a, R> {
    pub services: Services,
    pub live: Option<LiveFile<'r, 'a, R>>,
    /// The most connections that are served at a time.
    pub places: u16,
}

/// Whether stored values are printed in the human-readable form, if they are printed.
fn writes_of(asked: &Serve<'_>) -> Option<bool>
    ensures { result ≡ writes_of asked.now }
{
    if asked.writes {
        Some(asked.plain)
    } else {
        None
    }
}

/// Drops a node file that is followed no longer.
fn let_go<'r, 'a, R>(live: Option<LiveFile<'r, 'a, R>>) {
    drop(live);
}

/// Serves this many connections on a port of this machine, numbered from 1, at most so many at a
/// time, and prints the outcome of each as it ends, and with `writes` what clients' Writes store.
pub(crate) fn serve_places<'r, 'a, R: Files + Net + Clock + AllocGlobal, O: Write, E: Write>(
    rt: &'r R,
    plant: &mut Plant<'r, 'a, R>,
    setup: &Setup<'a>,
    out: &mut O,
    err: &mut E,
) -> Result<(), Stop<'a>>
    ensures served { OnOk result (HasServedAtOnce (writes_of setup.now.asked) setup.now.asked.goes_on
        setup.now.asked.port setup.now.asked.connections (O.contents out.old) (O.contents out.new)) }
    ensures stopped { IfErr result (λ stop. StopsWriting stop ⊎ (out.new ≡ out.old)
        ⊎ HasServedSomeAtOnce (writes_of setup.now.asked) setup.now.asked.goes_on setup.now.asked.port
        setup.now.asked.connections (O.contents out.old) (O.contents out.new)) }
    ensures quiet { setup.now.telling.aloud ≡ false → err.new ≡ err.old }
{
    let asked = &setup.asked;
    let listener = listen(rt, asked.port)?;
    say_listening(rt.alloc(), asked.port, out)?;
    let live = plant.live.take();
    let mut host = Host {
        moments: ClockMoments::new(rt),
        keeps_time: asked.standard,
        live,
        writes: writes_of(asked),
        telling: setup.telling,
        goes_on: asked.goes_on,
        out,
        err,
        halt: None,
    };
    let wanted = AtOnce {
        limits: limits_for(asked.answers),
        places: usize::from(plant.places),
        total: asked.connections,
    };
    let served = serve_at_once(
        rt,
        rt.alloc(),
        listener,
        wanted,
        &mut plant.services,
        &mut host,
    );
    let Host {
        moments: _,
        keeps_time: _,
        live,
        writes: _,
        telling: _,
        goes_on: _,
        out,
        err,
        halt,
    } = host;
    let_go(live);
    // No effect at run time. The proof reads what the writers hold from this use of them.
    let _ = &*out;
    let _ = &*err;
    ended(halt, served)
}
