//! The loop.

ghost use Rattle.std.specs.Prelude.{◌≡◌, ◌≤◌, ◌<◌, ◌+◌, List, IfOk};
ghost use Rattle.ua_concurrent.specs.All.{last_of, places_of};
ghost use Rattle.ua_concurrent.specs.Standing.{StandTogether};
ghost use Rattle.ua_poll.specs.News.{Missed, Over};
ghost use Rattle.ua_poll.specs.Rounds.{Goes, Tells, seen_of};
ghost use Rattle.ua_poll.specs.Serving.{ServesAtOnce};
ghost use Rattle.ua_server.specs.Sharing.{SharedEvent};
ghost use Rattle.ua_server.specs.State.{State};

use crate::door::Door;
use crate::endings::{Endings, NotTaken, Retry};
use crate::leaving::Leaving;
use crate::polled_socket::PolledSocket;
use mio::event::Event;
use mio::net::{TcpListener, TcpStream};
use mio::{Events, Interest, Poll, Token};
use std::alloc::{AllocError, Global};
use std::io;
use std::io::ErrorKind;
use std::net::Net;
use std::time::{Clock, Duration};
use thiserror::Error;
use ua_concurrent::{Application, Connections, OpenFault, Readiness, Released};
use ua_frame::Limits;
use ua_server::{End, Services};

/// The most events that the system reports at once.
const MOST_EVENTS: usize = 256;

/// What is served: connections with these limits, at most this many at a time, up to the end of
/// this many.
#[derive(Clone, Copy, Debug)]
pub struct AtOnce {
    pub limits: Limits,
    /// How many connections are served at a time.
    pub places: usize,
    /// How many connections are served in all.
    pub total: u32,
}

/// Why no more is served.
#[derive(Debug, Drop, Error)]
pub enum PollFault {
    /// The system does not watch sockets.
    #[error("the system does not watch sockets")]
    Watch(io::Error),
    /// An allocation failed before any peer was accepted.
    #[error("out of memory")]
    OutOfMemory,
    /// The observer of connections wants no more.
    #[error("stopped")]
    Stopped,
    /// The system was asked 18446744073709551615 times.
    #[error("too long")]
    TooLong,
}

impl From<AllocError> for PollFault {
    fn from(_: AllocError) -> PollFault {
        PollFault::OutOfMemory
    }
}

/// What the loop has of the system.
#[derive(Drop)]
struct Watched {
    poll: Poll,
    listener: TcpListener,
    leaving: Leaving,
    door: Door,
    /// How many connections are served in all.
    total: u32,
    /// How many are over.
    over: u32,
}

/// Serves the peers of a listener, as many at once as there are places, up to the end of this many
/// connections. The listener does not block. `endings` is the application, too.
///
/// Each round accepts peers while a place is free, asks the system for events, waiting for them
/// only where no connection can go on, and gives each connection one turn.
pub fn serve_at_once<R: Net + Clock, E: Endings + Application>(
    rt: &R,
    alloc: Global,
    listener: TcpListener,
    asked: AtOnce,
    services: &mut Services,
    endings: &mut E,
) -> Result<(), PollFault>
    ensures { ServesAtOnce E.notes E.acts asked.total result (services.old, endings.old) (services.new, endings.new) }
{
    let mut connections = match Connections::new(alloc, asked.limits, asked.places) {
        Ok(connections) => connections,
        Err(_) => return Err(PollFault::OutOfMemory),
    };
    let mut events = match Events::with_capacity(alloc, MOST_EVENTS) {
        Ok(events) => events,
        Err(_) => return Err(PollFault::OutOfMemory),
    };
    let mut watched = match Watched::new(rt, alloc, listener, asked) {
        Ok(watched) => watched,
        Err(fault) => return Err(fault),
    };
    for _rounds in 0..u64::MAX {
        match watched.round(rt, &mut connections, &mut events, services, endings) {
            Ok(()) => {}
            Err(fault) => return Err(fault),
        }
        if watched.over >= watched.total {
            return Ok(());
        }
    }
    Err(PollFault::TooLong)
}

impl Watched {
    /// Watches a listener, before the first peer.
    fn new(
        net: &impl Net,
        alloc: Global,
        mut listener: TcpListener,
        asked: AtOnce,
    ) -> Result<Watched, PollFault>
        ensures { IfOk result (λ watched. (watched.total ≡ asked.total) × (watched.over ≡ 0)) }
    {
        let door = Token(asked.places);
        let first = asked.places.saturating_add(1);
        let leaving = Leaving::new(alloc, asked.places, first)?;
        let poll = Poll::new(net).map_err(PollFault::Watch)?;
        poll.registry()
            .register(&mut listener, door, Interest::READABLE)
            .map_err(PollFault::Watch)?;
        Ok(Watched {
            poll,
            listener,
            leaving,
            door: Door::Open,
            total: asked.total,
            over: 0,
        })
    }

    /// Accepts peers, asks the system for events, and gives each connection one turn; then frees
    /// the places of those that are over.
    fn round<R: Clock, E: Endings + Application>(
        &mut self,
        rt: &R,
        connections: &mut Connections<PolledSocket>,
        events: &mut Events<Global>,
        services: &mut Services,
        endings: &mut E,
    ) -> Result<(), PollFault>
        requires { self.old.over ≤ self.old.total }
        ensures goes { (es : List SharedEvent) (first : State)
            → StandTogether seen_of es first services.old (last_of connections.old) (places_of connections.old)
            → Goes E.notes E.acts es first self.old.over self.new.over endings.old (services.new, endings.new)
            (last_of connections.new) (places_of connections.new) }
        ensures within { self.new.over ≤ self.new.total }
        ensures total { self.new.total ≡ self.old.total }
    {
        if !self.take_in(rt, connections, endings) {
            return Err(PollFault::Stopped);
        }
        match self.wait(rt, connections, events) {
            Ok(()) => {}
            Err(fault) => return Err(fault),
        }
        connections.go_round(services, endings);
        if !endings.goes_on() {
            return Err(PollFault::Stopped);
        }
        self.leaving.drain();
        if self.release(connections, endings) {
            Ok(())
        } else {
            Err(PollFault::Stopped)
        }
    }

    /// Accepts peers while one waits and a place is free. Returns whether more is to be served.
    fn take_in<C: Clock, E: Endings + Application>(
        &mut self,
        clock: &C,
        connections: &mut Connections<PolledSocket>,
        endings: &mut E,
    ) -> bool
        ensures stand { (es : List SharedEvent) (first now : State)
            → StandTogether seen_of es first now (last_of connections.old) (places_of connections.old)
            → StandTogether seen_of es first now (last_of connections.new) (places_of connections.new) }
        ensures told { Tells E.notes E.acts self.old.over self.new.over endings.old endings.new }
        ensures same { (self.new.over ≡ self.old.over) × (self.new.total ≡ self.old.total) }
    {
        self.door.lift(clock);
        for _peers in 0..connections.count() {
            let Some(place) = self.place(connections) else {
                return true;
            };
            if !self.take_next(clock, connections, place, endings) {
                return false;
            }
        }
        true
    }

    /// Opens a connection to the next peer, if one waits, or reports that it is not served. Gives
    /// whether more is to be served.
    fn take_next<C: Clock, E: Endings + Application>(
        &mut self,
        clock: &C,
        connections: &mut Connections<PolledSocket>,
        place: usize,
        endings: &mut E,
    ) -> bool
        ensures stand { (es : List SharedEvent) (first now : State)
            → StandTogether seen_of es first now (last_of connections.old) (places_of connections.old)
            → StandTogether seen_of es first now (last_of connections.new) (places_of connections.new) }
        ensures told { Tells E.notes E.acts self.old.over self.new.over endings.old endings.new }
        ensures same { (self.new.over ≡ self.old.over) × (self.new.total ≡ self.old.total) }
    {
        match self.take(connections, place) {
            Ok(()) => true,
            Err(why) => self.pass_over(clock, why, endings),
        }
    }

    /// Reports a peer that is not served. Returns whether more is to be served.
    fn pass_over<C: Clock, E: Endings>(&mut self, clock: &C, why: NotTaken, endings: &mut E) -> bool
        ensures told { E.notes endings.old (Missed why) endings.new }
        ensures same { (self.new.over ≡ self.old.over) × (self.new.total ≡ self.old.total) }
    {
        match endings.not_taken(why) {
            Retry::AtOnce => true,
            Retry::Later => {
                self.door.bar(clock);
                true
            }
            Retry::Never => false,
        }
    }

    /// A place for a peer, where one may wait and is to be served.
    fn place(&self, connections: &Connections<PolledSocket>) -> Option<usize> {
        if !self.door.is_open() || connections.opened() >= self.total {
            return None;
        }
        connections.free_place()
    }

    /// Opens a connection to the next peer, if one waits.
    fn take(
        &mut self,
        connections: &mut Connections<PolledSocket>,
        place: usize,
    ) -> Result<(), NotTaken>
        ensures stand { (es : List SharedEvent) (first now : State)
            → StandTogether seen_of es first now (last_of connections.old) (places_of connections.old)
            → StandTogether seen_of es first now (last_of connections.new) (places_of connections.new) }
        ensures same { (self.new.over ≡ self.old.over) × (self.new.total ≡ self.old.total) }
    {
        match self.listener.accept() {
            Ok((stream, _)) => self.open(connections, place, stream),
            Err(error) if error.kind() == ErrorKind::WouldBlock => {
                self.door = Door::Shut;
                Ok(())
            }
            Err(error) => Err(NotTaken::System(error)),
        }
    }

    /// Opens a connection to a peer.
    fn open(
        &self,
        connections: &mut Connections<PolledSocket>,
        place: usize,
        mut stream: TcpStream,
    ) -> Result<(), NotTaken>
        ensures stand { (es : List SharedEvent) (first now : State)
            → StandTogether seen_of es first now (last_of connections.old) (places_of connections.old)
            → StandTogether seen_of es first now (last_of connections.new) (places_of connections.new) }
    {
        let both = Interest::READABLE | Interest::WRITABLE;
        let registry = self.poll.registry();
        if let Err(error) = registry.register(&mut stream, Token(place), both) {
            return Err(NotTaken::System(error));
        }
        // Where it cannot be set, answers go out later.
        let _ = stream.set_nodelay(true);
        match connections.open(place, PolledSocket::new(stream)) {
            Err(OpenFault::OutOfMemory) => Err(NotTaken::OutOfMemory),
            // The place is free, and fewer were opened than are to be served.
            _ => Ok(()),
        }
    }

    /// How long the system is asked for events: not at all, where a connection or a peer can go on.
    fn patience<C: Clock>(
        &self,
        clock: &C,
        connections: &Connections<PolledSocket>,
    ) -> Option<Duration> {
        if connections.is_ready() || self.leaving.is_ready() || self.place(connections).is_some() {
            return Some(Duration::ZERO);
        }
        self.door.rest(clock)
    }

    /// Asks the system for events, and waits for them where nothing can go on.
    fn wait<C: Clock>(
        &mut self,
        clock: &C,
        connections: &mut Connections<PolledSocket>,
        events: &mut Events<Global>,
    ) -> Result<(), PollFault>
        ensures stand { (es : List SharedEvent) (first now : State)
            → StandTogether seen_of es first now (last_of connections.old) (places_of connections.old)
            → StandTogether seen_of es first now (last_of connections.new) (places_of connections.new) }
        ensures same { (self.new.over ≡ self.old.over) × (self.new.total ≡ self.old.total) }
    {
        let patience = self.patience(clock, connections);
        match self.poll.poll(events, patience) {
            Ok(()) => {}
            Err(error) if error.kind() == ErrorKind::Interrupted => {}
            Err(error) => return Err(PollFault::Watch(error)),
        }
        for event in &*events {
            self.tell(connections, event);
        }
        Ok(())
    }

    /// Passes on to a socket what the system reports about it.
    fn tell(&mut self, connections: &mut Connections<PolledSocket>, event: &Event)
        ensures stand { (es : List SharedEvent) (first now : State)
            → StandTogether seen_of es first now (last_of connections.old) (places_of connections.old)
            → StandTogether seen_of es first now (last_of connections.new) (places_of connections.new) }
        ensures same { (self.new.over ≡ self.old.over) × (self.new.total ≡ self.old.total) }
    {
        let token = event.token().0;
        let door = connections.count();
        if token < door {
            connections.wake(token, readiness(event));
        } else if token == door {
            self.door.knock();
        } else {
            self.leaving.wake(token);
        }
    }

    /// Frees the places of connections that are over, and reports each. Returns whether more is to
    /// be served.
    fn release<E: Endings + Application>(
        &mut self,
        connections: &mut Connections<PolledSocket>,
        endings: &mut E,
    ) -> bool
        requires { self.old.over ≤ self.old.total }
        ensures stand { (es : List SharedEvent) (first now : State)
            → StandTogether seen_of es first now (last_of connections.old) (places_of connections.old)
            → StandTogether seen_of es first now (last_of connections.new) (places_of connections.new) }
        ensures told { Tells E.notes E.acts self.old.over self.new.over endings.old endings.new }
        ensures within { self.new.over ≤ self.new.total }
        ensures total { self.new.total ≡ self.old.total }
    {
        for place in 0..connections.count() {
            if self.over >= self.total {
                return true;
            }
            if !self.release_at(connections, place, endings) {
                return false;
            }
        }
        true
    }

    /// Frees a place whose connection is over, and reports it. Returns whether more is to be
    /// served.
    fn release_at<E: Endings + Application>(
        &mut self,
        connections: &mut Connections<PolledSocket>,
        place: usize,
        endings: &mut E,
    ) -> bool
        requires { self.old.over < self.old.total }
        ensures stand { (es : List SharedEvent) (first now : State)
            → StandTogether seen_of es first now (last_of connections.old) (places_of connections.old)
            → StandTogether seen_of es first now (last_of connections.new) (places_of connections.new) }
        ensures told { Tells E.notes E.acts self.old.over self.new.over endings.old endings.new }
        ensures within { self.new.over ≤ self.new.total }
        ensures total { self.new.total ≡ self.old.total }
    {
        match connections.release(place) {
            Some(released) => self.let_go(released, endings),
            None => true,
        }
    }

    /// Reports a connection that is over, and lets its peer read what was sent last. Returns
    /// whether more is to be served.
    fn let_go<E: Endings>(&mut self, released: Released<PolledSocket>, endings: &mut E) -> bool
        requires { self.old.over < self.old.total }
        ensures told { E.notes endings.old (Over released.number released.outcome) endings.new }
        ensures one { self.new.over ≡ self.old.over + 1 }
        ensures total { self.new.total ≡ self.old.total }
    {
        let Released {
            number,
            outcome,
            socket,
        } = released;
        self.over += 1;
        if let Ok(End::Closed | End::Refused(_)) = outcome {
            self.leaving.add(self.poll.registry(), socket.into_stream());
        }
        endings.ended(number, outcome)
    }
}

/// What an event reports about a socket.
fn readiness(event: &Event) -> Readiness {
    Readiness {
        readable: event.is_readable(),
        writable: event.is_writable(),
        ended: event.is_error() || event.is_read_closed() || event.is_write_closed(),
    }
}
