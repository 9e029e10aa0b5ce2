//! The conversation of one client.

ghost use Rattle.std.specs.Prelude.{◌≡◌, ◌<◌, ◌≤◌, true, List, [], length, drop, IfOk, None};
ghost use Rattle.ua_server.specs.Sharing.{SharedEvent, opened, shared_over, told_by};
ghost use Rattle.ua_server.specs.State.{State};
ghost use Rattle.ua_concurrent.specs.Acts.{own_id};
ghost use Rattle.ua_concurrent.specs.Standing.{IsFreshSocket, TalkStands, Went};
ghost use Rattle.ua_concurrent.specs.Talk.{is_ready, released};
ghost use Rattle.ua_concurrent.specs.Turning.{SteppedAndWrote, FinishesTalk, HadTurn, Turned, IsTalkIdle};
ghost use Rattle.ua_concurrent.specs.Turning.{KeepsStep, ReadsSocket, Stepped, WokeTalk, WritesSocket};
ghost use Rattle.ua_concurrent.specs.declared.outcome.Phase.TheVariants as phase;

use crate::application::Application;
use crate::outcome::{Failure, Phase, Released};
use crate::socket::{Readiness, Socket, Stop};
use std::alloc::{AllocError, Global};
use std::marker::Model;
use ua_frame::Limits;
use ua_server::laws::{events_are_answered_in_parts, one_of_several_connections_stands_by_itself};
use ua_server::{Connection, End, Services, Step, Written};

/// The most bytes that are read at once.
const PIECE: usize = 4096;

/// No further step is taken once this many bytes wait to be written.
const MOST_GATHERED: usize = 16384;

/// A client's connection, its socket, and what is buffered between two turns: bytes that were read
/// and not stepped yet, and answers that are not written yet.
#[derive(Debug, Drop)]
pub struct Conversation<S> {
    alloc: Global,
    number: u32,
    socket: S,
    connection: Connection,
    phase: Phase,
    outcome: Option<Result<End, Failure>>,
    /// What was read last: this many bytes of the fragment, of which this many are stepped.
    piece: Vec<u8>,
    filled: usize,
    stepped: usize,
    /// What was answered and is not written whole, of which this many bytes are written.
    out: Vec<u8>,
    sent: usize,
}

impl<S> Model for Conversation<S> {
    ghost use Rattle.std.specs.Prelude.{◌≡◌, ◌≤◌, take, drop, length};
    ghost use Rattle.ua_concurrent.specs.Talk.{Talk};

    ghost Value = { Talk S };

    ghost view = { λ c. record {
      number = c.number;
      socket = c.socket;
      connection = c.connection;
      phase = c.phase;
      outcome = c.outcome;
      unread = drop c.stepped (take c.filled c.piece.items);
      waiting = drop c.sent c.out.items;
    } };

    ghost invariant = { λ c. (c.stepped ≤ c.filled) × (c.filled ≤ length c.piece.items) × (length c.piece.items ≡ 4096)
        × (c.sent ≤ length c.out.items) };
}

impl<S: Socket> Conversation<S> {
    /// Before the first byte. The SecureChannelId is the connection's number.
    pub fn new(
        alloc: Global,
        limits: Limits,
        number: u32,
        socket: S,
    ) -> Result<Conversation<S>, AllocError>
        ensures number { IfOk result (λ t. t.number ≡ number) }
        ensures begins { IfOk result (λ t. (t.socket ≡ socket) × (t.outcome ≡ None) × IsTalkIdle t) }
        ensures stands { (es : List SharedEvent) (first now : State) → told_by number es ≡ []
            → (shared_over own_id (opened first) es).state ≡ now → IsFreshSocket (S.seen socket)
            → IfOk result (λ t. TalkStands S.seen es first now t) }
    {
        let piece = Vec::from_elem(alloc, 0u8, PIECE)?;
        Ok(Conversation {
            alloc,
            number,
            socket,
            connection: Connection::new(alloc, limits, number),
            phase: Phase::Going,
            outcome: None,
            piece,
            filled: 0,
            stepped: 0,
            out: Vec::new(alloc),
            sent: 0,
        })
    }

    /// What was read and is not stepped yet.
    fn unread(&self) -> &[u8]
        ensures { result.now ≡ self.now.unread }
    {
        &self.piece[..self.filled][self.stepped..]
    }

    /// What was answered and is not written yet.
    fn waiting(&self) -> &[u8]
        ensures { result.now ≡ self.now.waiting }
    {
        &self.out[self.sent..]
    }

    /// Whether a turn would do anything.
    pub fn is_ready(&self) -> bool
        ensures { result ≡ is_ready S.seen self.now }
    {
        if self.outcome.is_some() {
            false
        } else if !self.waiting().is_empty() {
            self.socket.is_writable()
        } else if self.phase.is_going() && self.unread().is_empty() {
            self.socket.is_readable()
        } else {
            true
        }
    }

    /// How the connection ended, once it is over.
    pub fn outcome(&self) -> Option<Result<End, Failure>>
        ensures { result ≡ self.now.outcome }
    {
        self.outcome
    }

    /// Passes on what the system reports about the socket.
    pub fn wake(&mut self, readiness: Readiness)
        ensures { WokeTalk S.seen readiness self.old self.new }
    {
        self.socket.wake(readiness);
    }

    /// How the connection ended, and its socket, once it is over.
    pub fn release(self) -> Option<Released<S>>
        ensures { result ≡ released self }
    {
        let Conversation {
            number,
            socket,
            outcome,
            ..
        } = self;
        match outcome {
            Some(outcome) => Some(Released {
                number,
                outcome,
                socket,
            }),
            None => None,
        }
    }

    /// One turn: writes what waits. Where nothing waits, it reads, unless bytes are still to be
    /// stepped, steps them, and writes the answers. While an answer waits, nothing is read.
    pub fn turn<A: Application>(&mut self, services: &mut Services, application: &mut A)
        ensures turn { HadTurn S.seen self.old self.new }
        ensures went { (es : List SharedEvent) (first : State) → (shared_over own_id (opened first) es).state
            ≡ services.old → (stood : TalkStands S.seen es first services.old self.old)
            → Went S.seen A.acts es first (services.old, application.old) (services.new, application.new)
            stood.octets self.new }
    {
        if !self.is_ready() {
            return;
        }
        if !self.waiting().is_empty() {
            self.write_on();
            return;
        }
        match self.phase {
            Phase::Going => self.go_on(services, application),
            Phase::Closed => self.outcome = Some(Ok(End::Closed)),
            Phase::Refused(code) => self.outcome = Some(Ok(End::Refused(code))),
            Phase::Starved => self.outcome = Some(Err(Failure::OutOfMemory)),
        }
    }

    /// Steps what is unread and writes the answers, or reads first where all is stepped.
    fn go_on<A: Application>(&mut self, services: &mut Services, application: &mut A)
        requires going { self.old.phase ≡ phase.Going }
        requires still { self.old.outcome ≡ None }
        requires none { self.old.waiting ≡ [] }
        ensures turned { Turned S.seen self.old self.new }
        ensures went { (es : List SharedEvent) (first : State) → (shared_over own_id (opened first) es).state
            ≡ services.old → (stood : TalkStands S.seen es first services.old self.old)
            → Went S.seen A.acts es first (services.old, application.old) (services.new, application.new)
            stood.octets self.new }
    {
        if self.unread().is_empty() {
            self.read_and_answer(services, application);
        } else {
            self.answer(services, application);
        }
    }

    /// Reads, steps what was read, and writes the answers.
    fn read_and_answer<A: Application>(&mut self, services: &mut Services, application: &mut A)
        requires going { self.old.phase ≡ phase.Going }
        requires still { self.old.outcome ≡ None }
        requires none { (self.old.unread ≡ []) × (self.old.waiting ≡ []) }
        ensures turned { Turned S.seen self.old self.new }
        ensures went { (es : List SharedEvent) (first : State) → (shared_over own_id (opened first) es).state
            ≡ services.old → (stood : TalkStands S.seen es first services.old self.old)
            → Went S.seen A.acts es first (services.old, application.old) (services.new, application.new)
            stood.octets self.new }
    {
        self.read_on();
        if !self.unread().is_empty() {
            self.answer(services, application);
        }
    }

    /// Steps what is unread, and writes the answers.
    fn answer<A: Application>(&mut self, services: &mut Services, application: &mut A)
        requires going { self.old.phase ≡ phase.Going }
        requires still { self.old.outcome ≡ None }
        requires some { 0 < length self.old.unread }
        ensures answered { SteppedAndWrote S.seen self.old self.new }
        ensures went { (es : List SharedEvent) (first : State)
            → (stood : TalkStands S.seen es first services.old self.old)
            → Went S.seen A.acts es first (services.old, application.old) (services.new, application.new)
            stood.octets self.new }
    {
        self.step_on(services, application);
        if !self.waiting().is_empty() {
            self.write_on();
        }
    }

    /// Writes what waits, as far as the socket takes it at once.
    fn write_on(&mut self)
        requires some { 0 < length self.old.waiting }
        ensures writes { WritesSocket S.seen self.old self.new }
    {
        match self.socket.write(&self.out[self.sent..]) {
            Ok(count) => self.wrote(count),
            Err(Stop::Blocked) => {}
            Err(Stop::Failed) => self.outcome = Some(Err(Failure::Write)),
        }
    }

    /// This many of the waiting bytes are written. Once all are, their memory is freed.
    fn wrote(&mut self, count: usize)
        requires { count ≤ length self.old.waiting }
        ensures { self.new ≡ record self.old { waiting = drop count self.old.waiting } }
    {
        self.sent += count;
        if self.sent == self.out.len() {
            self.out = Vec::new(self.alloc);
            self.sent = 0;
        }
    }

    /// Reads a fragment, where all bytes before it are stepped.
    fn read_on(&mut self)
        requires { self.old.unread ≡ [] }
        ensures reads { ReadsSocket S.seen self.old self.new }
    {
        self.filled = 0;
        self.stepped = 0;
        match self.socket.read(&mut self.piece) {
            Ok(0) => self.outcome = Some(Ok(self.finish())),
            Ok(count) => self.filled = count,
            Err(Stop::Blocked) => {}
            Err(Stop::Failed) => self.outcome = Some(Err(Failure::Read)),
        }
    }

    /// How a connection ends whose input ends.
    fn finish(&self) -> End
        ensures { FinishesTalk result self.now }
    {
        if self.connection.is_clean() {
            End::NoClose
        } else {
            End::Cut
        }
    }

    /// Whether a further step is taken.
    fn can_step(&self) -> bool
        ensures { result ≡ true → (self.now.phase ≡ phase.Going) × (0 < length self.now.unread) }
    {
        self.phase.is_going() && !self.unread().is_empty() && self.waiting().len() < MOST_GATHERED
    }

    /// Steps what is unread, up to where enough is answered.
    fn step_on<A: Application>(&mut self, services: &mut Services, application: &mut A)
        requires going { self.old.phase ≡ phase.Going }
        requires some { 0 < length self.old.unread }
        ensures stepped { Stepped self.old self.new }
        ensures went { (es : List SharedEvent) (first : State)
            → (stood : TalkStands S.seen es first services.old self.old)
            → Went S.seen A.acts es first (services.old, application.old) (services.new, application.new)
            stood.octets self.new }
    {
        self.step(services, application);
        for _ in 0..PIECE {
            if !self.can_step() {
                break;
            }
            self.step(services, application);
        }
    }

    /// One step of the connection over what is unread.
    fn step<A: Application>(&mut self, services: &mut Services, application: &mut A)
        requires going { self.old.phase ≡ phase.Going }
        requires some { 0 < length self.old.unread }
        ensures stepped { Stepped self.old self.new }
        ensures went { (es : List SharedEvent) (first : State)
            → (stood : TalkStands S.seen es first services.old self.old)
            → Went S.seen A.acts es first (services.old, application.old) (services.new, application.new)
            stood.octets self.new }
    {
        events_are_answered_in_parts();
        one_of_several_connections_stands_by_itself();
        let moment = application.before_step(services);
        let piece = &self.piece[..self.filled][self.stepped..];
        let mut written = Written::nothing();
        match self
            .connection
            .step_telling(services, piece, moment, &mut written)
        {
            Ok(step) => {
                application.after_step(self.number, services, &step, &written);
                self.keep(step);
            }
            Err(_) => self.phase = Phase::Starved,
        }
    }

    /// Keeps the result of a step: its answer waits after those that wait already.
    fn keep(&mut self, step: Step)
        requires { step.taken ≤ length self.old.unread }
        ensures { KeepsStep step self.old self.new }
    {
        self.stepped += step.taken;
        self.phase = Phase::behind(step.end);
        if self.sent == self.out.len() {
            self.out = step.out;
            self.sent = 0;
        } else if self.out.extend_from_slice(&step.out).is_err() {
            self.phase = Phase::Starved;
        }
    }
}
