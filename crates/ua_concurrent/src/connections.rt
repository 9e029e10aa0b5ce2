//! All connections, each at a place.

ghost use Rattle.std.specs.Prelude.{◌≡◌, ◌<◌, ◌+◌, ◌↔◌, ℕ, List, [], None, Some, is_some, length, replicate};
ghost use Rattle.std.specs.Prelude.{slice_set, IfOk, IfSome, IfNone, OnErr, IsErrOf, IsTrue};
ghost use Rattle.std.specs.List.{list_any};
ghost use Rattle.ua_server.specs.Sharing.{SharedEvent};
ghost use Rattle.ua_server.specs.State.{State};
ghost use Rattle.ua_concurrent.specs.All.{HadRound, IsFree, OpensTalk, TurnsAt, WokeAt, last_of, places_of};
ghost use Rattle.ua_concurrent.specs.Standing.{GoOn, IsFreshSocket, StandTogether};
ghost use Rattle.ua_concurrent.specs.Talk.{is_place_ready, released_at};
ghost use Rattle.ua_concurrent.specs.declared.connections.OpenFault.TheVariants as fault;

use crate::application::Application;
use crate::conversation::Conversation;
use crate::outcome::Released;
use crate::socket::{Readiness, Socket};
use std::alloc::{AllocError, Global};
use std::mem;
use thiserror::Error;
use ua_frame::Limits;
use ua_server::Services;

/// At most this many connections at a time over one node table, each at a place. They are numbered
/// from 1, in the order in which they are opened, and no number is used again.
#[derive(Debug, Drop)]
pub struct Connections<S> {
    alloc: Global,
    limits: Limits,
    /// How many were opened.
    opened: u32,
    places: Vec<Option<Conversation<S>>>,
}

/// Why a connection is not opened. Nothing has changed.
#[derive(Clone, Copy, PartialEq, Eq, Debug, Error)]
pub enum OpenFault {
    /// There is no such place, or it is not free.
    #[error("the place is not free")]
    NotFree,
    /// 4294967295 connections were opened.
    #[error("too many connections")]
    TooMany,
    /// An allocation failed.
    #[error("out of memory")]
    OutOfMemory,
}

impl<S: Socket> Connections<S> {
    /// This many free places, for connections with these limits.
    pub fn new(alloc: Global, limits: Limits, count: usize) -> Result<Connections<S>, AllocError>
        ensures free { IfOk result (λ it. places_of it ≡ replicate count None) }
        ensures last { IfOk result (λ it. last_of it ≡ 0) }
        ensures stand { (first : State)
            → IfOk result (λ it. StandTogether S.seen [] first first (last_of it) (places_of it)) }
    {
        let mut places = Vec::with_capacity(alloc, count)?;
        'places: for _ in 0..count {
            places.push(None)?;
        }
        Ok(Connections {
            alloc,
            limits,
            opened: 0,
            places,
        })
    }

    /// How many connections were opened so far.
    pub fn opened(&self) -> u32
        ensures { result ≡ last_of self.now }
    {
        self.opened
    }

    /// How many places there are.
    pub fn count(&self) -> usize
        ensures { result ≡ length (places_of self.now) }
    {
        self.places.len()
    }

    /// The first free place.
    pub fn free_place(&self) -> Option<usize>
        ensures free { IfSome result (λ place. IsFree (places_of self.now) place) }
        ensures none { IfNone result ((place : ℕ) → IsFree (places_of self.now) place → ⊥) }
    {
        self.places.iter().position(|place| place.is_none())
    }

    /// Whether there is such a place, and it is free.
    fn is_free(&self, place: usize) -> bool
        ensures { IsTrue result ↔ IsFree (places_of self.now) place }
    {
        place < self.places.len() && self.places[place].is_none()
    }

    /// Opens a connection to the peer at the other end of a socket, at a free place, and gives its
    /// number.
    pub fn open(&mut self, place: usize, socket: S) -> Result<u32, OpenFault>
        ensures number { IfOk result (λ number. (number ≡ last_of self.old + 1) × (last_of self.new ≡ number)) }
        ensures opens { IfOk result (λ number. IsFree (places_of self.old) place
            × OpensTalk number socket place (places_of self.old) (places_of self.new)) }
        ensures not_free { IsErrOf result fault.NotFree → IsFree (places_of self.old) place → ⊥ }
        ensures too_many { IsErrOf result fault.TooMany → last_of self.old ≡ 4294967295 }
        ensures kept { OnErr result (self.new ≡ self.old) }
        ensures stand { (es : List SharedEvent) (first now : State) → IsFreshSocket (S.seen socket)
            → StandTogether S.seen es first now (last_of self.old) (places_of self.old)
            → StandTogether S.seen es first now (last_of self.new) (places_of self.new) }
    {
        if !self.is_free(place) {
            return Err(OpenFault::NotFree);
        }
        let Some(number) = self.opened.checked_add(1) else {
            return Err(OpenFault::TooMany);
        };
        match Conversation::new(self.alloc, self.limits, number, socket) {
            Ok(conversation) => {
                self.places[place] = Some(conversation);
                self.opened = number;
                Ok(number)
            }
            Err(_) => Err(OpenFault::OutOfMemory),
        }
    }

    /// Passes on what the system reports about the socket at a place.
    pub fn wake(&mut self, place: usize, readiness: Readiness)
        ensures woke { WokeAt S.seen readiness place (places_of self.old) (places_of self.new) }
        ensures last { last_of self.new ≡ last_of self.old }
        ensures stand { (es : List SharedEvent) (first now : State)
            → StandTogether S.seen es first now (last_of self.old) (places_of self.old)
            → StandTogether S.seen es first now (last_of self.new) (places_of self.new) }
    {
        if place < self.places.len()
            && let Some(conversation) = &mut self.places[place]
        {
            conversation.wake(readiness);
        }
    }

    /// Whether a turn would do anything at some place.
    pub fn is_ready(&self) -> bool
        ensures { result ≡ list_any (is_place_ready S.seen) (places_of self.now) }
    {
        self.places.iter().any(|place| is_place_ready(place))
    }

    /// Gives the connection at each place one turn, in the order of places.
    pub fn go_round<A: Application>(&mut self, services: &mut Services, application: &mut A)
        ensures last { last_of self.new ≡ last_of self.old }
        ensures round { HadRound S.seen (places_of self.old) (places_of self.new) }
        ensures stand { (es : List SharedEvent) (first : State)
            → StandTogether S.seen es first services.old (last_of self.old) (places_of self.old)
            → GoOn S.seen A.acts es first application.old (services.new, application.new)
            (last_of self.new) (places_of self.new) }
    {
        for place in 0..self.places.len() {
            self.turn(place, services, application);
        }
    }

    /// Gives the connection at a place one turn.
    fn turn<A: Application>(&mut self, place: usize, services: &mut Services, application: &mut A)
        requires { place < length (places_of self.old) }
        ensures last { last_of self.new ≡ last_of self.old }
        ensures turn { TurnsAt S.seen place (places_of self.old) (places_of self.new) }
        ensures stand { (es : List SharedEvent) (first : State)
            → StandTogether S.seen es first services.old (last_of self.old) (places_of self.old)
            → GoOn S.seen A.acts es first application.old (services.new, application.new)
            (last_of self.new) (places_of self.new) }
    {
        if let Some(conversation) = &mut self.places[place] {
            conversation.turn(services, application);
        }
    }

    /// Whether the connection at a place is over.
    #[tactic(auto, using(crate::proofs::Together::some_mapped))]
    fn is_over(&self, place: usize) -> bool
        ensures { result ≡ is_some (released_at (places_of self.now) place) }
    {
        if place < self.places.len()
            && let Some(conversation) = &self.places[place]
        {
            return conversation.outcome().is_some();
        }
        false
    }

    /// Frees a place whose connection is over; `None` where there is no such connection.
    pub fn release(&mut self, place: usize) -> Option<Released<S>>
        ensures released { result ≡ released_at (places_of self.old) place }
        ensures free { IfSome result (λ _. places_of self.new ≡ slice_set (places_of self.old) place None) }
        ensures kept { IfNone result (self.new ≡ self.old) }
        ensures last { last_of self.new ≡ last_of self.old }
        ensures stand { (es : List SharedEvent) (first now : State)
            → StandTogether S.seen es first now (last_of self.old) (places_of self.old)
            → StandTogether S.seen es first now (last_of self.new) (places_of self.new) }
    {
        if !self.is_over(place) {
            return None;
        }
        match mem::replace(&mut self.places[place], None) {
            Some(conversation) => conversation.release(),
            None => None,
        }
    }
}

/// Whether a turn would do anything at a place.
fn is_place_ready<S: Socket>(place: &Option<Conversation<S>>) -> bool
    ensures { result ≡ is_place_ready S.seen place.now }
{
    match place {
        Some(conversation) => conversation.is_ready(),
        None => false,
    }
}
