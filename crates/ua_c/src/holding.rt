//! What a handle holds.

ghost use Rattle.ua_c.specs.Serving.{NextMachine, StepsMachine};

use crate::report::Report;
use crate::shared::SharedNodes;
use crate::station::Station;
use crate::status::{FETCH_FIRST, OK, OTHER_HANDLE};
use crate::untold::ServedConnection;
use crate::waiting::Waiting;
use std::alloc::Global;
use ua_builtin::DateTime;
use ua_channel::ClientChannel;

/// A machine that takes and gives bytes.
#[derive(Debug, Drop)]
pub enum Machine {
    /// A server with its services.
    Server(Station),
    /// A client.
    Client(ClientChannel),
    /// Nodes that connections share.
    Nodes(SharedNodes),
    /// A connection over shared nodes.
    Connection(ServedConnection),
}

/// What a handle holds: a machine, and the bytes of its answers that were not fetched yet.
#[derive(Debug, Drop)]
pub struct Holding {
    pub machine: Machine,
    pub waiting: Waiting,
}

impl Holding {
    /// A step of a server.
    pub(crate) fn step(&mut self, piece: &[u8], moment: DateTime) -> Report
        ensures { StepsMachine self.old self.new piece.now moment result }
    {
        let Machine::Server(station) = &mut self.machine else {
            return Report::only(OTHER_HANDLE);
        };
        if self.waiting.len() > 0 {
            return Report::only(FETCH_FIRST);
        }
        let answer = station.step(piece, moment);
        Report::from_step(answer, &mut self.waiting)
    }

    /// The next connection of a server.
    pub(crate) fn next(&mut self, alloc: Global, channel: u32) -> u32
        ensures { NextMachine self.old self.new channel result }
    {
        let Machine::Server(station) = &mut self.machine else {
            return OTHER_HANDLE;
        };
        station.next(alloc, channel);
        self.waiting = Waiting::none(alloc);
        OK
    }
}
