//! A server and its services.

ghost use Rattle.std.specs.Prelude.{◌≡◌};
ghost use Rattle.ua_server.specs.State.{begun};
ghost use Rattle.ua_c.specs.Serving.{IsFreshServer, StepsAs};

use std::alloc::Global;
use ua_builtin::DateTime;
use ua_frame::Limits;
use ua_server::{Server, Services, Step, StepFault};

/// A server on a connection, its services, and its limits.
#[derive(Debug, Drop)]
pub struct Station {
    pub server: Server,
    pub services: Services,
    pub limits: Limits,
}

impl Station {
    /// A server of these services that waits for a client.
    pub(crate) fn new(alloc: Global, services: Services, limits: Limits, channel: u32) -> Station
        ensures server { IsFreshServer limits channel result.server }
        ensures services { result.services ≡ services }
        ensures limits { result.limits ≡ limits }
    {
        Station {
            server: Server::new(alloc, limits, channel),
            services,
            limits,
        }
    }

    /// Waits for the next client: a new channel over the same services, without a session.
    pub(crate) fn next(&mut self, alloc: Global, channel: u32)
        ensures server { IsFreshServer self.old.limits channel self.new.server }
        ensures services { self.new.services ≡ begun self.old.services }
        ensures limits { self.new.limits ≡ self.old.limits }
    {
        self.services.begin();
        self.server = Server::new(alloc, self.limits, channel);
    }

    /// What [`Server::step`] does.
    pub(crate) fn step(&mut self, piece: &[u8], moment: DateTime) -> Result<Step, StepFault>
        ensures steps { StepsAs self.old.server self.old.services piece.now moment result self.new.server
            self.new.services }
        ensures limits { self.new.limits ≡ self.old.limits }
    {
        self.server.step(&mut self.services, piece, moment)
    }
}
