//! An application beside the clients of a server.

use crate::services::Services;

/// Something beside the clients that changes nodes while they are served: for example a plant whose
/// values move, and which takes the setpoints that clients wrote.
pub trait Application {
    ghost use Rattle.std.specs.Prelude.{◌≡◌};
    ghost use Rattle.ua_server.specs.State.{State, with_nodes};

    /// What an application may do: a relation between its state and that of the services before,
    /// and both states after.
    ghost changes: { Self → State → Self → State → Type 0 };

    /// Sets values, by [`Services::set`](crate::Services::set), and looks at those that clients
    /// wrote. It changes the nodes alone.
    fn act(&mut self, services: &mut Services)
        ensures changes { changes self.old services.old self.new services.new }
        ensures nodes { services.new ≡ with_nodes services.old services.new.nodes };
}

/// No application: clients alone change nodes.
#[derive(Clone, Copy, Debug)]
pub struct NoApplication;

impl Application for NoApplication {
    ghost use Rattle.std.specs.Prelude.{◌≡◌};

    ghost changes = { λ before old after new. new ≡ old };

    fn act(&mut self, services: &mut Services) {}
}
