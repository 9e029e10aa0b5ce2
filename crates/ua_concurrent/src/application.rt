//! The application whose nodes are served.

use ua_builtin::DateTime;
use ua_server::{Services, Step, Written};

/// What an application does around each step of a connection.
pub trait Application {
    ghost use Rattle.std.specs.Prelude.{◌≡◌};
    ghost use Rattle.ua_concurrent.specs.Acts.{Act, Acted, Told};
    ghost use Rattle.ua_server.specs.State.{with_nodes};

    /// Relates the application's state before one of these calls to that after it.
    ghost acts: { Self → Act → Self → Type 0 };

    /// Sets nodes as the application likes, right before bytes of a client are looked at, and gives
    /// the timestamp of the answer.
    fn before_step(&mut self, services: &mut Services) -> DateTime
        ensures acts { acts self.old (Acted services.old services.new result) self.new }
        ensures nodes { services.new ≡ with_nodes services.old services.new.nodes };

    /// The connection of this number has taken this step, which stored these items. Its answer is
    /// not written yet.
    fn after_step(&mut self, number: u32, services: &Services, step: &Step, written: &Written)
        ensures { acts self.old (Told number step.now written.now) self.new };
}
