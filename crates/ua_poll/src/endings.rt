//! The observer of connections that are over, and of those that cannot be accepted.

ghost use Rattle.std.specs.Prelude.{◌≡◌};

use std::io;
use ua_concurrent::Failure;
use ua_server::End;

/// Why a peer that came is not served.
#[derive(Clone, Copy, Debug)]
pub enum NotTaken {
    /// The system hands over no connection, or does not watch it.
    System(io::Error),
    /// An allocation failed.
    OutOfMemory,
}

/// What is done after a peer that is not served.
#[derive(Clone, Copy, PartialEq, Eq, Debug)]
pub enum Retry {
    /// The next one is accepted at once.
    AtOnce,
    /// The next one is accepted a second later; connections go on until then.
    Later,
    /// No more is served.
    Never,
}

/// The observer of connections that are over, and of peers that cannot be served.
pub trait Endings {
    ghost use Rattle.ua_poll.specs.News.{News, Over, Missed};

    /// Relates the observer's state before news to that after it.
    ghost notes: { Self → News → Self → Type 0 };

    /// The connection of this number ended so. Returns whether more is to be served.
    fn ended(&mut self, number: u32, outcome: Result<End, Failure>) -> bool
        ensures { notes self.old (Over number outcome) self.new };

    /// Whether more is to be served; each round of the loop asks it.
    fn goes_on(&self) -> bool;

    /// A peer came, and is not served. Returns what is done then.
    fn not_taken(&mut self, why: NotTaken) -> Retry
        ensures { notes self.old (Missed why) self.new };
}
