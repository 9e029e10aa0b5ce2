//! When peers are accepted.

use std::time::{Clock, Duration, Instant};

/// How many seconds no peer is accepted after the system failed to give one.
const PAUSE: u64 = 1;

/// Whether a peer may wait to be accepted.
#[derive(Clone, Copy, Debug)]
pub enum Door {
    /// One may wait.
    Open,
    /// None waits: the system reports the next one.
    Shut,
    /// None is accepted for a second, from this time on.
    Barred(Instant),
}

impl Door {
    /// Whether a peer may be accepted.
    pub fn is_open(self) -> bool {
        matches!(self, Door::Open)
    }

    /// The system reports a peer.
    pub(crate) fn knock(&mut self) {
        if let Door::Shut = self {
            *self = Door::Open;
        }
    }

    /// No peer is accepted for a second. Where the clock gives no time, none is until the system
    /// reports one.
    pub fn bar<C: Clock>(&mut self, clock: &C) {
        *self = match Instant::now(clock) {
            Ok(now) => Door::Barred(now),
            Err(_) => Door::Shut,
        };
    }

    /// A peer may be accepted again, once the second is over.
    pub(crate) fn lift<C: Clock>(&mut self, clock: &C) {
        if self.rest(clock) == Some(Duration::ZERO) {
            *self = Door::Open;
        }
    }

    /// How long it is until peers are accepted again, where that is known.
    pub fn rest<C: Clock>(self, clock: &C) -> Option<Duration> {
        match self {
            Door::Open | Door::Shut => None,
            Door::Barred(since) => match since.elapsed(clock) {
                Ok(passed) => Some(Duration::from_secs(PAUSE).saturating_sub(passed)),
                Err(_) => Some(Duration::ZERO),
            },
        }
    }
}
