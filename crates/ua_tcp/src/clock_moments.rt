//! Timestamps of the system's clock.

ghost use Rattle.std.specs.Prelude.{◌≡◌, ◌+◌, ◌/◌, ◌≤◌, ◌^◌, pos, None, IfSome};
ghost use Rattle.std.specs.Duration.{as_nanos};
ghost use Rattle.ua_tcp.specs.Moment.{IsFrom1970, ticks_of_1970};

use std::time::{Clock, Duration};
use ua_channel::Moments;

/// The ticks of 1970-01-01, midnight UTC, in a DateTime (OPC 10000-6, 5.2.2.5).
const TICKS_OF_1970: i64 = 116_444_736_000_000_000;

const NANOSECONDS_OF_A_TICK: u128 = 100;

/// The times of a clock, each read when it is asked for. Where the clock fails, or its time is not
/// that of a DateTime, the timestamp is 1970-01-01.
#[derive(Debug, Drop)]
pub struct ClockMoments<'a, C> {
    clock: &'a C,
}

impl<'a, C> ClockMoments<'a, C> {
    /// The timestamps of this clock.
    pub fn new(clock: &'a C) -> ClockMoments<'a, C> {
        ClockMoments { clock }
    }
}

impl<'a, C: Clock> Moments for ClockMoments<'a, C> {
    ghost gives = { λ before moment after. IsFrom1970 moment };

    fn next(&mut self) -> i64 {
        match self.clock.since_1970() {
            Ok(since) => moment_at(since).unwrap_or(TICKS_OF_1970),
            Err(_) => TICKS_OF_1970,
        }
    }
}

/// The time so long after 1970-01-01, in ticks of 100 ns, if a DateTime can hold it.
fn moment_at(since: Duration) -> Option<i64>
    ensures some { IfSome result (λ moment. moment ≡ pos (ticks_of_1970 + as_nanos since / 100)) }
    ensures none { result ≡ None → 2 ^ 63 ≤ ticks_of_1970 + as_nanos since / 100 }
{
    let ticks = since.as_nanos() / NANOSECONDS_OF_A_TICK;
    i64::try_from(ticks + TICKS_OF_1970 as u128).ok()
}
