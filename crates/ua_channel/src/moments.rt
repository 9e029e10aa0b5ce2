//! Sources of timestamps.

ghost use Rattle.std.specs.Prelude.{◌≡◌, ◌≤◌, ℤ, List, [], length, drop};
ghost use Rattle.ua_channel.specs.Moments.{GivesFirst};

use std::marker::Model;

/// A source of timestamps, one after the other, in the ticks of a DateTime.
pub trait Moments {
    /// Relates the source before a timestamp, the timestamp and the source after it.
    ghost gives: { Self → ℤ → Self → Type 0 };

    /// The next timestamp.
    fn next(&mut self) -> i64
        ensures { gives self.old result self.new };
}

/// The timestamps of a list in turn, then its last one again and again; 0 where the list is empty.
#[derive(Debug, Drop)]
pub struct ListMoments {
    moments: Vec<i64>,
    place: usize,
}

impl Model for ListMoments {
    ghost Value = { List ℤ };

    ghost view = { λ m. drop m.place m.moments.items };

    ghost invariant = { λ m. m.place ≤ length m.moments.items };
}

impl ListMoments {
    /// These timestamps, from the first one.
    pub fn new(moments: Vec<i64>) -> ListMoments
        ensures { result ≡ moments.items }
    {
        ListMoments { moments, place: 0 }
    }
}

impl Moments for ListMoments {
    ghost gives = { GivesFirst };

    fn next(&mut self) -> i64 {
        match &self.moments[self.place..] {
            [] => 0,
            [moment] => *moment,
            [moment, ..] => {
                let moment = *moment;
                self.place += 1;
                moment
            }
        }
    }
}
