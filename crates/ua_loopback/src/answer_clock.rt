//! The timestamps of a server's answers.

ghost use Rattle.std.specs.Prelude.{◌≡◌, ◌+◌, ℕ};
ghost use Rattle.ua_loopback.specs.Times.{time_at, times_in, times_of};

use ua_builtin::DateTime;

/// The timestamps of the answers that a server has still to send.
#[derive(Debug, Drop)]
pub struct AnswerClock {
    /// The timestamp of the next answer that carries one.
    moment: DateTime,
    /// Those of the answers after it, from `place` on; the last one stays.
    later: Vec<DateTime>,
    place: usize,
}

impl AnswerClock {
    /// Before the first answer: its timestamp, and those of the answers after it.
    pub fn new(moment: DateTime, later: Vec<DateTime>) -> AnswerClock
        ensures { (n : ℕ) → times_of result n ≡ time_at moment later.items n }
    {
        AnswerClock {
            moment,
            later,
            place: 0,
        }
    }

    /// The timestamp of the next answer.
    pub fn moment(&self) -> DateTime
        ensures { result ≡ times_of self.now 0 }
    {
        self.moment
    }

    /// The server sent these bytes in answer, or none.
    pub fn note(&mut self, answer: &[u8])
        ensures { (n : ℕ) → times_of self.new n ≡ times_of self.old (times_in answer.now + n) }
    {
        match answer {
            [] | [b'A', ..] => return,
            [_, ..] => {}
        }
        if let Some(next) = self.later.get(self.place) {
            self.moment = *next;
            self.place += 1;
        }
    }
}
