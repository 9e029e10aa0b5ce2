//! Renewals that are not asked, since too many tokens count as held: as if the requests right
//! before a renewal were not answered yet.

ghost use Rattle.std.specs.Prelude.{◌≡◌, ◌+◌, ◌≤◌, ◌<◌, ◌^◌, ◌∷◌, ◌++◌, [], List, IfSome};
ghost use Rattle.ua_exchange.specs.inside.Counting.{is_crowded};
ghost use Rattle.ua_exchange.specs.declared.turn.Turn.{Turn};
ghost use Rattle.ua_exchange.specs.inside.Counting.{CountsLast, FindsCrowded};

use crate::turn::Turn;

/// The most tokens that are held: where this many count as held, no further one is asked for.
const MOST_TOKENS: usize = 16;

/// The most requests before a renewal that count as not answered yet.
const MOST_CALLS: usize = 64;

/// The last operations: this many requests, and before these this many renewals.
#[derive(Clone, Copy)]
struct Last {
    renewals: usize,
    calls: usize,
}

impl Last {
    /// Whether an operation after these is a renewal that is refused since too many tokens count as
    /// held.
    fn is_crowded(self, turn: &Turn) -> bool
        ensures { (before : List Turn) → CountsLast before self.renewals self.calls
            → result ≡ is_crowded before turn.now }
    {
        match turn {
            Turn::Ask(_) => false,
            Turn::Renew => self.calls <= MOST_CALLS && self.renewals >= MOST_TOKENS - 1,
        }
    }

    /// The same with one operation more.
    fn with(self, turn: &Turn) -> Last
        requires { self.renewals + self.calls < 2 ^ 63 }
        ensures counts { (before : List Turn) → CountsLast before self.renewals self.calls
            → CountsLast (before ++ turn.now ∷ []) result.renewals result.calls }
        ensures few { result.renewals + result.calls ≤ self.renewals + self.calls + 1 }
    {
        let Last { renewals, calls } = self;
        match turn {
            Turn::Ask(_) => Last {
                renewals,
                calls: calls + 1,
            },
            Turn::Renew if calls == 0 => Last {
                renewals: renewals + 1,
                calls: 0,
            },
            Turn::Renew => Last {
                renewals: 1,
                calls: 0,
            },
        }
    }
}

/// The place of the first renewal for which too many tokens count as held, if there is one.
pub(crate) fn find_crowded(turns: &[Turn]) -> Option<usize>
    ensures found { FindsCrowded turns.now result }
{
    let mut last = Last {
        renewals: 0,
        calls: 0,
    };
    for (index, turn) in turns.iter().enumerate() {
        if last.is_crowded(turn) {
            return Some(index);
        }
        last = last.with(turn);
    }
    None
}
