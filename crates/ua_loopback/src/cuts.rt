//! The fragments in which bytes move.

ghost use Rattle.std.specs.Prelude.{◌<◌, ◌≤◌};

/// The most bytes that each call moves, in turn and again from the first; 0 counts as 1, and an
/// empty list sets no limit.
#[derive(Debug, Drop)]
pub struct Cuts {
    lengths: Vec<usize>,
    /// The place of the next length.
    next: usize,
}

impl Cuts {
    /// Before the first call.
    pub fn new(lengths: Vec<usize>) -> Cuts {
        Cuts { lengths, next: 0 }
    }

    /// How many of this many bytes the next call moves: all, or fewer, but at least one where there
    /// is one.
    pub fn front(&mut self, count: usize) -> usize
        ensures within { result ≤ count }
        ensures some { 0 < count → 0 < result }
    {
        if self.next >= self.lengths.len() {
            self.next = 0;
        }
        match self.lengths.get(self.next) {
            None => count,
            Some(length) => {
                self.next += 1;
                count.min((*length).max(1))
            }
        }
    }
}
