//! SequenceNumbers of what one end sends.

ghost use Rattle.std.specs.Prelude.{◌<◌, ◌≤◌};

use ua_chunk::next_number;

/// The SequenceNumbers that one end gives its chunks: 1, 2, 3, .. up to 4294966272, and then 1
/// again (OPC 10000-6, 6.7.2.4).
#[derive(Clone, Copy, Debug)]
pub struct Numbers {
    next: u32,
    ghost positive: { 0 < next },
    ghost used: { next ≤ 4294966272 },
}

impl Numbers {
    ghost use Rattle.std.specs.Prelude.{◌≡◌, ◌<◌, ◌≤◌};
    ghost use Rattle.ua_chunk.specs.Sequence.{next_number};

    /// The next number is 1.
    pub(crate) fn new() -> Numbers
        ensures { result.next ≡ 1 }
    {
        Numbers { next: 1 }
    }

    /// The number of the next chunk.
    #[inline]
    pub(crate) fn number(&self) -> u32
        ensures number { result ≡ self.now.next }
        ensures range { (0 < result) × (result ≤ 4294966272) }
    {
        self.next
    }

    /// Continues after one chunk.
    pub(crate) fn step(&mut self)
        ensures { self.new.next ≡ next_number self.old.next }
    {
        self.go_on(next_number(self.next));
    }

    /// Continues at this number.
    pub(crate) fn go_on(&mut self, next: u32)
        requires { (0 < next) × (next ≤ 4294966272) }
        ensures { self.new.next ≡ next }
    {
        *self = Numbers { next };
    }
}
