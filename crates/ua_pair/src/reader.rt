//! A reader that accepts UA TCP messages of every type.

ghost use Rattle.std.specs.Prelude.{◌≡◌, ◌<◌, [], length, IfOk, IfSome};
ghost use Rattle.ua_frame.specs.Frames.{LetsIn};
ghost use Rattle.ua_frame.specs.Reader.{open_reader, Takes};
ghost use Rattle.ua_pair.specs.Dissected.{every_frame as open_gate};

use std::alloc::Global;
use std::marker::Model;
use ua_frame::{Frame, FrameFault, FrameReader, Gate};

/// The most bytes of a UA TCP message.
const LARGEST: u32 = 16777216;

/// The frame filter that accepts a UA TCP message of each kind.
fn every_frame() -> Gate
    ensures { result ≡ open_gate }
{
    Gate {
        hel: true,
        ack: true,
        err: true,
        msg: true,
        opn: true,
        clo: true,
        largest: LARGEST,
    }
}

/// A reader with a constant frame filter: it accepts UA TCP messages of every type, at any
/// position.
#[derive(Debug, Drop)]
pub struct EveryReader {
    reader: FrameReader,
}

impl Model for EveryReader {
    ghost use Rattle.std.specs.Prelude.{◌≡◌};
    ghost use Rattle.ua_frame.specs.Reader.{Reader};
    ghost use Rattle.ua_pair.specs.Dissected.{every_frame};

    ghost Value = { Reader };

    ghost view = { λ r. r.reader };

    ghost invariant = { λ r. r.reader.gate ≡ every_frame };
}

impl EveryReader {
    /// A reader without any byte yet.
    pub fn new(alloc: Global) -> EveryReader
        ensures { result ≡ open_reader open_gate [] }
    {
        EveryReader {
            reader: FrameReader::new(alloc, every_frame()),
        }
    }

    /// The number of buffered bytes of an incomplete UA TCP message.
    pub fn held(&self) -> usize
        ensures count { result ≡ length self.now.held }
        ensures bound { result < 16777216 }
    {
        self.reader.held()
    }

    /// Consumes bytes up to the end of the first complete UA TCP message, or the whole fragment.
    pub fn take(&mut self, piece: &[u8]) -> Result<(usize, Option<Frame>), FrameFault>
        ensures takes { Takes self.old piece.now result self.new }
        ensures let_in { IfOk result (λ taken. IfSome taken.1 (λ frame. LetsIn open_gate frame)) }
    {
        self.reader.take(piece)
    }
}
