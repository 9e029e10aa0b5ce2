//! A reader of frames.

ghost use Rattle.std.specs.Prelude.{◌≡◌, ◌<◌, [], ℕ, List, length, max};
ghost use Rattle.ua_frame.specs.declared.frame.Frame.{Frame};
ghost use Rattle.ua_frame.specs.Reader.{Reader, open_reader, failed_reader, Takes, StandsAfter, AnswersFragment};

use crate::fault::FrameFault;
use crate::frame::Frame;
use crate::gate::Gate;
use crate::unfinished::Unfinished;
use std::alloc::Global;
use std::marker::Model;

/// Reads frames from a byte stream, however it is fragmented.
#[derive(Debug, Drop)]
pub struct FrameReader {
    alloc: Global,
    unfinished: Unfinished,
    failed: bool,
}

impl Model for FrameReader {
    ghost use Rattle.ua_frame.specs.Reader.{Reader};

    ghost Value = { Reader };

    ghost use Rattle.ua_frame.specs.Unfinished.{octets_of, IsIncompleteFrame};

    ghost view = { λ r. record { gate = r.unfinished.gate; held = octets_of r.unfinished; failed = r.failed } };

    ghost invariant = { λ r. IsIncompleteFrame r.unfinished };
}

impl FrameReader {
    /// A reader that has taken no bytes.
    pub fn new(alloc: Global, gate: Gate) -> FrameReader
        ensures { result ≡ open_reader gate [] }
    {
        FrameReader {
            alloc,
            unfinished: Unfinished::new(alloc, gate),
            failed: false,
        }
    }

    /// Sets the filter for the next frames. The reader has to be between two frames.
    pub fn set_gate(&mut self, gate: Gate)
        requires { self.old.held ≡ [] }
        ensures { self.new ≡ record self.old { gate = gate } }
    {
        self.unfinished.gate = gate;
    }

    /// The number of bytes held of an incomplete frame: fewer than a header has, or fewer than the
    /// maximum size of a frame.
    #[inline]
    pub fn held(&self) -> usize
        ensures count { result ≡ length self.now.held }
        ensures bound { result < max 8 self.now.gate.largest }
    {
        self.unfinished.len()
    }

    /// Drops the held bytes and closes the reader, which then takes no bytes.
    pub fn close(&mut self)
        ensures { self.new ≡ failed_reader self.old.gate }
    {
        self.unfinished = Unfinished::new(self.alloc, self.unfinished.gate);
        self.failed = true;
    }

    /// Takes bytes: what it does depends on the held bytes and the fragment alone.
    #[inline(always)]
    fn advance(&mut self, piece: &[u8]) -> Result<(usize, Option<Frame>), FrameFault>
        ensures { Takes self.old piece.now result self.new }
    {
        if self.failed {
            return Err(FrameFault::Closed);
        }
        let taken = self.unfinished.take(self.alloc, piece);
        self.failed = taken.is_err();
        taken
    }

    /// Takes bytes up to the end of the first complete frame, or else the whole fragment, and returns
    /// how many it took. A fault of a header is returned as soon as its eight bytes have arrived.
    /// After a fault the reader is closed.
    #[inline(always)]
    pub fn take(&mut self, piece: &[u8]) -> Result<(usize, Option<Frame>), FrameFault>
        ensures takes { Takes self.old piece.now result self.new }
        ensures stands { (octets : List ℕ) (frames : List Frame) → StandsAfter self.old octets frames
            → AnswersFragment self.old piece.now result self.new octets frames }
    {
        self.advance(piece)
    }
}
