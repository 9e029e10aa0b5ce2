//! What both ends of a connection keep, and their one loop over frames.

ghost use Rattle.std.specs.Prelude.{◌≡◌, ◌+◌, ◌≤◌, ℕ, [], List, length, OnErr};
ghost use Rattle.ua_chunk.specs.Open.{open_octets};
ghost use Rattle.ua_frame.specs.declared.frame.Frame.{Frame};
ghost use Rattle.ua_frame.specs.Reader.{open_reader};
ghost use Rattle.ua_channel.specs.Received.{received};
ghost use Rattle.ua_channel.specs.inside.Parts.{HasShape};
ghost use Rattle.ua_channel.specs.Ends.{Side};
ghost use Rattle.ua_channel.specs.inside.Ends.{ComesNext, JudgesNext};

use crate::end_fault::EndFault;
use crate::numbers::Numbers;
use crate::taken::Taken;
use std::alloc::Global;
use ua_frame::{Frame, FrameReader, Gate, HEADER_LEN};

/// The rules of an end of a connection, where `P` is the phase of the connection.
pub trait EndRules<P> {
    /// The event of a frame.
    type Event;

    /// Which frames come next, which are refused, which events they have, and the state of the end
    /// after them.
    ghost side: { Side Self P Self.Event };

    /// Shows that what was done by the time that so many bytes had arrived was done once more had
    /// arrived.
    fn lawful()
        ensures { (k : side.Key) (n m : ℕ) → n ≤ m → side.placed k n → side.placed k m };

    /// The filter for the next frame.
    fn gate(&self, phase: &P) -> Gate
        ensures { (k : side.Key) (frames : List Frame) → side.holds self.now k phase.now frames
            → result ≡ (side.rules self.now k).gate frames };

    /// Takes a frame, and returns how much may be held after it.
    fn on_frame(
        &self,
        alloc: Global,
        phase: &mut P,
        bound: &mut usize,
        frame: Frame,
    ) -> Result<Option<Self::Event>, EndFault>
        requires shape { HasShape frame }
        ensures judges { (k : side.Key) (frames : List Frame)
            → ComesNext side self.now k phase.old bound.old frames frame
            → JudgesNext side self.now k frames frame phase.new bound.new result }
        ensures failed { OnErr result (bound.new ≡ bound.old) };

    /// The number of bytes held of unfinished messages.
    fn messages_held(&self, phase: &P) -> usize
        ensures held { (k : side.Key) (frames : List Frame) → side.holds self.now k phase.now frames
            → result ≡ open_octets (received frames).messages }
        ensures within { (k : side.Key) (frames : List Frame) → side.holds self.now k phase.now frames
            → (8 ≤ ((side.rules self.now k).gate frames).largest)
            × (result + ((side.rules self.now k).gate frames).largest ≤ side.bound self.now frames) }
        ensures done { side.done phase.now → result ≡ 0 };

    /// The phase of a connection that ended.
    fn ended() -> P
        ensures { side.done result };
}

/// What an end of a connection keeps, whichever it is.
#[derive(Debug, Drop)]
pub struct EndCore<R, P> {
    pub alloc: Global,
    pub rules: R,
    pub reader: FrameReader,
    pub numbers: Numbers,
    /// The maximum number of bytes that may be held.
    pub bound: usize,
    pub phase: P,
}

impl<R: EndRules<P>, P: Drop> EndCore<R, P> {
    ghost use Rattle.std.specs.Prelude.{take, Some};
    ghost use Rattle.ua_channel.specs.Ends.{EndStands, EndGoes, EndDone};
    ghost use Rattle.ua_channel.specs.inside.Ends.{EndSteps, EndNexts, JudgesWhole, MovesBy};

    /// Ends the connection, which then holds nothing.
    pub fn fail(&mut self)
        ensures done { EndDone R.side self.new }
        ensures kept { self.new ≡ record self.old { reader = self.new.reader; phase = self.new.phase } }
    {
        self.reader.close();
        self.phase = R::ended();
    }

    /// The event of a complete frame, and the filter for the next one.
    fn on_whole(&mut self, frame: Frame) -> Result<Option<R::Event>, EndFault>
        requires shape { HasShape frame }
        requires empty { self.old.reader.held ≡ [] }
        ensures judges { (k : R.side.Key) (frames : List Frame)
            → ComesNext R.side self.old.rules k self.old.phase self.old.bound frames frame
            → self.old.reader ≡ open_reader ((R.side.rules self.old.rules k).gate frames) []
            → JudgesWhole R.side self.new k frames frame result }
        ensures kept { self.new ≡ record self.old {
          reader = self.new.reader;
          bound = self.new.bound;
          phase = self.new.phase;
        } }
    {
        match self
            .rules
            .on_frame(self.alloc, &mut self.phase, &mut self.bound, frame)
        {
            Ok(event) => {
                let gate = self.rules.gate(&self.phase);
                self.reader.set_gate(gate);
                Ok(event)
            }
            Err(fault) => {
                self.fail();
                Err(fault)
            }
        }
    }

    /// One call of the reader, and the event of its frame.
    fn step(&mut self, piece: &[u8]) -> Taken<Result<Option<R::Event>, EndFault>>
        ensures steps { (k : R.side.Key) (octets : List ℕ) (told : List R.side.Told)
            → EndGoes R.side self.old k octets told
            → EndSteps R.side piece.now result.size result.outcome self.new k octets told }
        ensures moves { MovesBy piece.now result.size result.outcome }
        ensures kept { self.new ≡ record self.old {
          reader = self.new.reader;
          bound = self.new.bound;
          phase = self.new.phase;
        } }
    {
        R::lawful();
        let held = self.reader.held();
        match self.reader.take(piece) {
            Ok((size, None)) => Taken {
                size,
                outcome: Ok(None),
            },
            Ok((size, Some(frame))) => Taken {
                size,
                outcome: self.on_whole(frame),
            },
            Err(fault) => {
                self.fail();
                let fault = EndFault::from_frame(fault);
                let size = HEADER_LEN.saturating_sub(held).max(fault.least());
                Taken {
                    size: size.min(piece.len()),
                    outcome: Err(fault),
                }
            }
        }
    }

    /// Takes bytes up to the end of the first frame that has an event, or else the whole fragment.
    pub(crate) fn next_event(&mut self, piece: &[u8]) -> Taken<Result<Option<R::Event>, EndFault>>
        ensures nexts { (k : R.side.Key) (octets : List ℕ) (told : List R.side.Told)
            → EndGoes R.side self.old k octets told
            → EndNexts R.side piece.now result.size result.outcome self.new k octets told }
        ensures moves { MovesBy piece.now result.size result.outcome }
        ensures kept { self.new ≡ record self.old {
          reader = self.new.reader;
          bound = self.new.bound;
          phase = self.new.phase;
        } }
    {
        let mut taken = 0;
        while taken < piece.len() {
            let Taken { size, outcome } = self.step(&piece[taken..]);
            taken += size;
            match outcome {
                Ok(None) => {}
                Ok(Some(event)) => {
                    return Taken {
                        size: taken,
                        outcome: Ok(Some(event)),
                    };
                }
                Err(fault) => {
                    return Taken {
                        size: taken,
                        outcome: Err(fault),
                    };
                }
            }
        }
        Taken {
            size: taken,
            outcome: Ok(None),
        }
    }

    /// The number of bytes held: those of an incomplete frame, and those of unfinished messages.
    pub fn held(&self) -> usize
        ensures held { (k : R.side.Key) (octets : List ℕ) (frames : List Frame) (rest : List ℕ)
            → EndStands R.side self.now k octets frames rest
            → result ≡ length rest + open_octets (received frames).messages }
        ensures bound { (k : R.side.Key) (octets : List ℕ) (frames : List Frame) (rest : List ℕ)
            → EndStands R.side self.now k octets frames rest
            → result ≤ self.now.bound }
        ensures done { EndDone R.side self.now → result ≡ 0 }
    {
        let _bound = self.bound;
        self.reader
            .held()
            .saturating_add(self.rules.messages_held(&self.phase))
    }
}
