//! The dissector of the bytes that one side sent.

ghost use Rattle.std.specs.Prelude.{◌≡◌, ◌++◌, ◌≤◌, [], ℕ, List, true, IsErr};
ghost use Rattle.std.specs.Prelude.{IsOk, OnOk, OnErr, IfOk, string_bytes};
ghost use Rattle.ua_frame.specs.declared.frame.Frame.{Frame};
ghost use Rattle.ua_frame.specs.Frames.{IsSized, LetsIn};
ghost use Rattle.ua_pair.specs.Dissected.{every_frame as open_gate};
ghost use Rattle.ua_pair.specs.Dissecting.{StandsBehind, TellsMore, EndsLines, AreHeld, IsDissectorClosed};
ghost use Rattle.ua_pair.specs.Dissecting.{most_buffered, Holds, DissectorGoesOn, FrameTold, TakesPiece};
ghost use Rattle.ua_pair.specs.Dissecting.{TakesNext, is_dissecting, is_refused, is_stopped, HasRefusedOne};
ghost use Rattle.ua_pair.specs.Telling.{ArePendingLines};
ghost use Rattle.ua_pair.specs.Told.{place_behind};

use crate::fault::DissectFault;
use crate::line::{push_refused_line, push_rest_line};
use crate::options::DissectOptions;
use crate::pending::{Pending, push_pending};
use crate::reader::EveryReader;
use crate::teller::{Teller, frame_size};
use std::alloc::{AllocError, Global};
use ua_builtin::StatusCode;
use ua_frame::Frame;

/// The most bytes that a dissector buffers: those of a UA TCP message of the greatest size, and as
/// many of each of four messages.
const MOST_HELD: usize = 83886080;

/// The state of a dissector.
#[derive(Clone, Copy, Debug)]
pub enum State {
    /// The dissector accepts bytes.
    Going,
    /// A UA TCP message was rejected with this StatusCode; the bytes after it are ignored.
    Refused(StatusCode),
    /// An allocation failed.
    Closed,
}

/// Prints the bytes that one side of a connection sent, in any fragments, as lines. A UA TCP
/// message, and a message with its last chunk, is printed as soon as it is complete. A message is
/// decoded before its fields are printed, those of a large body are left out.
#[derive(Debug)]
pub struct Dissector {
    alloc: Global,
    state: State,
    reader: EveryReader,
    teller: Teller,
    /// The offset after the UA TCP messages that are printed.
    place: usize,
}

// By hand, so that a function that lets a dissector go calls this, and proves nothing of what lies in
// it.
impl Drop for Dissector {
    fn drop(self) {
        let Dissector {
            alloc: _,
            state: _,
            reader,
            teller,
            place: _,
        } = self;
        drop(reader);
        drop(teller);
    }
}

impl Dissector {
    /// A dissector of the bytes that one side sends, from the first byte on.
    pub fn new(alloc: Global, options: DissectOptions) -> Dissector
        ensures { StandsBehind result options [] [] }
    {
        Dissector {
            alloc,
            state: State::Going,
            reader: EveryReader::new(alloc),
            teller: Teller::new(alloc, options),
            place: 0,
        }
    }

    /// Whether further bytes are accepted.
    fn goes_on(&self) -> bool
        ensures { result ≡ is_dissecting self.now.state }
    {
        match self.state {
            State::Going => true,
            State::Refused(_) | State::Closed => false,
        }
    }

    /// Whether a UA TCP message was rejected.
    fn is_refused(&self) -> bool
        ensures { result ≡ is_refused self.now.state }
    {
        match self.state {
            State::Refused(_) => true,
            State::Going | State::Closed => false,
        }
    }

    /// Stops, and drops what is buffered.
    fn stop(&mut self, state: State)
        ensures state { self.new.state ≡ state }
        ensures options { self.new.teller.options ≡ self.old.teller.options }
        ensures nothing { Holds self.new [] [] }
        ensures place { self.new.place ≡ self.old.place }
    {
        self.state = state;
        self.reader = EveryReader::new(self.alloc);
        self.teller = Teller::new(self.alloc, self.teller.options);
    }

    /// Replaces the contents of `lines` by the lines of a complete UA TCP message, without those of
    /// the fields of the message that is returned; a rejected one has no lines, and the dissector
    /// stops.
    fn tell(&mut self, frame: Frame, lines: &mut String) -> Result<Option<Pending>, AllocError>
        requires sized { IsSized frame }
        requires let_in { LetsIn open_gate frame }
        ensures told { (options : DissectOptions) (before : List Frame) → DissectorGoesOn self.old options before []
            → self.old.place ≡ place_behind before
            → IfOk result (λ pending. (more : List ℕ) → ArePendingLines self.new.teller.options pending more
            → FrameTold self.new options before frame (string_bytes lines.new ++ more)) }
        ensures options { self.new.teller.options ≡ self.old.teller.options }
    {
        let size = frame_size(&frame);
        lines.clear();
        match self.teller.push_frame(frame, self.place, lines) {
            Ok(pending) => {
                let Some(place) = self.place.checked_add(size) else {
                    return Err(AllocError);
                };
                self.place = place;
                Ok(pending)
            }
            Err(DissectFault::Refused(code)) => {
                lines.clear();
                self.stop(State::Refused(code));
                Ok(None)
            }
            Err(DissectFault::OutOfMemory) => Err(AllocError),
        }
    }

    /// Consumes bytes up to the end of the first UA TCP message, or all of them, and returns how
    /// many; `None` if there are none, or if none are accepted. The lines of the message replace
    /// the contents of `lines`, without those of the fields of the message that is returned.
    fn take_next(
        &mut self,
        octets: &[u8],
        lines: &mut String,
    ) -> Result<Option<(usize, Option<Pending>)>, AllocError>
        ensures taken { IfOk result
            (λ taken. TakesNext self.old octets.now taken self.new (string_bytes lines.new)) }
        ensures options { self.new.teller.options ≡ self.old.teller.options }
    {
        lines.clear();
        if octets.is_empty() || !self.goes_on() {
            return Ok(None);
        }
        match self.reader.take(octets) {
            Ok((size, Some(frame))) => {
                let pending = self.tell(frame, lines)?;
                Ok(Some((size, pending)))
            }
            Ok((size, None)) => Ok(Some((size, None))),
            Err(fault) => {
                let Some(code) = fault.code() else {
                    return Err(AllocError);
                };
                self.stop(State::Refused(code));
                Ok(Some((octets.len(), None)))
            }
        }
    }

    /// Appends the lines of what a fragment completes, unless an allocation failed before. If one
    /// fails, some of them may have been appended.
    fn push_piece(&mut self, piece: &[u8], text: &mut String) -> Result<(), AllocError>
        ensures takes { OnOk result
            (TakesPiece self.old self.new piece.now (string_bytes text.old) (string_bytes text.new)) }
        ensures closed { IsDissectorClosed self.old → IsErr result }
    {
        if let State::Closed = self.state {
            return Err(AllocError);
        }
        let mut lines = String::new(self.alloc);
        let mut at = 0;
        while let Some((taken, pending)) = self.take_next(&piece[at..], &mut lines)? {
            text.push_str(&lines)?;
            push_pending(self.alloc, &self.teller.options, &pending, text)?;
            at += taken;
        }
        Ok(())
    }

    /// Does what [`push_piece`](Dissector::push_piece) does, but on an error the text is unchanged.
    fn take_all(&mut self, piece: &[u8], out: &mut String) -> Result<(), AllocError>
        ensures takes { OnOk result
            (TakesPiece self.old self.new piece.now (string_bytes out.old) (string_bytes out.new)) }
        ensures err { OnErr result (string_bytes out.new ≡ string_bytes out.old) }
        ensures closed { IsDissectorClosed self.old → IsErr result }
    {
        // Fields may have many lines, which are not copied then.
        if out.is_empty() {
            if let Err(fault) = self.push_piece(piece, out) {
                out.clear();
                return Err(fault);
            }
            return Ok(());
        }
        let mut text = String::new(self.alloc);
        self.push_piece(piece, &mut text)?;
        out.push_str(&text)
    }

    /// Takes the next bytes, and appends the lines of the UA TCP messages and messages that are
    /// then complete; none if a UA TCP message was rejected before, which
    /// [`has_refused`](Dissector::has_refused) tells. On an error, which means that an allocation
    /// failed, the text is unchanged, and the dissector takes nothing more. Byte offsets go up to
    /// 18446744073709551615; beyond it, there is an error, too.
    pub fn take(&mut self, piece: &[u8], out: &mut String) -> Result<(), AllocError>
        // The lines appended so far depend on the bytes alone, however they were fragmented.
        ensures told { (options : DissectOptions) (octets told : List ℕ) → StandsBehind self.old options octets told
            → OnOk result (TellsMore self.new options (octets ++ piece.now) told (string_bytes out.old)
            (string_bytes out.new)) }
        ensures err { OnErr result (string_bytes out.new ≡ string_bytes out.old) }
        ensures failed { OnErr result (IsDissectorClosed self.new) }
        ensures closed { IsDissectorClosed self.old → IsErr result }
        // After a rejected UA TCP message nothing more is appended, whatever comes, and nothing is
        // allocated.
        ensures rests { HasRefusedOne self.old → IsOk result × (string_bytes out.new ≡ string_bytes out.old)
            × HasRefusedOne self.new }
    {
        if self.is_refused() {
            return Ok(());
        }
        let taken = self.take_all(piece, out);
        if taken.is_err() {
            self.stop(State::Closed);
        }
        taken
    }

    /// Makes the last line, when no further bytes come.
    fn push_last(&self, line: &mut String) -> Result<(), AllocError>
        ensures last { (options : DissectOptions) (octets told : List ℕ) → StandsBehind self.now options octets told
            → OnOk result (EndsLines options octets told (string_bytes line.old) (string_bytes line.new)) }
        ensures closed { IsDissectorClosed self.now → IsErr result }
    {
        match self.state {
            State::Going => push_rest_line(line, self.place, self.reader.held()),
            State::Refused(code) => push_refused_line(
                line,
                self.teller.options.names,
                self.place,
                code,
            ),
            State::Closed => Err(AllocError),
        }
    }

    /// Appends the last line, when no further bytes come: together with what was appended before,
    /// these are the lines of all bytes taken. On an error, which means that an allocation failed
    /// now or earlier, the text is unchanged.
    pub fn finish(&self, out: &mut String) -> Result<(), AllocError>
        ensures last { (options : DissectOptions) (octets told : List ℕ) → StandsBehind self.now options octets told
            → OnOk result (EndsLines options octets told (string_bytes out.old) (string_bytes out.new)) }
        ensures err { OnErr result (string_bytes out.new ≡ string_bytes out.old) }
        ensures closed { IsDissectorClosed self.now → IsErr result }
    {
        let mut line = String::new(self.alloc);
        self.push_last(&mut line)?;
        out.push_str(&line)
    }

    /// Whether a UA TCP message was rejected among the bytes taken. What comes after it has no
    /// lines, so the last line can be printed at once.
    pub fn has_refused(&self) -> bool
        ensures refused { (options : DissectOptions) (octets told : List ℕ)
            (s : StandsBehind self.now options octets told) → result ≡ is_stopped s.are.end }
        ensures stays { (options : DissectOptions) (octets told more : List ℕ) → result ≡ true
            → StandsBehind self.now options octets told → StandsBehind self.now options (octets ++ more) told }
        ensures rests { result ≡ true → HasRefusedOne self.now }
    {
        self.is_refused()
    }

    /// The number of buffered bytes: those of an incomplete UA TCP message and those of unfinished
    /// messages. It never exceeds [`bound`](Dissector::bound).
    pub fn held(&self) -> usize
        ensures held { (options : DissectOptions) (octets told : List ℕ) → StandsBehind self.now options octets told
            → AreHeld options octets result }
        ensures bound { (options : DissectOptions) (octets told : List ℕ) → StandsBehind self.now options octets told
            → result ≤ most_buffered }
        ensures closed { IsDissectorClosed self.now → result ≡ 0 }
    {
        self.reader.held().saturating_add(self.teller.held())
    }

    /// The greatest number of buffered bytes: those of a UA TCP message of the greatest size, and
    /// of four messages of the greatest size.
    pub fn bound() -> usize
        ensures { result ≡ most_buffered }
    {
        MOST_HELD
    }
}
