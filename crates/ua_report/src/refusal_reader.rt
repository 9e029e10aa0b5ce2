//! What a server says when it refuses a connection.

ghost use Rattle.std.specs.Prelude.{◌≡◌, ◌⊎◌, Some, IfOk, IfSome};
ghost use Rattle.ua_frame.specs.Messages.{error};
ghost use Rattle.ua_frame.specs.Whole.{whole_of};
ghost use Rattle.ua_report.specs.Known.{IsErrorFrame};

use std::alloc::{AllocError, Global};
use ua_builtin::Wire;
use ua_frame::{ErrorFrame, Frame, FrameReader, Gate, Kind};

/// The largest frame that is read for its reason: that which the program's client takes.
const LARGEST: u32 = 65535;

/// Reads the frames that a server sends, up to an ERR frame, and keeps that one. It reads no
/// further after a frame that no client takes, or after a failed allocation.
#[derive(Debug, Drop)]
pub struct RefusalReader {
    alloc: Global,
    /// The frames, unless no more are read.
    frames: Option<FrameReader>,
    /// The ERR frame, once it came.
    refusal: Option<ErrorFrame>,
}

/// The Error that the body of an ERR frame is, if it is one.
fn read_error(alloc: Global, body: &[u8]) -> Result<Option<ErrorFrame>, AllocError>
    ensures { IfOk result (λ found. found ≡ whole_of error body.now) }
{
    ErrorFrame::read_whole(alloc, body)
}

impl RefusalReader {
    /// A reader; one that reads nothing where no reason is wanted.
    pub fn new(alloc: Global, wanted: bool) -> RefusalReader {
        let gate = Gate::new(LARGEST)
            .taking(Kind::Ack)
            .taking(Kind::Err)
            .taking(Kind::Opn)
            .taking(Kind::Msg)
            .taking(Kind::Clo);
        let frames = if wanted {
            Some(FrameReader::new(alloc, gate))
        } else {
            None
        };
        RefusalReader {
            alloc,
            frames,
            refusal: None,
        }
    }

    /// The Reason of the ERR frame that arrived, if it has a text.
    pub fn reason(&self) -> Option<&str> {
        let Some(error) = &self.refusal else {
            return None;
        };
        match error.reason.as_str() {
            Some(text) if !text.is_empty() => Some(text),
            _ => None,
        }
    }

    /// Keeps the Error of an ERR frame, after which no frames are read.
    fn note(&mut self, frame: &Frame)
        ensures { IfSome self.new.refusal (λ e. (self.old.refusal ≡ Some e) ⊎ IsErrorFrame frame.now e) }
    {
        if frame.kind != Kind::Err {
            return;
        }
        self.frames = None;
        if let Ok(refusal) = read_error(self.alloc, &frame.body) {
            self.refusal = refusal;
        }
    }

    /// Takes bytes up to the end of a frame, and returns how many; none where no more are read.
    fn take_next(&mut self, piece: &[u8]) -> Option<usize> {
        let Some(frames) = &mut self.frames else {
            return None;
        };
        match frames.take(piece) {
            Ok((taken, Some(frame))) => {
                self.note(&frame);
                Some(taken)
            }
            Ok((taken, None)) => Some(taken),
            Err(_) => None,
        }
    }

    /// Takes the next bytes that arrived.
    pub fn take(&mut self, piece: &[u8]) {
        let mut rest = piece;
        // Each turn takes a byte at least, so these are enough.
        for _turns in 0..piece.len() {
            let Some(taken) = self.take_next(rest) else {
                return;
            };
            rest = rest.get(taken..).unwrap_or(&[]);
        }
    }
}
