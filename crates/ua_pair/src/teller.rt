//! The lines of the UA TCP messages of one side.

ghost use Rattle.std.specs.Prelude.{◌≡◌, ◌≤◌, ◌∷◌, ◌++◌, [], ℕ, List, Some, IfOk, OnOk};
ghost use Rattle.std.specs.Prelude.{string_bytes};
ghost use Rattle.ua_builtin.specs.Reasons.{first_reason};
ghost use Rattle.ua_frame.specs.declared.frame.Frame.{Frame};
ghost use Rattle.ua_frame.specs.declared.kind.Kind.TheVariants.{Msg, Opn, Clo};
ghost use Rattle.ua_frame.specs.Frames.{IsSized, LetsIn, frame_size as size_of_frame};
ghost use Rattle.ua_frame.specs.Whole.{whole_of};
ghost use Rattle.ua_chunk.specs.Open.{open_octets};
ghost use Rattle.ua_pair.specs.Before.{message_chunks};
ghost use Rattle.ua_pair.specs.Dissected.{every_frame};
ghost use Rattle.ua_pair.specs.Telling.{ArePendingLines, TellerStands};
ghost use Rattle.ua_pair.specs.Telling.{JudgesFrameTelling, JudgesKind};
ghost use Rattle.ua_pair.specs.Refused.{greeting_reasons, frame_reasons};
ghost use Rattle.ua_pair.specs.Told.{IsFrameText};
ghost use Rattle.ua_pair.specs.Told.{line_if, place_behind};

use crate::delivered::{push_delivered, push_opened, without_pending};
use crate::fault::DissectFault;
use crate::line::{GreetingLine, push_chunk_line, push_opening_line};
use crate::options::DissectOptions;
use crate::pending::Pending;
use std::alloc::Global;
use ua_builtin::StatusCode;
use ua_chunk::{Assembler, read_chunk, read_open};
use ua_frame::{Ack, ErrorFrame, Frame, HEADER_LEN, Hello, Kind};

/// The most bytes of a message.
const MOST_OCTETS: u32 = 16777216;

/// The most chunks of a message.
const MOST_CHUNKS: u32 = 4096;

/// Prints the UA TCP messages that one side sent, one after the other. It keeps the unfinished
/// messages and the last SequenceNumber. After an error, discard it.
#[derive(Debug, Drop)]
pub struct Teller {
    alloc: Global,
    pub options: DissectOptions,
    assembler: Assembler,
}

/// The size of a UA TCP message in bytes, with its header.
pub(crate) fn frame_size(frame: &Frame) -> usize
    requires { IsSized frame.now }
    ensures { result ≡ size_of_frame frame.now }
{
    HEADER_LEN + frame.body.len()
}

/// Appends the line of a HEL, an ACK or an ERR with this body, in a UA TCP message of this size at
/// this offset.
fn push_greeting<T: GreetingLine>(
    alloc: Global,
    body: &[u8],
    names: bool,
    place: usize,
    size: usize,
    lines: &mut String,
) -> Result<(), DissectFault>
    ensures { JudgesFrameTelling (first_reason (greeting_reasons (whole_of T.message body.now)))
        (λ text. text ≡ line_if (T.line names place size) (whole_of T.message body.now)) result (string_bytes lines.old)
        (string_bytes lines.new) }
{
    let Some(message) = T::read_whole(alloc, body)? else {
        return Err(DissectFault::Refused(StatusCode::BAD_DECODING_ERROR));
    };
    message.push_line(lines, names, place, size)?;
    Ok(())
}

impl Teller {
    /// Prints what one side sends, from its first UA TCP message on.
    pub fn new(alloc: Global, options: DissectOptions) -> Teller
        ensures stands { TellerStands result [] }
        ensures options { result.options ≡ options }
    {
        Teller {
            alloc,
            options,
            assembler: Assembler::new(alloc, MOST_OCTETS, MOST_CHUNKS, None),
        }
    }

    /// Appends the line of a CLO at this offset.
    fn push_close(
        &mut self,
        frame: Frame,
        place: usize,
        lines: &mut String,
    ) -> Result<(), DissectFault>
        requires kind { frame.kind ≡ Clo }
        requires sized { IsSized frame }
        requires let_in { LetsIn every_frame frame }
        ensures judged { (before : List Frame) → TellerStands self.old before →
            JudgesKind Clo self.old.options before place frame result (string_bytes lines.old)
            (string_bytes lines.new) }
        ensures stands { (before : List Frame) → TellerStands self.old before
            → OnOk result (TellerStands self.new (before ++ frame ∷ [])) }
        ensures options { self.new.options ≡ self.old.options }
    {
        let size = frame_size(&frame);
        let chunk = read_chunk(frame);
        if let Err(fault) = self.assembler.step(chunk.sequence) {
            return Err(DissectFault::from_chunk(self.options.side, fault));
        }
        push_chunk_line(lines, "CLO", place, size, &chunk)?;
        Ok(())
    }

    /// Appends the line of a MSG at this offset and that of the message that it completes, whose
    /// fields are pending then.
    fn push_message(
        &mut self,
        frame: Frame,
        place: usize,
        lines: &mut String,
    ) -> Result<Option<Pending>, DissectFault>
        requires kind { frame.kind ≡ Msg }
        requires sized { IsSized frame }
        requires let_in { LetsIn every_frame frame }
        ensures judged { (before : List Frame) (more : List ℕ) → TellerStands self.old before
            → IfOk result (λ pending. ArePendingLines self.old.options pending more) →
            JudgesKind Msg self.old.options before place frame result (string_bytes lines.old)
            (string_bytes lines.new ++ more) }
        ensures stands { (before : List Frame) → TellerStands self.old before
            → OnOk result (TellerStands self.new (before ++ frame ∷ [])) }
        ensures options { self.new.options ≡ self.old.options }
    {
        let size = frame_size(&frame);
        let chunk = read_chunk(frame);
        push_chunk_line(lines, "MSG", place, size, &chunk)?;
        match self.assembler.accept(chunk) {
            Ok(Some(delivered)) => Ok(push_delivered(self.alloc, &self.options, delivered, lines)?),
            Ok(None) => Ok(None),
            Err(fault) => Err(DissectFault::from_chunk(self.options.side, fault)),
        }
    }

    /// Appends the line of an OPN at this offset and that of its body, whose fields are pending
    /// then.
    fn push_opening(
        &mut self,
        frame: Frame,
        place: usize,
        lines: &mut String,
    ) -> Result<Option<Pending>, DissectFault>
        requires kind { frame.kind ≡ Opn }
        requires sized { IsSized frame }
        ensures judged { (before : List Frame) (more : List ℕ) → TellerStands self.old before
            → IfOk result (λ pending. ArePendingLines self.old.options pending more) →
            JudgesKind Opn self.old.options before place frame result (string_bytes lines.old)
            (string_bytes lines.new ++ more) }
        ensures stands { (before : List Frame) → TellerStands self.old before
            → OnOk result (TellerStands self.new (before ++ frame ∷ [])) }
        ensures options { self.new.options ≡ self.old.options }
    {
        let size = frame_size(&frame);
        let chunk = match read_open(frame) {
            Ok(chunk) => chunk,
            Err(fault) => return Err(DissectFault::from_opening(fault)),
        };
        if let Err(fault) = self.assembler.step(chunk.sequence) {
            return Err(DissectFault::from_chunk(self.options.side, fault));
        }
        push_opening_line(lines, place, size, &chunk)?;
        let pending = push_opened(self.alloc, &self.options, chunk, lines)?;
        Ok(Some(pending))
    }

    /// Appends the lines of the next UA TCP message, which begins at this offset, without those of
    /// the fields of the message that is returned.
    pub(crate) fn push_frame(
        &mut self,
        frame: Frame,
        place: usize,
        lines: &mut String,
    ) -> Result<Option<Pending>, DissectFault>
        requires sized { IsSized frame }
        requires let_in { LetsIn every_frame frame }
        ensures judged { (before : List Frame) (more : List ℕ) → TellerStands self.old before
            → place ≡ place_behind before
            → IfOk result (λ pending. ArePendingLines self.old.options pending more) →
            JudgesFrameTelling (first_reason (frame_reasons self.old.options.side before frame))
            (IsFrameText self.old.options before frame) result (string_bytes lines.old)
            (string_bytes lines.new ++ more) }
        ensures stands { (before : List Frame) → TellerStands self.old before
            → OnOk result (TellerStands self.new (before ++ frame ∷ [])) }
        ensures options { self.new.options ≡ self.old.options }
    {
        let size = frame_size(&frame);
        let names = self.options.names;
        match frame.kind {
            Kind::Hel => without_pending(push_greeting::<Hello>(
                self.alloc,
                &frame.body,
                names,
                place,
                size,
                lines,
            )),
            Kind::Ack => without_pending(push_greeting::<Ack>(
                self.alloc,
                &frame.body,
                names,
                place,
                size,
                lines,
            )),
            Kind::Err => without_pending(push_greeting::<ErrorFrame>(
                self.alloc,
                &frame.body,
                names,
                place,
                size,
                lines,
            )),
            Kind::Msg => self.push_message(frame, place, lines),
            Kind::Opn => self.push_opening(frame, place, lines),
            Kind::Clo => without_pending(self.push_close(frame, place, lines)),
        }
    }

    /// The number of buffered bytes of unfinished messages.
    pub fn held(&self) -> usize
        ensures held { (before : List Frame) → TellerStands self.now before
            → result ≡ open_octets (message_chunks before) }
        ensures bound { (before : List Frame) → TellerStands self.now before → result ≤ 67108864 }
    {
        self.assembler.held()
    }
}
