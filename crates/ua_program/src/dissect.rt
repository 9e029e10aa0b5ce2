//! The output of `ua dissect` for a source.

ghost use Rattle.std.specs.Prelude.{◌≡◌, ◌++◌, ◌⊎◌, ◌<◌, ℕ, List, length, true};
ghost use Rattle.std.specs.Prelude.{false, cond, string_bytes, IfOk, IfErr, OnOk};
ghost use Rattle.std.specs.Io.KnownBytes.{Appends};
ghost use Rattle.ua_pair.specs.Dissecting.{StandsBehind};
ghost use Rattle.ua_pair.specs.declared.options.DissectOptions.{DissectOptions};
ghost use Rattle.ua_session.specs.declared.verdict.Verdict.TheVariants.{AllGood, SomeBad};
ghost use Rattle.ua_report.specs.Digits.{HoldsNone, HoldsNever, HoldsOctets};
ghost use Rattle.ua_program.specs.Dissects.{DissectsAll, EndsFile, HasBegunDissecting, IsJudged, PrintsNext};
ghost use Rattle.ua_program.specs.Dissects.{ReadsIntoFragment, StopsLast, StopsNext};
ghost use Rattle.ua_program.specs.Dissects.{StopsReading, TellsPiece, ToldSoFar};
ghost use Rattle.ua_report.specs.declared.fault.Fault.TheVariants.{CannotRead, NoMemory, NotHexadecimal};
ghost use Rattle.ua_report.specs.Reasons.{StopsWriting};

use std::alloc::Global;
use std::io::{ErrorKind, Read, Write};
use ua_pair::Dissector;
use ua_report::{Fault, HexPieces, Stop, say, say_lines};
use ua_session::Verdict;
use ua_words::Dissect;

/// The maximum number of bytes of one read.
const PIECE: usize = 65536;

/// Appends the lines of what is complete with one read of a file's content.
fn push_piece<'a>(
    alloc: Global,
    asked: &Dissect<'a>,
    digits: &mut HexPieces,
    dissector: &mut Dissector,
    piece: &[u8],
    text: &mut String,
) -> Result<(), Fault<'a>>
    ensures lines { (content told : List ℕ)
        → ToldSoFar asked.now.hex asked.now.options digits.old.half dissector.old content told
        → OnOk result (TellsPiece asked.now.hex asked.now.options digits.new.half dissector.new (content ++ piece.now)
        told (string_bytes text.old) (string_bytes text.new)) }
    ensures faults { (content told : List ℕ)
        → ToldSoFar asked.now.hex asked.now.options digits.old.half dissector.old content told
        → IfErr result
        (λ fault. (fault ≡ NoMemory)
        ⊎ ((fault ≡ NotHexadecimal asked.now.file) × HoldsNever asked.now.hex (content ++ piece.now))) }
{
    if asked.hex {
        let octets = digits.take(alloc, asked.file, piece)?;
        dissector.take(octets.as_slice(), text)?;
    } else {
        dissector.take(piece, text)?;
    }
    Ok(())
}

/// Appends the last line of a file whose content is read.
fn push_last<'a>(
    asked: &Dissect<'a>,
    digits: &HexPieces,
    dissector: &Dissector,
    text: &mut String,
) -> Result<(), Fault<'a>>
    ensures lines { (content told : List ℕ)
        → ToldSoFar asked.now.hex asked.now.options digits.now.half dissector.now content told
        → OnOk result (EndsFile asked.now.hex asked.now.options content told (string_bytes text.old)
        (string_bytes text.new)) }
    ensures faults { (content told : List ℕ)
        → ToldSoFar asked.now.hex asked.now.options digits.now.half dissector.now content told
        → IfErr result
        (λ fault. (fault ≡ NoMemory)
        ⊎ ((fault ≡ NotHexadecimal asked.now.file) × HoldsNone asked.now.hex content)) }
    ensures whole { (content told : List ℕ)
        → (s : ToldSoFar asked.now.hex asked.now.options digits.now.half dissector.now content told)
        → OnOk result (HoldsOctets asked.now.hex content s.octets) }
{
    if asked.hex && !digits.is_whole() {
        return Err(Fault::NotHexadecimal(asked.file));
    }
    dissector.finish(text)?;
    Ok(())
}

/// The number of bytes of one read, 0 at the end; nothing where the call was interrupted.
fn read_piece<'a, I: Read>(
    file: &'a str,
    source: &mut I,
    piece: &mut [u8],
) -> Result<Option<usize>, Fault<'a>>
    ensures read { IfOk result (λ n. ReadsIntoFragment n (I.remaining source.old) (I.remaining source.new) piece.new) }
    ensures faults { IfErr result (λ fault. (fault ≡ NoMemory) ⊎ (fault ≡ CannotRead file.entry)) }
{
    match source.read(piece) {
        Ok(n) => Ok(Some(n)),
        Err(error) => match error.kind() {
            ErrorKind::Interrupted => Ok(None),
            ErrorKind::OutOfMemory => Err(Fault::NoMemory),
            _ => Err(Fault::CannotRead(file)),
        },
    }
}

/// Prints a text and after it the last line of a file whose content is read, or of one in which a
/// frame is refused. Returns whether one is.
fn print_last<'a, O: Write>(
    asked: &Dissect<'a>,
    digits: &HexPieces,
    dissector: &Dissector,
    text: &mut String,
    out: &mut O,
) -> Result<Verdict, Stop<'a>>
    ensures prints { (content told : List ℕ)
        → ToldSoFar asked.now.hex asked.now.options digits.now.half dissector.now content told
        → IfOk result (λ verdict. EndsFile asked.now.hex asked.now.options content told (string_bytes text.old)
        (string_bytes text.new) × IsJudged verdict asked.now.hex asked.now.options content) }
    ensures added { OnOk result (Appends (O.contents out.old) (O.contents out.new) (string_bytes text.new)) }
    ensures kept { IfErr result (λ stop. StopsWriting stop ⊎ (out.new ≡ out.old)) }
    ensures stopped { (content told : List ℕ)
        → ToldSoFar asked.now.hex asked.now.options digits.now.half dissector.now content told
        → IfErr result (λ stop. StopsLast asked.now.hex asked.now.file content stop) }
{
    push_last(asked, digits, dissector, text)?;
    say(out, text)?;
    Ok(verdict_of(dissector.has_refused()))
}

/// The verdict on bytes: whether a frame among them is refused.
fn verdict_of(has_refused: bool) -> Verdict
    ensures { result ≡ cond has_refused SomeBad AllGood }
{
    if has_refused {
        Verdict::SomeBad
    } else {
        Verdict::AllGood
    }
}

/// Whether a frame is refused in a file of raw bytes: there is no output for the bytes that follow.
fn is_told(asked: &Dissect<'_>, dissector: &Dissector) -> bool
    ensures plain { result ≡ true → asked.now.hex ≡ false }
    ensures stays { (options : DissectOptions) (octets told more : List ℕ) → result ≡ true
        → StandsBehind dissector.now options octets told → StandsBehind dissector.now options (octets ++ more) told }
{
    !asked.hex && dissector.has_refused()
}

/// How far a source is dissected.
#[derive(Drop)]
struct Dissection {
    /// How far digits are read, where they stand for the bytes.
    digits: HexPieces,
    dissector: Dissector,
    /// The lines that are printed next.
    text: String,
}

/// Reads once more, and prints the lines of what is complete by then; at the end, or at a frame
/// that is refused, prints the last line and returns whether one is refused. Digits are read to
/// their end.
fn print_next<'a, I: Read, O: Write>(
    alloc: Global,
    asked: &Dissect<'a>,
    source: &mut I,
    dissection: &mut Dissection,
    piece: &mut [u8],
    out: &mut O,
) -> Result<Option<Verdict>, Stop<'a>>
    requires room { 0 < length piece.old }
    ensures prints { (content told : List ℕ)
        → ToldSoFar asked.now.hex asked.now.options dissection.old.digits.half dissection.old.dissector content told
        → IfOk result (λ ended. PrintsNext ended asked.now.hex asked.now.options dissection.new.digits.half
        dissection.new.dissector content told (I.remaining source.old) (I.remaining source.new) (O.contents out.old)
        (O.contents out.new)) }
    ensures kept { IfErr result (λ stop. StopsWriting stop ⊎ (out.new ≡ out.old)) }
    ensures stopped { (content told : List ℕ)
        → ToldSoFar asked.now.hex asked.now.options dissection.old.digits.half dissection.old.dissector content told
        → IfErr result (λ stop. StopsNext asked.now.hex asked.now.file content (I.remaining source.old) stop) }
{
    let Dissection {
        digits,
        dissector,
        text,
    } = dissection;
    text.clear();
    let Some(n) = read_piece(asked.file, source, piece)? else {
        return Ok(None);
    };
    if n == 0 {
        return Ok(Some(print_last(asked, digits, dissector, text, out)?));
    }
    push_piece(alloc, asked, digits, dissector, &piece[..n], text)?;
    let done = is_told(asked, dissector);
    if done {
        return Ok(Some(print_last(asked, digits, dissector, text, out)?));
    }
    say_lines(out, text)?;
    Ok(None)
}

/// Prints the lines of all that a source contains, each as soon as what it describes is complete,
/// and returns whether a frame is refused. After such a frame it reads no further, except for the
/// digits of a file, which are all checked. A fault that stops it is returned after the lines of
/// what was read before are printed. A source without an end within 18446744073709551615 reads
/// cannot be read.
pub(crate) fn dissect_source<'a, I: Read, O: Write>(
    alloc: Global,
    asked: &Dissect<'a>,
    source: &mut I,
    out: &mut O,
) -> Result<Verdict, Stop<'a>>
    ensures lines { IfOk result (λ verdict. DissectsAll verdict asked.now.hex asked.now.options (I.remaining source.old)
        (I.remaining source.new) (O.contents out.old) (O.contents out.new)) }
    ensures begun { IfErr result (λ stop. StopsWriting stop ⊎ HasBegunDissecting asked.now.hex asked.now.options
        (I.remaining source.old) (O.contents out.old) (O.contents out.new)) }
    ensures stopped { IfErr result (λ stop. StopsReading asked.now.hex asked.now.file (I.remaining source.old) stop) }
{
    let digits = HexPieces::new();
    let dissector = Dissector::new(alloc, asked.options);
    let mut dissection = Dissection {
        digits,
        dissector,
        text: String::new(alloc),
    };
    let mut piece = [0u8; PIECE];
    for _reads in 0..u64::MAX {
        let ended = print_next(alloc, asked, source, &mut dissection, &mut piece, out)?;
        if let Some(verdict) = ended {
            return Ok(verdict);
        }
    }
    Err(Stop::Fault(Fault::CannotRead(asked.file)))
}
