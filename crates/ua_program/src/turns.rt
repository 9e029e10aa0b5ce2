//! Records of both sides of a connection.

ghost use Rattle.std.specs.Prelude.{◌≡◌, ◌≢◌, ◌<◌, ◌++◌, ◌∷◌, ◌⊎◌, [], ℕ, List, None, Some};
ghost use Rattle.std.specs.Prelude.{IfErr, IfOk, MatchOption, OnOk};
ghost use Rattle.ua_program.specs.Recorded.{AddsLine, AreRecorded, IsRecord, RecordLine};
ghost use Rattle.ua_program.specs.Recorded.{StopsReadingRecord, WritesNoRecord, WritesRecord, hex_octets, line_read};
ghost use Rattle.ua_program.specs.Recorded.RecordLine.{Up, Down};
ghost use Rattle.ua_report.specs.declared.fault.Fault.TheVariants.{NoMemory, NotHexadecimal};

use std::alloc::{AllocError, Global};
use std::io::Read;
use std::rt::Files;
use ua_judge::{Mark, guess_marks};
use ua_report::{Fault, HexPieces, Stop, read_file, read_nodes};
use ua_words::JudgeRecord;

/// What both sides of a connection sent, and in which order.
#[derive(Debug, Drop)]
pub struct Turns {
    pub up: Vec<u8>,
    pub down: Vec<u8>,
    /// How many bytes the server had sent where the client had sent so many.
    pub marks: Vec<Mark>,
}

impl Turns {
    /// Nothing was sent.
    fn new(alloc: Global) -> Turns
        ensures { AreRecorded [] result.up.items result.down.items result.marks.items }
    {
        Turns {
            up: Vec::new(alloc),
            down: Vec::new(alloc),
            marks: Vec::new(alloc),
        }
    }

    /// Adds bytes of the client.
    fn push_up(&mut self, octets: &[u8]) -> Result<(), AllocError>
        ensures { (before : List RecordLine)
            → AreRecorded before self.old.up.items self.old.down.items self.old.marks.items
            → OnOk result (AreRecorded (before ++ Up octets.now ∷ [])
            self.new.up.items self.new.down.items self.new.marks.items) }
    {
        self.up.extend_from_slice(octets)?;
        self.marks.push(Mark {
            up: self.up.len(),
            down: self.down.len(),
        })?;
        Ok(())
    }

    /// Adds bytes of the server.
    fn push_down(&mut self, octets: &[u8]) -> Result<(), AllocError>
        ensures { (before : List RecordLine)
            → AreRecorded before self.old.up.items self.old.down.items self.old.marks.items
            → OnOk result (AreRecorded (before ++ Down octets.now ∷ [])
            self.new.up.items self.new.down.items self.new.marks.items) }
    {
        self.down.extend_from_slice(octets)?;
        Ok(())
    }

    /// Adds a line: `> HEX` has bytes of the client, `< HEX` those of the server.
    fn push_line<'a>(&mut self, alloc: Global, file: &'a str, line: &str) -> Result<(), Fault<'a>>
        ensures adds { (before : List RecordLine)
            → AreRecorded before self.old.up.items self.old.down.items self.old.marks.items
            → OnOk result (AddsLine line.now before self.new.up.items self.new.down.items self.new.marks.items) }
        ensures faults { IfErr result (λ fault. (fault ≡ NoMemory)
            ⊎ ((fault ≡ NotHexadecimal file.entry) × (line_read line.now ≡ None))) }
    {
        if let Some(digits) = digits_behind(line, '>') {
            let octets = octets_of(alloc, file, digits)?;
            return Ok(self.push_up(octets.as_slice())?);
        }
        if let Some(digits) = digits_behind(line, '<') {
            let octets = octets_of(alloc, file, digits)?;
            return Ok(self.push_down(octets.as_slice())?);
        }
        if line.is_empty() {
            Ok(())
        } else {
            Err(Fault::NotHexadecimal(file))
        }
    }
}

/// What follows the first character of a line, where that is this one.
fn digits_behind(line: &str, first: char) -> Option<&str>
    requires { first < 128 }
    ensures { MatchOption result ((digits : List ℕ) → line.now ≢ first ∷ digits)
        (λ digits. line.now ≡ first ∷ digits.now) }
{
    line.strip_prefix(first)
}

/// The bytes of the digits in a line.
fn octets_of<'a>(alloc: Global, file: &'a str, digits: &str) -> Result<Vec<u8>, Fault<'a>>
    ensures octets { IfOk result (λ octets. hex_octets digits.now ≡ Some octets.items) }
    ensures faults { IfErr result (λ fault. (fault ≡ NoMemory)
        ⊎ ((fault ≡ NotHexadecimal file.entry) × (hex_octets digits.now ≡ None))) }
{
    let mut pieces = HexPieces::new();
    let octets = pieces.take(alloc, file, digits.as_bytes())?;
    if pieces.is_whole() {
        Ok(octets)
    } else {
        Err(Fault::NotHexadecimal(file))
    }
}

/// The record whose lines a text has, in their order.
fn parse_turns<'a>(alloc: Global, file: &'a str, text: &str) -> Result<Turns, Fault<'a>>
    ensures turns { IfOk result (λ turns. WritesRecord text.now turns.up.items turns.down.items turns.marks.items) }
    ensures faults { IfErr result (λ fault. (fault ≡ NoMemory)
        ⊎ ((fault ≡ NotHexadecimal file.entry) × WritesNoRecord text.now)) }
{
    let mut turns = Turns::new(alloc);
    for line in text.lines() {
        turns.push_line(alloc, file, line)?;
    }
    Ok(turns)
}

/// The record of a file of lines, or of the input where it is named `-`, or of two files of bytes,
/// which tell no order.
pub(crate) fn read_turns<'a, R: Files + AllocGlobal, I: Read>(
    rt: &R,
    asked: &JudgeRecord<'a>,
    input: &mut I,
) -> Result<Turns, Stop<'a>>
    ensures record { IfOk result (λ turns. IsRecord asked.now.down turns.up.items turns.down.items turns.marks.items) }
    ensures stopped { IfErr result (λ stop. StopsReadingRecord asked.now.up asked.now.down stop) }
{
    let Some(file) = asked.down else {
        let text = read_nodes(rt, asked.up, false, input)?;
        return Ok(parse_turns(rt.alloc(), asked.up, text.as_str())?);
    };
    let up = read_file(rt, asked.up)?;
    let down = read_file(rt, file)?;
    let marks = guess_marks(rt.alloc(), up.as_slice(), down.as_slice())?;
    Ok(Turns { up, down, marks })
}
