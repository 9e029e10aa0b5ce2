//! The output of `ua judge` for a record of both sides of a connection.

ghost use Rattle.std.specs.Prelude.{◌≡◌, ◌++◌, ◌⊎◌, ◌||◌, ℕ, List, true, codes, string_bytes};
ghost use Rattle.std.specs.Prelude.{IfErr, IfOk, OnOk};
ghost use Rattle.ua_pair.specs.Dissecting.{StandsBehind};
ghost use Rattle.ua_pair.specs.declared.options.DissectOptions.{DissectOptions};
ghost use Rattle.ua_session.specs.declared.verdict.Verdict.TheVariants.{SomeBad};
ghost use Rattle.ua_program.specs.Judges.{AreVerdicts, HasJudged, IsPlaceOf, PrintsJudged};
ghost use Rattle.ua_program.specs.Judges.{code_of_verdict, colon_code_text, is_break, lines_behind, outcome_on};
ghost use Rattle.ua_program.specs.Judges.{printed_options, verdict_line, verdict_words};
ghost use Rattle.ua_program.specs.Printing.{PrinterStands, PrintersStand, PrintsMark, PrintsSide};
ghost use Rattle.ua_program.specs.Printing.{AddsLastLines, AddsTurns, ArePrinted, EndsSideBehind};
ghost use Rattle.ua_report.specs.Reasons.{StopsWriting};
ghost use Rattle.ua_program.specs.Recorded.{StopsReadingRecord};

use crate::turns::{Turns, read_turns};
use std::alloc::{AllocError, Global};
use std::fmt::Write as _;
use std::io::{Read, Write};
use std::rt::Files;
use ua_builtin::StatusCode;
use ua_judge::{Mark, Verdict as Judged, frame_start, judge_down, judge_up};
use ua_pair::{DissectOptions, Dissector, MOST_FIELD_OCTETS, Side};
use ua_report::{Stop, say};
use ua_session::Verdict;
use ua_texts::push_code_as;
use ua_words::JudgeRecord;

/// One side of a record, printed as far as `at`.
#[derive(Drop)]
struct Printer {
    dissector: Dissector,
    /// What stands before each of its lines.
    front: &'static str,
    at: usize,
}

impl Printer {
    /// Nothing is printed yet.
    fn new(alloc: Global, asked: &JudgeRecord<'_>, side: Side, front: &'static str) -> Printer
        ensures at { result.at ≡ 0 }
        ensures stands { (octets : List ℕ)
            → PrinterStands result (printed_options asked.now side) front.now octets }
    {
        let options = DissectOptions {
            side,
            fields: asked.fields,
            names: asked.names,
            plain: asked.plain,
            largest: MOST_FIELD_OCTETS,
        };
        Printer {
            dissector: Dissector::new(alloc, options),
            front,
            at: 0,
        }
    }

    /// Appends the lines of the bytes up to a place.
    fn print_to(
        &mut self,
        alloc: Global,
        octets: &[u8],
        place: usize,
        out: &mut String,
    ) -> Result<(), AllocError>
        ensures { (options : DissectOptions) (front : List ℕ) → PrinterStands self.old options front octets.now
            → OnOk result (PrintsSide self.old self.new options front octets.now place
            (string_bytes out.old) (string_bytes out.new)) }
    {
        let end = place.min(octets.len());
        if self.at >= end {
            return Ok(());
        }
        let mut lines = String::new(alloc);
        self.dissector.take(&octets[self.at..end], &mut lines)?;
        self.at = end;
        push_behind(self.front, lines.as_str(), out)?;
        Ok(())
    }

    /// Appends the last line of bytes that are printed.
    fn print_last(&self, alloc: Global, out: &mut String) -> Result<(), AllocError>
        ensures { (options : DissectOptions) (octets told : List ℕ)
            → StandsBehind self.now.dissector options octets told
            → OnOk result (EndsSideBehind options self.now.front.now octets (string_bytes out.old)
            (string_bytes out.new)) }
    {
        let mut lines = String::new(alloc);
        self.dissector.finish(&mut lines)?;
        push_behind(self.front, lines.as_str(), out)?;
        Ok(())
    }
}

/// Appends lines, each behind a front.
fn push_behind(front: &str, lines: &str, out: &mut String) -> Result<(), AllocError>
    ensures { OnOk result (string_bytes out.new ≡ string_bytes out.old ++ lines_behind front.now lines.now) }
{
    for line in lines.lines() {
        push_line_behind(front, line, out)?;
    }
    Ok(())
}

/// Appends a line behind a front.
fn push_line_behind(front: &str, line: &str, out: &mut String) -> Result<(), AllocError>
    ensures { OnOk result (string_bytes out.new
        ≡ string_bytes out.old ++ (front.now ++ (line.now ++ codes "\n"))) }
{
    out.push_str(front)?;
    out.push_str(line)?;
    out.push_str("\n")?;
    Ok(())
}

/// Both sides of a record, each printed as far as its place.
#[derive(Drop)]
struct Printers {
    client: Printer,
    server: Printer,
}

impl Printers {
    /// Nothing is printed yet.
    fn new(alloc: Global, asked: &JudgeRecord<'_>) -> Printers
        ensures client { result.client.at ≡ 0 }
        ensures server { result.server.at ≡ 0 }
        ensures stand { (up down : List ℕ) → PrintersStand result asked.now up down }
    {
        Printers {
            client: Printer::new(alloc, asked, Side::Client, "> "),
            server: Printer::new(alloc, asked, Side::Server, "< "),
        }
    }

    /// Appends the lines of the server's bytes up to a mark, and then those of the client's.
    fn print_to(
        &mut self,
        alloc: Global,
        turns: &Turns,
        mark: Mark,
        out: &mut String,
    ) -> Result<(), AllocError>
        ensures { (asked : JudgeRecord) → PrintersStand self.old asked turns.now.up.items turns.now.down.items
            → OnOk result (PrintsMark self.old self.new asked turns.now.up.items turns.now.down.items mark
            (string_bytes out.old) (string_bytes out.new)) }
    {
        let server = &mut self.server;
        server.print_to(alloc, turns.down.as_slice(), mark.down, out)?;
        let client = &mut self.client;
        client.print_to(alloc, turns.up.as_slice(), mark.up, out)?;
        Ok(())
    }

    /// Appends the last line of the server's bytes, and that of the client's, which are all printed.
    fn print_last(&self, alloc: Global, out: &mut String) -> Result<(), AllocError>
        ensures { (asked : JudgeRecord) (up down : List ℕ) → ArePrinted self.now asked up down
            → OnOk result (AddsLastLines asked up down (string_bytes out.old) (string_bytes out.new)) }
    {
        self.server.print_last(alloc, out)?;
        self.client.print_last(alloc, out)?;
        Ok(())
    }
}

/// Appends the lines of both sides, in the order in which their bytes were sent.
fn push_turns(
    alloc: Global,
    asked: &JudgeRecord<'_>,
    turns: &Turns,
    out: &mut String,
) -> Result<(), AllocError>
    ensures { OnOk result (AddsTurns asked.now turns.now.up.items turns.now.down.items turns.now.marks.items
        (string_bytes out.old) (string_bytes out.new)) }
{
    let mut printers = Printers::new(alloc, asked);
    for mark in &turns.marks {
        printers.print_to(alloc, turns, *mark, out)?;
    }
    let all = Mark {
        up: turns.up.len(),
        down: turns.down.len(),
    };
    printers.print_to(alloc, turns, all, out)?;
    printers.print_last(alloc, out)?;
    Ok(())
}

/// Whether a side broke the protocol.
fn is_break(verdict: &Judged) -> bool
    ensures { result ≡ is_break verdict.now }
{
    match verdict {
        Judged::Breaks { .. } => true,
        _ => false,
    }
}

/// What the line of a verdict says before its number.
fn words_of(verdict: &Judged) -> &'static str
    ensures { result.now ≡ verdict_words verdict.now }
{
    match verdict {
        Judged::Keeps => " keeps the protocol to ",
        Judged::Closes { .. } => " closes the channel at ",
        Judged::Breaks { .. } => " breaks the protocol at ",
        Judged::Refuses { .. } => " refuses the client at ",
        Judged::Stops { .. } => " is judged to ",
    }
}

/// The number in the line of a verdict on these bytes: where the frame begins that decides it, or up
/// to where they were judged.
fn place_of(octets: &[u8], verdict: &Judged) -> usize
    ensures { IsPlaceOf octets.now verdict.now result }
{
    match verdict {
        Judged::Keeps => octets.len(),
        Judged::Closes { end } | Judged::Breaks { end, .. } | Judged::Refuses { end, .. } => {
            frame_start(octets, *end)
        }
        Judged::Stops { end, .. } => *end,
    }
}

/// The StatusCode of a verdict that has one.
fn code_of(verdict: &Judged) -> Option<StatusCode>
    ensures { result ≡ code_of_verdict verdict.now }
{
    match verdict {
        Judged::Breaks { code, .. } | Judged::Refuses { code, .. } => Some(*code),
        _ => None,
    }
}

/// Appends a StatusCode after a colon, if there is one.
fn push_code(out: &mut String, names: bool, code: Option<StatusCode>) -> Result<(), AllocError>
    ensures { OnOk result (string_bytes out.new ≡ string_bytes out.old ++ colon_code_text names code) }
{
    match code {
        Some(code) => {
            out.push_str(": ")?;
            push_code_as(out, code, names)
        }
        None => Ok(()),
    }
}

/// Appends the line of a verdict on a side, with its number.
fn push_line(
    out: &mut String,
    side: &str,
    names: bool,
    place: usize,
    verdict: &Judged,
) -> Result<(), AllocError>
    ensures { OnOk result
        (string_bytes out.new ≡ string_bytes out.old ++ verdict_line side.now names place verdict.now) }
{
    out.push_str(side)?;
    out.push_str(words_of(verdict))?;
    write!(out, "{place}")?;
    push_code(out, names, code_of(verdict))?;
    out.push_str("\n")
}

/// Appends the lines of the verdicts on both sides of a record. Returns whether one broke the
/// protocol.
fn push_verdicts(
    alloc: Global,
    names: bool,
    up: &[u8],
    down: &[u8],
    marks: &[Mark],
    out: &mut String,
) -> Result<bool, AllocError>
    ensures { IfOk result (λ broken. AreVerdicts names up.now down.now marks.now broken
        (string_bytes out.old) (string_bytes out.new)) }
{
    let client = judge_up(alloc, up, down)?;
    let server = judge_down(alloc, up, down, marks)?;
    let client_place = place_of(up, &client);
    let server_place = place_of(down, &server);
    push_line(out, "client", names, client_place, &client)?;
    push_line(out, "server", names, server_place, &server)?;
    Ok(are_broken(&client, &server))
}

/// Whether one of the sides broke the protocol.
fn are_broken(client: &Judged, server: &Judged) -> bool
    ensures { result ≡ (is_break client.now || is_break server.now) }
{
    is_break(client) || is_break(server)
}

/// The verdict that counts for the status.
fn status_of(broken: bool, strict: bool) -> Verdict
    ensures outcome { result ≡ outcome_on broken strict }
    ensures strict { result ≡ SomeBad → strict ≡ true }
{
    if broken && strict {
        Verdict::SomeBad
    } else {
        Verdict::AllGood
    }
}

/// Prints the frames and messages of both sides of a record, and the verdicts on both sides.
pub(crate) fn judge_record<'a, R: Files + AllocGlobal, I: Read, O: Write>(
    rt: &R,
    asked: &JudgeRecord<'a>,
    input: &mut I,
    out: &mut O,
) -> Result<Verdict, Stop<'a>>
    ensures strict { IfOk result (λ verdict. verdict ≡ SomeBad → asked.now.strict ≡ true) }
    ensures judged { IfOk result
        (λ outcome. PrintsJudged asked.now outcome (O.contents out.old) (O.contents out.new)) }
    ensures some { OnOk result (HasJudged (O.contents out.old) (O.contents out.new)) }
    ensures stopped { IfErr result (λ stop. StopsWriting stop ⊎ (out.new ≡ out.old)) }
    ensures reasons { IfErr result
        (λ stop. StopsWriting stop ⊎ StopsReadingRecord asked.now.up asked.now.down stop) }
{
    let turns = read_turns(rt, asked, input)?;
    let mut text = String::new(rt.alloc());
    push_turns(rt.alloc(), asked, &turns, &mut text)?;
    let broken = push_verdicts(
        rt.alloc(),
        asked.names,
        turns.up.as_slice(),
        turns.down.as_slice(),
        turns.marks.as_slice(),
        &mut text,
    )?;
    say(out, text.as_str())?;
    Ok(status_of(broken, asked.strict))
}
