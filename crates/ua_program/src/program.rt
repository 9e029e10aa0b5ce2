//! The program's commands.

ghost use Rattle.std.specs.Prelude.{◌≡◌, ◌≤◌, ◌≢◌, ◌⊎◌, ◌↔◌, Any, IsTrue, codes, true, false, IfErr, IfOk, OnOk};
ghost use Rattle.std.specs.IoError.{error_kind};
ghost use Rattle.std.specs.declared.io.ErrorKind.TheVariants.{OutOfMemory};
ghost use Rattle.ua_session.specs.declared.verdict.Verdict.TheVariants.{AllGood, SomeBad};
ghost use Rattle.ua_program.specs.Words.{IsStrict, MayTell, SaysWhy};
ghost use Rattle.ua_program.specs.Printed.{HasBegun, HasDissected, HasPrinted, HasToldSome};
ghost use Rattle.ua_report.specs.Reasons.{StopsWriting};

use crate::ask::{counted, endpoints, read, write};
use crate::asking::ask_server;
use crate::dissect::dissect_source;
use crate::judge::judge_record;
use crate::looping::run_files;
use crate::version::version_line;
use clap::error::ErrorKind;
use std::alloc::{AllocError, Global};
use std::convert::AsStr;
use std::io;
use std::io::{Read, Write};
use std::net::Net;
use std::rt::Files;
use std::time::Clock;
use ua_report::{Fault, Reason, Stop, Telling, Watched, open_file, print, push_word, say};
use ua_serving::serve_connections;
use ua_session::Verdict;
use ua_words::{BadWord, Dissect, Parsed, Task, parse};

/// Runs the program on its words, of which the first is its name. The input is read only where the
/// words ask for it. The status is 0 where the command succeeded; 1 where it met a fault or a
/// writer failed; 2 where the words don't parse; and 3 where `--strict` is among the words and the
/// command succeeded, but a StatusCode that it printed is bad or a frame that it dissected is
/// refused.
pub fn run<S: AsStr, R: Files + Net + Clock + AllocGlobal, I: Read, O: Write, E: Write>(
    rt: &R,
    words: &[S],
    input: &mut I,
    out: &mut O,
    err: &mut E,
) -> u8
    ensures status { result ≤ 3 }
    ensures strict { result ≡ 3 → Any (λ word. S.text word ≡ codes "--strict") words.now }
    ensures done { (result ≡ 0) ⊎ (result ≡ 3) → HasPrinted (O.contents out.old) (O.contents out.new) }
    ensures silent { (result ≡ 0) ⊎ (result ≡ 3) → (err.new ≡ err.old) ⊎ MayTell (λ word. S.text word) words.now }
    ensures refused { result ≡ 2 → out.new ≡ out.old }
    ensures streams { (out.new ≡ out.old) ⊎ (err.new ≡ err.old) ⊎ HasBegun (O.contents out.old) (O.contents out.new)
        ⊎ MayTell (λ word. S.text word) words.now ⊎ SaysWhy (λ word. S.text word) words.now }
{
    let Parsed { task, why } = match parse(rt.alloc(), words) {
        Ok(parsed) => parsed,
        Err(error) => return refuse(rt.alloc(), &error, err),
    };
    let task = match task {
        Ok(task) => task,
        Err(bad) => return tell_word(rt.alloc(), bad, why, err),
    };
    let telling = Telling {
        alloc: rt.alloc(),
        why,
        aloud: may_tell(words),
    };
    match perform(rt, task, telling, input, out, err) {
        Ok(verdict) => status_of(words, verdict),
        Err(stop) => tell_stop(words, telling, &stop, err),
    }
}

/// Whether a word asks for all connections, or for the node file to be followed: `ua serve` may
/// then report a fault and go on.
fn may_tell<S: AsStr>(words: &[S]) -> bool
    ensures { result ≡ true → MayTell (λ word. S.text word) words.now }
{
    has_word(words, "all") || has_word(words, "--connections=all") || has_word(words, "--live")
}

/// Prints why a command stopped, and the reason that is known of it if that is asked for. Where the
/// output cannot be written, that is printed, with its reason alone. The status is 1.
fn tell_stop<S: AsStr, E: Write>(words: &[S], telling: Telling, stop: &Stop<'_>, err: &mut E) -> u8
    ensures status { result ≡ 1 }
    ensures silent { StopsWriting stop.now → (err.new ≡ err.old) ⊎ SaysWhy (λ word. S.text word) words.now }
{
    match stop {
        // That the word is there where reasons are told is known, but by no clause.
        Stop::Output(error) if telling.why && has_word(words, "--why") => {
            telling.tell_why(&Fault::CannotWrite, Some(&Reason::System(*error)), err)
        }
        Stop::Output(_) => 1,
        _ => telling.tell(stop, err),
    }
}

/// The status of a command that is done.
fn status_of<S: AsStr>(words: &[S], verdict: Verdict) -> u8
    ensures status { (result ≡ 0) ⊎ (result ≡ 3) }
    ensures strict { result ≡ 3 → Any (λ word. S.text word ≡ codes "--strict") words.now }
    ensures good { verdict ≡ AllGood → result ≡ 0 }
    ensures bad { verdict ≡ SomeBad → (result ≡ 3) ↔ Any (λ word. S.text word ≡ codes "--strict") words.now }
{
    match verdict {
        // That the word is there is known, but by no clause.
        Verdict::SomeBad if has_word(words, "--strict") => 3,
        _ => 0,
    }
}

/// Whether one of the words is this one.
fn has_word<S: AsStr>(words: &[S], wanted: &str) -> bool
    ensures { IsTrue result ↔ Any (λ word. S.text word ≡ wanted.now) words.now }
{
    words.iter().any(|word| word.as_str() == wanted)
}

/// Does what the words ask for.
fn perform<'a, R: Files + Net + Clock + AllocGlobal, I: Read, O: Write, E: Write>(
    rt: &R,
    task: Task<'a>,
    telling: Telling,
    input: &mut I,
    out: &mut O,
    err: &mut E,
) -> Result<Verdict, Stop<'a>>
    ensures done { OnOk result (HasPrinted (O.contents out.old) (O.contents out.new)) }
    ensures strict { IfOk result (λ verdict. verdict ≡ SomeBad → IsStrict task.entry) }
    ensures stopped { IfErr result (λ stop. StopsWriting stop ⊎ (out.new ≡ out.old)
        ⊎ HasBegun (O.contents out.old) (O.contents out.new)) }
    ensures quiet { telling.aloud ≡ false → err.new ≡ err.old }
{
    match task {
        Task::Read(asked) => read(rt, &asked, telling.why, out),
        Task::Write(asked) => write(rt, &asked, telling.why, out),
        Task::Ask(asked) => ask_server(rt, &asked, telling.why, input, out),
        Task::Loop(asked) => run_files(rt, &asked, input, out),
        Task::Dissect(asked) => dissect(rt, &asked, input, out),
        Task::Judge(asked) => judge_record(rt, &asked, input, out),
        Task::Serve(asked) => match serve_connections(rt, &asked, input, out, telling, err) {
            Ok(()) => Ok(Verdict::AllGood),
            Err(stop) => Err(stop),
        },
        Task::Endpoints(asked) => match endpoints(rt, &asked, telling.why, out) {
            Ok(()) => Ok(Verdict::AllGood),
            Err(stop) => Err(stop),
        },
        Task::Version => match say(out, version_line()) {
            Ok(()) => Ok(Verdict::AllGood),
            Err(stop) => Err(stop),
        },
    }
}

/// Prints why words don't parse. The status is 2, or 1 where an allocation or `err` fails.
fn refuse<E: Write>(alloc: Global, error: &clap::Error, err: &mut E) -> u8
    ensures { (result ≡ 1) ⊎ (result ≡ 2) }
{
    if error.kind() == ErrorKind::OutOfMemory {
        return print(err, "ua: no memory\n", 1);
    }
    match format!(in alloc; "{error}") {
        Ok(text) => print(err, text.as_str(), 2),
        Err(_) => print(err, "ua: no memory\n", 1),
    }
}

/// Prints that a word is not valid at its place, and with `why` the word. The status is 2, or 1
/// where an allocation or `err` fails.
fn tell_word<E: Write>(alloc: Global, bad: BadWord<'_>, why: bool, err: &mut E) -> u8
    ensures { (result ≡ 1) ⊎ (result ≡ 2) }
{
    match word_text(alloc, bad, why) {
        Ok(text) => print(err, text.as_str(), 2),
        Err(AllocError) => print(err, "ua: no memory\n", 1),
    }
}

/// The text for a word that is not valid at its place.
fn word_text(alloc: Global, bad: BadWord<'_>, why: bool) -> Result<String, AllocError> {
    let mut text = format!(in alloc; "ua: {bad}\n")?;
    if why {
        push_word(&mut text, bad.word())?;
    }
    Ok(text)
}

/// Prints the UA TCP messages of a file, or of the input where it is named `-`, and the messages
/// that their chunks carry.
fn dissect<'a, R: Files + AllocGlobal, I: Read, O: Write>(
    rt: &R,
    asked: &Dissect<'a>,
    input: &mut I,
    out: &mut O,
) -> Result<Verdict, Stop<'a>>
    ensures strict { IfOk result (λ verdict. verdict ≡ SomeBad → asked.now.strict ≡ true) }
    ensures dissected { OnOk result (HasDissected (O.contents out.old) (O.contents out.new)) }
    ensures stopped { IfErr result (λ stop. StopsWriting stop ⊎ (out.new ≡ out.old)
        ⊎ HasToldSome (O.contents out.old) (O.contents out.new)) }
{
    if asked.file == "-" {
        return dissect_watched(rt.alloc(), asked, input, out);
    }
    let mut file = open_file(rt, asked.file)?;
    dissect_watched(rt.alloc(), asked, &mut file, out)
}

/// Prints the output for a source, and keeps the system's error where it cannot be read.
fn dissect_watched<'a, I: Read, O: Write>(
    alloc: Global,
    asked: &Dissect<'a>,
    source: &mut I,
    out: &mut O,
) -> Result<Verdict, Stop<'a>>
    ensures strict { IfOk result (λ verdict. verdict ≡ SomeBad → asked.now.strict ≡ true) }
    ensures dissected { OnOk result (HasDissected (O.contents out.old) (O.contents out.new)) }
    ensures stopped { IfErr result (λ stop. StopsWriting stop ⊎ HasToldSome (O.contents out.old) (O.contents out.new)) }
{
    let mut watched = Watched::new(source, asked.hex);
    match dissect_some(alloc, asked, &mut watched, out) {
        Err(Stop::Fault(fault)) => Err(watched.blame(fault)),
        ended => ended,
    }
}

/// Prints the output for a source, and returns what counts of a frame that is refused.
fn dissect_some<'a, I: Read, O: Write>(
    alloc: Global,
    asked: &Dissect<'a>,
    source: &mut I,
    out: &mut O,
) -> Result<Verdict, Stop<'a>>
    ensures strict { IfOk result (λ verdict. verdict ≡ SomeBad → asked.now.strict ≡ true) }
    ensures dissected { OnOk result (HasDissected (O.contents out.old) (O.contents out.new)) }
    ensures stopped { IfErr result (λ stop. StopsWriting stop ⊎ HasToldSome (O.contents out.old) (O.contents out.new)) }
{
    match dissect_source(alloc, asked, source, out) {
        Ok(verdict) => Ok(counted(verdict, asked.strict)),
        Err(stop) => Err(stop),
    }
}

/// Prints why the words of the command line could not be read. The status is 2 where a word is not
/// UTF-8, and 1 where an allocation or `err` fails.
pub fn refuse_words<E: Write>(error: &io::Error, err: &mut E) -> u8
    ensures status { (result ≡ 1) ⊎ (result ≡ 2) }
    ensures memory { error_kind error.now ≡ OutOfMemory → result ≡ 1 }
{
    match error.kind() {
        io::ErrorKind::OutOfMemory => print(err, "ua: no memory\n", 1),
        _ => print(err, "ua: a word is not UTF-8\n", 2),
    }
}
