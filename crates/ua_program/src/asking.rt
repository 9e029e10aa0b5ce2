//! `ua ask`: one session with a server, in which each line is answered before the next one is read.

ghost use Rattle.std.specs.Prelude.{◌≡◌, ◌⊎◌, true, IfErr, IfOk, OnOk};
ghost use Rattle.ua_session.specs.declared.verdict.Verdict.TheVariants.{SomeBad};
ghost use Rattle.ua_report.specs.Reasons.{StopsWriting};
ghost use Rattle.ua_program.specs.Talked.{HasTalked, IsWriters};

use crate::ask::{connect, counted, policy_of, url_of};
use crate::lifetime::LifetimeLine;
use crate::line_task::{LineTask, bare};
use crate::talk::{Talk, ticks_of};
use crate::tasks::{Lines, Repeated, TaskFault, Tasks};
use std::alloc::Global;
use std::io::{BufReader, Read, Write};
use std::net::Net;
use std::rt::Files;
use std::thread;
use std::time::{Clock, Duration};
use ua_builtin::DateTime;
use ua_channel::{Line, Moments};
use ua_exchange::limits;
use ua_report::{Fault, Heard, LoopFault, Stop, blame_text, cannot_read, open_file, write_record};
use ua_session::{ClientSession, QuestionFault, Verdict};
use ua_tcp::{ClockMoments, RecordedLine, TcpLine};
use ua_words::{AskServer, Asked};

/// Why a session ends before its tasks do.
#[derive(Debug, Drop)]
pub enum TalkFault {
    /// There is no next task, and why.
    Task(TaskFault),
    /// The server gave no answer, or it could not be written, and why.
    Asking(QuestionFault),
}

/// Why the command stops at a fault of its session over a connection, and what more is known of
/// that; the lines come from a file of this name.
fn stop_at<'a, S>(alloc: Global, file: &'a str, heard: &Heard<S>, fault: TalkFault) -> Stop<'a>
    ensures { IsWriters fault → StopsWriting result }
{
    match fault {
        TalkFault::Asking(fault) => heard.blame(alloc, fault),
        TalkFault::Task(TaskFault::Read(error)) => cannot_read(file, error),
        TalkFault::Task(TaskFault::Line(number, line)) => {
            blame_text(alloc, bare(&line), LoopFault::ScriptLine(number))
        }
        TalkFault::Task(TaskFault::NoMemory) => Stop::Fault(Fault::NoMemory),
    }
}

/// The name of the file of the lines, in faults.
fn file_of<'a>(asked: &AskServer<'a>) -> &'a str {
    match asked.what {
        Asked::Script(file) => file,
        Asked::Rounds(_) => "-",
    }
}

/// The time of a clock.
fn now<R: Clock>(rt: &R) -> DateTime {
    DateTime {
        ticks: ClockMoments::new(rt).next(),
    }
}

/// Waits, where a line asks for that.
fn wait<R: Clock>(rt: &R, task: &LineTask) {
    if let LineTask::Sleep(milliseconds) = task {
        thread::sleep(rt, Duration::from_millis(u64::from(*milliseconds)));
    }
}

/// Does one task after the other, and prints the answers to each before it takes the next.
fn talk_on<R: Clock, T: Tasks, L: Line, O: Write>(
    rt: &R,
    talk: &mut Talk,
    line: &mut LifetimeLine<L>,
    tasks: &mut T,
    out: &mut O,
) -> Result<(), TalkFault>
    ensures talked { OnOk result (HasTalked talk.old.style (O.contents out.old) (O.contents out.new)) }
    ensures stopped { IfErr result (λ fault. IsWriters fault ⊎ HasTalked talk.old.style (O.contents out.old)
        (O.contents out.new)) }
{
    for _turns in 0..u64::MAX {
        let task = match tasks.next_task() {
            Ok(Some(task)) => task,
            Ok(None) => return Ok(()),
            Err(fault) => return Err(TalkFault::Task(fault)),
        };
        wait(rt, &task);
        let lifetime = line.lifetime();
        match talk.perform(line, lifetime, &task, now(rt), out) {
            Ok(()) => {}
            Err(fault) => return Err(TalkFault::Asking(fault)),
        }
    }
    // Never: there are fewer tasks.
    Ok(())
}

/// Begins the session.
fn begin<R: Clock + AllocGlobal, L: Line>(
    rt: &R,
    line: &mut LifetimeLine<L>,
    asked: &AskServer<'_>,
) -> Result<Talk, QuestionFault>
    ensures { IfOk result (λ talk. talk.style ≡ asked.now.style) }
{
    let Ok(policy) = policy_of(rt.alloc(), asked.policy) else {
        return Err(QuestionFault::NoMemory);
    };
    let Ok(url) = url_of(rt.alloc(), &asked.server) else {
        return Err(QuestionFault::NoMemory);
    };
    let begun_at = now(rt);
    let mut moments = ClockMoments::new(rt);
    match ClientSession::begin(rt.alloc(), line, limits(), url, &policy, &mut moments) {
        Ok(session) => Ok(Talk {
            session,
            style: asked.style,
            renewed_at: ticks_of(begun_at),
            verdict: Verdict::AllGood,
        }),
        Err(fault) => Err(fault),
    }
}

/// Begins a session, does the tasks in it, and ends it, also after a fault. The first fault is
/// returned.
fn talk_over<R: Clock + AllocGlobal, T: Tasks, L: Line, O: Write>(
    rt: &R,
    line: &mut LifetimeLine<L>,
    asked: &AskServer<'_>,
    tasks: &mut T,
    out: &mut O,
) -> Result<Verdict, TalkFault>
    ensures talked { OnOk result (HasTalked asked.now.style (O.contents out.old) (O.contents out.new)) }
    ensures stopped { IfErr result (λ fault. IsWriters fault ⊎ HasTalked asked.now.style (O.contents out.old)
        (O.contents out.new)) }
{
    let mut talk = match begin(rt, line, asked) {
        Ok(talk) => talk,
        Err(fault) => return Err(TalkFault::Asking(fault)),
    };
    let talked = talk_on(rt, &mut talk, line, tasks, out);
    let Talk {
        session,
        verdict,
        ..
    } = talk;
    let ended = session.end(line, &mut ClockMoments::new(rt));
    match (talked, ended) {
        (Ok(()), Ok(())) => Ok(verdict),
        (Ok(()), Err(fault)) => Err(TalkFault::Asking(fault)),
        (Err(fault), _) => Err(fault),
    }
}

/// Talks with the server over a connection.
fn talk_heard<'a, R: Clock + AllocGlobal, S: Read + Write, T: Tasks, O: Write>(
    rt: &R,
    heard: &mut Heard<S>,
    asked: &AskServer<'a>,
    tasks: &mut T,
    out: &mut O,
) -> Result<Verdict, Stop<'a>>
    ensures talked { OnOk result (HasTalked asked.now.style (O.contents out.old) (O.contents out.new)) }
    ensures stopped { IfErr result (λ stop. StopsWriting stop ⊎ HasTalked asked.now.style (O.contents out.old)
        (O.contents out.new)) }
{
    let mut line = LifetimeLine::new(rt.alloc(), TcpLine::new(&mut *heard));
    let ended = talk_over(rt, &mut line, asked, tasks, out);
    drop(line);
    match ended {
        Ok(verdict) => Ok(verdict),
        Err(fault) => Err(stop_at(rt.alloc(), file_of(asked), heard, fault)),
    }
}

/// Talks with the server over a connection, and then writes the bytes in each direction to files of
/// this name.
fn talk_recorded<'a, R: Files + Clock + AllocGlobal, S: Read + Write, T: Tasks, O: Write>(
    rt: &R,
    heard: &mut Heard<S>,
    name: &'a str,
    asked: &AskServer<'a>,
    tasks: &mut T,
    out: &mut O,
) -> Result<Verdict, Stop<'a>>
    ensures talked { OnOk result (HasTalked asked.now.style (O.contents out.old) (O.contents out.new)) }
    ensures stopped { IfErr result (λ stop. StopsWriting stop ⊎ HasTalked asked.now.style (O.contents out.old)
        (O.contents out.new)) }
{
    let recorded = RecordedLine::new(rt.alloc(), TcpLine::new(&mut *heard));
    let mut line = LifetimeLine::new(rt.alloc(), recorded);
    let ended = talk_over(rt, &mut line, asked, tasks, out);
    let written = write_record(rt, name, line.beneath());
    drop(line);
    // The fault of the command is told first.
    match ended {
        Ok(verdict) => match written {
            Ok(()) => Ok(verdict),
            Err(stop) => Err(stop),
        },
        Err(fault) => Err(stop_at(rt.alloc(), file_of(asked), heard, fault)),
    }
}

/// Talks with the server on a port of this machine, and returns what counts of the answers.
fn talk<'a, R: Files + Net + Clock + AllocGlobal, T: Tasks, O: Write>(
    rt: &R,
    asked: &AskServer<'a>,
    why: bool,
    tasks: &mut T,
    out: &mut O,
) -> Result<Verdict, Stop<'a>>
    ensures talked { OnOk result (HasTalked asked.now.style (O.contents out.old) (O.contents out.new)) }
    ensures strict { IfOk result (λ verdict. verdict ≡ SomeBad → asked.now.strict ≡ true) }
    ensures stopped { IfErr result (λ stop. StopsWriting stop ⊎ HasTalked asked.now.style (O.contents out.old)
        (O.contents out.new)) }
{
    let mut heard = connect(rt, asked.server.port, why)?;
    let talked = match asked.record {
        None => talk_heard(rt, &mut heard, asked, tasks, out),
        Some(name) => talk_recorded(rt, &mut heard, name, asked, tasks, out),
    };
    match talked {
        Ok(verdict) => Ok(counted(verdict, asked.strict)),
        Err(stop) => Err(stop),
    }
}

/// Answers the lines of a source as they come; in faults it is a file of this name.
fn talk_lines<'a, R: Files + Net + Clock + AllocGlobal, I: Read + Drop, O: Write>(
    rt: &R,
    asked: &AskServer<'a>,
    why: bool,
    file: &'a str,
    source: I,
    out: &mut O,
) -> Result<Verdict, Stop<'a>>
    ensures talked { OnOk result (HasTalked asked.now.style (O.contents out.old) (O.contents out.new)) }
    ensures strict { IfOk result (λ verdict. verdict ≡ SomeBad → asked.now.strict ≡ true) }
    ensures stopped { IfErr result (λ stop. StopsWriting stop ⊎ HasTalked asked.now.style (O.contents out.old)
        (O.contents out.new)) }
{
    match BufReader::new(rt.alloc(), source) {
        Ok(source) => {
            let mut lines = Lines::new(rt.alloc(), asked.style.plain, source);
            talk(rt, asked, why, &mut lines, out)
        }
        Err(error) => Err(cannot_read(file, error)),
    }
}

/// Asks the server on a port of this machine, in one session, what the lines of a script ask for,
/// each answered before the next one is read; or reads nodes again and again.
pub fn ask_server<'a, R: Files + Net + Clock + AllocGlobal, I: Read, O: Write>(
    rt: &R,
    asked: &AskServer<'a>,
    why: bool,
    input: &mut I,
    out: &mut O,
) -> Result<Verdict, Stop<'a>>
    ensures talked { OnOk result (HasTalked asked.now.style (O.contents out.old) (O.contents out.new)) }
    ensures strict { IfOk result (λ verdict. verdict ≡ SomeBad → asked.now.strict ≡ true) }
    ensures stopped { IfErr result (λ stop. StopsWriting stop ⊎ HasTalked asked.now.style (O.contents out.old)
        (O.contents out.new)) }
{
    match &asked.what {
        Asked::Rounds(rounds) => {
            let mut repeated = Repeated::new(rt.alloc(), rounds)?;
            talk(rt, asked, why, &mut repeated, out)
        }
        Asked::Script(file) if *file == "-" => talk_lines(rt, asked, why, file, input, out),
        Asked::Script(file) => {
            let opened = open_file(rt, file)?;
            talk_lines(rt, asked, why, file, opened, out)
        }
    }
}
