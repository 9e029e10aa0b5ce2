//! `ua endpoints`, `ua read` and `ua write`: questions to the server on a port of this machine.

ghost use Rattle.std.specs.Prelude.{◌≡◌, ◌⊎◌, true, false, option_map, IsTrue, OnOk, IfOk, IfErr};
ghost use Rattle.ua_wire.specs.Counted.{text};
ghost use Rattle.ua_session.specs.Printed.{AreAnswerLines, AreEndpointLines, LeavesLines};
ghost use Rattle.ua_session.specs.Words.{GivesRead, GivesWrite};
ghost use Rattle.ua_session.specs.declared.verdict.Verdict.TheVariants.{AllGood, SomeBad};
ghost use Rattle.ua_program.specs.Printed.{HasAnswered, HasListed};
ghost use Rattle.ua_program.specs.Words.{base_url, policy_named, value_given, with_path};
ghost use Rattle.ua_report.specs.Reasons.{StopsWriting, is_starved};

use crate::blame::{blame_read, blame_write};
use std::alloc::{AllocError, Global};
use std::io::{Read, Write};
use std::net::{Ipv4Addr, Net, TcpStream};
use std::rt::Files;
use std::time::Clock;
use ua_answers::AnswerStyle;
use ua_builtin::{UaString, Wire};
use ua_channel::Line;
use ua_exchange::limits;
use ua_report::{Fault, Heard, Stop, cannot_connect, write_record};
use ua_services::session_requests::local_url;
use ua_session::{
    Inquiry, Opening, Question, QuestionFault, TokenPolicy, Verdict, WordFault, ask_over,
    endpoints_over,
};
use ua_tcp::{ClockMoments, RecordedLine, TcpLine, without_delay};
use ua_words::{Address, ListEndpoints, ReadNodes, WriteNode};

/// A connection to the server on a port of this machine. `why` says whether the Reason of an ERR
/// frame is kept.
pub(crate) fn connect<'a, R: Net + AllocGlobal>(
    rt: &R,
    port: u16,
    why: bool,
) -> Result<Heard<R::Stream>, Stop<'a>> {
    match TcpStream::connect(rt, (Ipv4Addr::LOCALHOST, port)) {
        Ok(stream) => Ok(Heard::new(rt.alloc(), without_delay(stream), why)),
        Err(error) => Err(cannot_connect(error)),
    }
}

/// The URL by which a server is asked, without its path.
fn base_url(alloc: Global, server: &Address<'_>) -> Result<UaString, AllocError>
    ensures { IfOk result (λ url. url ≡ base_url server.now.port (option_map (λ text. text.now) server.now.url)) }
{
    match server.url {
        Some(url) => UaString::from_str(alloc, url),
        None => local_url(alloc, server.port),
    }
}

/// A URL with a path after it.
fn with_path(alloc: Global, url: &UaString, path: &str) -> Result<UaString, AllocError>
    ensures { IfOk result (λ long. long ≡ with_path url.now path.now) }
{
    match url.as_str() {
        Some(url) => {
            let mut text = String::new(alloc);
            text.push_str(url)?;
            text.push_str(path)?;
            Ok(UaString::new(Some(text)))
        }
        None => Ok(UaString::null()),
    }
}

/// The URL by which a server is asked.
pub fn url_of<'a>(alloc: Global, server: &Address<'_>) -> Result<UaString, Stop<'a>>
    ensures is { IfOk result
        (λ url. url ≡ with_path (base_url server.now.port (option_map (λ text. text.now) server.now.url))
        server.now.path.now) }
    ensures encodable { IfOk result (λ url. IsTrue (text.encodable url)) }
    ensures starved { IfErr result (λ why. is_starved why ≡ true) }
{
    let base = base_url(alloc, server)?;
    let url = with_path(alloc, &base, server.path)?;
    drop(base);
    if url.is_encodable() {
        return Ok(url);
    }
    // Never: its words have at most 4095 bytes.
    drop(url);
    Err(Stop::Fault(Fault::NoMemory))
}

/// Prints the endpoints of the server over a transport.
fn endpoints_line<R: Clock + AllocGlobal, L: Line, O: Write>(
    rt: &R,
    line: &mut L,
    asked: &ListEndpoints<'_>,
    out: &mut O,
) -> Result<(), QuestionFault>
    ensures answered { OnOk result (HasListed asked.now.style (O.contents out.old) (O.contents out.new)) }
    ensures left { IfErr result
        (λ fault. LeavesLines O.contents (AreEndpointLines asked.now.style) fault out.old out.new) }
{
    let Ok(url) = url_of(rt.alloc(), &asked.server) else {
        return Err(QuestionFault::NoMemory);
    };
    let mut moments = ClockMoments::new(rt);
    let opening = Opening {
        alloc: rt.alloc(),
        limits: limits(),
        url: &url,
    };
    endpoints_over(line, &opening, asked.style, &mut moments, out)
}

/// Prints the endpoints of the server over a connection.
fn endpoints_heard<'a, R: Clock + AllocGlobal, S: Read + Write, O: Write>(
    rt: &R,
    heard: &mut Heard<S>,
    asked: &ListEndpoints<'a>,
    out: &mut O,
) -> Result<(), Stop<'a>>
    ensures answered { OnOk result (HasListed asked.now.style (O.contents out.old) (O.contents out.new)) }
    ensures stopped { IfErr result (λ stop. StopsWriting stop ⊎ (out.new ≡ out.old)
        ⊎ HasListed asked.now.style (O.contents out.old) (O.contents out.new)) }
{
    let mut line = TcpLine::new(&mut *heard);
    let ended = endpoints_line(rt, &mut line, asked, out);
    drop(line);
    match ended {
        Ok(()) => Ok(()),
        Err(fault) => Err(heard.blame(rt.alloc(), fault)),
    }
}

/// Prints the endpoints of the server over a connection, and then writes the bytes in each
/// direction to files of this name.
fn endpoints_recorded<'a, R: Files + Clock + AllocGlobal, S: Read + Write, O: Write>(
    rt: &R,
    heard: &mut Heard<S>,
    name: &'a str,
    asked: &ListEndpoints<'a>,
    out: &mut O,
) -> Result<(), Stop<'a>>
    ensures answered { OnOk result (HasListed asked.now.style (O.contents out.old) (O.contents out.new)) }
    ensures stopped { IfErr result (λ stop. StopsWriting stop ⊎ (out.new ≡ out.old)
        ⊎ HasListed asked.now.style (O.contents out.old) (O.contents out.new)) }
{
    let mut line = RecordedLine::new(rt.alloc(), TcpLine::new(&mut *heard));
    let ended = endpoints_line(rt, &mut line, asked, out);
    let recorded = write_record(rt, name, &line);
    drop(line);
    // The fault of the command is told first.
    match ended {
        Ok(()) => match recorded {
            Ok(()) => Ok(()),
            Err(stop) => Err(stop),
        },
        Err(fault) => Err(heard.blame(rt.alloc(), fault)),
    }
}

/// Prints the endpoints of the server on a port of this machine. `why` says whether a fault has the
/// Reason of an ERR frame.
pub fn endpoints<'a, R: Files + Net + Clock + AllocGlobal, O: Write>(
    rt: &R,
    asked: &ListEndpoints<'a>,
    why: bool,
    out: &mut O,
) -> Result<(), Stop<'a>>
    ensures answered { OnOk result (HasListed asked.now.style (O.contents out.old) (O.contents out.new)) }
    ensures stopped { IfErr result (λ stop. StopsWriting stop ⊎ (out.new ≡ out.old)
        ⊎ HasListed asked.now.style (O.contents out.old) (O.contents out.new)) }
{
    let mut heard = connect(rt, asked.server.port, why)?;
    match asked.record {
        None => endpoints_heard(rt, &mut heard, asked, out),
        Some(name) => endpoints_recorded(rt, &mut heard, name, asked, out),
    }
}

/// The token policy that a word denotes: for `auto` the one that the server offers, else the one
/// with this PolicyId.
pub(crate) fn policy_of(alloc: Global, word: &str) -> Result<TokenPolicy, AllocError>
    ensures { IfOk result (λ policy. policy ≡ policy_named word.now) }
{
    match word {
        "auto" => Ok(TokenPolicy::Auto),
        _ => Ok(TokenPolicy::Named(UaString::from_str(alloc, word)?)),
    }
}

/// How a question is asked of a server, and how its answers are printed and counted.
#[derive(Clone, Copy)]
struct Asking<'a> {
    /// The server.
    server: Address<'a>,
    /// The PolicyId of a token policy, or `auto`.
    policy: &'a str,
    /// How the answers are printed.
    style: AnswerStyle,
    /// Whether a bad StatusCode counts.
    strict: bool,
    /// The name of the files that keep the bytes in each direction, if they are kept.
    record: Option<&'a str>,
    /// Whether a fault has the Reason of an ERR frame.
    why: bool,
}

/// Asks a question of the server over a transport, and prints the answers.
fn ask_line<R: Clock + AllocGlobal, L: Line, O: Write>(
    rt: &R,
    line: &mut L,
    question: &Question,
    how: &Asking<'_>,
    out: &mut O,
) -> Result<Verdict, QuestionFault>
    ensures answered { OnOk result (HasAnswered how.now.style (O.contents out.old) (O.contents out.new)) }
    ensures left { IfErr result (λ fault. LeavesLines O.contents (AreAnswerLines how.now.style) fault out.old out.new) }
{
    let Ok(policy) = policy_of(rt.alloc(), how.policy) else {
        return Err(QuestionFault::NoMemory);
    };
    let Ok(url) = url_of(rt.alloc(), &how.server) else {
        return Err(QuestionFault::NoMemory);
    };
    let mut moments = ClockMoments::new(rt);
    let opening = Opening {
        alloc: rt.alloc(),
        limits: limits(),
        url: &url,
    };
    let inquiry = Inquiry {
        opening,
        question,
        policy: &policy,
        style: how.style,
    };
    ask_over(line, &inquiry, &mut moments, out)
}

/// Asks a question of the server over a connection, and prints the answers.
fn ask_heard<'a, R: Clock + AllocGlobal, S: Read + Write, O: Write>(
    rt: &R,
    heard: &mut Heard<S>,
    question: &Question,
    how: &Asking<'a>,
    out: &mut O,
) -> Result<Verdict, Stop<'a>>
    ensures answered { OnOk result (HasAnswered how.now.style (O.contents out.old) (O.contents out.new)) }
    ensures stopped { IfErr result (λ stop. StopsWriting stop ⊎ (out.new ≡ out.old)
        ⊎ HasAnswered how.now.style (O.contents out.old) (O.contents out.new)) }
{
    let mut line = TcpLine::new(&mut *heard);
    let ended = ask_line(rt, &mut line, question, how, out);
    drop(line);
    match ended {
        Ok(verdict) => Ok(verdict),
        Err(fault) => Err(heard.blame(rt.alloc(), fault)),
    }
}

/// Asks a question of the server over a connection, prints the answers, and then writes the bytes
/// in each direction to files of this name.
fn ask_recorded<'a, R: Files + Clock + AllocGlobal, S: Read + Write, O: Write>(
    rt: &R,
    heard: &mut Heard<S>,
    name: &'a str,
    question: &Question,
    how: &Asking<'a>,
    out: &mut O,
) -> Result<Verdict, Stop<'a>>
    ensures answered { OnOk result (HasAnswered how.now.style (O.contents out.old) (O.contents out.new)) }
    ensures stopped { IfErr result (λ stop. StopsWriting stop ⊎ (out.new ≡ out.old)
        ⊎ HasAnswered how.now.style (O.contents out.old) (O.contents out.new)) }
{
    let mut line = RecordedLine::new(rt.alloc(), TcpLine::new(&mut *heard));
    let ended = ask_line(rt, &mut line, question, how, out);
    let recorded = write_record(rt, name, &line);
    drop(line);
    // The fault of the command is told first.
    match ended {
        Ok(verdict) => match recorded {
            Ok(()) => Ok(verdict),
            Err(stop) => Err(stop),
        },
        Err(fault) => Err(heard.blame(rt.alloc(), fault)),
    }
}

/// Asks a question of the server on a port of this machine, and prints the answers.
fn ask<'a, R: Files + Net + Clock + AllocGlobal, O: Write>(
    rt: &R,
    question: &Question,
    how: &Asking<'a>,
    out: &mut O,
) -> Result<Verdict, Stop<'a>>
    ensures answered { OnOk result (HasAnswered how.now.style (O.contents out.old) (O.contents out.new)) }
    ensures stopped { IfErr result (λ stop. StopsWriting stop ⊎ (out.new ≡ out.old)
        ⊎ HasAnswered how.now.style (O.contents out.old) (O.contents out.new)) }
{
    let mut heard = connect(rt, how.server.port, how.why)?;
    match how.record {
        None => ask_heard(rt, &mut heard, question, how, out),
        Some(name) => ask_recorded(rt, &mut heard, name, question, how, out),
    }
}

/// Which bad StatusCodes count: they do only where `--strict` asks for it.
pub fn counted(verdict: Verdict, strict: bool) -> Verdict
    ensures strict { result ≡ SomeBad → strict ≡ true }
    ensures same { strict ≡ true → result ≡ verdict }
    ensures lax { strict ≡ false → result ≡ AllGood }
{
    if strict { verdict } else { Verdict::AllGood }
}

/// The question of the words of `ua read`.
pub(crate) fn read_question(alloc: Global, asked: &ReadNodes<'_>) -> Result<Question, WordFault>
    ensures { GivesRead (λ text. text.now) asked.now.nodes.items asked.now.attribute
        (option_map (λ text. text.now) asked.now.range) result }
{
    Question::parse_read(alloc, &asked.nodes, asked.attribute, asked.range)
}

/// The question of the words of `ua write`. With `--plain` the value may be a decimal or a time.
pub(crate) fn write_question(alloc: Global, asked: &WriteNode<'_>) -> Result<Question, WordFault>
    ensures { GivesWrite asked.now.node.now asked.now.kind.now
        (value_given asked.now.style.plain asked.now.kind.now asked.now.value.now) result }
{
    if asked.style.plain {
        Question::parse_plain_write(alloc, asked.node, asked.kind, asked.value)
    } else {
        Question::parse_write(alloc, asked.node, asked.kind, asked.value)
    }
}

/// Asks a question, and returns what counts of the answers.
fn ask_counted<'a, R: Files + Net + Clock + AllocGlobal, O: Write>(
    rt: &R,
    question: &Question,
    how: &Asking<'a>,
    out: &mut O,
) -> Result<Verdict, Stop<'a>>
    ensures answered { OnOk result (HasAnswered how.now.style (O.contents out.old) (O.contents out.new)) }
    ensures strict { IfOk result (λ verdict. verdict ≡ SomeBad → how.now.strict ≡ true) }
    ensures stopped { IfErr result (λ stop. StopsWriting stop ⊎ (out.new ≡ out.old)
        ⊎ HasAnswered how.now.style (O.contents out.old) (O.contents out.new)) }
{
    match ask(rt, question, how, out) {
        Ok(verdict) => Ok(counted(verdict, how.strict)),
        Err(stop) => Err(stop),
    }
}

/// Prints an attribute of nodes of the server on a port of this machine.
pub fn read<'a, R: Files + Net + Clock + AllocGlobal, O: Write>(
    rt: &R,
    asked: &ReadNodes<'a>,
    why: bool,
    out: &mut O,
) -> Result<Verdict, Stop<'a>>
    ensures answered { OnOk result (HasAnswered asked.now.style (O.contents out.old) (O.contents out.new)) }
    ensures strict { IfOk result (λ verdict. verdict ≡ SomeBad → asked.now.strict ≡ true) }
    ensures stopped { IfErr result (λ stop. StopsWriting stop ⊎ (out.new ≡ out.old)
        ⊎ HasAnswered asked.now.style (O.contents out.old) (O.contents out.new)) }
{
    let how = Asking {
        server: asked.server,
        policy: asked.policy,
        style: asked.style,
        strict: asked.strict,
        record: asked.record,
        why,
    };
    let question = match read_question(rt.alloc(), asked) {
        Ok(question) => question,
        Err(fault) => return Err(blame_read(rt.alloc(), asked, fault)),
    };
    ask_counted(rt, &question, &how, out)
}

/// Sets the Value of a node of the server on a port of this machine, and prints the result.
pub fn write<'a, R: Files + Net + Clock + AllocGlobal, O: Write>(
    rt: &R,
    asked: &WriteNode<'a>,
    why: bool,
    out: &mut O,
) -> Result<Verdict, Stop<'a>>
    ensures answered { OnOk result (HasAnswered asked.now.style (O.contents out.old) (O.contents out.new)) }
    ensures strict { IfOk result (λ verdict. verdict ≡ SomeBad → asked.now.strict ≡ true) }
    ensures stopped { IfErr result (λ stop. StopsWriting stop ⊎ (out.new ≡ out.old)
        ⊎ HasAnswered asked.now.style (O.contents out.old) (O.contents out.new)) }
{
    let how = Asking {
        server: asked.server,
        policy: asked.policy,
        style: asked.style,
        strict: asked.strict,
        record: asked.record,
        why,
    };
    let question = match write_question(rt.alloc(), asked) {
        Ok(question) => question,
        Err(fault) => return Err(blame_write(rt.alloc(), asked, fault)),
    };
    ask_counted(rt, &question, &how, out)
}
