//! `ua serve`: serves connections on a port of this machine, one after the other or many at a time.

ghost use Rattle.std.specs.Prelude.{◌≡◌, ◌⊎◌, ◌++◌, None, Some, IfOk, IfErr, OnOk, string_bytes, true, false, ⊤};
ghost use Rattle.std.specs.Io.KnownBytes.{Appends};
ghost use Rattle.std.specs.IoError.{raw_os_error};
ghost use Rattle.ua_server.specs.ServingOver.{ServesApplication};
ghost use Rattle.ua_server.specs.State.{begun};
ghost use Rattle.ua_server.specs.declared.watch.Unwatched.{Unwatched};
ghost use Rattle.ua_report.specs.Refused.{RefusesNodes};
ghost use Rattle.ua_serving.specs.AtOnce.{ServesAsked, ServesSomeAsked};
ghost use Rattle.ua_serving.specs.Served.{AddsOutcome, BeginsWith, HasServed, HasServedSome, HasTold};
ghost use Rattle.ua_serving.specs.Served.{IsConnectionLine, IsLimitedTo, Prints, SaysOutcome, ServesOne, TellsOf};
ghost use Rattle.ua_serving.specs.Served.{connection_line, encoding_part, endpoint_on, is_of_connection};
ghost use Rattle.ua_serving.specs.Served.{kind_name, limited_to, listening_line, no_memory_text, request_line};
ghost use Rattle.ua_report.specs.Reasons.{EndsServing, NeverAccepts, StopsForFault};
ghost use Rattle.ua_report.specs.Reasons.{StopsConnection, StopsWriting, is_starved};
ghost use Rattle.ua_report.specs.declared.fault.Fault.TheVariants.{CannotListen};

use crate::at_once::{Plant, serve_places};
use crate::live::LiveFile;
use crate::setup::Setup;
use crate::standard::{StandardServices, standard_services};
use crate::time_keeper::TimeKeeper;
use std::alloc::{AllocError, Global};
use std::fmt::Write as _;
use std::io::{Read, Write};
use std::net::{Ipv4Addr, Net, OpenListener, TcpListener};
use std::rt::Files;
use std::time::{Clock, Duration};
use std::{io, thread};
use ua_builtin::UaString;
use ua_channel::{Line, Moments};
use ua_exchange::{MESSAGE_SIZE, limits};
use ua_frame::Limits;
use ua_pair::encoding_name;
use ua_report::{
    Fault, Stop, Telling, blame_line, cannot_listen, parse_nodes, read_nodes, say, write_text,
};
use ua_server::{
    AnsweredRequest, Application, End, Endpoint, NoApplication, ServeFault, ServeTerms, Services,
    Unwatched, Watch, serve_application,
};
use ua_services::RequestKind;
use ua_services::session_requests::local_url;
use ua_tcp::{ClockMoments, GatheringLine, TcpLine, without_delay};
use ua_texts::push_code;
use ua_words::Serve;

/// The endpoint of the program on a port of this machine.
fn endpoint(alloc: Global, port: u16) -> Result<Endpoint, AllocError>
    ensures { IfOk result (λ e. e ≡ endpoint_on port) }
{
    Ok(Endpoint {
        url: local_url(alloc, port)?,
        application_uri: UaString::from_str(alloc, "urn:ua:server")?,
        name: UaString::from_str(alloc, "ua")?,
        message_limit: MESSAGE_SIZE,
    })
}

/// The services over the nodes of a file with this text, on a port of this machine.
pub fn services<'a>(alloc: Global, text: &str, port: u16) -> Result<Services, Fault<'a>>
    ensures begins { IfOk result (λ services. BeginsWith text.now port services) }
    ensures faults { IfErr result (λ fault. RefusesNodes text.now fault) }
{
    let nodes = parse_nodes(alloc, text)?;
    let endpoint = endpoint(alloc, port)?;
    Ok(Services::new(nodes, endpoint))
}

/// Appends the outcome of a connection.
fn push_outcome(out: &mut String, outcome: Result<End, ServeFault>) -> Result<(), AllocError>
    ensures { OnOk result (AddsOutcome outcome (string_bytes out.old) (string_bytes out.new)) }
{
    match outcome {
        Ok(End::Closed) => out.push_str("Closed"),
        Ok(End::NoClose) => out.push_str("NoClose"),
        Ok(End::Cut) => out.push_str("Cut"),
        Ok(End::Refused(status)) => {
            out.push_str("Refused ")?;
            push_code(out, status)
        }
        Err(ServeFault::Read) => out.push_str("Read"),
        Err(ServeFault::Write(_)) => out.push_str("Write"),
        Err(ServeFault::TooLong) => out.push_str("TooLong"),
        Err(ServeFault::OutOfMemory) => Err(AllocError),
    }
}

/// The limits of the program, with this many bytes as the most of a response's body; 0 is no limit.
pub(crate) fn limits_for(most: u32) -> Limits
    ensures { IsLimitedTo most result }
{
    limits().with_responses(most)
}

/// How a connection is served.
#[derive(Clone, Copy)]
struct Terms {
    alloc: Global,
    /// The connection's number.
    number: u32,
    /// Whether each request has a line.
    requests: bool,
    /// The most bytes of a response's body; 0 is no limit.
    most: u32,
}

/// The line of text with the outcome of a connection.
pub(crate) fn outcome_line(
    alloc: Global,
    number: u32,
    outcome: Result<End, ServeFault>,
) -> Result<String, AllocError>
    ensures { IfOk result (λ text. SaysOutcome number outcome (string_bytes text)) }
{
    let mut text = format!(in alloc; "connection {number} ")?;
    push_outcome(&mut text, outcome)?;
    text.push_str("\n")?;
    Ok(text)
}

/// The name of a kind of request; `unknown` where a message is no request of these services.
fn kind_name(kind: Option<RequestKind>) -> &'static str
    ensures { result.now ≡ kind_name kind }
{
    match kind {
        Some(kind) => kind.name(),
        None => "unknown",
    }
}

/// Appends the id of the encoding of what is no request, and its name if the table has one, each
/// after a space.
fn push_encoding(out: &mut String, encoding: Option<u32>) -> Result<(), AllocError>
    ensures { OnOk result (string_bytes out.new ≡ string_bytes out.old ++ encoding_part encoding) }
{
    let Some(number) = encoding else {
        return Ok(());
    };
    write!(out, " i={number}")?;
    match encoding_name(number) {
        Some(name) => {
            out.push_str(" ")?;
            out.push_str(name)
        }
        None => Ok(()),
    }
}

/// The line of a request that was answered.
fn request_text(alloc: Global, number: u32, request: AnsweredRequest) -> Result<String, AllocError>
    ensures { IfOk result (λ text. string_bytes text ≡ request_line number request) }
{
    let name = kind_name(request.kind);
    let items = request.items;
    let mut text = format!(in alloc; "connection {number} {name} {items} ")?;
    push_code(&mut text, request.code)?;
    push_encoding(&mut text, request.encoding)?;
    text.push_str("\n")?;
    Ok(text)
}

/// Why no further line of a request is printed.
#[derive(Clone, Copy)]
enum Halt {
    /// An allocation failed. Nothing was printed of that line.
    Memory,
    /// The output cannot be written, and why.
    Output(io::Error),
}

/// Prints the line of a request.
fn say_request<O: Write>(
    alloc: Global,
    number: u32,
    request: AnsweredRequest,
    out: &mut O,
) -> Option<Halt>
    ensures { Prints result (request_line number request) (O.contents out.old) (O.contents out.new) }
{
    match request_text(alloc, number, request) {
        Ok(text) => match write_text(out, &text) {
            Ok(()) => None,
            Err(error) => Some(Halt::Output(error)),
        },
        Err(_) => Some(Halt::Memory),
    }
}

/// Prints the line of each request of a connection as it is answered, and none after that failed.
#[derive(Drop)]
struct RequestLines<'o, O> {
    alloc: Global,
    /// The connection's number.
    number: u32,
    out: &'o mut O,
    /// Why no further line is printed, if so.
    halt: Option<Halt>,
}

impl<'o, O: Write> Watch for RequestLines<'o, O> {
    ghost use Rattle.ua_serving.specs.Served.{PrintsRequest};

    ghost notes = { PrintsRequest O.contents };

    fn note(&mut self, request: AnsweredRequest) {
        match self.halt {
            None => self.halt = say_request(self.alloc, self.number, request, self.out),
            Some(_) => {}
        }
    }
}

/// Serves the client at the other end of a transport beside an application, and prints the line of
/// each request as it is answered. Returns the line of text with the outcome of the connection.
fn tell_beside<'a, L: Line, M: Moments, A: Application, O: Write>(
    line: &mut L,
    services: &mut Services,
    terms: Terms,
    moments: &mut M,
    application: &mut A,
    out: &mut O,
) -> Result<String, Stop<'a>>
    ensures served { IfOk result (λ text. HasTold true terms.number (O.contents out.old) (O.contents out.new)
        × IsConnectionLine terms.number (string_bytes text)) }
    ensures stopped { IfErr result (λ stop. StopsWriting stop ⊎ HasTold true terms.number (O.contents out.old)
        (O.contents out.new)) }
    ensures only { IfErr result StopsConnection }
{
    let mut lines = RequestLines {
        alloc: terms.alloc,
        number: terms.number,
        out,
        halt: None,
    };
    let serving = ServeTerms {
        alloc: terms.alloc,
        limits: limits_for(terms.most),
        channel_id: terms.number,
    };
    let outcome = serve_application(line, services, serving, moments, &mut lines, application);
    let RequestLines {
        alloc: _,
        number: _,
        out,
        halt,
    } = lines;
    // No effect at run time. The proof reads what the writer holds from this use of it.
    let _ = &*out;
    match halt {
        None => Ok(outcome_line(terms.alloc, terms.number, outcome)?),
        Some(Halt::Memory) => Err(Stop::Fault(Fault::NoMemory)),
        Some(Halt::Output(error)) => Err(Stop::Output(error)),
    }
}

/// Serves the client at the other end of a transport beside an application, without a line of any
/// request. Returns the line of text with the outcome of the connection.
fn serve_silently<L: Line, M: Moments, A: Application>(
    line: &mut L,
    services: &mut Services,
    terms: Terms,
    moments: &mut M,
    application: &mut A,
) -> Result<String, AllocError>
    ensures { IfOk result (λ text. TellsOf terms.number terms.most (λ limits outcome. (seen : Unwatched × Unwatched)
        × ServesApplication limits terms.number M.gives (λ before request after. ⊤) A.changes
        (begun services.old, application.old) (moments.old, seen.0) outcome (services.new, application.new)
        (moments.new, seen.1) (L.traffic line.old) (L.traffic line.new)) (string_bytes text)) }
{
    let mut watch = Unwatched;
    let serving = ServeTerms {
        alloc: terms.alloc,
        limits: limits_for(terms.most),
        channel_id: terms.number,
    };
    let outcome = serve_application(line, services, serving, moments, &mut watch, application);
    outcome_line(terms.alloc, terms.number, outcome)
}

/// Serves the client at the other end of a transport beside an application, with the lines of its
/// requests where they are wanted. Returns the line of text with the outcome of the connection.
fn serve_beside<'a, L: Line, M: Moments, A: Application, O: Write>(
    line: &mut L,
    services: &mut Services,
    terms: Terms,
    moments: &mut M,
    application: &mut A,
    out: &mut O,
) -> Result<String, Stop<'a>>
    ensures served { IfOk result (λ text. HasTold terms.requests terms.number (O.contents out.old) (O.contents out.new)
        × IsConnectionLine terms.number (string_bytes text)) }
    ensures stopped { IfErr result (λ stop. StopsWriting stop ⊎ HasTold terms.requests terms.number (O.contents out.old)
        (O.contents out.new)) }
    ensures only { IfErr result StopsConnection }
{
    if terms.requests {
        return tell_beside(line, services, terms, moments, application, out);
    }
    Ok(serve_silently(line, services, terms, moments, application)?)
}

/// Serves the client of a connection beside an application, after which the connection has ended.
/// The responses to requests that arrived together are sent together. Returns the line of text with
/// the outcome of the connection.
fn serve_stream<'a, S: Read + Write + Drop, M: Moments, A: Application, O: Write>(
    stream: S,
    services: &mut Services,
    terms: Terms,
    moments: &mut M,
    application: &mut A,
    out: &mut O,
) -> Result<String, Stop<'a>>
    ensures served { IfOk result (λ text. HasTold terms.requests terms.number (O.contents out.old) (O.contents out.new)
        × IsConnectionLine terms.number (string_bytes text)) }
    ensures stopped { IfErr result (λ stop. StopsWriting stop ⊎ HasTold terms.requests terms.number (O.contents out.old)
        (O.contents out.new)) }
    ensures only { IfErr result StopsConnection }
{
    let mut line = GatheringLine::new(terms.alloc, TcpLine::new(stream));
    let served = serve_beside(&mut line, services, terms, moments, application, out);
    // the last responses, or the ERR message: no connection tells whether the client receives them
    let _ = line.flush();
    served
}

/// Serves the client of a connection as it is asked: with the time in CurrentTime, or without.
fn serve_asked<'a, R: Clock + AllocGlobal, S: Read + Write + Drop, O: Write>(
    rt: &R,
    stream: S,
    services: &mut Services,
    number: u32,
    asked: &Serve<'a>,
    out: &mut O,
) -> Result<String, Stop<'a>>
    ensures served { IfOk result (λ text. HasTold asked.now.requests number (O.contents out.old) (O.contents out.new)
        × IsConnectionLine number (string_bytes text)) }
    ensures stopped { IfErr result (λ stop. StopsWriting stop ⊎ HasTold asked.now.requests number (O.contents out.old)
        (O.contents out.new)) }
    ensures only { IfErr result StopsConnection }
{
    let terms = Terms {
        alloc: rt.alloc(),
        number,
        requests: asked.requests,
        most: asked.answers,
    };
    let mut moments = ClockMoments::new(rt);
    if asked.standard {
        let mut keeper = TimeKeeper {
            moments: ClockMoments::new(rt),
        };
        serve_stream(stream, services, terms, &mut moments, &mut keeper, out)
    } else {
        serve_stream(
            stream,
            services,
            terms,
            &mut moments,
            &mut NoApplication,
            out,
        )
    }
}

/// The seconds that a server that goes on waits where the system gives no connection.
const PAUSE: u64 = 1;

/// Whether an error of a listener concerns the connection that would have been next, and not those
/// after it.
pub(crate) fn is_of_connection(error: &io::Error) -> bool
    ensures { result ≡ is_of_connection (raw_os_error error.now) }
{
    match error.raw_os_error() {
        Some(code) => is_number_of_connection(code),
        None => false,
    }
}

/// The same of the number of an error: EPERM, EINTR, ENONET, EPROTO, ENOPROTOOPT, EOPNOTSUPP,
/// ENETUNREACH, ECONNABORTED, EHOSTDOWN and EHOSTUNREACH, in Linux (accept(2)).
fn is_number_of_connection(code: i32) -> bool
    ensures { result ≡ is_of_connection (Some code) }
{
    matches!(code, 1 | 4 | 64 | 71 | 92 | 95 | 101 | 103 | 112 | 113)
}

/// The next connection. Where the server goes on, an error of one connection is skipped, and one of
/// the system is reported and retried after a pause; else any error ends it.
fn next_stream<'a, R: Net + Clock, E: Write>(
    rt: &R,
    listener: &R::Listener,
    goes_on: bool,
    telling: Telling,
    err: &mut E,
) -> Result<R::Stream, Stop<'a>>
    ensures quiet { telling.aloud ≡ false → err.new ≡ err.old }
    ensures stopped { IfErr result (StopsForFault CannotListen) }
    ensures lasts { goes_on ≡ true → IfErr result NeverAccepts }
{
    for _tries in 0..u64::MAX {
        let error = match listener.accept() {
            Ok((stream, _)) => return Ok(stream),
            Err(error) => error,
        };
        if !goes_on {
            return Err(cannot_listen(error));
        }
        if !is_of_connection(&error) {
            telling.tell_on(&cannot_listen(error), err);
            thread::sleep(rt, Duration::from_secs(PAUSE));
        }
    }
    Err(Stop::Fault(Fault::CannotListen))
}

/// Prints that an allocation failed at a connection. The function allocates nothing.
fn say_no_memory<'a, O: Write>(number: u32, out: &mut O) -> Result<(), Stop<'a>>
    ensures said { OnOk result
        (Appends (O.contents out.old) (O.contents out.new) (connection_line number no_memory_text)) }
    ensures failed { IfErr result (λ stop. StopsWriting stop) }
{
    match write_no_memory(number, out) {
        Ok(()) => Ok(()),
        Err(error) => Err(Stop::Output(error)),
    }
}

/// Writes the line of a connection at which an allocation failed, and flushes it.
pub(crate) fn write_no_memory<O: Write>(number: u32, out: &mut O) -> io::Result<()>
    ensures { OnOk result (Appends (O.contents out.old) (O.contents out.new) (connection_line number no_memory_text)) }
{
    write!(out, "connection {number} NoMemory\n")?;
    out.flush()
}

/// Serves the client of a connection and prints its outcome. Where the server goes on, a failed
/// allocation ends that connection alone.
fn serve_one<'a, R: Net + Clock + AllocGlobal, O: Write>(
    rt: &R,
    stream: R::Stream,
    services: &mut Services,
    number: u32,
    asked: &Serve<'a>,
    out: &mut O,
) -> Result<(), Stop<'a>>
    ensures served { OnOk result (ServesOne asked.now.requests asked.now.goes_on number (O.contents out.old)
        (O.contents out.new)) }
    ensures stopped { IfErr result (λ stop. StopsWriting stop ⊎ HasTold asked.now.requests number (O.contents out.old)
        (O.contents out.new)) }
    ensures lasts { asked.now.goes_on ≡ true → IfErr result StopsWriting }
{
    let served = serve_asked(rt, without_delay(stream), services, number, asked, out);
    match served {
        Ok(text) => say(out, &text),
        Err(stop) => outlive(stop, asked.goes_on, number, out),
    }
}

/// Prints that an allocation failed at a connection, where that is why it stopped and the server
/// goes on; else stops the server.
fn outlive<'a, O: Write>(
    stop: Stop<'a>,
    goes_on: bool,
    number: u32,
    out: &mut O,
) -> Result<(), Stop<'a>>
    ensures said { OnOk result ((goes_on ≡ true) × (is_starved stop.entry ≡ true)
        × Appends (O.contents out.old) (O.contents out.new) (connection_line number no_memory_text)) }
    ensures stopped { IfErr result (λ why. StopsWriting why ⊎ ((why ≡ stop.entry) × (out.new ≡ out.old))) }
    ensures lasts { goes_on ≡ true → StopsConnection stop.entry → IfErr result StopsWriting }
{
    if goes_on && stop.is_starved() {
        return say_no_memory(number, out);
    }
    Err(stop)
}

/// What is served, and how.
#[derive(Drop)]
struct Loaded<'r, 'a, R> {
    made: StandardServices,
    /// The node file, if it is followed.
    live: Option<LiveFile<'r, 'a, R>>,
}

/// The services over the nodes of a file with this text, with the standard ones where they are
/// asked for.
fn services_asked<'a>(
    alloc: Global,
    text: &str,
    asked: &Serve<'a>,
) -> Result<StandardServices, Fault<'a>> {
    if asked.standard {
        return standard_services(alloc, text, asked.port);
    }
    Ok(StandardServices {
        services: services(alloc, text, asked.port)?,
        keeps_time: false,
    })
}

/// The node file of which this text was loaded, if it is to be followed.
fn followed<'r, 'a, R>(rt: &'r R, asked: &Serve<'a>, text: String) -> Option<LiveFile<'r, 'a, R>> {
    if !asked.live {
        return None;
    }
    Some(LiveFile::new(rt, asked.nodes, asked.plain, text))
}

/// Loads a node file as it is asked, or standard input where it is named `-`.
fn load_asked<'r, 'a, R: Files + AllocGlobal, I: Read>(
    rt: &'r R,
    asked: &Serve<'a>,
    input: &mut I,
) -> Result<Loaded<'r, 'a, R>, Stop<'a>> {
    let text = read_nodes(rt, asked.nodes, asked.plain, input)?;
    match services_asked(rt.alloc(), &text, asked) {
        Ok(made) => Ok(Loaded {
            made,
            live: followed(rt, asked, text),
        }),
        Err(fault) => Err(blame_line(rt.alloc(), &text, fault)),
    }
}

/// The services with this limit of memory, if there is one.
fn limited(services: Services, most: Option<u32>) -> Services
    ensures { result ≡ limited_to most services }
{
    match most {
        Some(most) => services.with_memory_limit(most as usize),
        None => services,
    }
}

/// Takes connections on a port of this machine from now on.
fn listen<'a, R: Net>(rt: &R, port: u16) -> Result<R::Listener, Stop<'a>> {
    match TcpListener::bind(rt, (Ipv4Addr::LOCALHOST, port)) {
        Ok(listener) => Ok(listener),
        Err(error) => Err(cannot_listen(error)),
    }
}

/// Prints that connections are accepted.
pub(crate) fn say_listening<'a, O: Write>(
    alloc: Global,
    port: u16,
    out: &mut O,
) -> Result<(), Stop<'a>>
    ensures said { OnOk result (Appends (O.contents out.old) (O.contents out.new) (listening_line port)) }
    ensures stopped { IfErr result (λ stop. StopsWriting stop ⊎ (out.new ≡ out.old)) }
{
    let text = format!(in alloc; "listening {port}\n")?;
    say(out, &text)
}

/// Serves this many connections on a port of this machine, numbered from 1. Where the server goes
/// on, as with `--connections all`, it is ended neither by a failed allocation, which is reported,
/// nor by an error of the listener that has its reason.
fn serve_all<'a, R: Net + Clock + AllocGlobal, O: Write, E: Write>(
    rt: &R,
    services: &mut Services,
    setup: &Setup<'a>,
    out: &mut O,
    err: &mut E,
) -> Result<(), Stop<'a>>
    ensures served { OnOk result (HasServed setup.now.asked.requests setup.now.asked.goes_on setup.now.asked.port
        setup.now.asked.connections (O.contents out.old) (O.contents out.new)) }
    ensures stopped { IfErr result (λ stop. StopsWriting stop ⊎ (out.new ≡ out.old)
        ⊎ HasServedSome setup.now.asked.requests setup.now.asked.goes_on setup.now.asked.port
        setup.now.asked.connections (O.contents out.old) (O.contents out.new)) }
    // Once it listens, neither a failed allocation nor an error of the listener with its reason
    // ends a server that goes on.
    ensures lasts { setup.now.asked.goes_on ≡ true → IfErr result (λ why. EndsServing why ⊎ (out.new ≡ out.old)) }
    ensures quiet { setup.now.telling.aloud ≡ false → err.new ≡ err.old }
{
    let listener = listen(rt, setup.asked.port)?;
    say_listening(rt.alloc(), setup.asked.port, out)?;
    for number in 0..setup.asked.connections {
        let stream = next_stream(rt, &listener, setup.asked.goes_on, setup.telling, err)?;
        serve_one(rt, stream, services, number + 1, &setup.asked, out)?;
    }
    Ok(())
}

/// Serves connections on a port of this machine, one after the other or many at a time, and prints
/// the outcome of each.
pub fn serve_connections<'a, R: Files + Net + Clock + AllocGlobal, I: Read, O: Write, E: Write>(
    rt: &R,
    asked: &Serve<'a>,
    input: &mut I,
    out: &mut O,
    telling: Telling,
    err: &mut E,
) -> Result<(), Stop<'a>>
    ensures served { OnOk result (ServesAsked asked.now (O.contents out.old) (O.contents out.new)) }
    ensures stopped { IfErr result (λ stop. StopsWriting stop ⊎ (out.new ≡ out.old)
        ⊎ ServesSomeAsked asked.now (O.contents out.old) (O.contents out.new)) }
    // Where one is served after the other.
    ensures lasts { asked.now.at_once ≡ None → asked.now.goes_on ≡ true
        → IfErr result (λ why. EndsServing why ⊎ (out.new ≡ out.old)) }
    ensures quiet { telling.aloud ≡ false → err.new ≡ err.old }
{
    let Loaded { made, live } = load_asked(rt, asked, input)?;
    let StandardServices {
        services,
        keeps_time,
    } = made;
    let mut services = limited(services, asked.kept);
    // the server keeps CurrentTime where the file does not have it
    let asked = Serve {
        standard: keeps_time,
        ..*asked
    };
    let setup = Setup { asked, telling };
    match asked.at_once {
        None => serve_all(rt, &mut services, &setup, out, err),
        Some(places) => {
            let mut plant = Plant {
                services,
                live,
                places,
            };
            serve_places(rt, &mut plant, &setup, out, err)
        }
    }
}
