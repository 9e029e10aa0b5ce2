//! `ua loop`: a script that is run over nodes, both ends within this process.

ghost use Rattle.std.specs.Prelude.{◌≡◌, ◌⊎◌, [], true, false, None, Ok, IfOk, OnOk, IfErr};
ghost use Rattle.ua_program.specs.Looped.{HasLooped, HasLoopedUntil, RefusesScript, RunsScript};
ghost use Rattle.ua_report.specs.Reasons.{StopsWriting};
ghost use Rattle.ua_session.specs.declared.verdict.Verdict.TheVariants.{SomeBad};
ghost use Rattle.ua_nodes.specs.Sound.{AreNodesSound};
ghost use Rattle.ua_server.specs.declared.step.End.TheVariants.{Closed};

use crate::loop_line::LoopLine;
use crate::script::{Looped, parse_lines, run_lines};
use std::alloc::{AllocError, Global};
use std::io::{Read, Write};
use std::net::{Ipv4Addr, Net, OpenListener, TcpListener, TcpStream};
use std::rt::Files;
use ua_channel::ListMoments;
use ua_client::ClientFault;
use ua_exchange::limits;
use ua_nodes::NodeTable;
use ua_report::{
    Fault, LoopFault, Stop, blame_step, cannot_connect, cannot_listen, load_nodes, read_lines,
    read_nodes, say_lines,
};
use ua_server::{End, ServeFault, serve};
use ua_serving::services;
use ua_session::{QuestionFault, Verdict};
use ua_tcp::without_delay;
use ua_words::Loop;

/// The port in the server's address.
const PORT: u16 = 4840;

/// The server's one channel.
const CHANNEL: u32 = 1;

/// The timestamp of everything that is sent: 1970-01-01 00:00 UTC.
const MOMENT: i64 = 116_444_736_000_000_000;

/// Timestamps that are all the same.
fn moments(alloc: Global) -> Result<ListMoments, AllocError> {
    let mut ticks = Vec::new(alloc);
    ticks.push(MOMENT)?;
    Ok(ListMoments::new(ticks))
}

/// The outcome of a server over a connection within this process.
fn outcome<'a>(ended: Result<End, ServeFault>, is_carried: bool) -> Result<(), Fault<'a>>
    ensures closed { OnOk result (ended ≡ Ok Closed) }
    ensures carried { OnOk result (is_carried ≡ true) }
    ensures failed { ended ≡ Ok Closed → IfErr result (λ fault. is_carried ≡ false) }
{
    let fault = match ended {
        Ok(End::Closed) if is_carried => return Ok(()),
        Ok(_) => ClientFault::Ended,
        Err(ServeFault::Read) => ClientFault::Read,
        Err(ServeFault::Write(_)) => ClientFault::Write,
        Err(ServeFault::TooLong) => ClientFault::TooLong,
        Err(ServeFault::OutOfMemory) => return Err(Fault::NoMemory),
    };
    Err(Fault::Asking(QuestionFault::Connection(fault)))
}

/// The two ends of one connection within this process.
fn connection<'a, R: Net>(rt: &R) -> Result<(R::Stream, R::Stream), Stop<'a>> {
    let listener = match TcpListener::bind(rt, (Ipv4Addr::LOCALHOST, 0)) {
        Ok(listener) => listener,
        Err(error) => return Err(cannot_listen(error)),
    };
    let address = match listener.local_addr() {
        Ok(address) => address,
        Err(error) => return Err(cannot_listen(error)),
    };
    let near = match TcpStream::connect(rt, address) {
        Ok(near) => near,
        Err(error) => return Err(cannot_connect(error)),
    };
    match listener.accept() {
        Ok((far, _)) => Ok((without_delay(near), without_delay(far))),
        Err(error) => Err(cannot_listen(error)),
    }
}

/// Sends the bytes of a script over the connection of a transport: those of its client to a server
/// over the nodes of this text, and the server's response back.
pub(crate) fn carry_over<'a, S: Read + Write>(
    alloc: Global,
    nodes: &str,
    line: &mut LoopLine<'_, S>,
) -> Result<(), Fault<'a>>
    ensures up { OnOk result (line.new.up.now ≡ []) }
    ensures down { OnOk result (line.new.down.now ≡ []) }
{
    let mut services = services(alloc, nodes, PORT)?;
    let mut moments = moments(alloc)?;
    let ended = serve(alloc, line, &mut services, limits(), CHANNEL, &mut moments);
    outcome(ended, line.is_carried())
}

/// Sends the bytes of a script over one connection within this process.
fn carry_over_tcp<'a, R: Net + AllocGlobal>(
    rt: &R,
    nodes: &str,
    looped: &Looped,
) -> Result<(), Stop<'a>> {
    let (near, far) = connection(rt)?;
    let mut line = LoopLine::new(near, far, &looped.up, &looped.down);
    Ok(carry_over(rt.alloc(), nodes, &mut line)?)
}

/// Runs the script of a text over nodes, each end taking what the other wrote in fragments of at
/// most `cut` bytes. With `names` the names of StatusCodes stand after them; with `plain` values
/// are written as people write them.
pub(crate) fn run_script(
    alloc: Global,
    nodes: NodeTable,
    script: &str,
    cut: u16,
    names: bool,
    plain: bool,
) -> Result<Looped, LoopFault>
    requires sound { AreNodesSound nodes }
    ensures ran { IfOk result (λ looped. RunsScript plain names nodes script.now looped) }
    ensures refused { IfErr result (λ fault. RefusesScript script.now fault) }
{
    let lines = parse_lines(alloc, script)?;
    run_lines(alloc, nodes, &lines, cut, names, plain)
}

/// The same, with the field that is to blame for a bad line.
fn run_text<'a>(
    alloc: Global,
    nodes: NodeTable,
    script: &str,
    cut: u16,
    names: bool,
    plain: bool,
) -> Result<Looped, Stop<'a>>
    requires sound { AreNodesSound nodes }
    ensures ran { IfOk result (λ looped. RunsScript plain names nodes script.now looped) }
{
    match run_script(alloc, nodes, script, cut, names, plain) {
        Ok(looped) => Ok(looped),
        Err(fault) => Err(blame_step(alloc, script, fault)),
    }
}

/// Which bad StatusCodes count: they do only where `--strict` asks for it.
fn counted(has_bad: bool, strict: bool) -> Verdict
    ensures strict { result ≡ SomeBad → strict ≡ true }
    ensures bad { result ≡ SomeBad → has_bad ≡ true }
    ensures both { has_bad ≡ true → strict ≡ true → result ≡ SomeBad }
{
    if has_bad && strict {
        Verdict::SomeBad
    } else {
        Verdict::AllGood
    }
}

/// Runs the script of a file over the nodes of another, or of standard input where that is named
/// `-`, and prints the answers to its lines and the number of bytes in each direction. Where a
/// reply is a fault, the answers before it are printed.
pub(crate) fn run_files<'a, R: Files + Net + AllocGlobal, I: Read, O: Write>(
    rt: &R,
    asked: &Loop<'a>,
    input: &mut I,
    out: &mut O,
) -> Result<Verdict, Stop<'a>>
    ensures strict { IfOk result (λ verdict. verdict ≡ SomeBad → asked.now.strict ≡ true) }
    ensures looped { OnOk result (HasLooped asked.now.plain asked.now.names None (O.contents out.old)
        (O.contents out.new)) }
    ensures stopped { IfErr result (λ stop. StopsWriting stop ⊎ (out.new ≡ out.old)
        ⊎ HasLoopedUntil asked.now.plain asked.now.names stop (O.contents out.old) (O.contents out.new)) }
{
    let text = read_nodes(rt, asked.nodes, asked.plain, input)?;
    let nodes = load_nodes(rt.alloc(), &text)?;
    let script = read_lines(rt, asked.script, asked.plain)?;
    let looped = run_text(
        rt.alloc(),
        nodes,
        &script,
        asked.cut,
        asked.names,
        asked.plain,
    )?;
    if asked.tcp {
        carry_over_tcp(rt, &text, &looped)?;
    }
    say_lines(out, &looped.text)?;
    match looped.fault {
        None => Ok(counted(looped.has_bad, asked.strict)),
        Some(fault) => Err(Stop::from(fault)),
    }
}
