//! A client over a transport.

ghost use Rattle.std.specs.Prelude.{IsTrue};
ghost use Rattle.ua_wire.specs.Counted.{text};

use crate::services::request_in;
use crate::transports::line_of;
use crate::vectors::{MOMENT, Vectors, limits, row_of, url};
use std::alloc::Global;
use std::process::Abort;
use std::test::Fail;
use ua_builtin::UaString;
use ua_channel::MemoryLine;
use ua_client::{CallsFault, Client, ClientFault, Reply};
use ua_frame::Limits;
use ua_services::{Request, response_body};

/// The paces of a transport and what comes over it to a client that opens its channel, begins a session, writes,
/// reads, ends the session and closes: up to which step it came and why no further, what it wrote, and the bodies of
/// the replies.
const TALKS: &str = "\
all all / $DOWN = 6 done / $UP / $WRITTEN_1 $SIX_1 $CLOSED_1
1 1 / $DOWN = 6 done / $UP / $WRITTEN_1 $SIX_1 $CLOSED_1
100 7 / $DOWN = 6 done / $UP / $WRITTEN_1 $SIX_1 $CLOSED_1
28,135,358,64,64,82,52!4 all / $DOWN = 1 a read of the line failed / $BEGIN /
all all!3 / $DOWN = 1 a write of the line failed / $UP[..188] /
all all!2 / $DOWN = 0 a write of the line failed / $HEL /
all all / 0*00 = 0 the input ended / $HEL /
all all / $ACK = 0 the input ended / $UP[..188] /
all all / 'ERRF 10000000 00008180 FFFFFFFF = 0 the server refused the connection: 80810000 / $HEL /
all all / $ACK 'OPNF 87000000 01000000 $NONE 01000000 01000000 0100C101 $AT 00000000 00008180 $ANSWERING 00000000 \
01000000 01000000 $AT 80EE3600 FFFFFFFF = 0 what the server sent was refused: 80810000 / $UP[..188] /
all all / $DOWN[..163] 'MSGF 19000000 01000000 01000000 02000000 09000000 BB = 1 what the server sent was refused: \
80090000 / $UP[..347] /
all all / $OPENED = 0 what the server sent was refused: 807E0000 / $HEL /
all all / $DOWN[..163] 'MSGF 34000000 01000000 01000000 02000000 02000000 01008D01 $AT 02000000 00005680 $ANSWERING = \
1 the service failed: 80560000 / $UP[..347] /
all all / $DOWN[..163] 'MSGA 20000000 01000000 01000000 02000000 02000000 0000B980 FFFFFFFF = \
1 the service failed: 80B90000 / $UP[..347] /
all all / $DOWN[..585] $SIX_TO_WRITE = 2 the response is unknown / $UP[..540] /
all all / $DOWN[..649] 'ERRF 10000000 00008180 FFFFFFFF = 3 the server refused the connection: 80810000 / $UP[..640] / \
$WRITTEN_1
";

/// Calls of a client that renews its token between the Write and the Read.
const RENEWED: &str = "\
all all / $DOWN[..649] $RENEWED $SIX_RENEWED $CLOSED_RENEWED = 6 done / $UP[..540] $RENEWAL $READ_RENEWED \
$CLOSE_RENEWED $CLO_RENEWED / $WRITTEN_1 $SIX_1 $CLOSED_1
all all / $DOWN[..649] = 3 the input ended / $UP[..540] $RENEWAL / $WRITTEN_1
";

/// A Write, a Read and a CloseSession.
pub fn requests(vectors: &Vectors) -> Result<Vec<Request>, Fail> {
    let mut requests = Vec::new(vectors.alloc());
    for body in ["$WRITING", "$READING", "$CLOSING"] {
        let octets = vectors.octets(body)?;
        requests.push(request_in(vectors.alloc(), octets.as_slice())?)?;
    }
    Ok(requests)
}

/// Opens a channel, begins a session, asks each request by itself, and closes; before the second one it may renew its
/// token. Counts the steps.
fn talk(
    alloc: Global,
    line: &mut MemoryLine,
    ends: (Limits, UaString),
    requests: &[Request],
    renews: bool,
    steps: &mut u8,
    replies: &mut Vec<Reply>,
) -> Result<(), ClientFault>
    requires { IsTrue (text.encodable ends.1) }
{
    let mut client = Client::open(alloc, line, ends.0, ends.1, MOMENT)?;
    *steps = 1;
    client.begin_session(line, MOMENT)?;
    *steps = 2;
    for request in requests {
        if renews && *steps == 3 {
            client.renew(line, MOMENT)?;
        }
        let reply = client.call(line, request, MOMENT)?;
        if replies.push(reply).is_err() {
            return Err(ClientFault::OutOfMemory);
        }
        *steps = steps.saturating_add(1);
    }
    client.close(line, MOMENT)?;
    *steps = steps.saturating_add(1);
    Ok(())
}

/// The bodies of replies, one behind the other.
pub fn bodies(alloc: Global, replies: Vec<Reply>) -> Result<Vec<u8>, Fail> {
    let mut out = Vec::new(alloc);
    for reply in replies {
        match reply {
            Reply::Response(response) => {
                let body = response_body(alloc, response)?;
                out.extend_from_slice(body.as_slice())?;
            }
            Reply::Aborted(code) => out.extend_from_slice(&code.code.to_le_bytes())?,
        }
    }
    Ok(out)
}

/// Compares a row with what a client does.
fn check(rt: &impl Abort, vectors: &Vectors, row: &str, renews: bool) -> Result<(), Fail> {
    let alloc = vectors.alloc();
    let (question, answer) = row_of(row).ok_or("no row")?;
    let (paces, down) = question.split_once(" / ").ok_or("no paces")?;
    let (told, answer) = answer.split_once(" / ").ok_or("no end")?;
    let (up, answered) = answer.split_once(" /").ok_or("no replies")?;
    let mut line = line_of(alloc, paces, vectors.octets(down)?)?;
    let (mut steps, mut replies) = (0, Vec::new(alloc));
    let requests = requests(vectors)?;
    let ends = (limits()?, url(alloc)?);
    let found = match talk(
        alloc,
        &mut line,
        ends,
        requests.as_slice(),
        renews,
        &mut steps,
        &mut replies,
    ) {
        Ok(()) => format!(in alloc; "{steps} done")?,
        Err(fault) => format!(in alloc; "{steps} {fault}")?,
    };
    assert_eq!(rt; found.as_str(), told, "{row}");
    assert_eq!(rt; line.written(), vectors.octets(up)?.as_slice(), "{row}");
    assert_eq!(rt; bodies(alloc, replies)?, vectors.octets(answered)?, "{row}");
    Ok(())
}

#[test]
fn talks_over_transports(rt: HostRuntime) -> Result<(), Fail> {
    let vectors = Vectors::new(rt.alloc())?;
    for row in TALKS.lines() {
        check(&rt, &vectors, row, false)?;
    }
    for row in RENEWED.lines() {
        check(&rt, &vectors, row, true)?;
    }
    Ok(())
}

#[test]
fn keeps_the_replies_before_a_fault(rt: HostRuntime) -> Result<(), Fail> {
    let (alloc, vectors) = (rt.alloc(), Vectors::new(rt.alloc())?);
    let mut line = line_of(alloc, "all all", vectors.octets("$DOWN[..649]")?)?;
    let mut client = Client::open(alloc, &mut line, limits()?, url(alloc)?, MOMENT)?;
    assert_eq!(rt; client.next_id(), Some(2));
    client.begin_session(&mut line, MOMENT)?;
    let (requests, mut replies) = (requests(&vectors)?, Vec::new(alloc));
    let found = client.call_into(&mut line, requests.as_slice(), MOMENT, &mut replies);
    let want = CallsFault {
        request: 1,
        fault: ClientFault::Ended,
    };
    assert_eq!(rt; found, Err(want));
    assert_eq!(rt; bodies(alloc, replies)?, vectors.octets("$WRITTEN_1")?);
    assert_eq!(rt; client.close(&mut line, MOMENT), Err(ClientFault::Closed));
    assert_eq!(rt; (client.next_id(), client.held()), (None, 0));
    Ok(())
}
