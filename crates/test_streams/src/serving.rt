//! A server on one connection: over fragments, and over a transport.

use crate::services::{PUMP, reply, services_over};
use crate::transports::line_of;
use crate::vectors::{MOMENT, Vectors, limits, row_of};
use std::alloc::Global;
use std::test::Fail;
use ua_channel::{ListMoments, MemoryLine};
use ua_server::{End, ServeFault, Server, Services, serve};

/// The paces of a transport and what comes over it: how the connection ends, what is written, and then the answer
/// to the Read.
const SERVED: &str = "\
all all / $UP = Ok(Closed) / $DOWN / $UNKNOWN
1 1 / $UP = Ok(Closed) / $DOWN / $UNKNOWN
100 7 / $UP = Ok(Closed) / $DOWN / $UNKNOWN
all all / $UP[..690] = Ok(Cut) / $DOWN[..731] / $SIX_1
all all / $UP[..700] = Ok(NoClose) / $DOWN / $UNKNOWN
all all / 0*00 = Ok(NoClose) / / $UNKNOWN
100!3 all / $UP = Err(Read) / $DOWN[..163] / $UNKNOWN
all all!5 / $UP = Err(Write(585)) / $DOWN[..585] / $SIX_1
all 100!6 / $UP = Err(Write(363)) / $DOWN[..363] / $INACTIVE
all all / $HEL_20 $OPN $CREATE $CLOSE_3 = Ok(NoClose) / 'ACKF 1C000000 00000000 FFFF0000 FFFF0000 00001000 00010000 \
$OPENED 'MSGA 20000000 01000000 01000000 02000000 02000000 0000B980 FFFFFFFF 'MSGA 20000000 01000000 01000000 \
03000000 06000000 0000B980 FFFFFFFF / $UNKNOWN
all all / $BEGIN $WRITE $RENEWAL $READ_RENEWED = Ok(NoClose) / $DOWN[..649] $RENEWED $SIX_RENEWED / $SIX_1
all all / $HEL_8192 $OPN $CREATE $ACTIVATE 'MSGF F3610000 01000000 01000000 04000000 04000000 $READ_ANY E8030000 \
1000*$ITEM 'MSGF 0C620000 01000000 01000000 05000000 05000000 $READ_ANY E9030000 1001*$ITEM = Ok(NoClose) / \
$ACK_8192 $OPENED $CREATED $ACTIVATED 'MSGC 00200000 01000000 01000000 04000000 04000000 01007A02 $AT 05000000 $GOOD \
E8030000 581*$FIVE 0906 'MSGF 04170000 01000000 01000000 05000000 04000000 05000000 $AT 418*$FIVE FFFFFFFF 'MSGF \
34000000 01000000 01000000 06000000 05000000 $NO_READING / $FIVE_1
";

/// How a server ends over a transport, to which it answers at 1970-01-01.
fn serve_line(
    services: &mut Services,
    line: &mut MemoryLine,
    alloc: Global,
) -> Result<Result<End, ServeFault>, Fail> {
    let mut ticks = Vec::new(alloc);
    ticks.push(MOMENT.ticks)?;
    let mut moments = ListMoments::new(ticks);
    Ok(serve(alloc, line, services, limits()?, 1, &mut moments))
}

/// What a server writes over a transport of these paces for these bytes, and how it ends.
fn served(
    alloc: Global,
    paces: &str,
    octets: &[u8],
) -> Result<(MemoryLine, Result<End, ServeFault>), Fail> {
    let mut services = services_over(alloc, PUMP)?;
    let mut copy = Vec::new(alloc);
    copy.extend_from_slice(octets)?;
    let mut line = line_of(alloc, paces, copy)?;
    let end = serve_line(&mut services, &mut line, alloc)?;
    Ok((line, end))
}

#[test]
fn serves_transports(rt: HostRuntime) -> Result<(), Fail> {
    let (alloc, vectors) = (rt.alloc(), Vectors::new(rt.alloc())?);
    for row in SERVED.lines() {
        let (question, answer) = row_of(row).ok_or("no row")?;
        let (paces, up) = question.split_once(" / ").ok_or("no paces")?;
        let (end, answer) = answer.split_once(" / ").ok_or("no end")?;
        let (down, after) = answer.split_once("/ ").ok_or("no answer")?;
        let mut services = services_over(alloc, PUMP)?;
        let mut line = line_of(alloc, paces, vectors.octets(up)?)?;
        let found = serve_line(&mut services, &mut line, alloc)?;
        assert_eq!(rt; format!(in alloc; "{found:?}")?.as_str(), end, "{row}");
        assert_eq!(rt; line.written(), vectors.octets(down)?.as_slice(), "{row}");
        assert_eq!(rt;
            reply(&mut services, &vectors, "$READING")?,
            vectors.octets(after)?,
            "{row}"
        );
    }
    Ok(())
}

#[test]
fn ends_cleanly_behind_eight_fronts(rt: HostRuntime) -> Result<(), Fail> {
    let vectors = Vectors::new(rt.alloc())?;
    let (up, down) = (vectors.octets("$UP")?, vectors.octets("$DOWN")?);
    for len in 0..757 {
        let (line, end) = served(
            rt.alloc(),
            "all all",
            up.as_slice().get(..len).unwrap_or(&[]),
        )?;
        let is_clean = matches!(len, 0 | 56 | 188 | 347 | 452 | 540 | 640 | 700);
        assert_eq!(rt;
            end,
            Ok(if is_clean { End::NoClose } else { End::Cut }),
            "{len}"
        );
        assert!(rt; down.as_slice().starts_with(line.written()), "{len}");
    }
    Ok(())
}

/// Chunks of a message under a RequestId, from a SequenceNumber on, each with a body of so many zeros.
fn push_chunks(
    vectors: &Vectors,
    first: u32,
    count: u32,
    id: u32,
    len: u32,
    out: &mut Vec<u8>,
) -> Result<(), Fail> {
    for number in first..first.saturating_add(count) {
        out.extend_from_slice(b"MSGC")?;
        out.extend_from_slice(&len.saturating_add(24).to_le_bytes())?;
        out.extend_from_slice(vectors.octets("01000000 01000000")?.as_slice())?;
        out.extend_from_slice(&number.to_le_bytes())?;
        out.extend_from_slice(&id.to_le_bytes())?;
        out.resize(out.len().saturating_add(len as usize), 0)?;
    }
    Ok(())
}

/// A server that took these bytes.
fn server_after(services: &mut Services, vectors: &Vectors, octets: &[u8]) -> Result<Server, Fail> {
    let mut server = Server::new(vectors.alloc(), limits()?, 1);
    let mut rest = octets;
    for _ in 0..octets.len() {
        let step = server.step(services, rest, MOMENT)?;
        rest = rest.get(step.taken..).unwrap_or(&[]);
        if rest.is_empty() {
            break;
        }
    }
    Ok(server)
}

#[test]
fn holds_as_much_as_its_bound(rt: HostRuntime) -> Result<(), Fail> {
    let vectors = Vectors::new(rt.alloc())?;
    let mut services = services_over(rt.alloc(), PUMP)?;
    let mut octets = vectors.octets("$HEL_FREE $OPN")?;
    for (first, id) in [(2u32, 2), (19, 3), (36, 4), (53, 5)] {
        push_chunks(&vectors, first, 16, id, 65511, &mut octets)?;
        push_chunks(&vectors, first.saturating_add(16), 1, id, 400, &mut octets)?;
    }
    octets.extend_from_slice(b"MSGF\xFF\xFF\0\0")?;
    octets.resize(octets.len().saturating_add(65526), 0)?;
    let server = server_after(&mut services, &vectors, octets.as_slice())?;
    assert_eq!(rt; (server.held(), server.bound()), (4_259_838, 4_259_839));
    Ok(())
}

#[test]
fn takes_256_chunks(rt: HostRuntime) -> Result<(), Fail> {
    let vectors = Vectors::new(rt.alloc())?;
    for (flag, is_refused) in [(b'C', true), (b'F', true), (b'A', false)] {
        let mut services = services_over(rt.alloc(), PUMP)?;
        let mut octets = vectors.octets("$HEL_FREE $OPN")?;
        push_chunks(&vectors, 2, 256, 2, 0, &mut octets)?;
        let mut server = server_after(&mut services, &vectors, octets.as_slice())?;
        let mut last = vectors.octets(
            "'MSGA 20000000 01000000 01000000 02010000 02000000 00000000 00000000",
        )?;
        if let Some(found) = last.get_mut(3) {
            *found = flag;
        }
        let step = server.step(&mut services, last.as_slice(), MOMENT)?;
        assert_eq!(rt; step.end.is_some(), is_refused, "{flag}");
    }
    Ok(())
}
