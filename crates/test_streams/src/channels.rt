//! The channels of both ends.

use crate::vectors::{MOMENT, Vectors, limits, row_of, url};
use std::alloc::Global;
use std::test::Fail;
use ua_channel::{AskFault, ChannelFault, ClientChannel, ClientEvent, ServerChannel, ServerEvent};
use ua_chunk::Message;

/// What a client sends to channel 7, and all that is sent back by a server that returns each message.
const TALKS: &str = "\
$HEL_FREE $OPN = $ACK $OPENED_7
'HELF 38000000 00000000 00200000 00200000 00000000 00000000 $URL = 'ACKF 1C000000 00000000 00200000 00200000 \
00001000 00010000
'HELF 1F100000 00000000 FFFF0000 FFFF0000 00000000 00000000 FF0F0000 4095*61 = $ACK
'HELF 20000000 00000000 FFFF0000 FFFF0000 00000000 00000000 FFFFFFFF = $ACK
'HELF 38000000 00000000 FF1F0000 FFFF0000 00000000 00000000 $URL = 'ERRF 10000000 00008180 FFFFFFFF
'HELF 38000000 00000000 FFFF0000 FF1F0000 00000000 00000000 $URL = 'ERRF 10000000 00008180 FFFFFFFF
'HELF 20100000 00000000 FF1F0000 FFFF0000 00000000 00000000 00100000 4096*61 = 'ERRF 10000000 00008380 FFFFFFFF
'HELF 39000000 00000000 FF1F0000 FFFF0000 00000000 00000000 $URL 00 = 'ERRF 10000000 00000780 FFFFFFFF
'HEXF 38000000 = 'ERRF 10000000 00007E80 FFFFFFFF
'HELF 01200000 = 'ERRF 10000000 00008080 FFFFFFFF
'HELF 1F000000 = 'ERRF 10000000 00000780 FFFFFFFF
'MSGF 19000000 = 'ERRF 10000000 00007E80 FFFFFFFF
$HEL_FREE 'MSGF 19000000 = $ACK 'ERRF 10000000 00007E80 FFFFFFFF
$HEL_FREE 'OPNF 84000000 00000000 2F000000 'xttp://opcfoundation.org/UA/SecurityPolicy#None FFFFFFFF FFFFFFFF \
01000000 01000000 $ISSUE = $ACK 'ERRF 10000000 00005580 FFFFFFFF
$HEL_FREE 'OPNF 85000000 00000000 $NONE 01000000 01000000 $RENEW 00 = $ACK 'ERRF 10000000 00000780 FFFFFFFF
$HEL_FREE 'OPNF 84000000 00000000 $NONE 01000000 01000000 $RENEW = $ACK 'ERRF 10000000 00005380 FFFFFFFF
$HEL_FREE 'OPNF 84000000 00000000 $NONE 01000000 01000000 0100BE01 0000 $AT 00000000 $ASKING 00000000 00000000 \
02000000 FFFFFFFF 80EE3600 = $ACK 'ERRF 10000000 00005480 FFFFFFFF
$OPEN $HEL_FREE = $OK 'ERRF 10000000 00007E80 FFFFFFFF
$OPEN 'MSGF 17000000 = $OK 'ERRF 10000000 00000780 FFFFFFFF
$OPEN 'MSGF 00000100 = $OK 'ERRF 10000000 00008080 FFFFFFFF
$OPEN 'MSGF 19000000 08000000 01000000 02000000 02000000 AA = $OK 'ERRF 10000000 00007F80 FFFFFFFF
$OPEN 'MSGF 19000000 07000000 02000000 02000000 02000000 AA = $OK 'ERRF 10000000 00008780 FFFFFFFF
$OPEN 'MSGF 19000000 07000000 01000000 03000000 02000000 AA = $OK 'ERRF 10000000 00008880 FFFFFFFF
$OPEN 'MSGA 21000000 07000000 01000000 02000000 02000000 0000B980 FFFFFFFF 00 = $OK 'ERRF 10000000 00000780 FFFFFFFF
$OPEN 'OPNF 84000000 07000000 $NONE 02000000 02000000 $ISSUE = $OK 'ERRF 10000000 00005380 FFFFFFFF
$OPEN 'OPNF 84000000 08000000 $NONE 02000000 02000000 $RENEW = $OK 'ERRF 10000000 00007F80 FFFFFFFF
$OPEN 'CLOF 18000000 07000000 02000000 02000000 02000000 = $OK 'ERRF 10000000 00008780 FFFFFFFF
$OPEN 'MSGF 19000000 07000000 01000000 02000000 02000000 AA = $OK 'MSGF 19000000 07000000 01000000 02000000 02000000 AA
$OPEN 'MSGC 19000000 07000000 01000000 02000000 02000000 AA 'MSGA 20000000 07000000 01000000 03000000 02000000 \
0000B980 FFFFFFFF 'CLOF 18000000 07000000 01000000 04000000 03000000 = $OK
$OPEN $RENEWAL_7 'MSGF 19000000 07000000 01000000 03000000 03000000 AA 'MSGF 19000000 07000000 02000000 04000000 \
04000000 BB 'MSGF 19000000 07000000 01000000 05000000 05000000 CC = $OK $RENEWED_7 'MSGF 19000000 07000000 01000000 \
03000000 03000000 AA 'MSGF 19000000 07000000 02000000 04000000 04000000 BB 'ERRF 10000000 00008780 FFFFFFFF
$OPEN 'MSGC 19000000 07000000 01000000 02000000 09000000 AA 'OPNF 84000000 07000000 $NONE 03000000 02000000 $RENEW \
'MSGF 19000000 07000000 02000000 04000000 09000000 BB = $OK 'OPNF 87000000 07000000 $NONE 02000000 02000000 \
0100C101 $AT 00000000 $GOOD 00000000 07000000 02000000 $AT 80EE3600 FFFFFFFF 'MSGF 1A000000 07000000 02000000 03000000 \
09000000 AABB
";

/// All that a server's channel sends where each message is sent back, for bytes that come so many at once.
fn echo(vectors: &Vectors, octets: &[u8], size: usize) -> Result<Vec<u8>, Fail> {
    let mut channel = ServerChannel::new(vectors.alloc(), limits()?, 7);
    let mut out = Vec::new(vectors.alloc());
    let mut rest = octets;
    for _ in 0..octets.len() {
        let piece = rest.get(..size).unwrap_or(rest);
        match channel.take(piece, MOMENT) {
            Ok((taken, event)) => {
                rest = rest.get(taken..).unwrap_or(&[]);
                send_back(vectors.alloc(), &mut channel, event, &mut out)?;
            }
            Err(ChannelFault::Refused { err_frame, .. }) => {
                out.extend_from_slice(&err_frame)?;
                break;
            }
            Err(fault) => return Err(Fail::from(fault)),
        }
        if rest.is_empty() {
            break;
        }
    }
    Ok(out)
}

fn send_back(
    alloc: Global,
    channel: &mut ServerChannel,
    event: ServerEvent,
    out: &mut Vec<u8>,
) -> Result<(), Fail> {
    match event {
        ServerEvent::Send(octets) => out.extend_from_slice(octets.as_slice())?,
        ServerEvent::Asked(id, message) => {
            let body = joined(alloc, &message)?;
            if body.is_empty() {
                return Err(Fail::from("nothing asked"));
            }
            out.extend_from_slice(channel.reply(id, body.as_slice())?.as_slice())?;
        }
        ServerEvent::NeedMore | ServerEvent::Aborted(_) | ServerEvent::Closed => {}
    }
    Ok(())
}

fn joined(alloc: Global, message: &Message) -> Result<Vec<u8>, Fail> {
    let mut out = Vec::new(alloc);
    for part in message.parts() {
        out.extend_from_slice(part.as_slice())?;
    }
    Ok(out)
}

#[test]
fn answers_clients_in_all_fragments(rt: HostRuntime) -> Result<(), Fail> {
    let vectors = Vectors::new(rt.alloc())?;
    for line in TALKS.lines() {
        let (up, down) = row_of(line).ok_or("no row")?;
        let (up, down) = (vectors.octets(up)?, vectors.octets(down)?);
        for size in [1, 7, 65535] {
            assert_eq!(rt; echo(&vectors, up.as_slice(), size)?, down, "{size} {line}");
        }
    }
    Ok(())
}

#[test]
fn greets_by_need_more_55_times(rt: HostRuntime) -> Result<(), Fail> {
    let vectors = Vectors::new(rt.alloc())?;
    let (hello, ack) = (vectors.octets("$HEL_FREE")?, vectors.octets("$ACK")?);
    let mut channel = ServerChannel::new(rt.alloc(), limits()?, 7);
    let mut waits = 0u32;
    for octet in hello.as_slice() {
        match channel.take(&[*octet], MOMENT)? {
            (1, ServerEvent::NeedMore) => waits = waits.saturating_add(1),
            (1, ServerEvent::Send(octets)) => assert_eq!(rt; octets.as_slice(), ack.as_slice()),
            _ => panic!(rt; "no ACK"),
        }
    }
    assert_eq!(rt; waits, 55);
    Ok(())
}

/// A client whose channel 7 is open.
fn opened(vectors: &Vectors) -> Result<ClientChannel, Fail> {
    let mut channel = ClientChannel::new(vectors.alloc(), limits()?, url(vectors.alloc())?);
    let octets = vectors.octets("$OK")?;
    channel.take(octets.as_slice().get(..28).unwrap_or(&[]), MOMENT)?;
    channel.take(octets.as_slice().get(28..).unwrap_or(&[]), MOMENT)?;
    Ok(channel)
}

#[test]
fn writes_the_frames_of_a_client(rt: HostRuntime) -> Result<(), Fail> {
    let vectors = Vectors::new(rt.alloc())?;
    let fresh = ClientChannel::new(rt.alloc(), limits()?, url(rt.alloc())?);
    assert_eq!(rt; fresh.hello()?, vectors.octets("$HEL")?);
    let mut channel = opened(&vectors)?;
    assert_eq!(rt; channel.judge(0, 1_048_576), Ok(()));
    assert_eq!(rt; channel.judge(0, 1_048_577), Err(AskFault::RequestTooLarge));
    assert_eq!(rt; channel.judge(64, 1), Err(AskFault::TooManyPending));
    assert_eq!(rt; channel.renew(MOMENT)?, (2, vectors.octets("$RENEWAL_7")?));
    assert_eq!(rt; channel.renew(MOMENT).err(), Some(AskFault::RenewPending));
    let asked = vectors.octets("'MSGF 19000000 07000000 01000000 03000000 03000000 AA")?;
    assert_eq!(rt; channel.ask(&[0xAA])?, (3, asked));
    let renewed = vectors.octets("$RENEWED_7")?;
    assert!(rt;
        matches!(
            channel.take(renewed.as_slice(), MOMENT)?,
            (135, ClientEvent::Renewed(2))
        )
    );
    assert_eq!(rt; channel.next_id(), 4);
    let octets = channel.close(MOMENT)?;
    assert_eq!(rt;
        octets,
        vectors.octets("'CLOF 39000000 07000000 02000000 04000000 04000000 $LEAVING")?
    );
    assert_eq!(rt; channel.close(MOMENT).err(), Some(AskFault::NotOpen));
    Ok(())
}
