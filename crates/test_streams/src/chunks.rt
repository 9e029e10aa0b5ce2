//! Chunks: their headers, bodies that are split, and messages that are reassembled.

ghost use Rattle.std.specs.Prelude.{◌≡◌};

use crate::vectors::{Vectors, row_of};
use bytes::Bytes;
use hex;
use std::alloc::Global;
use std::test::Fail;
use ua_chunk::{Assembler, CutFault, Delivered, Lane, cut, cut_in_place, read_chunk};
use ua_frame::{Frame, Kind};

/// Chunks of a connection, by flag, SequenceNumber, RequestId and body, and what comes of each.
const CHUNKS: &str = "\
C 1 7 01 = waits
C 2 8 02 = waits
F 3 8 03 = whole 8 of 2 parts 02 03
A 4 7 0000B980 FFFFFFFF = aborted 7 80B90000 null
C 5 7 04 = waits
F 6 7 05 = whole 7 of 2 parts 04 05
A 7 9 00003580 02000000 'no = aborted 9 80350000 no
F 8 9 = whole 9 of 0 parts
C 9 2 01 = waits
C 10 3 01 = waits
C 11 4 01 = waits
C 12 5 01 = waits
F 13 6 09 = whole 6 of 1 parts 09
C 14 5 0203 = waits
C 15 6 01 = too many unfinished messages
F 16 2 01 = the assembler is closed
";

/// Chunks that an assembler after the number 1 refuses, whose messages have at most 16 bytes and 2 chunks.
const REFUSED: &str = "\
A 3 7 0000B980 FFFFFFFF 00 = the sequence number does not follow
A 2 7 0000B980 FFFFFFFF 00 = the body of the abort is unreadable
A 2 7 0000B980 02000000 6E = the body of the abort is unreadable
F 2 7 17*07 = the message has too many octets
";

/// What comes of a chunk with this flag, SequenceNumber, RequestId and body, as a text.
fn accepted(assembler: &mut Assembler, vectors: &Vectors, words: &str) -> Result<String, Fail> {
    let (flag, words) = words.split_once(' ').ok_or("no flag")?;
    let (sequence, words) = words.split_once(' ').ok_or("no number")?;
    let (id, body) = words.split_once(' ').unwrap_or((words, ""));
    let mut octets = vectors.octets("01000000 02000000")?;
    octets.extend_from_slice(&sequence.parse::<u32>()?.to_le_bytes())?;
    octets.extend_from_slice(&id.parse::<u32>()?.to_le_bytes())?;
    octets.extend_from_slice(vectors.octets(body)?.as_slice())?;
    let flag = flag.as_bytes().first().copied().ok_or("no flag")?;
    let body = Bytes::copy_from_slice(vectors.alloc(), octets.as_slice())?;
    if !Kind::Msg.has_flag(flag) || body.len() < 16 {
        return Err(Fail::from("no chunk"));
    }
    let kind = Kind::Msg;
    match assembler.accept(read_chunk(Frame { kind, flag, body })) {
        Ok(None) => Ok(String::from_str(vectors.alloc(), "waits")?),
        Ok(Some(delivered)) => told(vectors.alloc(), &delivered),
        Err(fault) => Ok(format!(in vectors.alloc(); "{fault}")?),
    }
}

fn told(alloc: Global, delivered: &Delivered) -> Result<String, Fail> {
    match delivered {
        Delivered::Whole(id, message) => {
            let count = message.parts().len();
            let mut told = format!(in alloc; "whole {id} of {count} parts")?;
            for part in message.parts() {
                told.push(' ')?;
                told.push_str(hex::encode_upper(alloc, part.as_slice())?.as_str())?;
            }
            Ok(told)
        }
        Delivered::Aborted(id, code, reason) => {
            let reason = reason.as_str().unwrap_or("null");
            Ok(format!(in alloc; "aborted {id} {:08X} {reason}", code.code)?)
        }
    }
}

/// The number after the chunks of a body of this length, and how long they are, or why there are none; alike in a new
/// vector and in the body's own.
fn cut_of(
    alloc: Global,
    lane: &Lane,
    sequence: u32,
    len: usize,
) -> Result<Result<(u32, usize), CutFault>, Fail>
    requires room { lane.now.room ≡ 8168 }
{
    let (mut body, mut out) = (Vec::new(alloc), Vec::new(alloc));
    body.resize(len, 7)?;
    if body.is_empty() || sequence > 4_294_966_272 {
        return Err(Fail::from("no body"));
    }
    let next = cut(lane, body.as_slice(), sequence, 3, &mut out);
    let again = cut_in_place(lane, &mut body, sequence, 3);
    match next {
        Ok(next) if again == Ok(next) && out == body => Ok(Ok((next, out.len()))),
        Err(fault) if again == Err(fault) && out.is_empty() => Ok(Err(fault)),
        _ => Err(Fail::from("not alike")),
    }
}

#[test]
fn splits_bodies_into_chunks(rt: HostRuntime) -> Result<(), Fail> {
    for (octets, chunks, sequence, len, want) in [
        (0, 0, 5, 8168, Ok((6, 8192))),
        (0, 0, 5, 8169, Ok((7, 8217))),
        (0, 0, 4_294_966_272, 8169, Ok((2, 8217))),
        (0, 0, 4_294_966_271, 8168, Ok((4_294_966_272, 8192))),
        (0, 2, 5, 16336, Ok((7, 16384))),
        (0, 2, 5, 16337, Err(CutFault::TooManyChunks)),
        (8168, 1, 5, 8168, Ok((6, 8192))),
        (8168, 1, 5, 8169, Err(CutFault::TooManyOctets)),
    ] {
        let lane = Lane {
            channel: 1,
            token: 2,
            room: 8168,
            octets,
            chunks,
        };
        assert_eq!(rt; cut_of(rt.alloc(), &lane, sequence, len)?, want, "{len}");
    }
    Ok(())
}

#[test]
fn takes_the_numbers_that_follow(rt: HostRuntime) {
    for (last, next, follows) in [
        (4_294_966_272, 1, true),
        (4_294_966_272, 4_294_966_273, true),
        (4_294_966_272, 1023, true),
        (4_294_966_272, 1024, false),
        (4_294_966_271, 1, false),
        (4_294_967_295, 0, true),
        (4_294_967_295, 4_294_967_295, false),
        (1, 1, false),
        (1, 3, false),
        (0, 1, true),
    ] {
        let mut assembler = Assembler::new(rt.alloc(), 0, 0, Some(last));
        assert_eq!(rt; assembler.step(next).is_ok(), follows, "{last} {next}");
    }
}

#[test]
fn reassembles_interleaved_messages(rt: HostRuntime) -> Result<(), Fail> {
    let vectors = Vectors::new(rt.alloc())?;
    let mut assembler = Assembler::new(rt.alloc(), 0, 0, None);
    for line in CHUNKS.lines() {
        let (words, told) = row_of(line).ok_or("no row")?;
        assert_eq!(rt;
            accepted(&mut assembler, &vectors, words)?.as_str(),
            told,
            "{line}"
        );
        assert!(rt;
            assembler.held() <= 6 && assembler.open_count() <= 4,
            "{line}"
        );
    }
    assert_eq!(rt; assembler.held(), 0);
    for line in REFUSED.lines() {
        let (words, told) = row_of(line).ok_or("no row")?;
        let mut assembler = Assembler::new(rt.alloc(), 16, 2, Some(1));
        assert_eq!(rt;
            accepted(&mut assembler, &vectors, words)?.as_str(),
            told,
            "{line}"
        );
    }
    Ok(())
}
