//! Both ends of a connection, over memory.

use crate::client::{bodies, requests};
use crate::services::{PUMP, request_in, services_over};
use crate::vectors::{MOMENT, Vectors, limits, url};
use std::alloc::Global;
use std::test::Fail;
use ua_channel::AskFault;
use ua_exchange::{PairFault, Turn, exchange};
use ua_loopback::{Fragments, ServerSetup, converse};
use ua_nodes::NodeTable;
use ua_server::End;

/// The lengths of fragments that a client and a server take alike.
fn lengths(alloc: Global, length: usize) -> Result<Vec<usize>, Fail> {
    let mut lengths = Vec::new(alloc);
    if length != 0 {
        lengths.push(length)?;
    }
    Ok(lengths)
}

/// A Write, perhaps a renewal, a Read and a CloseSession, after the two requests that begin a session.
fn turns(vectors: &Vectors, renews: bool) -> Result<Vec<Turn>, Fail> {
    let mut turns = Vec::new(vectors.alloc());
    for body in ["$CREATION", "$ACTIVATION"] {
        let octets = vectors.octets(body)?;
        turns.push(Turn::Ask(request_in(vectors.alloc(), octets.as_slice())?))?;
    }
    for request in requests(vectors)? {
        turns.push(Turn::Ask(request))?;
        if renews && turns.len() == 3 {
            turns.push(Turn::Renew)?;
        }
    }
    Ok(turns)
}

#[test]
fn exchanges_the_same_bytes_in_all_fragments(rt: HostRuntime) -> Result<(), Fail> {
    let (alloc, vectors) = (rt.alloc(), Vectors::new(rt.alloc())?);
    for length in [0, 1, 7, 65535] {
        for (renews, up, down) in [
            (false, "$UP", "$DOWN"),
            (
                true,
                "$UP[..540] $RENEWAL $READ_RENEWED $CLOSE_RENEWED $CLO_RENEWED",
                "$DOWN[..649] $RENEWED $SIX_RENEWED $CLOSED_RENEWED",
            ),
        ] {
            let turns = turns(&vectors, renews)?;
            let nodes = NodeTable::load(alloc, PUMP)?;
            let lengths = lengths(alloc, length)?;
            let found = exchange(
                alloc,
                nodes,
                turns.as_slice(),
                lengths.as_slice(),
                lengths.as_slice(),
                MOMENT,
            )?;
            assert_eq!(rt; found.up, vectors.octets(up)?, "{length}");
            assert_eq!(rt; found.down, vectors.octets(down)?, "{length}");
            assert_eq!(rt; found.end, End::Closed);
            let want = vectors.octets("$CREATED_1 $ACTIVATED_1 $WRITTEN_1 $SIX_1 $CLOSED_1")?;
            assert_eq!(rt; bodies(alloc, found.replies)?, want);
        }
    }
    Ok(())
}

#[test]
fn exchanges_65_requests(rt: HostRuntime) -> Result<(), Fail> {
    let (alloc, vectors) = (rt.alloc(), Vectors::new(rt.alloc())?);
    let octets = vectors.octets("0100AC01 0000 $AT 02000000 $ASKING FFFFFFFF FFFFFFFF FFFFFFFF")?;
    for length in [0, 1, 7, 65535] {
        let mut turns = Vec::new(alloc);
        for _ in 0..65 {
            turns.push(Turn::Ask(request_in(alloc, octets.as_slice())?))?;
        }
        let nodes = NodeTable::load(alloc, "")?;
        let lengths = lengths(alloc, length)?;
        let found = exchange(
            alloc,
            nodes,
            turns.as_slice(),
            lengths.as_slice(),
            lengths.as_slice(),
            MOMENT,
        )?;
        let sizes = (found.up.len(), found.down.len(), found.replies.len());
        assert_eq!(rt;
            (sizes, found.end),
            ((4730, 20833, 65), End::Closed),
            "{length}"
        );
    }
    Ok(())
}

#[test]
fn names_the_operation_that_is_refused(rt: HostRuntime) -> Result<(), Fail> {
    let mut turns = Vec::new(rt.alloc());
    for _ in 0..16 {
        turns.push(Turn::Renew)?;
    }
    let nodes = NodeTable::load(rt.alloc(), PUMP)?;
    let found = exchange(rt.alloc(), nodes, turns.as_slice(), &[], &[], MOMENT);
    let want = PairFault::Request(15, AskFault::TooManyTokens);
    assert_eq!(rt; found.err(), Some(want));
    Ok(())
}

#[test]
fn converses_in_all_fragments(rt: HostRuntime) -> Result<(), Fail> {
    let (alloc, vectors) = (rt.alloc(), Vectors::new(rt.alloc())?);
    for length in [0, 1, 7] {
        let server = ServerSetup {
            limits: limits()?,
            channel_id: 1,
            services: services_over(alloc, PUMP)?,
            moment: MOMENT,
            later: Vec::new(alloc),
        };
        let operations = turns(&vectors, true)?;
        let fragments = Fragments {
            writes: lengths(alloc, length)?,
            reads: lengths(alloc, length)?,
        };
        let found = converse(alloc, server, url(alloc)?, operations.as_slice(), fragments);
        assert_eq!(rt;
            (found.outcome, found.up.len(), found.down.len()),
            (Ok(()), 889, 918),
            "{length}"
        );
        assert_eq!(rt; bodies(alloc, found.replies)?.len(), 500);
    }
    Ok(())
}
