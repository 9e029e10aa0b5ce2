//! The dissector of the bytes of one side.

use crate::vectors::Vectors;
use std::alloc::Global;
use std::test::Fail;
use ua_pair::{DissectOptions, Dissector, Side, dissect};

/// The lines of bytes that come so many at once, and whether a frame was refused.
fn lines(alloc: Global, octets: &[u8], size: usize) -> Result<(String, bool), Fail> {
    let mut dissector = Dissector::new(alloc, DissectOptions::plain(Side::Client));
    let mut out = String::new(alloc);
    for piece in octets.chunks(size.max(1)) {
        dissector.take(piece, &mut out)?;
    }
    dissector.finish(&mut out)?;
    Ok((out, dissector.has_refused()))
}

#[test]
fn tells_a_conversation_in_all_fragments(rt: HostRuntime) -> Result<(), Fail> {
    let (alloc, vectors) = (rt.alloc(), Vectors::new(rt.alloc())?);
    for (words, last, refuses) in [
        ("$UP", "end 757", false),
        ("$UP[..690]", "rest 50", false),
        ("'HELF 1F000000", "refused 80070000 at 0", true),
    ] {
        let octets = vectors.octets(words)?;
        let mut whole = String::new(alloc);
        dissect(alloc, octets.as_slice(), Side::Client, &mut whole)?;
        assert_eq!(rt; whole.lines().last(), Some(last));
        for size in [1, 7] {
            let (told, is_refused) = lines(alloc, octets.as_slice(), size)?;
            assert_eq!(rt;
                (told.as_str(), is_refused),
                (whole.as_str(), refuses),
                "{size}"
            );
        }
    }
    Ok(())
}
