//! Transports over memory.

use std::alloc::Global;
use std::test::Fail;
use ua_channel::MemoryLine;

/// The most bytes of each call, joined by `,`, of which `all` sets no limit, and after `!` the call that fails.
fn pace_of(alloc: Global, word: &str) -> Result<(Vec<usize>, Option<usize>), Fail> {
    let (lengths, fails) = match word.split_once('!') {
        Some((lengths, fails)) => (lengths, Some(fails.parse::<usize>()?)),
        None => (word, None),
    };
    let mut list = Vec::new(alloc);
    if lengths != "all" {
        for length in lengths.split(',') {
            list.push(length.parse::<usize>()?)?;
        }
    }
    Ok((list, fails))
}

/// A transport that brings these bytes, with the paces of its reads and writes.
pub fn line_of(alloc: Global, paces: &str, octets: Vec<u8>) -> Result<MemoryLine, Fail> {
    let (reads, writes) = paces.split_once(' ').ok_or("no pace")?;
    let (reads, fail_read) = pace_of(alloc, reads)?;
    let (writes, fail_write) = pace_of(alloc, writes)?;
    Ok(MemoryLine::new(alloc, octets, reads, writes, fail_read, fail_write))
}
