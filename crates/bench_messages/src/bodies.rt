//! Work on the bodies of messages of one part, as the program reads them.

use crate::fault::Fault;
use std::alloc::Global;
use ua_builtin::Octets;
use ua_chunk::{Lane, cut};
use ua_services::{read_request, read_response, write_request, write_response};

/// Reads a response this many times, and lets it go; how many were read.
pub fn read_responses(alloc: Global, octets: &[u8], times: u32) -> Result<u64, Fault> {
    let mut sum = 0u64;
    for _ in 0..times {
        match read_response(alloc, &mut Octets::new(octets)) {
            Ok(response) => drop(response),
            Err(_) => return Err(Fault::Value),
        }
        sum = sum.wrapping_add(1);
    }
    Ok(sum)
}

/// Reads a request this many times, and lets it go; how many were read.
pub fn read_requests(alloc: Global, octets: &[u8], times: u32) -> Result<u64, Fault> {
    let mut sum = 0u64;
    for _ in 0..times {
        match read_request(alloc, &mut Octets::new(octets)) {
            Ok(request) => drop(request),
            Err(_) => return Err(Fault::Value),
        }
        sum = sum.wrapping_add(1);
    }
    Ok(sum)
}

/// Writes a response this many times; how many bytes.
pub fn write_responses(alloc: Global, octets: &[u8], times: u32) -> Result<u64, Fault> {
    let Ok(response) = read_response(alloc, &mut Octets::new(octets)) else {
        return Err(Fault::Value);
    };
    let mut out = Vec::with_capacity(alloc, octets.len())?;
    let mut sum = 0u64;
    for _ in 0..times {
        out.clear();
        write_response(&response, &mut out)?;
        sum = sum.wrapping_add(out.len() as u64);
    }
    Ok(sum)
}

/// Writes a request this many times; how many bytes.
pub fn write_requests(alloc: Global, octets: &[u8], times: u32) -> Result<u64, Fault> {
    let Ok(request) = read_request(alloc, &mut Octets::new(octets)) else {
        return Err(Fault::Value);
    };
    let mut out = Vec::with_capacity(alloc, octets.len())?;
    let mut sum = 0u64;
    for _ in 0..times {
        out.clear();
        write_request(&request, &mut out)?;
        sum = sum.wrapping_add(out.len() as u64);
    }
    Ok(sum)
}

/// A lane of chunks of 8,192 bytes, without limits.
const LANE: Lane = Lane {
    channel: 1,
    token: 1,
    room: 8168,
    octets: 0,
    chunks: 0,
};

/// Splits a body into chunks this many times; how many bytes they have.
pub fn cut_bodies(alloc: Global, octets: &[u8], times: u32) -> Result<u64, Fault> {
    if octets.is_empty() {
        return Err(Fault::Value);
    }
    let mut out = Vec::new(alloc);
    let mut sum = 0u64;
    for _ in 0..times {
        out.clear();
        match cut(&LANE, octets, 1, 1, &mut out) {
            Ok(_) => sum = sum.wrapping_add(out.len() as u64),
            Err(_) => return Err(Fault::Memory),
        }
    }
    Ok(sum)
}
