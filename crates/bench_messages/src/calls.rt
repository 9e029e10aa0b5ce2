//! Calls of a client over an in-memory transport, from which all answers come.

use crate::fault::Fault;
use crate::given::{Given, MOMENT, limits, request_of, text};
use std::alloc::Global;
use ua_builtin::Wire;
use ua_channel::MemoryLine;
use ua_client::{Client, ClientFault, Reply};
use ua_services::Request;

/// How many calls of a group there are.
const GROUP: usize = 64;

/// The fault of work whose call failed.
fn of_call(fault: ClientFault) -> Fault {
    match fault {
        ClientFault::OutOfMemory => Fault::Memory,
        _ => Fault::Value,
    }
}

/// A transport from which bytes come.
fn line_of(alloc: Global, octets: &[u8]) -> Result<MemoryLine, Fault> {
    let mut coming = Vec::new(alloc);
    coming.extend_from_slice(octets)?;
    let (reads, writes) = (Vec::new(alloc), Vec::new(alloc));
    Ok(MemoryLine::new(alloc, coming, reads, writes, None, None))
}

/// A client with a session over a line.
fn begin(alloc: Global, line: &mut MemoryLine) -> Result<Client, Fault> {
    let url = text(alloc, "opc.tcp://localhost:4840")?;
    if !url.is_encodable() {
        return Err(Fault::Value);
    }
    let mut client = match Client::open(alloc, line, limits()?, url, MOMENT) {
        Ok(client) => client,
        Err(fault) => return Err(of_call(fault)),
    };
    match client.begin_session(line, MOMENT) {
        Ok(_token) => Ok(client),
        Err(fault) => Err(of_call(fault)),
    }
}

/// One, where the server answered.
fn answered(reply: &Reply) -> u64 {
    match reply {
        Reply::Response(_) => 1,
        Reply::Aborted(_) => 0,
    }
}

/// Calls a request this many times, one at a time; how many were answered.
pub fn call(alloc: Global, given: &Given, times: u32) -> Result<u64, Fault> {
    let mut line = line_of(alloc, given.octets())?;
    let mut client = begin(alloc, &mut line)?;
    let request = request_of(alloc, given.beside())?;
    let mut sum = 0u64;
    for _ in 0..times {
        match client.call(&mut line, &request, MOMENT) {
            Ok(reply) => {
                sum = sum.wrapping_add(answered(&reply));
                drop(reply);
            }
            Err(fault) => return Err(of_call(fault)),
        }
    }
    Ok(sum)
}

/// A group of calls of one request.
fn group_of(alloc: Global, body: &[u8]) -> Result<Vec<Request>, Fault> {
    let mut requests = Vec::new(alloc);
    for _ in 0..GROUP {
        let request = request_of(alloc, body)?;
        match requests.push(request) {
            Ok(()) => {}
            Err(failed) => {
                drop(failed);
                return Err(Fault::Memory);
            }
        }
    }
    Ok(requests)
}

/// Calls a group of 64 requests this many times; how many were answered.
pub fn call_groups(alloc: Global, given: &Given, times: u32) -> Result<u64, Fault> {
    let mut line = line_of(alloc, given.octets())?;
    let mut client = begin(alloc, &mut line)?;
    let requests = group_of(alloc, given.beside())?;
    let mut sum = 0u64;
    for _ in 0..times {
        match client.call_all(&mut line, requests.as_slice(), MOMENT) {
            Ok(replies) => {
                sum = sum.wrapping_add(replies.len() as u64);
                drop(replies);
            }
            Err(fault) => return Err(of_call(fault)),
        }
    }
    Ok(sum)
}
