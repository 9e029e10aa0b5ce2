//! Groups of calls: checked as a whole, and then sent.

ghost use Rattle.std.specs.Prelude.{◌≡◌, ◌<◌, ◌≤◌, ◌+◌, ◌∷◌, [], ◌↔◌, ℕ, List, Some, None, length};
ghost use Rattle.std.specs.Prelude.{map, IfOk, IfErr, OnOk, IsTrue, IsFalse, IsErrOf};
ghost use Rattle.ua_wire.specs.declared.fault.WriteFault.TheVariants.{NotWritable};
ghost use Rattle.ua_services.specs.Request.{request};
ghost use Rattle.ua_channel.specs.Client.{SameClient, phase_of, ask_refusal, WhateverPassed};
ghost use Rattle.ua_client.specs.Sent.{asked_len, last_len, of_ask, AnswersBy, request_refusal, group_refusal};
ghost use Rattle.ua_client.specs.Sent.{bodies_of, AsksFrom, AsksOr, RefusesBy, place_by};
ghost use Rattle.ua_client.specs.Hearing.{fault_alone};
ghost use Rattle.ua_client.specs.declared.fault.ClientFault.TheVariants.{OutOfMemory};

use crate::fault::{CallsFault, ClientFault};
use std::alloc::Global;
use std::marker::Model;
use ua_builtin::WriteFault;
use ua_channel::{AskFault, AskedCall, ClientChannel};
use ua_chunk::CHUNK_HEADERS;
use ua_services::{Request, empty_body, write_request};

/// The body of a call, which is not empty.
#[derive(Debug, Drop)]
pub struct Body {
    octets: Vec<u8>,
}

impl Model for Body {
    ghost use Rattle.std.specs.Prelude.{List, ℕ, ◌<◌, length};

    ghost Value = { List ℕ };

    ghost view = { λ b. b.octets.items };

    ghost invariant = { λ b. 0 < length b.octets.items };
}

impl Body {
    /// The body of a request: its canonical encoding.
    #[tactic(auto, using(crate::proofs::Requests::request_takes_some))]
    fn of(alloc: Global, message: &Request) -> Result<Body, WriteFault>
        ensures ok { IfOk result (λ b. b ≡ request.canonical message.now) }
        ensures encodable { OnOk result (IsTrue (request.encodable message.now)) }
        ensures refused { IsErrOf result NotWritable ↔ IsFalse (request.encodable message.now) }
    {
        let mut octets = empty_body(alloc);
        match write_request(message, &mut octets) {
            Ok(()) => Ok(Body { octets }),
            Err(fault) => Err(fault),
        }
    }

    /// Its bytes.
    fn octets(&self) -> &[u8]
        ensures value { result.now ≡ self.now }
        ensures some { 0 < length self.now }
    {
        let _len = self.octets.len();
        self.octets.as_slice()
    }
}

/// The refusal of a call, as a fault of the client.
fn of_ask(fault: AskFault) -> ClientFault
    ensures { Some result ≡ of_ask (Some fault) }
{
    match fault {
        AskFault::Exhausted => ClientFault::Exhausted,
        AskFault::RequestTooLarge => ClientFault::TooLarge,
        AskFault::NotOpen
        | AskFault::TooManyPending
        | AskFault::RenewPending
        | AskFault::TooManyTokens
        | AskFault::OutOfMemory => ClientFault::Closed,
    }
}

/// Whether a channel would send a call with a body after this many others.
fn judge_body(channel: &ClientChannel, before: usize, body: &Body) -> Result<(), ClientFault>
    ensures { AnswersBy (of_ask (ask_refusal (phase_of channel.now) before body.now)) result }
{
    match channel.judge(before, body.octets().len()) {
        Ok(()) => Ok(()),
        Err(fault) => Err(of_ask(fault)),
    }
}

/// The body of a request, where a channel would send it after this many others.
fn judge_request(
    alloc: Global,
    channel: &ClientChannel,
    before: usize,
    message: &Request,
) -> Result<Body, ClientFault>
    ensures judged { AnswersBy (request_refusal (phase_of channel.now) before message.now) result }
    ensures body { IfOk result (λ b. b ≡ request.canonical message.now) }
{
    let body = match Body::of(alloc, message) {
        Ok(body) => body,
        Err(WriteFault::NotWritable) => return Err(ClientFault::NotWritable),
        Err(WriteFault::OutOfMemory) => return Err(ClientFault::OutOfMemory),
    };
    match judge_body(channel, before, &body) {
        Ok(()) => Ok(body),
        Err(fault) => Err(fault),
    }
}

/// The fault of a group in which the request at this index was checked: a failed allocation is a
/// fault of the whole group, and names its first request.
fn fault_at(place: usize, fault: ClientFault) -> CallsFault
    ensures fault { result.fault ≡ fault }
    ensures request { result.request ≡ place_by fault place }
    ensures within { result.request ≤ place }
{
    match fault {
        ClientFault::OutOfMemory => CallsFault { request: 0, fault },
        fault => CallsFault {
            request: place,
            fault,
        },
    }
}

/// The body of a request that is a group by itself, where a channel would send it.
pub(crate) fn judge_one(
    alloc: Global,
    channel: &ClientChannel,
    message: &Request,
) -> Result<Body, CallsFault>
    ensures judged { AnswersBy (group_refusal (phase_of channel.now) 0 (message.now ∷ [])) (fault_alone result) }
    ensures place { IfErr result
        (λ calls. RefusesBy (phase_of channel.now) (message.now ∷ []) calls.request calls.fault) }
    ensures within { IfErr result (λ calls. calls.request < 1) }
    ensures body { IfOk result (λ b. b ≡ request.canonical message.now) }
{
    match judge_request(alloc, channel, 0, message) {
        Ok(body) => Ok(body),
        Err(fault) => Err(fault_at(0, fault)),
    }
}

/// The bodies of a group of requests, where a channel would send all of them; else the first of them
/// that it would not send.
pub(crate) fn judge_group(
    alloc: Global,
    channel: &ClientChannel,
    requests: &[Request],
) -> Result<Vec<Body>, CallsFault>
    ensures judged { AnswersBy (group_refusal (phase_of channel.now) 0 requests.now) (fault_alone result) }
    ensures place { IfErr result (λ calls. RefusesBy (phase_of channel.now) requests.now calls.request calls.fault) }
    ensures within { IfErr result (λ calls. calls.request < length requests.now) }
    ensures bodies { IfOk result (λ bodies. bodies.items ≡ bodies_of requests.now) }
{
    let mut bodies = Vec::new(alloc);
    // without the reservation, memory is allocated as it is needed
    let _has_room = bodies.reserve_exact(requests.len()).is_ok();
    for message in requests {
        let place = bodies.len();
        let body = match judge_request(alloc, channel, place, message) {
            Ok(body) => body,
            Err(fault) => return Err(fault_at(place, fault)),
        };
        let Ok(()) = bodies.push(body) else {
            return Err(fault_at(place, ClientFault::OutOfMemory));
        };
    }
    Ok(bodies)
}

/// A group of requests with the call of each.
#[derive(Debug, Drop)]
pub struct AskedGroup<'a> {
    /// The requests, in order.
    pub requests: &'a [Request],
    /// The RequestId of the first call; 0 where there is none.
    pub first: u32,
    /// The frames of the calls, one after the other.
    pub octets: Vec<u8>,
    /// The calls but the last, in order.
    pub calls: Vec<AskedCall>,
    /// The length in bytes of each of the last call's frames but the last one, whose length is at
    /// most this.
    pub frame_len: usize,
}

/// The number of bytes of the frames of calls with these bodies, where each has one chunk.
fn frames_len(bodies: &[Body]) -> usize {
    let mut len = 0usize;
    for body in bodies {
        len = len
            .saturating_add(CHUNK_HEADERS)
            .saturating_add(body.octets().len());
    }
    len
}

/// Adds a call to others, if there is one.
fn add_call(calls: &mut Vec<AskedCall>, call: Option<AskedCall>) -> Result<(), ClientFault>
    ensures len { OnOk result (asked_len calls.new.items ≡ asked_len calls.old.items + last_len call) }
    ensures memory { IfErr result (λ fault. fault ≡ OutOfMemory) }
{
    let Some(call) = call else {
        return Ok(());
    };
    match calls.push(call) {
        Ok(()) => Ok(()),
        Err(_) => Err(ClientFault::OutOfMemory),
    }
}

/// The length in bytes of each frame of a call but its last one; any length where there is no call.
fn frame_len_of(call: Option<AskedCall>) -> usize
    ensures { 0 < result }
{
    match call {
        Some(call) => call.frame_len,
        None => CHUNK_HEADERS,
    }
}

/// Sends a call of each request of a group, in order.
pub(crate) fn ask_group<'a>(
    alloc: Global,
    channel: &mut ClientChannel,
    requests: &'a [Request],
    bodies: &[Body],
) -> Result<AskedGroup<'a>, ClientFault>
    ensures asks { WhateverPassed channel.old
        (λ asks octets frames rest.
        AsksOr (λ found. AsksFrom bodies.now channel.old channel.new asks octets frames rest
        (found.first, found.octets.items)) result) }
    ensures len { IfOk result (λ found. asked_len found.calls.items ≤ length found.octets.items) }
    ensures frame { IfOk result (λ found. 0 < found.frame_len) }
    ensures requests { IfOk result (λ found. found.requests.now ≡ requests.now) }
    ensures same { SameClient channel.old channel.new }
    ensures memory { IfErr result (λ fault. fault ≡ OutOfMemory) }
{
    let mut octets = Vec::new(alloc);
    let mut calls = Vec::new(alloc);
    // without the reservations, memory is allocated as it is needed
    let _has_room = octets.reserve_exact(frames_len(bodies)).is_ok();
    let _has_room = calls.reserve_exact(bodies.len().saturating_sub(1)).is_ok();
    let mut first = None;
    let mut last = None;
    for body in bodies {
        let Ok(call) = channel.call(body.octets(), &mut octets) else {
            return Err(ClientFault::OutOfMemory);
        };
        first = Some(first.unwrap_or(call.id));
        match add_call(&mut calls, last) {
            Ok(()) => last = Some(call),
            Err(fault) => return Err(fault),
        }
    }
    Ok(AskedGroup {
        requests,
        first: first.unwrap_or(0),
        octets,
        calls,
        frame_len: frame_len_of(last),
    })
}
