//! Groups of calls over a transport.

ghost use Rattle.std.specs.Prelude.{◌≡◌, ◌+◌, ◌-◌, ◌<◌, ◌≤◌, length, None, IfErr, OnOk, OnErr};
ghost use Rattle.ua_channel.specs.Client.{phase_of};
ghost use Rattle.ua_client.specs.Hearing.{channel_of_connection, failures_behind, fault_alone};
ghost use Rattle.ua_client.specs.Kept.{CallsGroup, CallsInto, naming_request};
ghost use Rattle.ua_client.specs.Renewing.{StandsSettled};
ghost use Rattle.ua_client.specs.Sent.{bodies_of, group_refusal};

use crate::collecting::make_room;
use crate::connection::Connection;
use crate::fault::{CallsFault, ClientFault};
use crate::group::{Body, ask_group, judge_group, judge_one};
use crate::laws::{calls_are_told_behind, clients_are_settled};
use crate::reply::Reply;
use crate::sending::write_calls;
use crate::slots::Slots;
use std::{mem, slice};
use ua_builtin::DateTime;
use ua_channel::Line;
use ua_services::Request;

/// The most calls of a group.
const MOST_CALLS: usize = 64;

/// Where the group of calls that begins at a place ends, among this many calls.
fn group_end(start: usize, count: usize) -> usize
    requires { start < count }
    ensures some { start < result }
    ensures few { result ≤ start + 64 }
    ensures full { result < count → result ≡ start + 64 }
    ensures within { result ≤ count }
{
    if count - start <= MOST_CALLS {
        return count;
    }
    start + MOST_CALLS
}

impl Connection {
    /// Sends a group of calls, none of which is refused, writes its frames, and waits for its
    /// replies. Appends those that arrived, up to the first that is missing.
    fn call_judged<L: Line>(
        &mut self,
        line: &mut L,
        reads: &mut u64,
        requests: &[Request],
        bodies: &[Body],
        moment: DateTime,
        replies: &mut Vec<Reply>,
    ) -> Result<(), ClientFault>
        requires some { 0 < length requests.now }
        requires few { length requests.now ≤ 64 }
        requires bodies { bodies.now ≡ bodies_of requests.now }
        requires judged { group_refusal (phase_of (channel_of_connection self.old)) 0 requests.now ≡ None }
        ensures calls { CallsGroup requests.now self.old self.new (L.traffic line.old) (L.traffic line.new)
            reads.old reads.new (naming_request (length replies.new.items - length replies.old.items) result)
            replies.old.items replies.new.items }
        ensures more { length replies.old.items ≤ length replies.new.items }
        ensures count { OnOk result
            (length replies.new.items ≡ length replies.old.items + length requests.now) }
        ensures missing { OnErr result
            (length replies.new.items < length replies.old.items + length requests.now) }
        ensures failed { L.failures line.new ≡ failures_behind (L.failures line.old) result }
    {
        calls_are_told_behind();
        make_room(replies, requests.len())?;
        let asked = ask_group(self.alloc, &mut self.channel, requests, bodies)?;
        let Ok(()) = write_calls(line, &asked.octets, &asked.calls, asked.frame_len) else {
            return Err(ClientFault::Write);
        };
        let had = mem::replace(replies, Vec::new(self.alloc));
        let mut slots = Slots::behind(self.alloc, had, requests.len());
        let waited = self.collect(line, reads, &asked, moment, &mut slots);
        drop(mem::replace(replies, slots.into_replies()));
        waited
    }

    /// Calls a group, none of whose requests is refused, and names the first request whose reply is
    /// missing.
    fn call_bodies<L: Line>(
        &mut self,
        line: &mut L,
        reads: &mut u64,
        requests: &[Request],
        bodies: &[Body],
        moment: DateTime,
        replies: &mut Vec<Reply>,
    ) -> Result<(), CallsFault>
        requires some { 0 < length requests.now }
        requires few { length requests.now ≤ 64 }
        requires bodies { bodies.now ≡ bodies_of requests.now }
        requires judged { group_refusal (phase_of (channel_of_connection self.old)) 0 requests.now ≡ None }
        ensures calls { CallsGroup requests.now self.old self.new (L.traffic line.old) (L.traffic line.new) reads.old
            reads.new result replies.old.items replies.new.items }
        ensures count { OnOk result (length replies.new.items ≡ length replies.old.items + length requests.now) }
        ensures names { IfErr result (λ calls. calls.request < length requests.now) }
        ensures failed { L.failures line.new ≡ failures_behind (L.failures line.old) (fault_alone result) }
    {
        let had = replies.len();
        match self.call_judged(line, reads, requests, bodies, moment, replies) {
            Ok(()) => Ok(()),
            Err(fault) => Err(CallsFault {
                request: replies.len() - had,
                fault,
            }),
        }
    }

    /// Checks a group of calls as a whole, writes its frames, waits for its replies and appends
    /// them.
    pub(crate) fn call_group<L: Line>(
        &mut self,
        line: &mut L,
        reads: &mut u64,
        requests: &[Request],
        moment: DateTime,
        replies: &mut Vec<Reply>,
    ) -> Result<(), CallsFault>
        requires some { 0 < length requests.now }
        requires few { length requests.now ≤ 64 }
        ensures calls { CallsGroup requests.now self.old self.new (L.traffic line.old) (L.traffic line.new) reads.old
            reads.new result replies.old.items replies.new.items }
        ensures count { OnOk result (length replies.new.items ≡ length replies.old.items + length requests.now) }
        ensures names { IfErr result (λ calls. calls.request < length requests.now) }
        ensures failed { L.failures line.new ≡ failures_behind (L.failures line.old) (fault_alone result) }
    {
        if let [request] = requests {
            return match judge_one(self.alloc, &self.channel, request) {
                Ok(body) => {
                    let bodies = slice::from_ref(&body);
                    self.call_bodies(line, reads, requests, bodies, moment, replies)
                }
                Err(calls) => Err(calls),
            };
        }
        match judge_group(self.alloc, &self.channel, requests) {
            Ok(bodies) => self.call_bodies(line, reads, requests, &bodies, moment, replies),
            Err(calls) => Err(calls),
        }
    }

    /// Calls in groups of 64, the last of which may have fewer, each written and then answered.
    pub fn call_groups<L: Line>(
        &mut self,
        line: &mut L,
        requests: &[Request],
        moment: DateTime,
        replies: &mut Vec<Reply>,
    ) -> Result<(), CallsFault>
        requires settled { StandsSettled (channel_of_connection self.old) }
        ensures calls { CallsInto requests.now self.old self.new (L.traffic line.old) (L.traffic line.new) result
            replies.old.items replies.new.items }
        ensures count { OnOk result (length replies.new.items ≡ length replies.old.items + length requests.now) }
        ensures names { IfErr result (λ calls. calls.request < length requests.now) }
        ensures failed { L.failures line.new ≡ failures_behind (L.failures line.old) (fault_alone result) }
    {
        clients_are_settled();
        let mut reads = u64::MAX;
        let mut start = 0;
        while start < requests.len() {
            let end = group_end(start, requests.len());
            let group = &requests[start..end];
            match self.call_group(line, &mut reads, group, moment, replies) {
                Ok(()) => start = end,
                Err(calls) => return Err(calls.behind(start)),
            }
        }
        Ok(())
    }
}
