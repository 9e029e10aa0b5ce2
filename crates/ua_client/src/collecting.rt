//! Waiting for the replies of a group of calls.

ghost use Rattle.std.specs.Prelude.{◌≡◌, ◌<◌, ◌≤◌, ◌+◌, [], length, is_none};
ghost use Rattle.std.specs.Prelude.{true, false, IfErr, OnOk, OnErr};
ghost use Rattle.std.specs.Vec.{vec_len, vec_capacity};
ghost use Rattle.std.specs.List.{list_any};
ghost use Rattle.ua_client.specs.Calls.{Collects, none_for};
ghost use Rattle.ua_client.specs.Hearing.{failures_behind};
ghost use Rattle.ua_client.specs.declared.fault.ClientFault.TheVariants.{OutOfMemory};

use crate::connection::Connection;
use crate::fault::ClientFault;
use crate::group::AskedGroup;
use crate::laws::calls_are_told_once;
use crate::reply::{Reply, place_reply};
use crate::slots::Slots;
use std::alloc::Global;
use ua_builtin::DateTime;
use ua_channel::Line;
use ua_channel_laws::client_laws::client_goes_on;

/// No replies, with memory reserved for this many unless the allocation fails.
pub(crate) fn no_replies(alloc: Global, count: usize) -> Vec<Reply>
    ensures { result.items ≡ [] }
{
    let mut replies = Vec::new(alloc);
    let _has_room = replies.reserve_exact(count).is_ok();
    replies
}

/// Reserves memory for this many more replies.
pub fn make_room(replies: &mut Vec<Reply>, count: usize) -> Result<(), ClientFault>
    ensures same { replies.new.items ≡ replies.old.items }
    ensures room { OnOk result (vec_len replies.new + count ≤ vec_capacity replies.new) }
    ensures err { IfErr result (λ fault. fault ≡ OutOfMemory) }
{
    match replies.reserve(count) {
        Ok(()) => Ok(()),
        Err(_) => Err(ClientFault::OutOfMemory),
    }
}

impl Connection {
    /// Waits until each request of a group is answered, whose calls have RequestIds counted from the
    /// first.
    pub fn collect<L: Line>(
        &mut self,
        line: &mut L,
        reads: &mut u64,
        asked: &AskedGroup<'_>,
        moment: DateTime,
        slots: &mut Slots,
    ) -> Result<(), ClientFault>
        requires some { 0 < length asked.now.requests.now }
        requires none { slots.old.slots ≡ none_for asked.now.requests.now }
        ensures collects { Collects slots.new.slots asked.now.requests.now asked.now.first self.old self.new
            (L.traffic line.old) (L.traffic line.new) reads.old reads.new result }
        ensures count { length slots.new.slots ≡ length asked.now.requests.now }
        ensures whole { OnOk result (list_any is_none slots.new.slots ≡ false) }
        ensures missing { OnErr result (list_any is_none slots.new.slots ≡ true) }
        ensures had { slots.new.had ≡ slots.old.had }
        ensures failed { L.failures line.new ≡ failures_behind (L.failures line.old) result }
    {
        client_goes_on();
        calls_are_told_once();
        while slots.is_waiting() {
            let event = self.hear(line, reads, moment)?;
            place_reply(self.alloc, asked.requests, asked.first, event, slots)?;
        }
        Ok(())
    }
}
