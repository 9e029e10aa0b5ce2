//! The replies to a group of calls, as they come.

ghost use Rattle.std.specs.Prelude.{◌≡◌, ◌<◌, ◌≤◌, ◌+◌, ◌++◌, ◌∷◌, [], length, is_none, slice_set};
ghost use Rattle.std.specs.Prelude.{None, Some, Err, IfErr, OnOk, OnErr};
ghost use Rattle.std.specs.Vec.{vec_len, vec_capacity};
ghost use Rattle.std.specs.List.{list_any};
ghost use Rattle.ua_client.specs.Replies.{front_of};
ghost use Rattle.ua_client.specs.Slots.{filled_up};
ghost use Rattle.ua_client.specs.declared.fault.ClientFault.TheVariants.{OutOfMemory};

use crate::fault::ClientFault;
use crate::reply::Reply;
use std::alloc::Global;
use std::marker::Model;
use std::mem;

// A value that holds a reply is dropped by a call here and in `reply.rt`: dropped in place, each
// kind of reply would be a case of each function that drops one.

/// A slot for the reply to each call of a group, behind the replies that the caller had.
///
/// A server answers nearly always in order. Replies that come in order are put behind the caller's
/// at once, and memory for slots is allocated when one comes out of order.
#[derive(Debug, Drop)]
pub struct Slots {
    /// The replies that the caller had, and those to the first calls.
    replies: Vec<Reply>,
    /// How many the caller had.
    had: usize,
    /// The slots of the calls after those, up to the last reply that came out of order.
    late: Vec<Option<Reply>>,
    /// The number of calls.
    count: usize,
}

impl Model for Slots {
    ghost use Rattle.std.specs.Prelude.{◌≤◌, ◌+◌, length};
    ghost use Rattle.std.specs.Vec.{vec_capacity};
    ghost use Rattle.std.specs.Coded.{codes};
    ghost use Rattle.ua_client.specs.Slots.{GroupReplies, group_replies};
    ghost use Rattle.ua_client.specs.contracts.reply.Reply as reply;

    ghost Value = { GroupReplies };

    ghost coded = { Prim.hlevel (codes, reply.the_row.coded) };

    ghost view = { λ s. group_replies s.replies.items s.had s.late.items s.count };

    ghost invariant = { λ s. (s.had ≤ length s.replies.items)
        × (length s.replies.items + length s.late.items ≤ s.had + s.count)
        × (s.had + s.count ≤ vec_capacity s.replies) };
}

/// Adds a slot without a reply.
fn add_slot(slots: &mut Vec<Option<Reply>>) -> Result<(), ClientFault>
    ensures ok { OnOk result (slots.new.items ≡ slots.old.items ++ None ∷ []) }
    ensures err { OnErr result (slots.new.items ≡ slots.old.items) }
    ensures memory { OnErr result (result ≡ Err OutOfMemory) }
{
    match slots.push(None) {
        Ok(()) => Ok(()),
        Err(failed) => {
            drop(failed);
            Err(ClientFault::OutOfMemory)
        }
    }
}

/// Adds slots without a reply until one has this index.
fn reach(slots: &mut Vec<Option<Reply>>, index: usize) -> Result<(), ClientFault>
    ensures ok { OnOk result (slots.new.items ≡ filled_up (index + 1) slots.old.items) }
    ensures err { OnErr result (slots.new.items ≡ filled_up (length slots.new.items) slots.old.items) }
    ensures within { OnErr result (length slots.new.items ≤ index + 1) }
    ensures memory { OnErr result (result ≡ Err OutOfMemory) }
{
    while slots.len() <= index {
        match add_slot(slots) {
            Ok(()) => {}
            Err(fault) => return Err(fault),
        }
    }
    Ok(())
}

/// Puts a reply into a slot.
fn set_slot(slots: &mut Vec<Option<Reply>>, index: usize, reply: Reply)
    requires { index < length slots.old.items }
    ensures { slots.new.items ≡ slice_set slots.old.items index (Some reply) }
{
    drop(mem::replace(&mut slots[index], Some(reply)));
}

/// Puts a reply into the slot at an index, which is made where there is none.
fn put_at(slots: &mut Vec<Option<Reply>>, index: usize, reply: Reply) -> Result<(), ClientFault>
    ensures ok { OnOk result
        (slots.new.items ≡ slice_set (filled_up (index + 1) slots.old.items) index (Some reply)) }
    ensures err { OnErr result (slots.new.items ≡ filled_up (length slots.new.items) slots.old.items) }
    ensures within { OnErr result (length slots.new.items ≤ index + 1) }
    ensures memory { OnErr result (result ≡ Err OutOfMemory) }
{
    match reach(slots, index) {
        Ok(()) => {
            set_slot(slots, index, reply);
            Ok(())
        }
        Err(fault) => {
            drop(reply);
            Err(fault)
        }
    }
}

/// Whether a slot has no reply.
fn lacks_reply(slots: &[Option<Reply>]) -> bool
    ensures { result ≡ list_any is_none slots.now }
{
    slots.iter().any(|slot| slot.is_none())
}

/// Appends a reply where memory is reserved for it.
#[inline(always)]
fn add_reply(replies: &mut Vec<Reply>, reply: Reply)
    requires { vec_len replies.old < vec_capacity replies.old }
    ensures items { replies.new.items ≡ replies.old.items ++ reply ∷ [] }
    ensures len { vec_len replies.new ≡ vec_len replies.old + 1 }
    ensures capacity { vec_capacity replies.old ≤ vec_capacity replies.new }
{
    replies.push_reserved(reply);
}

/// Puts a reply in the place of another.
fn replace_reply(replies: &mut Vec<Reply>, index: usize, reply: Reply)
    requires { index < length replies.old.items }
    ensures items { replies.new.items ≡ slice_set replies.old.items index reply }
    ensures capacity { vec_capacity replies.old ≤ vec_capacity replies.new }
{
    drop(mem::replace(&mut replies[index], reply));
}

/// Appends the replies before the first that is missing, in order, where memory is reserved for as
/// many as there are slots. Drops those after it.
fn append_front(slots: Vec<Option<Reply>>, replies: &mut Vec<Reply>)
    requires { vec_len replies.old + length slots.items ≤ vec_capacity replies.old }
    ensures { replies.new.items ≡ replies.old.items ++ front_of slots.items }
{
    for slot in slots {
        match slot {
            Some(reply) => add_reply(replies, reply),
            None => return,
        }
    }
}

impl Slots {
    /// Empty slots for this many calls, for whose replies memory is reserved.
    pub fn behind(alloc: Global, replies: Vec<Reply>, count: usize) -> Slots
        requires { vec_len replies + count ≤ vec_capacity replies }
        ensures had { result.had ≡ replies.items }
        ensures none { result.slots ≡ filled_up count [] }
    {
        let had = replies.len();
        Slots {
            replies,
            had,
            late: Vec::new(alloc),
            count,
        }
    }

    /// Whether a reply is missing.
    #[inline]
    pub(crate) fn is_waiting(&self) -> bool
        ensures { result ≡ list_any is_none self.now.slots }
    {
        if self.replies.len() - self.had + self.late.len() < self.count {
            return true;
        }
        lacks_reply(&self.late)
    }

    /// Puts a reply that comes out of order at the index of its call.
    #[inline(never)]
    fn put_late(&mut self, place: usize, reply: Reply) -> Result<(), ClientFault>
        requires { place < length self.old.slots }
        ensures ok { OnOk result (self.new.slots ≡ slice_set self.old.slots place (Some reply)) }
        ensures err { OnErr result (self.new.slots ≡ self.old.slots) }
        ensures memory { IfErr result (λ fault. fault ≡ OutOfMemory) }
        ensures had { self.new.had ≡ self.old.had }
    {
        let came = self.replies.len() - self.had;
        if place < came {
            replace_reply(&mut self.replies, self.had + place, reply);
            return Ok(());
        }
        put_at(&mut self.late, place - came, reply)
    }

    /// Puts a reply at the index of its call.
    #[inline(always)]
    pub fn put(&mut self, place: usize, reply: Reply) -> Result<(), ClientFault>
        requires { place < length self.old.slots }
        ensures ok { OnOk result (self.new.slots ≡ slice_set self.old.slots place (Some reply)) }
        ensures err { OnErr result (self.new.slots ≡ self.old.slots) }
        ensures memory { IfErr result (λ fault. fault ≡ OutOfMemory) }
        ensures had { self.new.had ≡ self.old.had }
    {
        if self.late.is_empty() && place == self.replies.len() - self.had {
            add_reply(&mut self.replies, reply);
            return Ok(());
        }
        self.put_late(place, reply)
    }

    /// The replies that the caller had, and behind them those before the first that is missing.
    pub(crate) fn into_replies(self) -> Vec<Reply>
        ensures { result.items ≡ self.had ++ front_of self.slots }
    {
        let Slots {
            mut replies,
            late,
            ..
        } = self;
        append_front(late, &mut replies);
        replies
    }
}
