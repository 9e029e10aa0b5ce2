//! Replies to requests.

ghost use Rattle.std.specs.Prelude.{◌≡◌, ◌<◌, ◌⊎◌, ◌++◌, ◌∷◌, [], List, length, slice_set};
ghost use Rattle.std.specs.Prelude.{true, Some, IfErr, OnOk, OnErr};
ghost use Rattle.std.specs.List.{concat};
ghost use Rattle.ua_channel.specs.ClientTold.{ClientTold};
ghost use Rattle.ua_channel.specs.ClientTold.ClientTold.{Answered};
ghost use Rattle.ua_services.specs.Response.{Answers, kind_of_response};
ghost use Rattle.ua_client.specs.declared.fault.ClientFault.TheVariants.{OutOfMemory, UnknownResponse};
ghost use Rattle.ua_client.specs.Replies.{PutsAnswer, IsPlace, AreSlots, FillsSlots, is_reading_fault};
ghost use Rattle.ua_client.specs.declared.reply.Reply.TheVariants.{Response as Responds};
ghost use Rattle.ua_client.specs.Told.{IsFirstOf};
ghost use Rattle.ua_client.specs.Hearing.{Says};
ghost use Rattle.ua_builtin.specs.declared.date_time.DateTime.{DateTime};

use crate::fault::ClientFault;
use crate::slots::Slots;
use std::alloc::Global;
use ua_builtin::{Octets, Source, StatusCode};
use ua_channel::ClientEvent;
use ua_chunk::Message;
use ua_services::laws::bodies_of_responses_differ;
use ua_services::{Request, RequestKind, Response, ResponseFault, read_response};

/// The reply to a request.
#[derive(Debug, Drop)]
pub enum Reply {
    /// The server answered by a response of the request's own kind, or by a ServiceFault.
    Response(Response),
    /// The server aborted its reply, with this StatusCode.
    Aborted(StatusCode),
}

// A reply has more than 500 bytes: it is put into its place as soon as it is read, and handed through
// no results.

/// Puts a response at an index, where it answers a request of this kind.
#[inline(always)]
fn put_answer(
    kind: RequestKind,
    response: Response,
    slots: &mut Slots,
    place: usize,
) -> Result<(), ClientFault>
    requires { place < length slots.old.slots }
    ensures put { OnOk result (Answers (kind_of_response response) kind
        × (slots.new.slots ≡ slice_set slots.old.slots place (Some (Responds response)))) }
    ensures refused { IfErr result (λ fault. (fault ≡ OutOfMemory) ⊎ ((fault ≡ UnknownResponse)
        × (Answers (kind_of_response response) kind → ⊥))) }
    ensures err { OnErr result (slots.new.slots ≡ slots.old.slots) }
    ensures had { slots.new.had ≡ slots.old.had }
{
    if response.answers(kind) {
        return slots.put(place, Reply::Response(response));
    }
    drop(response);
    Err(ClientFault::UnknownResponse)
}

/// Puts the response that a source is at an index, where it answers a request of this kind.
fn put_answer_from<S: Source>(
    alloc: Global,
    kind: RequestKind,
    src: &mut S,
    slots: &mut Slots,
    place: usize,
) -> Result<(), ClientFault>
    requires { place < length slots.old.slots }
    ensures puts { PutsAnswer kind (S.octets src.old) place slots.old.slots slots.new.slots result }
    ensures faults { IfErr result (λ fault. is_reading_fault fault ≡ true) }
    ensures had { slots.new.had ≡ slots.old.had }
{
    bodies_of_responses_differ();
    match read_response(alloc, src) {
        Ok(response) => put_answer(kind, response, slots, place),
        Err(ResponseFault::OutOfMemory) => Err(ClientFault::OutOfMemory),
        Err(ResponseFault::Unknown | ResponseFault::Unreadable) => {
            Err(ClientFault::UnknownResponse)
        }
    }
}

/// Puts the response that a message is at an index, where it answers a request of this kind. Nearly
/// each message has one part, whose bytes are read faster than those of several.
fn put_answer_of(
    alloc: Global,
    kind: RequestKind,
    message: &Message,
    slots: &mut Slots,
    place: usize,
) -> Result<(), ClientFault>
    requires { place < length slots.old.slots }
    ensures puts { PutsAnswer kind (concat message.now) place slots.old.slots slots.new.slots result }
    ensures faults { IfErr result (λ fault. is_reading_fault fault ≡ true) }
    ensures had { slots.new.had ≡ slots.old.had }
{
    match message.parts() {
        [part] => {
            let mut src = Octets::new(part.as_slice());
            put_answer_from(alloc, kind, &mut src, slots, place)
        }
        _ => put_answer_from(alloc, kind, &mut message.source(), slots, place),
    }
}

/// The index of a RequestId among this many that are counted from the first.
fn place_of(first: u32, id: u32, count: usize) -> Option<usize>
    ensures { IsPlace first id count result }
{
    if id < first {
        return None;
    }
    let place = (id - first) as usize;
    if place >= count {
        return None;
    }
    Some(place)
}

/// Puts the reply that a message under a RequestId is at the index of its request; the calls have
/// RequestIds counted from the first.
fn put_by(
    alloc: Global,
    requests: &[Request],
    first: u32,
    id: u32,
    message: &Message,
    slots: &mut Slots,
) -> Result<(), ClientFault>
    requires { length slots.old.slots ≡ length requests.now }
    ensures fills { (told : List ClientTold) → IsFirstOf told (Answered id (concat message.now))
        → AreSlots requests.now first told slots.old.slots
        → FillsSlots requests.now first (told ++ Answered id (concat message.now) ∷ []) slots.new.slots result }
    ensures faults { IfErr result (λ fault. is_reading_fault fault ≡ true) }
    ensures had { slots.new.had ≡ slots.old.had }
    ensures count { length slots.new.slots ≡ length slots.old.slots }
    ensures err { OnErr result (slots.new.slots ≡ slots.old.slots) }
{
    let Some(place) = place_of(first, id, requests.len()) else {
        return Ok(());
    };
    put_answer_of(alloc, requests[place].kind(), message, slots, place)
}

/// Puts the reply that an event brings at the index of its request; the calls have RequestIds
/// counted from the first.
fn put_reply(
    alloc: Global,
    requests: &[Request],
    first: u32,
    event: &ClientEvent,
    slots: &mut Slots,
) -> Result<(), ClientFault>
    requires { length slots.old.slots ≡ length requests.now }
    ensures fills { (moment : DateTime) (told : List ClientTold) (t : ClientTold) → Says moment event.now t
        → IsFirstOf told t → AreSlots requests.now first told slots.old.slots
        → FillsSlots requests.now first (told ++ t ∷ []) slots.new.slots result }
    ensures faults { IfErr result (λ fault. is_reading_fault fault ≡ true) }
    ensures had { slots.new.had ≡ slots.old.had }
    ensures count { length slots.new.slots ≡ length slots.old.slots }
    ensures err { OnErr result (slots.new.slots ≡ slots.old.slots) }
{
    match event {
        ClientEvent::Answered(id, message) => put_by(alloc, requests, first, *id, message, slots),
        ClientEvent::Aborted(id, code) => match place_of(first, *id, requests.len()) {
            None => Ok(()),
            Some(place) => slots.put(place, Reply::Aborted(*code)),
        },
        _ => Ok(()),
    }
}

/// Puts the reply that an event brings at the index of its request.
pub(crate) fn place_reply(
    alloc: Global,
    requests: &[Request],
    first: u32,
    event: ClientEvent,
    slots: &mut Slots,
) -> Result<(), ClientFault>
    requires { length slots.old.slots ≡ length requests.now }
    ensures fills { (moment : DateTime) (told : List ClientTold) (t : ClientTold) → Says moment event t
        → IsFirstOf told t → AreSlots requests.now first told slots.old.slots
        → FillsSlots requests.now first (told ++ t ∷ []) slots.new.slots result }
    ensures faults { IfErr result (λ fault. is_reading_fault fault ≡ true) }
    ensures had { slots.new.had ≡ slots.old.had }
    ensures count { length slots.new.slots ≡ length slots.old.slots }
    ensures err { OnErr result (slots.new.slots ≡ slots.old.slots) }
{
    let put = put_reply(alloc, requests, first, &event, slots);
    drop(event);
    put
}

/// The reply of a group of one.
pub(crate) fn only_reply(mut replies: Vec<Reply>) -> Reply
    requires { length replies.items ≡ 1 }
    ensures { replies.items ≡ result ∷ [] }
{
    replies.swap_remove(0)
}
