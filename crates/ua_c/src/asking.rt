//! A client for C.

ghost use Rattle.std.specs.Prelude.{◌≡◌};
ghost use Rattle.ua_c.specs.Asking.{AsksMachine, ClosesMachine, HelloMachine, RenewsMachine, TakesMachine, status_told};
ghost use Rattle.ua_c.specs.Handled.{OfHandle};
ghost use Rattle.ua_c.specs.declared.told.Told.{Told as ToldOf};

use crate::handle::UaHandle;
use crate::holding::{Holding, Machine};
use crate::status::{EMPTY, FETCH_FIRST, NO_HANDLE, NO_MEMORY, OK, OTHER_HANDLE};
use crate::told::{Told, of_ask, of_close};
use crate::waiting::Waiting;
use std::alloc::Global;
use ua_builtin::DateTime;

impl Holding {
    /// The HEL of a client.
    fn hello(&mut self) -> u32
        ensures { HelloMachine self.old self.new result }
    {
        let Machine::Client(client) = &self.machine else {
            return OTHER_HANDLE;
        };
        if self.waiting.len() > 0 {
            return FETCH_FIRST;
        }
        match client.hello() {
            Ok(octets) => {
                self.waiting = Waiting::of(octets);
                OK
            }
            Err(_) => NO_MEMORY,
        }
    }

    /// Bytes of the server.
    fn take(&mut self, alloc: Global, piece: &[u8], moment: DateTime) -> Told
        ensures { TakesMachine self.old self.new piece.now moment result }
    {
        let Machine::Client(client) = &mut self.machine else {
            return Told::only(OTHER_HANDLE);
        };
        if self.waiting.len() > 0 {
            return Told::only(FETCH_FIRST);
        }
        let answer = client.take(piece, moment);
        Told::from_take(alloc, answer, &mut self.waiting)
    }

    /// A call.
    fn ask(&mut self, body: &[u8]) -> (u32, u32)
        ensures { AsksMachine self.old self.new body.now result.0 result.1 }
    {
        let Machine::Client(client) = &mut self.machine else {
            return (OTHER_HANDLE, 0);
        };
        if self.waiting.len() > 0 {
            return (FETCH_FIRST, 0);
        }
        if body.is_empty() {
            return (EMPTY, 0);
        }
        let answer = client.ask(body);
        of_ask(answer, &mut self.waiting)
    }

    /// A renewal.
    fn renew(&mut self, moment: DateTime) -> (u32, u32)
        ensures { RenewsMachine self.old self.new moment result.0 result.1 }
    {
        let Machine::Client(client) = &mut self.machine else {
            return (OTHER_HANDLE, 0);
        };
        if self.waiting.len() > 0 {
            return (FETCH_FIRST, 0);
        }
        let answer = client.renew(moment);
        of_ask(answer, &mut self.waiting)
    }

    /// The CLO.
    fn close(&mut self, moment: DateTime) -> u32
        ensures { ClosesMachine self.old self.new moment result }
    {
        let Machine::Client(client) = &mut self.machine else {
            return OTHER_HANDLE;
        };
        if self.waiting.len() > 0 {
            return FETCH_FIRST;
        }
        let answer = client.close(moment);
        of_close(answer, &mut self.waiting)
    }
}

/// The HEL that begins a client's connection. It waits to be fetched.
#[unsafe(no_mangle)]
pub extern "C" fn ua_client_hello(alloc: Global, h: &mut UaHandle) -> u32
    ensures { OfHandle h.old.value h.new.value (λ why. result ≡ why) (λ old new. HelloMachine old new result) }
{
    let Some(mut held) = h.take(alloc) else {
        return NO_HANDLE;
    };
    let status = held.hello();
    *h = UaHandle::of(held);
    status
}

/// Takes bytes of the server up to the end of the first frame at which there is something to send
/// or an event, else the whole fragment.
#[unsafe(no_mangle)]
pub extern "C" fn ua_client_take(
    alloc: Global,
    h: &mut UaHandle,
    piece: &[u8],
    moment: i64,
    taken: &mut usize,
    event: &mut u32,
    id: &mut u32,
    code: &mut u32,
) -> u32
    ensures { let told : ToldOf = record {
      status = result;
      taken = taken.new;
      event = event.new;
      id = id.new;
      code = code.new;
    } in
        OfHandle h.old.value h.new.value (λ why. told ≡ status_told why)
        (λ old new. TakesMachine old new piece.now (record { ticks = moment }) told) }
{
    let told = match h.take(alloc) {
        Some(mut held) => {
            let told = held.take(alloc, piece, DateTime { ticks: moment });
            *h = UaHandle::of(held);
            told
        }
        None => Told::only(NO_HANDLE),
    };
    *taken = told.taken;
    *event = told.event;
    *id = told.id;
    *code = told.code;
    told.status
}

/// The chunks of a call with this body, which wait to be fetched, and its RequestId.
#[unsafe(no_mangle)]
pub extern "C" fn ua_client_ask(alloc: Global, h: &mut UaHandle, body: &[u8], id: &mut u32) -> u32
    ensures { OfHandle h.old.value h.new.value (λ why. (result ≡ why) × (id.new ≡ 0))
        (λ old new. AsksMachine old new body.now result id.new) }
{
    let Some(mut held) = h.take(alloc) else {
        *id = 0;
        return NO_HANDLE;
    };
    let (status, asked) = held.ask(body);
    *h = UaHandle::of(held);
    *id = asked;
    status
}

/// The OPN that asks for a further token, which waits to be fetched, and its RequestId.
#[unsafe(no_mangle)]
pub extern "C" fn ua_client_renew(alloc: Global, h: &mut UaHandle, moment: i64, id: &mut u32) -> u32
    ensures { OfHandle h.old.value h.new.value (λ why. (result ≡ why) × (id.new ≡ 0))
        (λ old new. RenewsMachine old new (record { ticks = moment }) result id.new) }
{
    let Some(mut held) = h.take(alloc) else {
        *id = 0;
        return NO_HANDLE;
    };
    let (status, asked) = held.renew(DateTime { ticks: moment });
    *h = UaHandle::of(held);
    *id = asked;
    status
}

/// The CLO, which waits to be fetched. The channel is then closed.
#[unsafe(no_mangle)]
pub extern "C" fn ua_client_close(alloc: Global, h: &mut UaHandle, moment: i64) -> u32
    ensures { OfHandle h.old.value h.new.value (λ why. result ≡ why)
        (λ old new. ClosesMachine old new (record { ticks = moment }) result) }
{
    let Some(mut held) = h.take(alloc) else {
        return NO_HANDLE;
    };
    let status = held.close(DateTime { ticks: moment });
    *h = UaHandle::of(held);
    status
}
