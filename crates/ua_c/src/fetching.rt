//! The calls on any handle: how many bytes it holds, and those that wait.

ghost use Rattle.std.specs.Prelude.{◌≡◌, length};
ghost use Rattle.ua_c.specs.Fetching.{Bounds, CountsHeld, FetchesHandle, HoldsCount};

use crate::handle::UaHandle;
use crate::holding::{Holding, Machine};
use crate::status::{NO_HANDLE, NO_MEMORY, OK};
use std::alloc::Global;

impl Holding {
    fn held(&self) -> usize
        ensures { HoldsCount self.now.machine result }
    {
        match &self.machine {
            Machine::Server(station) => station.server.held(),
            Machine::Client(client) => client.held(),
            Machine::Nodes(_) => 0,
            Machine::Connection(served) => served.connection.held(),
        }
    }

    fn bound(&self) -> usize
        ensures { Bounds self.now.machine result }
    {
        match &self.machine {
            Machine::Server(station) => station.server.bound(),
            Machine::Client(client) => client.bound(),
            Machine::Nodes(_) => 0,
            Machine::Connection(served) => served.connection.bound(),
        }
    }
}

/// How many bytes of unfinished frames and messages are held; 0 where the handle holds nothing.
#[unsafe(no_mangle)]
pub extern "C" fn ua_held(alloc: Global, h: &mut UaHandle) -> usize
    ensures held { CountsHeld (λ holding. HoldsCount holding.machine result) result h.old.value }
    ensures same { h.new.value ≡ h.old.value }
{
    let Some(held) = h.take(alloc) else {
        return 0;
    };
    let count = held.held();
    *h = UaHandle::of(held);
    count
}

/// The most bytes that may be held; 0 where the handle holds nothing.
#[unsafe(no_mangle)]
pub extern "C" fn ua_bound(alloc: Global, h: &mut UaHandle) -> usize
    ensures bound { CountsHeld (λ holding. Bounds holding.machine result) result h.old.value }
    ensures same { h.new.value ≡ h.old.value }
{
    let Some(held) = h.take(alloc) else {
        return 0;
    };
    let count = held.bound();
    *h = UaHandle::of(held);
    count
}

/// How many bytes wait to be fetched; 0 where the handle holds nothing.
#[unsafe(no_mangle)]
pub extern "C" fn ua_waiting(alloc: Global, h: &mut UaHandle) -> usize
    ensures waiting { CountsHeld (λ holding. result ≡ length holding.waiting) result h.old.value }
    ensures same { h.new.value ≡ h.old.value }
{
    let Some(held) = h.take(alloc) else {
        return 0;
    };
    let count = held.waiting.len();
    *h = UaHandle::of(held);
    count
}

/// Moves as many of the waiting bytes as fit to the start of a buffer, and returns how many.
#[unsafe(no_mangle)]
pub extern "C" fn ua_fetch(
    alloc: Global,
    h: &mut UaHandle,
    buffer: &mut [u8],
    fetched: &mut usize,
) -> u32
    ensures { FetchesHandle h.old.value h.new.value buffer.old buffer.new fetched.new result }
{
    *fetched = 0;
    let Some(mut held) = h.take(alloc) else {
        return NO_HANDLE;
    };
    let moved = held.waiting.fetch(alloc, buffer);
    *h = UaHandle::of(held);
    match moved {
        Ok(count) => {
            *fetched = count;
            OK
        }
        Err(_) => NO_MEMORY,
    }
}
