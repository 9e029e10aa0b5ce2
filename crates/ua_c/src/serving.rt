//! A server for C.

ghost use Rattle.std.specs.Prelude.{◌≡◌, length};
ghost use Rattle.ua_c.specs.Handled.{OfHandle};
ghost use Rattle.ua_c.specs.Serving.{NextMachine, StepsMachine, status_report};
ghost use Rattle.ua_c.specs.declared.report.Report.{Report as Reported};

use crate::handle::UaHandle;
use crate::status::NO_HANDLE;
use std::alloc::Global;
use ua_builtin::DateTime;

/// One step of a server: takes bytes of a client up to the end of the first frame that is answered
/// or that ends the connection, else the whole fragment. The bytes to be sent then wait to be
/// fetched.
#[unsafe(no_mangle)]
pub extern "C" fn ua_server_step(
    alloc: Global,
    h: &mut UaHandle,
    piece: &[u8],
    moment: i64,
    taken: &mut usize,
    waiting: &mut usize,
    code: &mut u32,
) -> u32
    ensures { let report : Reported = record { status = result; taken = taken.new; code = code.new } in
        OfHandle h.old.value h.new.value (λ why. (report ≡ status_report why) × (waiting.new ≡ 0))
        (λ old new. StepsMachine old new piece.now (record { ticks = moment }) report
        × (waiting.new ≡ length new.waiting)) }
{
    let Some(mut held) = h.take(alloc) else {
        *taken = 0;
        *waiting = 0;
        *code = 0;
        return NO_HANDLE;
    };
    let report = held.step(piece, DateTime { ticks: moment });
    *waiting = held.waiting.len();
    *h = UaHandle::of(held);
    *taken = report.taken;
    *code = report.code;
    report.status
}

/// The next connection of a server: a new channel over the same nodes and services, without a
/// session. Bytes that still waited to be fetched are dropped.
#[unsafe(no_mangle)]
pub extern "C" fn ua_server_next_connection(alloc: Global, h: &mut UaHandle, channel: u32) -> u32
    ensures { OfHandle h.old.value h.new.value (λ why. result ≡ why) (λ old new. NextMachine old new channel result) }
{
    let Some(mut held) = h.take(alloc) else {
        return NO_HANDLE;
    };
    let status = held.next(alloc, channel);
    *h = UaHandle::of(held);
    status
}
