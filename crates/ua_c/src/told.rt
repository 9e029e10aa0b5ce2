//! The events and answers of a client's channel, for C.

ghost use Rattle.std.specs.Prelude.{◌≡◌};
ghost use Rattle.ua_c.specs.Asking.{ShowsAsk, ShowsEvent, ShowsClose, ShowsTake, status_told, status_for};

use crate::status::{
    CLOSED, EXHAUSTED, NO_MEMORY, NOT_OPEN, OK, REFUSED, RENEW_PENDING, TOO_LARGE,
    TOO_MANY_PENDING, TOO_MANY_TOKENS,
};
use crate::waiting::Waiting;
use std::alloc::Global;
use ua_channel::{AskFault, ClientEvent, ClientTakeFault};

/// More bytes are to come.
const EVENT_NEED_MORE: u32 = 0;
/// What waits is to be sent.
const EVENT_SEND: u32 = 1;
/// The channel is open.
const EVENT_OPEN: u32 = 2;
/// What waits is the body of the reply to a call.
const EVENT_ANSWERED: u32 = 3;
/// The server aborted its reply to a call.
const EVENT_ABORTED: u32 = 4;
/// A renewal was answered.
const EVENT_RENEWED: u32 = 5;
/// This end rejected what came.
const EVENT_FAILED: u32 = 6;
/// The server rejected, by an ERR frame.
const EVENT_FAILED_BY_PEER: u32 = 7;

/// A status, how many bytes were taken, and their event, with its RequestId or TokenId and its
/// code.
#[derive(Clone, Copy, Debug)]
pub struct Told {
    pub status: u32,
    pub taken: usize,
    pub event: u32,
    pub id: u32,
    pub code: u32,
}

impl Told {
    /// Only a status: nothing was taken.
    pub(crate) fn only(status: u32) -> Told
        ensures { result ≡ status_told status }
    {
        Told::event(status, 0, EVENT_NEED_MORE, 0, 0)
    }

    fn event(status: u32, taken: usize, event: u32, id: u32, code: u32) -> Told
        ensures { result ≡ record { status = status; taken = taken; event = event; id = id; code = code } }
    {
        Told {
            status,
            taken,
            event,
            id,
            code,
        }
    }

    /// The event of bytes that were taken; what is to be sent or to be read waits from now on.
    fn from_event(alloc: Global, taken: usize, event: ClientEvent, waiting: &mut Waiting) -> Told
        ensures { ShowsEvent taken event result waiting.old waiting.new }
    {
        match event {
            ClientEvent::NeedMore => Told::event(OK, taken, EVENT_NEED_MORE, 0, 0),
            ClientEvent::Send(octets) => {
                *waiting = Waiting::of(octets);
                Told::event(OK, taken, EVENT_SEND, 0, 0)
            }
            ClientEvent::Open => Told::event(OK, taken, EVENT_OPEN, 0, 0),
            ClientEvent::Answered(id, message) => {
                *waiting = Waiting::message(alloc, message);
                Told::event(OK, taken, EVENT_ANSWERED, id, 0)
            }
            ClientEvent::Aborted(id, code) => Told::event(OK, taken, EVENT_ABORTED, id, code.code),
            ClientEvent::Renewed(token) => Told::event(OK, taken, EVENT_RENEWED, token, 0),
            ClientEvent::Failed { code, peer } => {
                let event = if peer {
                    EVENT_FAILED_BY_PEER
                } else {
                    EVENT_FAILED
                };
                Told::event(REFUSED, taken, event, 0, code.code)
            }
        }
    }

    /// The answer of a client's channel, for C.
    pub(crate) fn from_take(
        alloc: Global,
        answer: Result<(usize, ClientEvent), ClientTakeFault>,
        waiting: &mut Waiting,
    ) -> Told
        ensures { ShowsTake answer result waiting.old waiting.new }
    {
        match answer {
            Ok((taken, event)) => Told::from_event(alloc, taken, event, waiting),
            Err(ClientTakeFault::Closed) => Told::only(CLOSED),
            Err(ClientTakeFault::OutOfMemory) => Told::only(NO_MEMORY),
        }
    }
}

/// Why nothing was asked, as a status.
fn status_for(fault: AskFault) -> u32
    ensures { result ≡ status_for fault }
{
    match fault {
        AskFault::NotOpen => NOT_OPEN,
        AskFault::TooManyPending => TOO_MANY_PENDING,
        AskFault::RenewPending => RENEW_PENDING,
        AskFault::TooManyTokens => TOO_MANY_TOKENS,
        AskFault::Exhausted => EXHAUSTED,
        AskFault::RequestTooLarge => TOO_LARGE,
        AskFault::OutOfMemory => NO_MEMORY,
    }
}

/// A status, and the RequestId of what is asked, which is to be sent and waits from now on.
pub(crate) fn of_ask(answer: Result<(u32, Vec<u8>), AskFault>, waiting: &mut Waiting) -> (u32, u32)
    ensures { ShowsAsk answer result.0 result.1 waiting.old waiting.new }
{
    match answer {
        Ok((id, octets)) => {
            *waiting = Waiting::of(octets);
            (OK, id)
        }
        Err(fault) => (status_for(fault), 0),
    }
}

/// A status; what is to be sent waits from now on.
pub(crate) fn of_close(answer: Result<Vec<u8>, AskFault>, waiting: &mut Waiting) -> u32
    ensures { ShowsClose answer result waiting.old waiting.new }
{
    match answer {
        Ok(octets) => {
            *waiting = Waiting::of(octets);
            OK
        }
        Err(fault) => status_for(fault),
    }
}
