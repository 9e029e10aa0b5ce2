//! The events of the bytes that a server takes.

ghost use Rattle.std.specs.Prelude.{◌≡◌};

use crate::agreement::Agreement;
use ua_chunk::{Delivered, Message};

/// The event of the bytes so far.
#[derive(Debug, Drop)]
pub enum ServerEvent {
    /// No event; more bytes are needed.
    NeedMore,
    /// Send these bytes: the ACK, or the OPN response.
    Send(Vec<u8>),
    /// A complete message, with its RequestId.
    Asked(u32, Message),
    /// The client aborted the message with this RequestId.
    Aborted(u32),
    /// The client closed the channel.
    Closed,
}

/// The event of a frame.
#[derive(Drop)]
pub enum Event {
    /// The ACK is to be sent.
    Agreed(Agreement),
    /// The response to an OPN is to be sent.
    Opened {
        request: u32,
        handle: u32,
        token: u32,
        lifetime: u32,
    },
    /// A complete message, whose last chunk used this token.
    Asked {
        request: u32,
        token: u32,
        message: Message,
    },
    Aborted(u32),
    Closed,
}

impl Event {
    ghost use Rattle.std.specs.Prelude.{map};
    ghost use Rattle.ua_chunk.specs.View.{delivered_items};
    ghost use Rattle.ua_channel.specs.inside.Parts.{parts_in};
    ghost use Rattle.ua_channel.specs.ServerTold.{told_under};
    ghost use Rattle.ua_channel.specs.ServerEvents.{parts_of_event};
    ghost use Rattle.ua_channel.specs.inside.ServerParts.{told_list};

    /// What a chunk under this token delivers, as an event.
    #[inline(always)]
    pub(crate) fn from_delivered(token: u32, delivered: Option<Delivered>) -> Option<Event>
        ensures tells { told_list result ≡ map (told_under token) (delivered_items delivered) }
        ensures parts { parts_of_event result ≡ parts_in delivered }
    {
        match delivered {
            None => None,
            Some(Delivered::Whole(request, message)) => Some(Event::Asked {
                request,
                token,
                message,
            }),
            Some(Delivered::Aborted(request, _, _)) => Some(Event::Aborted(request)),
        }
    }
}
