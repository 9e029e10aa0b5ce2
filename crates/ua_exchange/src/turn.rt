//! What a client does next.

use std::slice;
use ua_loopback::AsOperation;
use ua_services::Request;

/// An operation of a client on an open channel.
#[derive(Debug, Drop)]
pub enum Turn {
    /// Asks a request.
    Ask(Request),
    /// Renews the token of the channel (OPC 10000-4, 5.6.2).
    Renew,
}

impl AsOperation for Turn {
    ghost use Rattle.ua_exchange.specs.Turns.{served_turn};

    ghost turn = { served_turn };

    fn requests(&self) -> Option<&[Request]> {
        match self {
            Turn::Ask(request) => Some(slice::from_ref(request)),
            Turn::Renew => None,
        }
    }
}
