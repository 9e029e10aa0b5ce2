//! What a client does next.

use ua_services::Request;

/// A type whose values are operations of a client on an open channel: requests, or a renewal.
pub trait AsOperation {
    ghost use Rattle.std.specs.Prelude.{◌≡◌, List, None, Option, Some, IfSome};
    ghost use Rattle.ua_services.specs.declared.request.Request.{Request};

    /// The requests that it asks; `None` where it renews the token of its channel.
    ghost turn: { Self → Option (List Request) };

    /// The requests to ask, in groups of 64, of which the last may have fewer, each group answered
    /// before the next; or `None` to renew the token of the channel (OPC 10000-4, 5.6.2).
    fn requests(&self) -> Option<&[Request]>
        ensures asks { IfSome result (λ requests. turn self.now ≡ Some requests.now) }
        ensures renews { result ≡ None → turn self.now ≡ None };
}

/// An operation of a client on an open channel.
#[derive(Debug, Drop)]
pub enum Operation {
    /// Asks requests, in groups of 64, of which the last may have fewer, and waits for their
    /// replies.
    Ask(Vec<Request>),
    /// Renews the token of the channel (OPC 10000-4, 5.6.2).
    Renew,
}

impl AsOperation for Operation {
    ghost use Rattle.ua_loopback.specs.Asked.{asked_by};

    ghost turn = { asked_by };

    fn requests(&self) -> Option<&[Request]> {
        match self {
            Operation::Ask(requests) => Some(requests),
            Operation::Renew => None,
        }
    }
}
