//! The events of the bytes that a client takes.

use crate::client::fault::ClientTakeFault;
use crate::end_fault::EndFault;
use ua_builtin::StatusCode;
use ua_chunk::Message;
use ua_frame::Ack;

/// The event of the bytes so far.
#[derive(Debug, Drop)]
pub enum ClientEvent {
    /// More bytes are needed.
    NeedMore,
    /// The server acknowledged: send these bytes, an OPN frame.
    Send(Vec<u8>),
    /// The channel is open, and calls may be sent.
    Open,
    /// The reply to the call with this RequestId.
    Answered(u32, Message),
    /// The server aborted its reply to the call with this RequestId, and why.
    Aborted(u32, StatusCode),
    /// The connection failed, and the channel is closed.
    Failed {
        /// The StatusCode of the failure.
        code: StatusCode,
        /// Whether the server sent it, in an ERR message; else this end refused what it received.
        peer: bool,
    },
    /// The response to a renewal brought this TokenId, under which calls are sent from now on.
    Renewed(u32),
}

/// The event of a frame.
#[derive(Drop)]
pub enum Event {
    /// The server acknowledged.
    Agreed(Ack),
    /// The channel of this SecureChannelId is open under this TokenId.
    Opened(u32, u32),
    /// The reply to a call.
    Answered(u32, Message),
    /// A call whose reply the server aborted.
    Aborted(u32, StatusCode),
    /// A further token.
    Renewed(u32),
}

impl ClientEvent {
    ghost use Rattle.std.specs.Prelude.{◌≡◌};
    ghost use Rattle.ua_channel.specs.inside.ClientParts.{failure_of_step};

    /// The event of a channel that this stops, or the fault of its call.
    pub(crate) fn from_fault(fault: EndFault) -> Result<ClientEvent, ClientTakeFault>
        ensures { result ≡ failure_of_step fault }
    {
        match fault {
            EndFault::Refused(code) => Ok(ClientEvent::Failed { code, peer: false }),
            EndFault::Peer(code) => Ok(ClientEvent::Failed { code, peer: true }),
            EndFault::OutOfMemory => Err(ClientTakeFault::OutOfMemory),
            EndFault::Closed => Err(ClientTakeFault::Closed),
        }
    }
}
