//! How far a client's channel is.

ghost use Rattle.std.specs.Prelude.{◌≡◌};

use crate::client::agreed::Agreed;
use crate::client::talking::Talking;
use ua_frame::{Gate, Kind, LEAST_BUFFER_SIZE};

/// The phases of a client's channel, in order.
#[derive(Debug, Drop)]
pub enum Phase {
    /// An ACK is to come.
    Waiting,
    /// The answer to the OPN is to come.
    Agreed(Agreed),
    /// The channel is open.
    Open(Talking),
    /// It failed or was closed.
    Done,
}

impl Phase {
    ghost use Rattle.ua_channel.specs.inside.ClientAsking.{client_phase_gate};

    /// Which frames come next.
    pub fn gate(&self) -> Gate
        ensures { result ≡ client_phase_gate self.now }
    {
        match self {
            Phase::Waiting | Phase::Done => {
                Gate::new(LEAST_BUFFER_SIZE)
                    .taking(Kind::Ack)
                    .taking(Kind::Err)
            }
            Phase::Agreed(agreed) => Gate::new(agreed.ack.send_buffer_size)
                .taking(Kind::Opn)
                .taking(Kind::Err),
            Phase::Open(talking) => Gate::new(talking.agreed.ack.send_buffer_size)
                .taking(Kind::Opn)
                .taking(Kind::Msg)
                .taking(Kind::Err),
        }
    }
}
