//! The agreement of a server and a client.

ghost use Rattle.std.specs.Prelude.{◌≡◌, ◌<◌, ◌+◌, ◌^◌};
ghost use Rattle.ua_channel.specs.inside.ServerParts.{JudgesHello};
ghost use Rattle.ua_frame.specs.Limits.{tighter};

use crate::end_fault::EndFault;
use std::alloc::Global;
use std::marker::Model;
use ua_builtin::{StatusCode, Wire};
use ua_chunk::{CHUNK_HEADERS, Lane};
use ua_frame::{Ack, Hello, Limits, agree};

/// The agreement of a server and a client: the Acknowledge, and the limits of a response, which are
/// the client's limits of a message, and no more bytes than the server allows itself.
#[derive(Clone, Copy, Debug)]
pub struct Agreement {
    ack: Ack,
    octets: u32,
    chunks: u32,
}

impl Model for Agreement {
    ghost use Rattle.std.specs.Prelude.{◌≤◌};
    ghost use Rattle.ua_channel.specs.Agreement.{Agreement};

    ghost Value = { Agreement };

    ghost view = { λ a. record { ack = a.ack; octets = a.octets; chunks = a.chunks } };

    ghost inverse = { λ v. record { ack = v.ack; octets = v.octets; chunks = v.chunks } };

    ghost invariant = { λ a. (8192 ≤ a.ack.receive_buffer_size) × (8192 ≤ a.ack.send_buffer_size) };
}

impl Agreement {
    ghost use Rattle.std.specs.Prelude.{◌≤◌};
    ghost use Rattle.ua_channel.specs.Agreement.{lane_of};
    /// The Acknowledge.
    #[inline]
    pub(crate) fn ack(&self) -> Ack
        ensures { result ≡ self.now.ack }
    {
        self.ack
    }

    /// The largest frame that the server receives.
    #[inline]
    pub(crate) fn receive_size(&self) -> u32
        ensures size { result ≡ self.now.ack.receive_buffer_size }
        ensures least { 8192 ≤ result }
    {
        self.ack.receive_buffer_size
    }

    /// Where replies go on a SecureChannel under a token.
    pub(crate) fn lane(&self, channel: u32, token: u32) -> Lane
        ensures lane { result ≡ lane_of channel token self.now }
        ensures room { 0 < result.room }
        ensures size { result.room + 24 < 2 ^ 32 }
    {
        Lane {
            channel,
            token,
            room: self.ack.send_buffer_size - CHUNK_HEADERS as u32,
            octets: self.octets,
            chunks: self.chunks,
        }
    }
}

/// The smaller of two limits, of which 0 is none.
fn tighter(a: u32, b: u32) -> u32
    ensures { result ≡ tighter a b }
{
    if a == 0 {
        return b;
    }
    if b == 0 {
        return a;
    }
    a.min(b)
}

/// The agreement of a server with these limits on the body of a HEL.
pub(crate) fn judge_hello(
    alloc: Global,
    limits: &Limits,
    body: &[u8],
) -> Result<Agreement, EndFault>
    ensures { JudgesHello limits.now body.now result }
{
    let Some(hello) = Hello::read_whole(alloc, body)? else {
        return Err(EndFault::Refused(StatusCode::BAD_DECODING_ERROR));
    };
    match agree(&hello, limits) {
        Ok(ack) => {
            let octets = tighter(hello.max_message_size, limits.max_response_size);
            Ok(Agreement {
                ack,
                octets,
                chunks: hello.max_chunk_count,
            })
        }
        Err(code) => Err(EndFault::Refused(code)),
    }
}
