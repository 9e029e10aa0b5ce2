//! The agreement of a client and a server.

ghost use Rattle.std.specs.Prelude.{◌≤◌};

use ua_frame::Ack;

/// An Acknowledge whose sizes a connection may have.
#[derive(Clone, Copy, Debug)]
pub struct Agreed {
    pub ack: Ack,
    ghost receives: { 8192 ≤ ack.receive_buffer_size },
    ghost sends: { 8192 ≤ ack.send_buffer_size },
}
