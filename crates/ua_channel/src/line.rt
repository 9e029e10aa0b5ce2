//! The transport of a connection.

ghost use Rattle.std.specs.Prelude.{◌≡◌, ◌≤◌, ◌<◌, ℕ, Option, length, IfOk};
ghost use Rattle.ua_channel.specs.Line.{Traffic, HandsOut, WriteTakes, IfTrafficKnown, failures_after};

use thiserror::Error;

/// Why a call of a transport moved no bytes.
#[derive(Clone, Copy, PartialEq, Eq, Debug, Error)]
pub enum LineFault {
    /// The transport failed.
    #[error("the line failed")]
    Failed,
}

/// The transport trait: bytes that come from a peer, and bytes that go to it.
///
/// A call that fails moves no bytes, and the transport may be used again. The clauses about bytes
/// hold where the traffic of the transport is known; that of a socket is not.
pub trait Line {
    /// The bytes to come, depending on what else is written, and the bytes written so far, where
    /// they are known.
    ghost traffic: { Self → Option Traffic };

    /// The number of calls that failed so far. After the greatest number of 64 bits it restarts at
    /// 0.
    ghost failures: { Self → ℕ };

    /// Reads the next bytes, as many as the transport chooses up to the length of the buffer, and
    /// returns how many. 0 bytes into a non-empty buffer is the end: no bytes come unless more is
    /// written.
    fn read(&mut self, buffer: &mut [u8]) -> Result<usize, LineFault>
        ensures within { IfOk result (λ n. n ≤ length buffer.new) }
        ensures failed { failures self.new ≡ failures_after (failures self.old) result }
        ensures octets { IfTrafficKnown (HandsOut result buffer.new) (traffic self.old) (traffic self.new) };

    /// Writes the first of these bytes, as many as the transport chooses but at least one if there
    /// is one, and returns how many.
    fn write(&mut self, octets: &[u8]) -> Result<usize, LineFault>
        ensures within { IfOk result (λ n. n ≤ length octets.now) }
        ensures some { 0 < length octets.now → IfOk result (λ n. 0 < n) }
        ensures failed { failures self.new ≡ failures_after (failures self.old) result }
        ensures octets { IfTrafficKnown (WriteTakes result octets.now) (traffic self.old) (traffic self.new) };
}
