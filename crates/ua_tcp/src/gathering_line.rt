//! A transport that buffers writes.

ghost use Rattle.std.specs.Prelude.{◌≡◌, ◌++◌, [], ℕ, OnOk, cond, option_map};

use std::alloc::Global;
use ua_channel::{Line, LineFault};

/// The maximum number of buffered bytes.
const MOST_GATHERED: usize = 16384;

/// A transport that buffers writes, and writes the buffered bytes to the transport beneath it:
/// before it reads from that; before a write that would make the buffer larger than 16384 bytes,
/// that fails to allocate memory for the buffer, or that comes after a flush that stopped midway;
/// and on request ([`flush`](GatheringLine::flush)). Bytes that cannot be buffered then either, for
/// their length or a failed allocation, are written to the transport beneath directly. So many
/// short responses go out by one call, and a peer that waits for a response has it before the next
/// bytes are waited for. Bytes that are buffered when the value is dropped are not sent. Its
/// traffic is known where that of the transport beneath is: each call has an effect on it that the
/// same call of the transport beneath may have, and buffered bytes count as written.
#[derive(Debug, Drop)]
pub struct GatheringLine<L> {
    line: L,
    gathered: Vec<u8>,
    /// The number of buffered bytes that were sent.
    gone: usize,
}

impl<L: Line> GatheringLine<L> {
    ghost use Rattle.ua_channel.specs.Line.{failures_after};
    ghost use Rattle.ua_tcp.specs.Lines.{beneath, behind_gathered, gathered_in};

    /// A transport over this one, with an empty buffer.
    pub fn new(alloc: Global, line: L) -> GatheringLine<L>
        ensures line { beneath result ≡ line }
        ensures gathered { gathered_in result ≡ [] }
    {
        GatheringLine {
            line,
            gathered: Vec::new(alloc),
            gone: 0,
        }
    }

    /// The transport beneath.
    pub fn beneath(&self) -> &L
        ensures { result.now ≡ beneath self.now }
    {
        &self.line
    }

    /// Writes the buffered bytes to the transport beneath. Where that fails the bytes that were not
    /// sent stay buffered.
    pub fn flush(&mut self) -> Result<(), LineFault>
        ensures gathered { OnOk result (gathered_in self.new ≡ []) }
        ensures octets { option_map (behind_gathered (gathered_in self.new)) (L.traffic (beneath self.new))
            ≡ option_map (behind_gathered (gathered_in self.old)) (L.traffic (beneath self.old)) }
        ensures failed { L.failures (beneath self.new) ≡ failures_after (L.failures (beneath self.old)) result }
    {
        while self.gone < self.gathered.len() {
            match self.line.write(&self.gathered[self.gone..]) {
                Ok(n) => self.gone += n,
                Err(fault) => return Err(fault),
            }
        }
        self.gathered.clear();
        self.gone = 0;
        Ok(())
    }

    /// Buffers these bytes, and returns whether it did: it does not where some of the buffered
    /// bytes were sent, where there would be too many, or where an allocation fails.
    fn gather(&mut self, octets: &[u8]) -> bool
        ensures line { beneath self.new ≡ beneath self.old }
        ensures gathered { gathered_in self.new ≡ cond result (gathered_in self.old ++ octets.now)
            (gathered_in self.old) }
    {
        self.gone == 0
            && octets.len() <= MOST_GATHERED.saturating_sub(self.gathered.len())
            && self.gathered.extend_from_slice(octets).is_ok()
    }
}

impl<L: Line> Line for GatheringLine<L> {
    ghost use Rattle.std.specs.Prelude.{option_map};
    ghost use Rattle.ua_tcp.specs.Lines.{behind_gathered, gathered_in};

    ghost traffic = { λ l. option_map (behind_gathered (gathered_in l)) (L.traffic l.line) };

    ghost failures = { λ l. L.failures l.line };

    fn read(&mut self, buffer: &mut [u8]) -> Result<usize, LineFault> {
        self.flush()?;
        self.line.read(buffer)
    }

    fn write(&mut self, octets: &[u8]) -> Result<usize, LineFault> {
        if self.gather(octets) {
            return Ok(octets.len());
        }
        self.flush()?;
        if self.gather(octets) {
            return Ok(octets.len());
        }
        self.line.write(octets)
    }
}
