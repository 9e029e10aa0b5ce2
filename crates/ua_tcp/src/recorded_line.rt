//! A transport that keeps the bytes that go over it.

ghost use Rattle.std.specs.Prelude.{◌≡◌, ◌++◌, ◌+◌, ◌≤◌, ◌<◌, [], ℕ, length, take, IfOk};

use std::alloc::Global;
use ua_channel::{Line, LineFault};

/// A transport that keeps the bytes that are read from the transport beneath it, and those that are
/// written to it, since it was made. It does so over a connection too, whose traffic is not known
/// otherwise. Its traffic is that of the transport beneath.
///
/// A call reserves memory for the bytes that it may move before it calls the transport beneath.
/// Where that allocation fails the call fails, and nothing is read, written or kept.
#[derive(Debug, Drop)]
pub struct RecordedLine<L> {
    line: L,
    read: Vec<u8>,
    written: Vec<u8>,
    /// The number of calls that failed since it was made; after the greatest number it restarts at
    /// 0.
    failures: u64,
}

impl<L> RecordedLine<L> {
    ghost use Rattle.ua_channel.specs.Line.{one_more};
    ghost use Rattle.ua_channel.specs.declared.line.LineFault.TheVariants.{Failed};
    ghost use Rattle.ua_tcp.specs.Records.{failed_since, line_of, octets_read, octets_written};

    /// A transport over this one that has kept no bytes.
    pub fn new(alloc: Global, line: L) -> RecordedLine<L>
        ensures line { line_of result ≡ line }
        ensures read { octets_read result ≡ [] }
        ensures written { octets_written result ≡ [] }
        ensures failures { failed_since result ≡ 0 }
    {
        RecordedLine {
            line,
            read: Vec::new(alloc),
            written: Vec::new(alloc),
            failures: 0,
        }
    }

    /// The bytes that its reads returned, in order.
    pub fn octets_read(&self) -> &[u8]
        ensures { result.now ≡ octets_read self.now }
    {
        &self.read
    }

    /// The bytes that its writes took, in order.
    pub fn octets_written(&self) -> &[u8]
        ensures { result.now ≡ octets_written self.now }
    {
        &self.written
    }

    /// Counts a call that failed.
    fn fail(&mut self) -> LineFault
        ensures fault { result ≡ Failed }
        ensures counted { self.new.failures ≡ one_more self.old.failures }
        ensures line { self.new.line ≡ self.old.line }
        ensures read { self.new.read ≡ self.old.read }
        ensures written { self.new.written ≡ self.old.written }
    {
        self.failures = self.failures.checked_add(1).unwrap_or(0);
        LineFault::Failed
    }
}

/// Puts bytes after the first ones of a list, in the place of as many.
fn put(kept: &mut Vec<u8>, before: usize, octets: &[u8])
    requires { before + length octets.now ≤ length kept.old.items }
    ensures { kept.new.items ≡ take before kept.old.items ++ octets.now }
{
    kept.truncate(before + octets.len());
    kept[before..].copy_from_slice(octets);
}

impl<L: Line> Line for RecordedLine<L> {
    ghost use Rattle.ua_channel.specs.Line.{HandsOut, IfTrafficKnown, WriteTakes, failures_after};
    ghost use Rattle.ua_tcp.specs.Records.{failed_since, line_of, moved, octets_read, octets_written};

    ghost traffic = { λ l. L.traffic l.line };

    ghost failures = { λ l. l.failures };

    fn read(&mut self, buffer: &mut [u8]) -> Result<usize, LineFault>
        ensures within { IfOk result (λ n. n ≤ length buffer.new) }
        ensures failed { failed_since self.new ≡ failures_after (failed_since self.old) result }
        ensures octets { IfTrafficKnown (HandsOut result buffer.new) (L.traffic (line_of self.old))
            (L.traffic (line_of self.new)) }
        ensures kept { octets_read self.new ≡ octets_read self.old ++ moved result buffer.new }
        ensures same { octets_written self.new ≡ octets_written self.old }
    {
        let before = self.read.len();
        if self.read.extend_from_slice(buffer).is_err() {
            return Err(self.fail());
        }
        match self.line.read(buffer) {
            Ok(n) => {
                put(&mut self.read, before, &buffer[..n]);
                Ok(n)
            }
            Err(_) => {
                self.read.truncate(before);
                Err(self.fail())
            }
        }
    }

    fn write(&mut self, octets: &[u8]) -> Result<usize, LineFault>
        ensures within { IfOk result (λ n. n ≤ length octets.now) }
        ensures some { 0 < length octets.now → IfOk result (λ n. 0 < n) }
        ensures failed { failed_since self.new ≡ failures_after (failed_since self.old) result }
        ensures octets { IfTrafficKnown (WriteTakes result octets.now) (L.traffic (line_of self.old))
            (L.traffic (line_of self.new)) }
        ensures kept { octets_written self.new ≡ octets_written self.old ++ moved result octets.now }
        ensures same { octets_read self.new ≡ octets_read self.old }
    {
        let before = self.written.len();
        if self.written.extend_from_slice(octets).is_err() {
            return Err(self.fail());
        }
        match self.line.write(octets) {
            Ok(n) => {
                self.written.truncate(before + n);
                Ok(n)
            }
            Err(_) => {
                self.written.truncate(before);
                Err(self.fail())
            }
        }
    }
}
