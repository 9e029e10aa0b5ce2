//! A transport over a connection within this process.

ghost use Rattle.std.specs.Prelude.{◌≡◌, ◌≤◌, ◌<◌, ℕ, [], drop, length, take, true, IfOk, OnOk, None};
ghost use Rattle.std.specs.Io.KnownBytes.{Appends, Consumes};
ghost use Rattle.ua_channel.specs.Line.{failures_after, one_more};
ghost use Rattle.ua_channel.specs.declared.line.LineFault.TheVariants.{Failed};

use std::io;
use std::io::{Read, Write};
use ua_channel::{Line, LineFault};

/// The maximum number of bytes of a write.
pub const MOST_OCTETS: usize = 4096;

/// A server's transport over both ends of one connection. It reads the bytes of a client, which are
/// written at the near end and arrive at the far end; what it writes goes the other way, and has to
/// be what the client awaits. At most 4096 bytes are written at once, and all of them are read at
/// the other end before the next ones are written. Its traffic is not known, as that of no
/// transport over a connection is.
#[derive(Debug, Drop)]
pub struct LoopLine<'a, S> {
    /// The client's end.
    pub near: S,
    /// The server's end.
    pub far: S,
    /// The bytes that the client has still to write.
    pub up: &'a [u8],
    /// The bytes that the client still awaits.
    pub down: &'a [u8],
    /// The number of calls that failed so far; after the greatest number it restarts at 0.
    failures: u64,
}

impl<'a, S> LoopLine<'a, S> {
    ghost use Rattle.ua_program.specs.Lines.{failed_carries};

    /// A transport over both ends of a connection, for a client that writes and awaits these bytes.
    pub fn new(near: S, far: S, up: &'a [u8], down: &'a [u8]) -> LoopLine<'a, S>
        ensures { failed_carries result ≡ 0 }
    {
        LoopLine {
            near,
            far,
            up,
            down,
            failures: 0,
        }
    }

    /// Whether all bytes have gone over the connection.
    pub(crate) fn is_carried(&self) -> bool
        ensures up { result ≡ true → self.now.up.now ≡ [] }
        ensures down { result ≡ true → self.now.down.now ≡ [] }
    {
        self.up.is_empty() && self.down.is_empty()
    }

    /// Counts a call that failed.
    fn fail(&mut self) -> LineFault
        ensures fault { result ≡ Failed }
        ensures counted { self.new.failures ≡ one_more self.old.failures }
    {
        self.failures = self.failures.checked_add(1).unwrap_or(0);
        LineFault::Failed
    }
}

/// Writes bytes at one end of a connection, and reads as many at the other.
fn carry<S: Read + Write>(
    from: &mut S,
    to: &mut S,
    octets: &[u8],
    came: &mut [u8],
) -> io::Result<()>
    ensures written { OnOk result (Appends (S.contents from.old) (S.contents from.new) octets.now) }
    ensures came { OnOk result (Consumes (S.remaining to.old) (S.remaining to.new) came.new) }
{
    from.write_all(octets)?;
    from.flush()?;
    to.read_exact(came)
}

impl<S: Read + Write> LoopLine<'_, S> {
    /// Writes the next bytes of the client at its end, and returns those that arrived at the
    /// server's.
    fn carry_up(&mut self, buffer: &mut [u8]) -> Result<usize, LineFault>
        ensures within { IfOk result (λ n. n ≤ length buffer.new) }
        ensures failed { self.new.failures ≡ failures_after self.old.failures result }
        ensures written { IfOk result
            (λ n. Appends (S.contents self.old.near) (S.contents self.new.near) (take n self.old.up.now)) }
        ensures came { IfOk result (λ n. Consumes (S.remaining self.old.far) (S.remaining self.new.far)
            (take n buffer.new)) }
        ensures left { IfOk result (λ n. self.new.up.now ≡ drop n self.old.up.now) }
    {
        let n = self.up.len().min(buffer.len()).min(MOST_OCTETS);
        let (piece, rest) = self.up.split_at(n);
        match carry(&mut self.near, &mut self.far, piece, &mut buffer[..n]) {
            Ok(()) => {
                self.up = rest;
                Ok(n)
            }
            Err(_) => Err(self.fail()),
        }
    }

    /// Writes the first of these bytes at the server's end, and expects those that arrive at the
    /// client's to be what it awaits.
    fn carry_down(&mut self, octets: &[u8]) -> Result<usize, LineFault>
        ensures within { IfOk result (λ n. n ≤ length octets.now) }
        ensures some { 0 < length octets.now → IfOk result (λ n. 0 < n) }
        ensures failed { self.new.failures ≡ failures_after self.old.failures result }
        ensures written { IfOk result
            (λ n. Appends (S.contents self.old.far) (S.contents self.new.far) (take n octets.now)) }
        ensures came { IfOk result (λ n. Consumes (S.remaining self.old.near) (S.remaining self.new.near)
            (take n self.old.down.now)) }
        ensures left { IfOk result (λ n. self.new.down.now ≡ drop n self.old.down.now) }
    {
        let n = octets.len().min(MOST_OCTETS);
        let mut room = [0; MOST_OCTETS];
        let came = &mut room[..n];
        match carry(&mut self.far, &mut self.near, &octets[..n], came) {
            Ok(()) if self.down.starts_with(came) => {
                self.down = &self.down[n..];
                Ok(n)
            }
            _ => Err(self.fail()),
        }
    }
}

impl<S: Read + Write> Line for LoopLine<'_, S> {
    ghost traffic = { λ l. None };

    ghost failures = { λ l. l.failures };

    fn read(&mut self, buffer: &mut [u8]) -> Result<usize, LineFault> {
        self.carry_up(buffer)
    }

    fn write(&mut self, octets: &[u8]) -> Result<usize, LineFault> {
        self.carry_down(octets)
    }
}
