//! Transports over connections.

ghost use Rattle.std.specs.Prelude.{◌≡◌, ℕ, None};
ghost use Rattle.ua_channel.specs.Line.{one_more};
ghost use Rattle.ua_channel.specs.declared.line.LineFault.TheVariants.{Failed};

use std::io::{Read, Write};
use std::net::OpenStream;
use ua_channel::{Line, LineFault};

/// The transport over a connection. Its traffic is not known: the contract says nothing of what a
/// peer sends and receives.
#[derive(Debug, Drop)]
pub struct TcpLine<S> {
    stream: S,
    /// The number of calls that failed so far; after the greatest number it restarts at 0.
    failures: u64,
}

impl<S> TcpLine<S> {
    ghost use Rattle.ua_tcp.specs.Lines.{failed_calls};

    /// A transport over this connection, of which no call failed.
    pub fn new(stream: S) -> TcpLine<S>
        ensures { failed_calls result ≡ 0 }
    {
        TcpLine {
            stream,
            failures: 0,
        }
    }

    /// Counts a call that failed.
    fn fail(&mut self) -> LineFault
        ensures fault { result ≡ Failed }
        ensures counted { self.new.failures ≡ one_more self.old.failures }
    {
        self.failures = self.failures.checked_add(1).unwrap_or(0);
        LineFault::Failed
    }
}

/// Sets the connection to send written bytes at once (TCP_NODELAY): a frame after the first one
/// would otherwise wait until the peer has acknowledged those before. Where that cannot be set,
/// frames are sent later.
pub fn without_delay<S: OpenStream>(stream: S) -> S {
    let _ = stream.set_nodelay(true);
    stream
}

impl<S: Read + Write> Line for TcpLine<S> {
    ghost traffic = { λ l. None };

    ghost failures = { λ l. l.failures };

    fn read(&mut self, buffer: &mut [u8]) -> Result<usize, LineFault> {
        match self.stream.read(buffer) {
            Ok(n) => Ok(n),
            Err(_) => Err(self.fail()),
        }
    }

    fn write(&mut self, octets: &[u8]) -> Result<usize, LineFault> {
        match self.stream.write(octets) {
            // No byte was taken, and a further call need not take one.
            Ok(0) if !octets.is_empty() => Err(self.fail()),
            Ok(n) => Ok(n),
            Err(_) => Err(self.fail()),
        }
    }
}
