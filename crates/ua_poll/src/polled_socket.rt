//! Nonblocking sockets.

ghost use Rattle.std.specs.Prelude.{◌≡◌};
ghost use Rattle.ua_channel.specs.Line.{one_more};
ghost use Rattle.ua_concurrent.specs.declared.socket.Stop.TheVariants.{Failed};

use mio::net::TcpStream;
use std::io::{ErrorKind, Read, Write};
use ua_concurrent::{Readiness, Socket, Stop};

/// A socket with what the system reported about it. The system reports only once that bytes came,
/// or that there is buffer space, so that is kept until a call finds no more. It does not tell its
/// bytes.
#[derive(Debug, Drop)]
pub struct PolledSocket {
    stream: TcpStream,
    readable: bool,
    writable: bool,
    /// The peer sends no more, or the socket failed: reading is worthwhile until a read reports so
    /// itself.
    ended: bool,
    /// A read found the end.
    at_end: bool,
    /// The number of calls that failed so far; after the greatest number it restarts at 0.
    failures: u64,
}

impl PolledSocket {
    /// A socket that was just accepted: it may be read and written.
    pub fn new(stream: TcpStream) -> PolledSocket {
        PolledSocket {
            stream,
            readable: true,
            writable: true,
            ended: false,
            at_end: false,
            failures: 0,
        }
    }

    /// Counts a call that failed.
    fn fail(&mut self) -> Stop
        ensures stop { result ≡ Failed }
        ensures counted { self.new ≡ record self.old { failures = one_more self.old.failures } }
    {
        self.failures = self.failures.checked_add(1).unwrap_or(0);
        Stop::Failed
    }

    /// The stream.
    pub(crate) fn into_stream(self) -> TcpStream {
        let PolledSocket { stream, .. } = self;
        stream
    }
}

impl Socket for PolledSocket {
    ghost use Rattle.ua_poll.specs.Rounds.{seen_of};

    ghost seen = { seen_of };

    fn is_readable(&self) -> bool {
        self.readable
    }

    fn is_writable(&self) -> bool {
        self.writable
    }

    fn wake(&mut self, readiness: Readiness) {
        self.readable |= readiness.readable || readiness.ended;
        self.writable |= readiness.writable || readiness.ended;
        self.ended |= readiness.ended;
    }

    fn read(&mut self, buffer: &mut [u8]) -> Result<usize, Stop> {
        let room = buffer.len();
        match self.stream.read(buffer) {
            Ok(count) => {
                // Fewer than there is room for are all that came, except for the end after them.
                if count < room && !self.ended {
                    self.readable = false;
                }
                self.at_end |= count == 0 && room > 0;
                Ok(count)
            }
            Err(error) if error.kind() == ErrorKind::WouldBlock => {
                self.readable = false;
                Err(Stop::Blocked)
            }
            Err(_) => Err(self.fail()),
        }
    }

    fn write(&mut self, octets: &[u8]) -> Result<usize, Stop> {
        match self.stream.write(octets) {
            // No byte was taken, and a further call need not take one.
            Ok(0) if !octets.is_empty() => Err(self.fail()),
            Ok(count) => Ok(count),
            Err(error) if error.kind() == ErrorKind::WouldBlock => {
                self.writable = false;
                Err(Stop::Blocked)
            }
            Err(_) => Err(self.fail()),
        }
    }
}
