//! The sockets of peers.

ghost use Rattle.std.specs.Prelude.{◌≡◌, ◌≤◌, ◌<◌, length, IfOk};
ghost use Rattle.ua_concurrent.specs.Seen.{Seen, SocketReads, SocketWrites, woken};

/// Why a call of a socket moved nothing.
#[derive(Clone, Copy, PartialEq, Eq, Debug)]
pub enum Stop {
    /// Nothing can be moved now.
    Blocked,
    /// The socket failed.
    Failed,
}

/// What a system reports about a socket. It reports each change once, when it happens.
#[derive(Clone, Copy, PartialEq, Eq, Debug)]
pub struct Readiness {
    /// A read may find something.
    pub readable: bool,
    /// A write may be taken.
    pub writable: bool,
    /// The peer sends no more, or the socket failed.
    pub ended: bool,
}

/// A nonblocking byte stream to a peer: a call moves what it can at once.
pub trait Socket: Drop {
    /// What is known of it: its bytes so far, where it tells them (those of a system do not),
    /// whether it may be read and written, how many calls failed, and whether its end was read.
    ghost seen: { Self → Seen };

    /// Whether a read may find something. After `Blocked` it does not, until [`wake`](Socket::wake)
    /// reports so.
    fn is_readable(&self) -> bool
        ensures { result ≡ (seen self.now).readable };

    /// Whether a write may be taken. After `Blocked` it is not, until [`wake`](Socket::wake)
    /// reports so.
    fn is_writable(&self) -> bool
        ensures { result ≡ (seen self.now).writable };

    /// Passes on what the system reports about the socket.
    fn wake(&mut self, readiness: Readiness)
        ensures { seen self.new ≡ woken readiness (seen self.old) };

    /// Reads the next bytes, as many as there are up to the length of the buffer. Zero bytes into a
    /// buffer that is not empty is the end.
    fn read(&mut self, buffer: &mut [u8]) -> Result<usize, Stop>
        ensures within { IfOk result (λ n. n ≤ length buffer.new) }
        ensures seen { SocketReads result buffer.new (seen self.old) (seen self.new) };

    /// Writes the first of these bytes, at least one where there is one.
    fn write(&mut self, octets: &[u8]) -> Result<usize, Stop>
        ensures some { 0 < length octets.now → IfOk result (λ n. 0 < n) }
        ensures within { IfOk result (λ n. n ≤ length octets.now) }
        ensures seen { SocketWrites result octets.now (seen self.old) (seen self.new) };
}
