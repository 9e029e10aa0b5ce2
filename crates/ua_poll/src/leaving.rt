//! Sockets whose connections are over, and whose peers may still read what was sent last.

use mio::net::TcpStream;
use mio::{Interest, Registry, Token};
use std::alloc::{AllocError, Global};
use std::io::{ErrorKind, Read};
use std::net::Shutdown;

/// The most bytes that are read at once.
const PIECE: usize = 4096;

/// The most reads of a socket that find input before it is dropped.
const MOST_PIECES: u32 = 1024;

/// A socket that is read until its peer ends it.
#[derive(Debug, Drop)]
struct Leaver {
    stream: TcpStream,
    /// How many fragments are still read.
    pieces: u32,
    readable: bool,
}

/// Sockets whose own side is closed. Dropping a socket with unread input sends its peer a reset,
/// and what was sent last may be lost. So what a peer still sends is read and discarded, until it
/// ends, or 1024 reads, of at most 4 MiB in all, found input, or as many others left after it as
/// there are places.
#[derive(Debug, Drop)]
pub struct Leaving {
    leavers: Vec<Option<Leaver>>,
    /// The place of the next one.
    next: usize,
    buffer: Vec<u8>,
    /// The token of the first place.
    first: usize,
}

impl Leaving {
    /// This many places, whose tokens begin at this one.
    pub fn new(alloc: Global, count: usize, first: usize) -> Result<Leaving, AllocError> {
        let mut leavers = Vec::with_capacity(alloc, count)?;
        for _ in 0..count {
            leavers.push(None)?;
        }
        Ok(Leaving {
            leavers,
            next: 0,
            buffer: Vec::from_elem(alloc, 0u8, PIECE)?,
            first,
        })
    }

    /// Takes a socket in, in place of the one that came this many before. What cannot be watched is
    /// dropped.
    pub fn add(&mut self, registry: &Registry, mut stream: TcpStream) {
        let place = self.next;
        let token = Token(self.first.saturating_add(place));
        let _ = stream.shutdown(Shutdown::Write);
        let watched = registry.reregister(&mut stream, token, Interest::READABLE);
        if let Some(leaver) = self.leavers.get_mut(place) {
            *leaver = match watched {
                Ok(()) => Some(Leaver {
                    stream,
                    pieces: MOST_PIECES,
                    readable: true,
                }),
                Err(_) => None,
            };
        }
        self.next = match place.checked_add(1) {
            Some(next) if next < self.leavers.len() => next,
            _ => 0,
        };
    }

    /// The system reports something about the socket with this token.
    pub fn wake(&mut self, token: usize) {
        let place = token.saturating_sub(self.first);
        if let Some(Some(leaver)) = self.leavers.get_mut(place) {
            leaver.readable = true;
        }
    }

    /// Whether one may be read.
    pub fn is_ready(&self) -> bool {
        self.leavers.iter().any(|leaver| match leaver {
            Some(leaver) => leaver.readable,
            None => false,
        })
    }

    /// Reads a fragment of each that may be read, and drops those that ended.
    pub(crate) fn drain(&mut self) {
        for slot in &mut self.leavers {
            if let Some(leaver) = slot
                && leaver.readable
                && !leaver.read_on(&mut self.buffer)
            {
                *slot = None;
            }
        }
    }
}

impl Leaver {
    /// Reads a fragment, and returns whether more is to be read.
    fn read_on(&mut self, buffer: &mut [u8]) -> bool {
        match self.stream.read(buffer) {
            Ok(0) => false,
            Ok(_) => {
                self.pieces = self.pieces.saturating_sub(1);
                self.pieces > 0
            }
            Err(error) if error.kind() == ErrorKind::WouldBlock => {
                self.readable = false;
                true
            }
            Err(_) => false,
        }
    }
}
