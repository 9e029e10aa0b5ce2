//! Bytes that were read from a transport and are not yet taken.

ghost use Rattle.std.specs.Prelude.{◌≡◌, ◌≤◌, ◌-◌, ◌↔◌, ℕ, List, [], length, take, drop, IsTrue, OnOk, OnErr, Ok, Err};
ghost use Rattle.ua_channel.specs.Line.{IfTrafficKnown, failures_after};
ghost use Rattle.ua_client.specs.Carried.{Carries, IsAtEnd};

use std::alloc::{AllocError, Global};
use std::marker::Model;
use ua_channel::{Line, LineFault};

/// The maximum number of bytes of one read.
const MOST_OCTETS: usize = 4096;

/// The bytes of one read of a transport that are not yet taken.
#[derive(Debug, Drop)]
pub struct Piece {
    octets: Vec<u8>,
    start: usize,
    end: usize,
}

impl Model for Piece {
    ghost Value = { List ℕ };

    ghost view = { λ p. take (p.end - p.start) (drop p.start p.octets.items) };

    ghost invariant = { λ p. (p.start ≤ p.end) × (p.end ≤ length p.octets.items) × (length p.octets.items ≡ 4096) };
}

impl Piece {
    /// No bytes.
    pub fn new(alloc: Global) -> Result<Piece, AllocError>
        ensures { OnOk result (Ok [] ≡ result) }
    {
        let octets = vec![in alloc; 0; MOST_OCTETS]?;
        Ok(Piece {
            octets,
            start: 0,
            end: 0,
        })
    }

    /// The bytes that are not yet taken.
    pub(crate) fn untaken(&self) -> &[u8]
        ensures value { result.now ≡ self.now }
        ensures few { length self.now ≤ 4096 }
    {
        &self.octets[self.start..self.end]
    }

    /// Whether all bytes are taken.
    pub fn is_empty(&self) -> bool
        ensures { IsTrue result ↔ (self.now ≡ []) }
    {
        self.start == self.end
    }

    /// Takes this many bytes.
    pub fn skip(&mut self, count: usize)
        requires { count ≤ length self.old }
        ensures { self.new ≡ drop count self.old }
    {
        self.start += count;
    }

    /// Takes all bytes.
    pub fn clear(&mut self)
        ensures { self.new ≡ [] }
    {
        self.start = self.end;
    }

    /// Reads the next bytes of a transport, at most 4096, in place of these. 0 bytes is the end of
    /// the input.
    pub fn read<L: Line>(&mut self, line: &mut L) -> Result<(), LineFault>
        ensures read { OnOk result (IfTrafficKnown (Carries self.new []) (L.traffic line.old) (L.traffic line.new)) }
        ensures end { OnOk result (self.new ≡ [] → IsAtEnd (L.traffic line.new)) }
        ensures none { OnErr result ((self.new ≡ []) × (L.traffic line.new ≡ L.traffic line.old)) }
        ensures few { length self.new ≤ 4096 }
        ensures failed { L.failures line.new ≡ failures_after (L.failures line.old) result }
    {
        self.start = 0;
        self.end = 0;
        match line.read(&mut self.octets) {
            Ok(count) => {
                self.end = count;
                Ok(())
            }
            Err(fault) => Err(fault),
        }
    }
}
