//! Sources of bytes.

ghost use Rattle.std.specs.Prelude.{◌≡◌, ◌≤◌, ◌<◌, ◌++◌, ℕ, List, length, drop, MatchBool};
ghost use Rattle.ua_wire.specs.Format.{Extends};

use std::marker::Model;

/// A sequence of bytes that is consumed from its start. A source may be dropped at any position, as
/// a fork for looking ahead is.
pub trait Source: Drop {
    /// The bytes that are still to be read.
    ghost octets: { Self → List ℕ };

    /// A source of the same bytes: what is consumed of one is not consumed of the other.
    fn fork(&self) -> Self
        ensures { octets result ≡ octets self.now };

    /// The number of bytes that are still to be read.
    fn left(&self) -> usize
        ensures { result ≡ length (octets self.now) };

    /// Some of the next bytes, as they lie in memory: perhaps not all, and none where the next ones
    /// lie elsewhere. Nothing is consumed.
    fn front(&self) -> &[u8]
        ensures { Extends result.now (octets self.now) };

    /// Fills `out` with the next bytes. Returns false, and changes nothing, if fewer are left.
    fn take_into(&mut self, out: &mut [u8]) -> bool
        ensures { MatchBool result (octets self.old ≡ out.new ++ octets self.new)
            ((length (octets self.old) < length out.old) × (octets self.new ≡ octets self.old) × (out.new ≡ out.old)) };

    /// Skips the next `n` bytes. Returns false, and changes nothing, if fewer are left.
    fn skip(&mut self, n: usize) -> bool
        ensures { MatchBool result ((n ≤ length (octets self.old)) × (octets self.new ≡ drop n (octets self.old)))
            ((length (octets self.old) < n) × (octets self.new ≡ octets self.old)) };
}

/// A source over a slice.
#[derive(Debug, Drop)]
pub struct Octets<'a> {
    rest: &'a [u8],
}

impl<'a> Model for Octets<'a> {
    ghost Value = { List ℕ };

    ghost view = { λ o. o.rest.now };
}

impl<'a> Octets<'a> {
    /// A source of the bytes of a slice, from its first byte on.
    #[inline]
    pub fn new(octets: &'a [u8]) -> Octets<'a>
        ensures { result ≡ octets.now }
    {
        Octets { rest: octets }
    }
}

impl Source for Octets<'_> {
    ghost octets = { λ o. o };

    #[inline]
    fn fork(&self) -> Self {
        Octets { rest: self.rest }
    }

    #[inline]
    fn left(&self) -> usize {
        self.rest.len()
    }

    #[inline]
    fn front(&self) -> &[u8] {
        self.rest
    }

    #[inline]
    fn take_into(&mut self, out: &mut [u8]) -> bool {
        if self.rest.len() < out.len() {
            return false;
        }
        let (front, rest) = self.rest.split_at(out.len());
        out.copy_from_slice(front);
        self.rest = rest;
        true
    }

    #[inline]
    fn skip(&mut self, n: usize) -> bool {
        if self.rest.len() < n {
            return false;
        }
        self.rest = &self.rest[n..];
        true
    }
}
