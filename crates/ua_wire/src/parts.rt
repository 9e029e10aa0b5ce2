//! Bytes that are stored in several parts.

ghost use Rattle.std.specs.Prelude.{◌≡◌, ◌≤◌, ◌<◌, ◌^◌, ◌++◌, ℕ, List, [], length, drop, MatchBool};
ghost use Rattle.std.specs.List.{concat};

use crate::source::Source;
use bytes::Bytes;
use std::marker::Model;

/// A source over parts that follow one another, as if they were joined. Empty parts are skipped. It
/// allocates nothing, and the cost of a byte does not depend on the number of parts.
#[derive(Debug, Drop)]
pub struct Parts<'a> {
    /// What is left of the part that is being read.
    front: &'a [u8],
    /// The parts after it.
    behind: &'a [Bytes],
    /// The number of bytes that they have together.
    left: usize,
}

impl<'a> Model for Parts<'a> {
    ghost Value = { List ℕ };

    ghost view = { λ p. p.front.now ++ concat p.behind.now };

    ghost invariant = { λ p. p.left ≡ length (p.front.now ++ concat p.behind.now) };
}

/// The first part that is not empty, if there is one, and the parts after it.
#[inline]
fn first_filled(parts: &[Bytes]) -> (&[u8], &[Bytes])
    ensures octets { result.0.now ++ concat result.1.now ≡ concat parts.now }
    ensures none { result.0.now ≡ [] → concat parts.now ≡ [] }
{
    let mut rest = parts;
    while let Some((part, behind)) = rest.split_first() {
        if !part.is_empty() {
            return (part.as_slice(), behind);
        }
        rest = behind;
    }
    (&[], &[])
}

impl<'a> Parts<'a> {
    /// A source of the bytes of the parts, joined, from the first byte on.
    pub fn new(parts: &'a [Bytes]) -> Parts<'a>
        requires { length (concat parts.now) < 2 ^ 64 }
        ensures { result ≡ concat parts.now }
    {
        let mut left = 0;
        for part in parts {
            left += part.len();
        }
        Parts {
            front: &[],
            behind: parts,
            left,
        }
    }

    /// Takes the next bytes that lie in one part, `most` of them where there are so many.
    #[inline]
    fn take_run(&mut self, most: usize) -> &'a [u8]
        requires some { 0 < most }
        requires left { most ≤ length self.old }
        ensures octets { self.old ≡ result.now ++ self.new }
        ensures some { 0 < length result.now }
        ensures within { length result.now ≤ most }
    {
        if self.front.is_empty() {
            (self.front, self.behind) = first_filled(self.behind);
        }
        let (run, front) = self.front.split_at(most.min(self.front.len()));
        self.front = front;
        self.left -= run.len();
        run
    }

    /// As `take_into`, where the bytes lie in several parts.
    #[inline(never)]
    fn take_across(&mut self, out: &mut [u8]) -> bool
        ensures { MatchBool result (self.old ≡ out.new ++ self.new)
            ((length self.old < length out.old) × (self.new ≡ self.old) × (out.new ≡ out.old)) }
    {
        if self.left < out.len() {
            return false;
        }
        let mut filled = 0;
        while filled < out.len() {
            let run = self.take_run(out.len() - filled);
            out[filled..filled + run.len()].copy_from_slice(run);
            filled += run.len();
        }
        true
    }

    /// As `skip`, where the bytes lie in several parts.
    #[inline(never)]
    fn skip_across(&mut self, n: usize) -> bool
        ensures { MatchBool result ((n ≤ length self.old) × (self.new ≡ drop n self.old))
            ((length self.old < n) × (self.new ≡ self.old)) }
    {
        if self.left < n {
            return false;
        }
        let mut passed = 0;
        while passed < n {
            passed += self.take_run(n - passed).len();
        }
        true
    }
}

impl Source for Parts<'_> {
    ghost octets = { λ p. p };

    #[inline]
    fn fork(&self) -> Self {
        Parts {
            front: self.front,
            behind: self.behind,
            left: self.left,
        }
    }

    #[inline]
    fn left(&self) -> usize {
        self.left
    }

    #[inline]
    fn front(&self) -> &[u8] {
        self.front
    }

    #[inline]
    fn take_into(&mut self, out: &mut [u8]) -> bool {
        if out.len() <= self.front.len() {
            // nearly always: one part has them all
            let (run, front) = self.front.split_at(out.len());
            out.copy_from_slice(run);
            self.front = front;
            self.left -= run.len();
            return true;
        }
        self.take_across(out)
    }

    #[inline]
    fn skip(&mut self, n: usize) -> bool {
        if n <= self.front.len() {
            self.front = &self.front[n..];
            self.left -= n;
            return true;
        }
        self.skip_across(n)
    }
}
