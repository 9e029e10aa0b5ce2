//! An incomplete frame.

ghost use Rattle.std.specs.Prelude.{◌≡◌, ◌≤◌, ◌<◌, ◌+◌, ◌-◌, ◌++◌, [], IfErr, IfOk, OnErr, length, min, take};
ghost use Rattle.ua_frame.specs.Unfinished.{octets_of, IsIncompleteFrame, Fails, Makes};

use crate::fault::FrameFault;
use crate::frame::Frame;
use crate::gate::Gate;
use crate::header;
use crate::header::HEADER_LEN;
use bytes::Bytes;
use std::alloc::{AllocError, Global};
use std::mem;

/// The bytes of an incomplete frame. The header is kept apart from the body, so that it is checked
/// before anything is allocated, and the body is handed over as it is, in memory of its own.
#[derive(Debug, Drop)]
pub struct Unfinished {
    pub gate: Gate,
    header: [u8; HEADER_LEN],
    have: usize,
    body: Vec<u8>,
}

/// Copies the first bytes of a fragment to where the header continues.
#[inline(always)]
fn fill(header: &mut [u8], have: usize, piece: &[u8]) -> usize
    requires { have ≤ length header.old }
    ensures count { result ≡ min (length header.old - have) (length piece.now) }
    ensures filled { take (have + result) header.new ≡ take have header.old ++ take result piece.now }
{
    let n = (header.len() - have).min(piece.len());
    header[have..have + n].copy_from_slice(&piece[..n]);
    n
}

/// Appends the first bytes of a fragment to a body, up to the length that the body will have. Reserves
/// at most twice the bytes that have arrived, and never more than that length.
#[inline(always)]
fn extend(body: &mut Vec<u8>, len: usize, piece: &[u8]) -> Result<usize, AllocError>
    requires { length body.old.items ≤ len }
    ensures count { IfOk result (λ n. n ≡ min (len - length body.old.items) (length piece.now)) }
    ensures added { IfOk result (λ n. body.new.items ≡ body.old.items ++ take n piece.now) }
{
    let n = (len - body.len()).min(piece.len());
    if n > body.capacity() - body.len() {
        let come = body.len() + n;
        body.reserve_exact(n + come.min(len - come))?;
    }
    body.extend_from_slice(&piece[..n])?;
    Ok(n)
}

impl Unfinished {
    /// Nothing of a frame yet.
    pub fn new(alloc: Global, gate: Gate) -> Unfinished
        ensures gate { result.gate ≡ gate }
        ensures none { octets_of result ≡ [] }
        ensures kept { IsIncompleteFrame result }
    {
        Unfinished {
            gate,
            header: [0; HEADER_LEN],
            have: 0,
            body: Vec::new(alloc),
        }
    }

    /// The number of bytes that have arrived.
    #[inline]
    pub fn len(&self) -> usize
        requires { IsIncompleteFrame self.now }
        ensures { result ≡ length (octets_of self.now) }
    {
        self.have + self.body.len()
    }

    /// Takes bytes after a complete header.
    #[inline(always)]
    fn go_on(&mut self, alloc: Global, piece: &[u8]) -> Result<(usize, Option<Frame>), FrameFault>
        requires kept { IsIncompleteFrame self.old }
        requires header { self.old.have ≡ 8 }
        ensures makes { Makes self.old.gate (octets_of self.old) piece.now result (octets_of self.new) }
        ensures kept { IsIncompleteFrame self.new }
        ensures gate { self.new.gate ≡ self.old.gate }
    {
        let len = header::read_size(&self.header) as usize - HEADER_LEN;
        let Ok(n) = extend(&mut self.body, len, piece) else {
            *self = Unfinished::new(alloc, self.gate);
            return Err(FrameFault::OutOfMemory);
        };
        if self.body.len() < len {
            return Ok((n, None));
        }
        self.have = 0;
        let whole = mem::replace(&mut self.body, Vec::new(alloc));
        let Ok(body) = Bytes::from_vec(whole) else {
            return Err(FrameFault::OutOfMemory);
        };
        Ok((n, Some(header::make_frame(&self.header, body))))
    }

    /// Takes bytes of an incomplete header, up to its end. A fault leaves nothing.
    #[inline(never)]
    fn begin(&mut self, piece: &[u8]) -> Result<usize, FrameFault>
        requires kept { IsIncompleteFrame self.old }
        requires header { self.old.have < 8 }
        ensures taken { IfOk result (λ n. octets_of self.new ≡ octets_of self.old ++ take n piece.now) }
        ensures within { IfOk result (λ n. n ≤ length piece.now) }
        ensures all { IfOk result (λ n. self.new.have < 8 → n ≡ length piece.now) }
        ensures fails { IfErr result (λ fault. Fails self.old.gate (octets_of self.old ++ piece.now) fault) }
        ensures none { OnErr result (octets_of self.new ≡ []) }
        ensures kept { IsIncompleteFrame self.new }
        ensures gate { self.new.gate ≡ self.old.gate }
    {
        let n = fill(&mut self.header, self.have, piece);
        self.have += n;
        if self.have < HEADER_LEN {
            return Ok(n);
        }
        if let Some(fault) = header::judge(&self.gate, &self.header) {
            self.have = 0;
            return Err(fault);
        }
        Ok(n)
    }

    /// Takes bytes, and keeps those of a frame that does not end in them.
    #[inline(always)]
    fn gather(&mut self, alloc: Global, piece: &[u8]) -> Result<(usize, Option<Frame>), FrameFault>
        requires kept { IsIncompleteFrame self.old }
        ensures makes { Makes self.old.gate (octets_of self.old) piece.now result (octets_of self.new) }
        ensures kept { IsIncompleteFrame self.new }
        ensures gate { self.new.gate ≡ self.old.gate }
    {
        if self.have == HEADER_LEN {
            return self.go_on(alloc, piece);
        }
        let n = self.begin(piece)?;
        if self.have < HEADER_LEN {
            return Ok((n, None));
        }
        let (m, frame) = self.go_on(alloc, &piece[n..])?;
        Ok((n + m, frame))
    }

    /// Takes bytes up to the end of the frame, or else the whole fragment. A fault leaves nothing.
    #[inline(always)]
    pub fn take(
        &mut self,
        alloc: Global,
        piece: &[u8],
    ) -> Result<(usize, Option<Frame>), FrameFault>
        requires kept { IsIncompleteFrame self.old }
        ensures makes { Makes self.old.gate (octets_of self.old) piece.now result (octets_of self.new) }
        ensures kept { IsIncompleteFrame self.new }
        ensures gate { self.new.gate ≡ self.old.gate }
    {
        // nearly each frame lies whole in one fragment
        if self.have == 0 {
            if let Some(size) = header::whole_size(&self.gate, piece) {
                return match header::read_frame(alloc, &piece[..size]) {
                    Ok(frame) => Ok((size, Some(frame))),
                    Err(_) => Err(FrameFault::OutOfMemory),
                };
            }
        }
        self.gather(alloc, piece)
    }
}
