//! Messages, as the bodies of their chunks.

use crate::held_parts::HeldParts;
use bytes::Bytes;
use std::alloc::{AllocError, Global};
use std::marker::Model;
use ua_wire::Parts;

/// A message: the non-empty bodies of its chunks, in order and as they arrived. Its bytes are those
/// of the joined bodies.
#[derive(Debug)]
pub struct Message {
    parts: HeldParts,
    /// The length of all bodies together, in bytes.
    len: usize,
}

// Written by hand, so that a crate that drops a message calls this, and proves nothing of its
// contents.
impl Drop for Message {
    fn drop(self) {
        let Message { parts, len: _ } = self;
        drop(parts);
    }
}

impl Model for Message {
    ghost use Rattle.std.specs.List.{concat};
    ghost use Rattle.std.specs.Prelude.{List, ℕ, ◌≡◌, length};

    ghost Value = { List (List ℕ) };

    ghost use Rattle.ua_chunk.specs.HeldParts.{held_parts};

    ghost view = { λ m. held_parts m.parts };

    ghost invariant = { λ m. m.len ≡ length (concat (held_parts m.parts)) };
}

impl Message {
    ghost use Rattle.std.specs.List.{concat};
    ghost use Rattle.std.specs.Prelude.{◌≡◌, ◌↔◌, ◌∷◌, ◌++◌, [], length, IsTrue, OnOk};
    ghost use Rattle.ua_chunk.specs.Gathered.{filled};

    /// A message of which nothing has arrived.
    #[inline]
    pub(crate) fn new() -> Message
        ensures { result ≡ [] }
    {
        Message {
            parts: HeldParts::None,
            len: 0,
        }
    }

    /// The message of one chunk with this body.
    #[inline(always)]
    pub(crate) fn with_body(body: Bytes) -> Message
        ensures { result ≡ filled (body ∷ []) }
    {
        let len = body.len();
        if len == 0 {
            return Message::new();
        }
        Message {
            parts: HeldParts::One(body),
            len,
        }
    }

    /// The number of bytes.
    #[inline]
    pub fn len(&self) -> usize
        ensures { result ≡ length (concat self.now) }
    {
        self.len
    }

    /// Whether there are no bytes.
    #[inline]
    pub fn is_empty(&self) -> bool
        ensures { IsTrue result ↔ (concat self.now ≡ []) }
    {
        self.len == 0
    }

    /// The non-empty bodies of its chunks, in order.
    #[inline]
    pub fn parts(&self) -> &[Bytes]
        ensures { result.now ≡ self.now }
    {
        self.parts.as_slice()
    }

    /// A source of the bytes, from the first one.
    #[inline]
    pub fn source(&self) -> Parts<'_>
        ensures { result ≡ concat self.now }
    {
        let _len = self.len;
        Parts::new(self.parts.as_slice())
    }

    /// Appends the body of one more chunk, as it is.
    #[inline(always)]
    pub(crate) fn add(&mut self, alloc: Global, body: Bytes) -> Result<(), AllocError>
        ensures { OnOk result (self.new ≡ self.old ++ filled (body ∷ [])) }
    {
        if body.is_empty() {
            return Ok(());
        }
        let Some(len) = self.len.checked_add(body.len()) else {
            return Err(AllocError);
        };
        self.parts.push(alloc, body)?;
        self.len = len;
        Ok(())
    }
}
