//! Unfinished messages.

use crate::message::Message;
use bytes::Bytes;
use std::alloc::{AllocError, Global};
use std::marker::Model;

/// The part of a message that has arrived.
#[derive(Debug, Drop)]
pub struct Pending {
    pub request: u32,
    /// The number of chunks that have arrived. It stops at its greatest value.
    pub chunks: u32,
    pub message: Message,
}

impl Pending {
    ghost use Rattle.std.specs.Prelude.{◌≡◌, ◌+◌, ◌∷◌, ◌++◌, [], min, OnOk};
    ghost use Rattle.ua_chunk.specs.Gathered.{filled};

    /// Appends the body of one more chunk.
    #[inline(always)]
    pub fn add(&mut self, alloc: Global, body: Bytes) -> Result<(), AllocError>
        ensures { OnOk result (self.new ≡ record {
          request = self.old.request;
          chunks = min (self.old.chunks + 1) 4294967295;
          message = self.old.message ++ filled (body ∷ []);
        }) }
    {
        self.message.add(alloc, body)?;
        self.chunks = self.chunks.saturating_add(1);
        Ok(())
    }
}

/// The messages that are unfinished, in the order of their last chunks.
#[derive(Debug, Drop)]
pub struct PendingMessages {
    messages: Vec<Pending>,
    held: usize,
}

impl Model for PendingMessages {
    ghost use Rattle.std.specs.Prelude.{List, ◌≡◌};
    ghost use Rattle.ua_chunk.specs.declared.pending.Pending.{Pending};

    ghost Value = { List Pending };

    ghost use Rattle.ua_chunk.specs.Pending.{octets_in};

    ghost view = { λ p. p.messages.items };

    ghost invariant = { λ p. p.held ≡ octets_in p.messages.items };
}

impl PendingMessages {
    ghost use Rattle.std.specs.Prelude.{◌≡◌, ◌↔◌, ◌∷◌, ◌++◌, [], length, IsTrue, OnOk, OnErr};
    ghost use Rattle.std.specs.List.{position};
    ghost use Rattle.ua_chunk.specs.Pending.{octets_in, is_under, message_under_id, without};

    /// No messages.
    pub fn new(alloc: Global) -> PendingMessages
        ensures { result ≡ [] }
    {
        PendingMessages {
            messages: Vec::new(alloc),
            held: 0,
        }
    }

    /// How many messages there are.
    #[inline]
    pub fn len(&self) -> usize
        ensures { result ≡ length self.now }
    {
        self.messages.len()
    }

    /// Whether there are none.
    #[inline]
    pub fn is_empty(&self) -> bool
        ensures { IsTrue result ↔ (self.now ≡ []) }
    {
        self.messages.is_empty()
    }

    /// The number of bytes that have arrived of all messages.
    #[inline]
    pub fn held(&self) -> usize
        ensures { result ≡ octets_in self.now }
    {
        self.held
    }

    /// Drops all of them.
    pub fn clear(&mut self)
        ensures { self.new ≡ [] }
    {
        self.messages.clear();
        self.held = 0;
    }

    fn place(&self, request: u32) -> Option<usize>
        ensures { result ≡ position (is_under request) self.now }
    {
        self.messages.iter().position(|m| m.request == request)
    }

    /// Takes out the message that has partly arrived under a RequestId.
    #[inline(always)]
    pub(crate) fn take_out(&mut self, request: u32) -> Pending
        ensures taken { result ≡ message_under_id request self.old }
        ensures rest { self.new ≡ without (is_under request) self.old }
    {
        let Some(place) = self.place(request) else {
            return Pending {
                request,
                chunks: 0,
                message: Message::new(),
            };
        };
        let pending = self.messages.remove(place);
        self.held -= pending.message.len();
        pending
    }

    /// Puts a message at the end. An error changes nothing.
    pub fn put(&mut self, pending: Pending) -> Result<(), AllocError>
        ensures ok { OnOk result (self.new ≡ self.old ++ pending ∷ []) }
        ensures err { OnErr result (self.new ≡ self.old) }
    {
        let Some(held) = self.held.checked_add(pending.message.len()) else {
            return Err(AllocError);
        };
        self.messages.push(pending)?;
        self.held = held;
        Ok(())
    }
}
