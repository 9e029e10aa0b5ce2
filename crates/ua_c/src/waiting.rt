//! Bytes that wait to be fetched.

ghost use Rattle.std.specs.Prelude.{◌≡◌, ◌++◌, [], length, min, take, drop, IfOk};
ghost use Rattle.std.specs.List.{concat};
ghost use Rattle.ua_c.specs.Waiting.{Fetches};

use std::alloc::{AllocError, Global};
use std::marker::Model;
use ua_chunk::Message;

/// Bytes that wait to be fetched. A message is joined when its first bytes are fetched, so that
/// nothing of it is lost where an allocation fails.
#[derive(Debug, Drop)]
pub struct Waiting {
    octets: Vec<u8>,
    /// How many of them were fetched.
    fetched: usize,
    /// A message of which nothing was fetched. It takes the place of the bytes.
    message: Option<Message>,
}

impl Model for Waiting {
    ghost use Rattle.std.specs.Prelude.{ℕ, ◌≤◌, List, length, drop};
    ghost use Rattle.std.specs.Coded.{coded_list, coded_ℕ};
    ghost use Rattle.ua_c.specs.Waiting.{waiting};

    ghost Value = { List ℕ };

    ghost coded = { coded_list coded_ℕ };

    ghost view = { λ w. waiting w.message (drop w.fetched w.octets.items) };

    ghost invariant = { λ w. w.fetched ≤ length w.octets.items };
}

/// The bytes of a message, joined.
fn joined(alloc: Global, message: &Message) -> Result<Vec<u8>, AllocError>
    ensures { IfOk result (λ octets. octets.items ≡ concat message.now) }
{
    let mut octets = Vec::new(alloc);
    for part in message.parts() {
        octets.extend_from_slice(part)?;
    }
    Ok(octets)
}

impl Waiting {
    /// These bytes wait.
    pub(crate) fn of(octets: Vec<u8>) -> Waiting
        ensures { result ≡ octets.items }
    {
        Waiting {
            octets,
            fetched: 0,
            message: None,
        }
    }

    /// The bytes of a message wait.
    pub(crate) fn message(alloc: Global, message: Message) -> Waiting
        ensures { result ≡ concat message }
    {
        Waiting {
            octets: Vec::new(alloc),
            fetched: 0,
            message: Some(message),
        }
    }

    /// No bytes wait.
    pub(crate) fn none(alloc: Global) -> Waiting
        ensures { result ≡ [] }
    {
        Waiting::of(Vec::new(alloc))
    }

    /// How many bytes wait.
    pub(crate) fn len(&self) -> usize
        ensures { result ≡ length self.now }
    {
        match &self.message {
            Some(message) => message.len(),
            None => self.octets.len() - self.fetched,
        }
    }

    /// Moves as many bytes as fit to the start of a buffer, and returns how many.
    pub(crate) fn fetch(&mut self, alloc: Global, buffer: &mut [u8]) -> Result<usize, AllocError>
        ensures { Fetches self.old self.new buffer.old buffer.new result }
    {
        match &self.message {
            Some(message) => {
                let octets = joined(alloc, message)?;
                let count = move_front(octets.as_slice(), buffer);
                *self = Waiting {
                    octets,
                    fetched: count,
                    message: None,
                };
                Ok(count)
            }
            None => {
                let count = move_front(&self.octets[self.fetched..], buffer);
                self.fetched += count;
                Ok(count)
            }
        }
    }
}

/// Copies as many bytes as fit to the start of a buffer, and returns how many.
pub(crate) fn move_front(octets: &[u8], buffer: &mut [u8]) -> usize
    ensures count { result ≡ min (length octets.now) (length buffer.old) }
    ensures buffer { buffer.new ≡ take result octets.now ++ drop result buffer.old }
{
    let count = octets.len().min(buffer.len());
    buffer[..count].copy_from_slice(&octets[..count]);
    count
}
