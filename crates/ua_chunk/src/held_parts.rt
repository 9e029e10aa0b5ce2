//! The parts of a message, as they are held.

ghost use Rattle.std.specs.Prelude.{◌≡◌, ◌∷◌, ◌++◌, [], OnOk, OnErr};
ghost use Rattle.ua_chunk.specs.HeldParts.{held_parts};

use bytes::Bytes;
use std::alloc::{AllocError, Global};
use std::{mem, slice};

/// Parts that follow one another. A single one is kept in the value itself, without an allocation.
#[derive(Debug, Drop)]
pub(crate) enum HeldParts {
    None,
    One(Bytes),
    Several(Vec<Bytes>),
}

impl HeldParts {
    /// The parts, in order.
    #[inline]
    pub(crate) fn as_slice(&self) -> &[Bytes]
        ensures { result.now ≡ held_parts self.now }
    {
        match self {
            HeldParts::None => &[],
            HeldParts::One(part) => slice::from_ref(part),
            HeldParts::Several(parts) => parts.as_slice(),
        }
    }

    /// Appends a part. An error changes nothing.
    #[inline(always)]
    pub(crate) fn push(&mut self, alloc: Global, part: Bytes) -> Result<(), AllocError>
        ensures ok { OnOk result (held_parts self.new ≡ held_parts self.old ++ part ∷ []) }
        ensures err { OnErr result (held_parts self.new ≡ held_parts self.old) }
    {
        match self {
            HeldParts::None => {
                *self = HeldParts::One(part);
                Ok(())
            }
            HeldParts::One(first) => {
                let mut parts = Vec::with_capacity(alloc, 2)?;
                parts.push_reserved(mem::replace(first, Bytes::new()));
                parts.push_reserved(part);
                *self = HeldParts::Several(parts);
                Ok(())
            }
            HeldParts::Several(parts) => {
                parts.push(part)?;
                Ok(())
            }
        }
    }
}
