//! Guid.

use std::alloc::{AllocError, Global};
use ua_wire::{ReadFault, Skip, Source, Wire, fill_octets};
use uuid::Uuid;

/// A Guid, which the crate `uuid` parses and prints; its first three fields are encoded
/// little-endian (OPC 10000-6, 5.2.2.6).
#[derive(Clone, Copy, PartialEq, Eq, Hash, Debug)]
pub struct Guid {
    pub uuid: Uuid,
}

impl Wire for Guid {
    ghost use Rattle.ua_wire.specs.Format.{flat};
    ghost use Rattle.ua_builtin.specs.Guid.{guid};

    ghost format = { flat guid };

    ghost memoryless = { Unit {0} };

    #[inline]
    #[tactic(auto, using(crate::proofs::PlainLawful::lawful_guid))]
    fn lawful() {}

    #[inline]
    #[tactic(auto, unfolding(crate::specs::Guid::guid))]
    fn read_value<S: Source>(_alloc: Global, src: &mut S, _depth: u32) -> Result<Guid, ReadFault> {
        let mut octets = [0; 16];
        fill_octets(src, &mut octets)?;
        Ok(Guid {
            uuid: Uuid::from_bytes_le(octets),
        })
    }

    #[inline]
    #[tactic(auto, unfolding(crate::specs::Guid::guid))]
    fn is_encodable(&self) -> bool {
        // Always so; no clause of the crate `uuid` says it.
        self.uuid.as_bytes().as_slice().len() == 16
    }

    #[inline]
    #[tactic(auto, unfolding(crate::specs::Guid::guid))]
    fn append(&self, out: &mut Vec<u8>) -> Result<(), AllocError> {
        out.extend_from_slice(&self.uuid.to_bytes_le())?;
        Ok(())
    }
}

impl Skip for Guid {}
