//! Float.

use crate::fault::ReadFault;
use crate::source::Source;
use crate::wire::Wire;
use std::alloc::{AllocError, Global};

/// A Float, kept as its 32-bit pattern: every pattern is preserved (OPC 10000-6, 5.2.2.3).
#[derive(Clone, Copy, PartialEq, Eq, Debug)]
pub struct FloatBits {
    pub bits: u32,
}

impl Wire for FloatBits {
    ghost use Rattle.ua_wire.specs.Format.{flat};
    ghost use Rattle.ua_wire.specs.FloatBits.{float_bits};

    ghost format = { flat float_bits };

    ghost memoryless = { Unit {0} };

    #[inline]
    #[tactic(auto, using(crate::proofs::ScalarsLawful::lawful_float_bits))]
    fn lawful() {}

    #[inline]
    #[tactic(auto, unfolding(crate::specs::FloatBits::float_bits))]
    fn read_value<S: Source>(
        alloc: Global,
        src: &mut S,
        depth: u32,
    ) -> Result<FloatBits, ReadFault> {
        let bits = u32::read_value(alloc, src, depth)?;
        Ok(FloatBits { bits })
    }

    #[inline]
    #[tactic(auto, unfolding(crate::specs::FloatBits::float_bits))]
    fn is_encodable(&self) -> bool {
        self.bits.is_encodable()
    }

    #[inline]
    #[tactic(auto, unfolding(crate::specs::FloatBits::float_bits))]
    fn append(&self, out: &mut Vec<u8>) -> Result<(), AllocError> {
        self.bits.append(out)?;
        Ok(())
    }
}
