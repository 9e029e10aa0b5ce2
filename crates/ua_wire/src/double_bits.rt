//! Double.

use crate::fault::ReadFault;
use crate::source::Source;
use crate::wire::Wire;
use std::alloc::{AllocError, Global};

/// A Double, kept as its 64-bit pattern: every pattern is preserved (OPC 10000-6, 5.2.2.3).
#[derive(Clone, Copy, PartialEq, Eq, Debug)]
pub struct DoubleBits {
    pub bits: u64,
}

impl Wire for DoubleBits {
    ghost use Rattle.ua_wire.specs.Format.{flat};
    ghost use Rattle.ua_wire.specs.DoubleBits.{double_bits};

    ghost format = { flat double_bits };

    ghost memoryless = { Unit {0} };

    #[inline]
    #[tactic(auto, using(crate::proofs::ScalarsLawful::lawful_double_bits))]
    fn lawful() {}

    #[inline]
    #[tactic(auto, unfolding(crate::specs::DoubleBits::double_bits))]
    fn read_value<S: Source>(
        alloc: Global,
        src: &mut S,
        depth: u32,
    ) -> Result<DoubleBits, ReadFault> {
        let bits = u64::read_value(alloc, src, depth)?;
        Ok(DoubleBits { bits })
    }

    #[inline]
    #[tactic(auto, unfolding(crate::specs::DoubleBits::double_bits))]
    fn is_encodable(&self) -> bool {
        self.bits.is_encodable()
    }

    #[inline]
    #[tactic(auto, unfolding(crate::specs::DoubleBits::double_bits))]
    fn append(&self, out: &mut Vec<u8>) -> Result<(), AllocError> {
        self.bits.append(out)?;
        Ok(())
    }
}
