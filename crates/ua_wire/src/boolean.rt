//! Boolean.

use crate::fault::ReadFault;
use crate::source::Source;
use crate::wire::Wire;
use std::alloc::{AllocError, Global};

/// Boolean, 1 byte (OPC 10000-6, 5.2.2.1).
impl Wire for bool {
    ghost use Rattle.ua_wire.specs.Boolean.{boolean};
    ghost use Rattle.ua_wire.specs.Format.{flat};

    ghost format = { flat boolean };

    ghost memoryless = { Unit {0} };

    #[inline]
    #[tactic(auto, using(crate::proofs::ScalarsLawful::lawful_boolean))]
    fn lawful() {}

    #[inline]
    #[tactic(auto, unfolding(crate::specs::Boolean::boolean))]
    fn read_value<S: Source>(alloc: Global, src: &mut S, depth: u32) -> Result<bool, ReadFault> {
        let octet = u8::read_value(alloc, src, depth)?;
        Ok(octet != 0)
    }

    #[inline]
    #[tactic(auto, unfolding(crate::specs::Boolean::boolean))]
    fn is_encodable(&self) -> bool {
        let _value = *self;
        true
    }

    #[inline]
    #[tactic(auto, unfolding(crate::specs::Boolean::boolean))]
    fn append(&self, out: &mut Vec<u8>) -> Result<(), AllocError> {
        u8::from(*self).append(out)?;
        Ok(())
    }
}
