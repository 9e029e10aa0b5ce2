//! Signed whole numbers, in two's complement.

ghost use Rattle.std.specs.Int.{w8, w16, w32, w64};
ghost use Rattle.ua_wire.specs.Format.{flat};
ghost use Rattle.ua_wire.specs.Signed.{signed};

use crate::fault::ReadFault;
use crate::source::Source;
use crate::wire::Wire;
use std::alloc::{AllocError, Global};

/// SByte, 1 byte (OPC 10000-6, 5.2.2.2).
impl Wire for i8 {
    ghost format = { flat (signed w8) };

    ghost memoryless = { Unit {0} };

    #[inline]
    #[tactic(auto, using(crate::proofs::ScalarsLawful::lawful_signed_8))]
    fn lawful() {}

    #[inline]
    fn read_value<S: Source>(alloc: Global, src: &mut S, depth: u32) -> Result<i8, ReadFault> {
        let bits = u8::read_value(alloc, src, depth)?;
        Ok(bits.cast_signed())
    }

    #[inline]
    fn is_encodable(&self) -> bool {
        let _value = *self;
        true
    }

    #[inline]
    fn append(&self, out: &mut Vec<u8>) -> Result<(), AllocError> {
        let bits: u8 = self.cast_unsigned();
        bits.append(out)?;
        Ok(())
    }
}

/// Int16, 2 bytes (OPC 10000-6, 5.2.2.2).
impl Wire for i16 {
    ghost format = { flat (signed w16) };

    ghost memoryless = { Unit {0} };

    #[inline]
    #[tactic(auto, using(crate::proofs::ScalarsLawful::lawful_signed_16))]
    fn lawful() {}

    #[inline]
    fn read_value<S: Source>(alloc: Global, src: &mut S, depth: u32) -> Result<i16, ReadFault> {
        let bits = u16::read_value(alloc, src, depth)?;
        Ok(bits.cast_signed())
    }

    #[inline]
    fn is_encodable(&self) -> bool {
        let _value = *self;
        true
    }

    #[inline]
    fn append(&self, out: &mut Vec<u8>) -> Result<(), AllocError> {
        let bits: u16 = self.cast_unsigned();
        bits.append(out)?;
        Ok(())
    }
}

/// Int32, 4 bytes (OPC 10000-6, 5.2.2.2).
impl Wire for i32 {
    ghost format = { flat (signed w32) };

    ghost memoryless = { Unit {0} };

    #[inline]
    #[tactic(auto, using(crate::proofs::ScalarsLawful::lawful_signed_32))]
    fn lawful() {}

    #[inline]
    fn read_value<S: Source>(alloc: Global, src: &mut S, depth: u32) -> Result<i32, ReadFault> {
        let bits = u32::read_value(alloc, src, depth)?;
        Ok(bits.cast_signed())
    }

    #[inline]
    fn is_encodable(&self) -> bool {
        let _value = *self;
        true
    }

    #[inline]
    fn append(&self, out: &mut Vec<u8>) -> Result<(), AllocError> {
        let bits: u32 = self.cast_unsigned();
        bits.append(out)?;
        Ok(())
    }
}

/// Int64, 8 bytes (OPC 10000-6, 5.2.2.2).
impl Wire for i64 {
    ghost format = { flat (signed w64) };

    ghost memoryless = { Unit {0} };

    #[inline]
    #[tactic(auto, using(crate::proofs::ScalarsLawful::lawful_signed_64))]
    fn lawful() {}

    #[inline]
    fn read_value<S: Source>(alloc: Global, src: &mut S, depth: u32) -> Result<i64, ReadFault> {
        let bits = u64::read_value(alloc, src, depth)?;
        Ok(bits.cast_signed())
    }

    #[inline]
    fn is_encodable(&self) -> bool {
        let _value = *self;
        true
    }

    #[inline]
    fn append(&self, out: &mut Vec<u8>) -> Result<(), AllocError> {
        let bits: u64 = self.cast_unsigned();
        bits.append(out)?;
        Ok(())
    }
}
