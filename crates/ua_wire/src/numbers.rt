//! Unsigned whole numbers, little-endian.

ghost use Rattle.std.specs.Prelude.{◌≡◌, length, Some, None, MatchResult};
ghost use Rattle.byteorder.specs.Endian.{little_number};
ghost use Rattle.ua_wire.specs.Format.{StaysBehind, flat};
ghost use Rattle.ua_wire.specs.Number.{number_at};
ghost use Rattle.ua_wire.specs.Join.{number};
ghost use Rattle.ua_wire.specs.declared.fault.ReadFault.TheVariants.{NoValue};

use crate::fault::ReadFault;
use crate::source::Source;
use crate::wire::Wire;
use byteorder::{ByteOrder, LittleEndian};
use std::alloc::{AllocError, Global};

/// Takes the bytes of a number.
#[inline]
#[tactic(auto, using(crate::proofs::Behind::stays_behind))]
fn take_number<S: Source>(src: &mut S, octets: &mut [u8]) -> Result<(), ReadFault>
    ensures exact { MatchResult result (λ _. number_at (length octets.old) (S.octets src.old)
        ≡ Some (little_number (length octets.old) octets.new, S.octets src.new))
        (λ e. (e ≡ NoValue) × (number_at (length octets.old) (S.octets src.old) ≡ None)) }
    ensures behind { StaysBehind (S.octets src.old) (S.octets src.new) }
{
    if !src.take_into(octets) {
        return Err(ReadFault::NoValue);
    }
    Ok(())
}

/// Byte, 1 byte (OPC 10000-6, 5.2.2.2).
impl Wire for u8 {
    ghost format = { flat (number 1) };

    ghost memoryless = { Unit {0} };

    #[inline]
    #[tactic(auto, using(crate::proofs::Lawfulness::lawful_8))]
    fn lawful() {}

    #[inline]
    fn read_value<S: Source>(_alloc: Global, src: &mut S, _depth: u32) -> Result<u8, ReadFault> {
        let mut octets = [0; 1];
        take_number(src, &mut octets)?;
        Ok(octets[0])
    }

    #[inline]
    fn is_encodable(&self) -> bool {
        let _value = *self;
        true
    }

    #[inline]
    fn append(&self, out: &mut Vec<u8>) -> Result<(), AllocError> {
        out.push(*self)?;
        Ok(())
    }
}

/// UInt16, 2 bytes (OPC 10000-6, 5.2.2.2).
impl Wire for u16 {
    ghost format = { flat (number 2) };

    ghost memoryless = { Unit {0} };

    #[inline]
    #[tactic(auto, using(crate::proofs::Lawfulness::lawful_16))]
    fn lawful() {}

    #[inline]
    fn read_value<S: Source>(_alloc: Global, src: &mut S, _depth: u32) -> Result<u16, ReadFault> {
        let mut octets = [0; 2];
        take_number(src, &mut octets)?;
        Ok(LittleEndian::read_u16(&octets))
    }

    #[inline]
    fn is_encodable(&self) -> bool {
        let _value = *self;
        true
    }

    #[inline]
    fn append(&self, out: &mut Vec<u8>) -> Result<(), AllocError> {
        let mut octets = [0; 2];
        LittleEndian::write_u16(&mut octets, *self);
        out.extend_from_slice(&octets)?;
        Ok(())
    }
}

/// UInt32, 4 bytes (OPC 10000-6, 5.2.2.2).
impl Wire for u32 {
    ghost format = { flat (number 4) };

    ghost memoryless = { Unit {0} };

    #[inline]
    #[tactic(auto, using(crate::proofs::Lawfulness::lawful_32))]
    fn lawful() {}

    #[inline]
    fn read_value<S: Source>(_alloc: Global, src: &mut S, _depth: u32) -> Result<u32, ReadFault> {
        let mut octets = [0; 4];
        take_number(src, &mut octets)?;
        Ok(LittleEndian::read_u32(&octets))
    }

    #[inline]
    fn is_encodable(&self) -> bool {
        let _value = *self;
        true
    }

    #[inline]
    fn append(&self, out: &mut Vec<u8>) -> Result<(), AllocError> {
        let mut octets = [0; 4];
        LittleEndian::write_u32(&mut octets, *self);
        out.extend_from_slice(&octets)?;
        Ok(())
    }
}

/// UInt64, 8 bytes (OPC 10000-6, 5.2.2.2).
impl Wire for u64 {
    ghost format = { flat (number 8) };

    ghost memoryless = { Unit {0} };

    #[inline]
    #[tactic(auto, using(crate::proofs::Lawfulness::lawful_64))]
    fn lawful() {}

    #[inline]
    fn read_value<S: Source>(_alloc: Global, src: &mut S, _depth: u32) -> Result<u64, ReadFault> {
        let mut octets = [0; 8];
        take_number(src, &mut octets)?;
        Ok(LittleEndian::read_u64(&octets))
    }

    #[inline]
    fn is_encodable(&self) -> bool {
        let _value = *self;
        true
    }

    #[inline]
    fn append(&self, out: &mut Vec<u8>) -> Result<(), AllocError> {
        let mut octets = [0; 8];
        LittleEndian::write_u64(&mut octets, *self);
        out.extend_from_slice(&octets)?;
        Ok(())
    }
}
