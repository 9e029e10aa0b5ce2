//! DateTime.

use std::alloc::{AllocError, Global};
use ua_wire::{ReadFault, Skip, Source, Wire};

/// A time in units of 100 nanoseconds since 1601-01-01 00:00 UTC; every number is preserved
/// (OPC 10000-6, 5.2.2.5).
#[derive(Clone, Copy, PartialEq, Eq, Debug)]
pub struct DateTime {
    pub ticks: i64,
}

impl Wire for DateTime {
    ghost use Rattle.ua_wire.specs.Format.{flat};
    ghost use Rattle.ua_builtin.specs.DateTime.{date_time};

    ghost format = { flat date_time };

    ghost memoryless = { Unit {0} };

    #[inline]
    #[tactic(auto, using(crate::proofs::PlainLawful::lawful_date_time))]
    fn lawful() {}

    #[inline]
    #[tactic(auto, unfolding(crate::specs::DateTime::date_time))]
    fn read_value<S: Source>(
        alloc: Global,
        src: &mut S,
        depth: u32,
    ) -> Result<DateTime, ReadFault> {
        let ticks = i64::read_value(alloc, src, depth)?;
        Ok(DateTime { ticks })
    }

    #[inline]
    #[tactic(auto, unfolding(crate::specs::DateTime::date_time))]
    fn is_encodable(&self) -> bool {
        self.ticks.is_encodable()
    }

    #[inline]
    #[tactic(auto, unfolding(crate::specs::DateTime::date_time))]
    fn append(&self, out: &mut Vec<u8>) -> Result<(), AllocError> {
        self.ticks.append(out)?;
        Ok(())
    }
}

impl Skip for DateTime {}
