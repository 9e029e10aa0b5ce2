//! Pairs: one value after the other.

use crate::fault::ReadFault;
use crate::source::Source;
use crate::wire::Wire;
use std::alloc::{AllocError, Global};

/// Two values, one after the other. A structure of many fields is decoded as nested pairs.
impl<A: Wire + Drop, B: Wire + Drop> Wire for (A, B) {
    ghost use Rattle.ua_wire.specs.Join.{pair};

    ghost format = { pair A.format B.format };

    ghost memoryless = { A.memoryless × B.memoryless };

    #[inline]
    fn lawful() {
        A::lawful();
        B::lawful();
    }

    fn read_value<S: Source>(alloc: Global, src: &mut S, depth: u32) -> Result<(A, B), ReadFault> {
        let first = A::read_value(alloc, src, depth)?;
        let second = B::read_value(alloc, src, depth)?;
        Ok((first, second))
    }

    fn is_encodable(&self) -> bool {
        self.0.is_encodable() && self.1.is_encodable()
    }

    fn append(&self, out: &mut Vec<u8>) -> Result<(), AllocError> {
        self.0.append(out)?;
        self.1.append(out)?;
        Ok(())
    }
}
