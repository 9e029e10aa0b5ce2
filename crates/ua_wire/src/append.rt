//! Fields that are written one after the other.

ghost use Rattle.std.specs.Prelude.{◌≡◌, ◌++◌, IsTrue, OnOk, OnErr};
ghost use Rattle.ua_wire.specs.Format.{Extends};

use crate::wire::Wire;
use std::alloc::AllocError;

/// Appends the canonical encodings of two fields, in order.
#[inline(always)]
pub fn append_two<A: Wire, B: Wire>(
    first: &A,
    second: &B,
    out: &mut Vec<u8>,
) -> Result<(), AllocError>
    requires first { IsTrue (A.format.encodable first.now) }
    requires second { IsTrue (B.format.encodable second.now) }
    ensures ok { OnOk result
        (out.new.items ≡ out.old.items ++ (A.format.canonical first.now ++ B.format.canonical second.now)) }
    ensures err { OnErr result (Extends out.old.items out.new.items) }
{
    first.append(out)?;
    second.append(out)
}

/// Appends the canonical encodings of three fields, in order.
pub fn append_three<A: Wire, B: Wire, C: Wire>(
    first: &A,
    second: &B,
    third: &C,
    out: &mut Vec<u8>,
) -> Result<(), AllocError>
    requires first { IsTrue (A.format.encodable first.now) }
    requires second { IsTrue (B.format.encodable second.now) }
    requires third { IsTrue (C.format.encodable third.now) }
    ensures ok { OnOk result
        (out.new.items ≡ out.old.items
        ++ (A.format.canonical first.now ++ (B.format.canonical second.now ++ C.format.canonical third.now))) }
    ensures err { OnErr result (Extends out.old.items out.new.items) }
{
    first.append(out)?;
    second.append(out)?;
    third.append(out)
}
