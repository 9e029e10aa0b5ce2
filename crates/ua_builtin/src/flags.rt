//! Fields that an encoding mask announces: the bit of a field that is present, and Strings that are
//! present if their bit is set.

ghost use Rattle.std.specs.Prelude.{◌≡◌, ◌≤◌, ◌++◌, IsTrue, OnOk, OnErr, is_some};
ghost use Rattle.ua_wire.specs.Format.{most_levels, Gives, StaysBehind, Extends};
ghost use Rattle.ua_builtin.specs.Flags.{flag_bit, flagged_text};

use std::alloc::{AllocError, Global};
use ua_wire::{ReadFault, Source, UaString, Wire};

/// The bit of a field that is present, else 0.
#[inline]
pub fn flag_of(bit: u8, is_there: bool) -> u8
    ensures value { result ≡ flag_bit bit is_there }
    ensures within { result ≤ bit }
{
    if is_there { bit } else { 0 }
}

/// Decodes a String if its bit is set; otherwise it is null.
pub fn read_flagged<S: Source>(
    alloc: Global,
    src: &mut S,
    depth: u32,
    set: bool,
) -> Result<UaString, ReadFault>
    requires levels { depth ≤ most_levels }
    ensures exact { Gives ((flagged_text set).decode) (S.octets src.old) (S.octets src.new) result }
    ensures behind { StaysBehind (S.octets src.old) (S.octets src.new) }
{
    if !set {
        return Ok(UaString::null());
    }
    UaString::read_value(alloc, src, depth)
}

/// Whether a String that is encoded unless it is null can be encoded.
pub fn is_flagged_encodable(text: &UaString) -> bool
    ensures { result ≡ (flagged_text (is_some text.now)).encodable text.now }
{
    !text.is_some() || text.is_encodable()
}

/// Appends the encoding of a String unless it is null.
pub fn append_flagged(text: &UaString, out: &mut Vec<u8>) -> Result<(), AllocError>
    requires { IsTrue ((flagged_text (is_some text.now)).encodable text.now) }
    ensures ok { OnOk result (out.new.items ≡ out.old.items ++ (flagged_text (is_some text.now)).canonical text.now) }
    ensures err { OnErr result (Extends out.old.items out.new.items) }
{
    if text.is_some() {
        text.append(out)?;
    }
    Ok(())
}
