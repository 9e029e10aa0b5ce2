//! Fields that an encoding mask announces: a field is present if its bit is set.

ghost use Rattle.std.specs.Prelude.{◌≡◌, ◌≤◌, ◌++◌, IsTrue, OnOk, OnErr};
ghost use Rattle.ua_builtin.specs.Format.{most_levels, Gives, StaysBehind, Extends};
ghost use Rattle.ua_diagnostic.specs.Parts.{there, optional_read, optional_fits, optional_canonical};

use std::alloc::{AllocError, Global};
use ua_builtin::{ReadFault, Source, UaString, Wire};

/// 1 if the field is present, else 0.
#[inline]
pub fn count_of<T>(field: &Option<T>) -> u64
    ensures value { result ≡ there field.now }
    ensures within { result ≤ 1 }
{
    match field {
        None => 0,
        Some(_) => 1,
    }
}

/// 1 if the String is not null, else 0.
#[inline]
pub(crate) fn count_of_text(text: &UaString) -> u64
    ensures value { result ≡ there text.now }
    ensures within { result ≤ 1 }
{
    if text.is_some() { 1 } else { 0 }
}

/// Whether a field can be encoded, if it is present.
#[inline]
pub fn field_fits<T: Wire>(field: &Option<T>) -> bool
    ensures { result ≡ optional_fits T.format.encodable field.now }
{
    match field {
        None => true,
        Some(x) => x.is_encodable(),
    }
}

/// Decodes a field if it is announced.
#[inline(always)]
pub fn read_field<T: Wire + Drop, S: Source>(
    alloc: Global,
    src: &mut S,
    depth: u32,
    set: bool,
) -> Result<Option<T>, ReadFault>
    requires levels { depth ≤ most_levels }
    ensures exact { Gives (optional_read set (T.format.decode depth)) (S.octets src.old) (S.octets src.new) result }
    ensures behind { StaysBehind (S.octets src.old) (S.octets src.new) }
{
    if !set {
        return Ok(None);
    }
    let value = T::read_value(alloc, src, depth)?;
    Ok(Some(value))
}

/// Appends the encoding of a field, if it is present.
#[inline]
pub(crate) fn append_field<T: Wire>(field: &Option<T>, out: &mut Vec<u8>) -> Result<(), AllocError>
    requires { IsTrue (optional_fits T.format.encodable field.now) }
    ensures ok { OnOk result (out.new.items ≡ out.old.items ++ optional_canonical T.format.canonical field.now) }
    ensures err { OnErr result (Extends out.old.items out.new.items) }
{
    match field {
        None => Ok(()),
        Some(x) => x.append(out),
    }
}

/// Appends the encodings of two fields, each if it is present.
pub fn append_two<A: Wire, B: Wire>(
    first: &Option<A>,
    second: &Option<B>,
    out: &mut Vec<u8>,
) -> Result<(), AllocError>
    requires first { IsTrue (optional_fits A.format.encodable first.now) }
    requires second { IsTrue (optional_fits B.format.encodable second.now) }
    ensures ok { OnOk result
        (out.new.items ≡ out.old.items
        ++ (optional_canonical A.format.canonical first.now ++ optional_canonical B.format.canonical second.now)) }
    ensures err { OnErr result (Extends out.old.items out.new.items) }
{
    append_field(first, out)?;
    append_field(second, out)
}

/// Appends the encodings of three fields, each if it is present.
#[inline(always)]
pub fn append_three<A: Wire, B: Wire, C: Wire>(
    first: &Option<A>,
    second: &Option<B>,
    third: &Option<C>,
    out: &mut Vec<u8>,
) -> Result<(), AllocError>
    requires first { IsTrue (optional_fits A.format.encodable first.now) }
    requires second { IsTrue (optional_fits B.format.encodable second.now) }
    requires third { IsTrue (optional_fits C.format.encodable third.now) }
    ensures ok { OnOk result
        (out.new.items ≡ out.old.items
        ++ (optional_canonical A.format.canonical first.now
        ++ (optional_canonical B.format.canonical second.now ++ optional_canonical C.format.canonical third.now))) }
    ensures err { OnErr result (Extends out.old.items out.new.items) }
{
    append_field(first, out)?;
    append_two(second, third, out)
}
