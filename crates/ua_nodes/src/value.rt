//! Values in their text form.

ghost use Rattle.std.specs.Prelude.{◌≡◌, IfOk, IsErrOf, Some, None, map};
ghost use Rattle.ua_nodes.specs.ValueText.{octets_denoted, leaf_denoted, leaves_denoted, elements};
ghost use Rattle.ua_nodes.specs.ValueText.{scalar_denoted, array_denoted, has_text_form, value_denoted, Denotes};
ghost use Rattle.ua_nodes.specs.declared.fault.ValueFault.TheVariants.{NotValue};
ghost use Rattle.ua_variant.specs.Data.{leaf};
ghost use Rattle.ua_variant.specs.View.{scalar_of, variant_of};
ghost use Rattle.std.specs.Option.{option_map};

use crate::fault::ValueFault;
use crate::textual::Textual;
use base64::DecodeAllocError;
use base64::engine::general_purpose::STANDARD;
use std::alloc::Global;
use ua_builtin::{DateTime, DoubleBits, FloatBits, Guid, StatusCode, UaBytes, UaString};
use ua_variant::{Dimensions, Scalar, Scalars, Variant};

/// The greatest length of a field's text, in bytes.
pub const MOST_OCTETS: usize = 1_073_741_824;

/// Parses the text form of a value of a type id, or of an array of it: `true` or `false`; decimal
/// digits, with a leading `-` below zero; `0x` and 8 or 16 hexadecimal digits for Float, Double and
/// StatusCode; a String as it is; a Guid with its hyphens; a ByteString in padded base64. Commas
/// separate the elements of an array.
///
/// The error is `NotValue` if the text is none of these, and `OutOfMemory` if an allocation fails.
#[tactic(auto, unfolding(crate::specs::ValueText::value_denoted))]
pub fn parse_value(alloc: Global, kind: u8, array: bool, text: &str) -> Result<Variant, ValueFault>
    ensures value { IfOk result (λ v. value_denoted kind array text.now ≡ Some (variant_of v)) }
    ensures none { IsErrOf result NotValue → value_denoted kind array text.now ≡ None }
{
    if !is_in_text_form(kind) {
        return Err(ValueFault::NotValue);
    }
    if text.len() > MOST_OCTETS {
        return Err(ValueFault::NotValue);
    }
    if array {
        parse_array(alloc, kind, text)
    } else {
        parse_one(alloc, kind, text)
    }
}

/// Whether values of the type have a text form.
fn is_in_text_form(kind: u8) -> bool
    ensures { result ≡ has_text_form kind }
{
    (0 < kind && kind < 16) || kind == 19
}

/// The one value that a text denotes.
fn parse_one(alloc: Global, kind: u8, text: &str) -> Result<Variant, ValueFault>
    ensures { Denotes variant_of (scalar_denoted kind text.now) result }
{
    Ok(Variant::One(parse_scalar(alloc, kind, text)?))
}

/// The array that a text denotes.
fn parse_array(alloc: Global, kind: u8, text: &str) -> Result<Variant, ValueFault>
    ensures { Denotes variant_of (array_denoted kind text.now) result }
{
    let items = parse_row(alloc, kind, text)?;
    Ok(Variant::Many {
        kind,
        items: Some(items),
        dims: Dimensions::none(alloc),
    })
}

/// The elements of an array, in a vector of their type where such arrays are packed.
fn parse_row(alloc: Global, kind: u8, text: &str) -> Result<Scalars, ValueFault>
    ensures { Denotes (λ s. s) (leaves_denoted kind (elements text.now)) result }
{
    match kind {
        1 => packed_row::<bool>(alloc, text),
        2 => packed_row::<i8>(alloc, text),
        3 => packed_row::<u8>(alloc, text),
        4 => packed_row::<i16>(alloc, text),
        5 => packed_row::<u16>(alloc, text),
        6 => packed_row::<i32>(alloc, text),
        7 => packed_row::<u32>(alloc, text),
        8 => packed_row::<i64>(alloc, text),
        9 => packed_row::<u64>(alloc, text),
        10 => packed_row::<FloatBits>(alloc, text),
        11 => packed_row::<DoubleBits>(alloc, text),
        13 => packed_row::<DateTime>(alloc, text),
        14 => packed_row::<Guid>(alloc, text),
        19 => packed_row::<StatusCode>(alloc, text),
        _ => Ok(Scalars::new(parse_elements(alloc, kind, text)?)),
    }
}

/// The elements of an array of a type, in a vector of it.
fn packed_row<T: Textual>(alloc: Global, text: &str) -> Result<Scalars, ValueFault>
    ensures { Denotes (λ s. s) (leaves_denoted T.kind (elements text.now)) result }
{
    Ok(Scalars::from_items(parse_items::<T>(alloc, text)?))
}

/// The elements that the texts between commas denote, each of the type.
fn parse_items<T: Textual>(alloc: Global, text: &str) -> Result<Vec<T>, ValueFault>
    ensures { Denotes (λ v. map leaf (map T.as_leaf v.items)) (leaves_denoted T.kind (elements text.now)) result }
{
    let mut items = Vec::new(alloc);
    if text.is_empty() {
        return Ok(items);
    }
    let mut rest = text;
    'elements: while let Some((element, more)) = rest.split_once(',') {
        items.push(denoted::<T>(element)?)?;
        rest = more;
    }
    items.push(denoted::<T>(rest)?)?;
    Ok(items)
}

/// The elements that the texts between commas denote, as scalars.
fn parse_elements(alloc: Global, kind: u8, text: &str) -> Result<Vec<Scalar>, ValueFault>
    ensures { Denotes (λ v. map scalar_of v.items) (leaves_denoted kind (elements text.now)) result }
{
    let mut items = Vec::new(alloc);
    if text.is_empty() {
        return Ok(items);
    }
    let mut rest = text;
    'elements: while let Some((element, more)) = rest.split_once(',') {
        items.push(parse_scalar(alloc, kind, element)?)?;
        rest = more;
    }
    items.push(parse_scalar(alloc, kind, rest)?)?;
    Ok(items)
}

/// The value that a text denotes, as a scalar.
fn parse_scalar(alloc: Global, kind: u8, text: &str) -> Result<Scalar, ValueFault>
    ensures { Denotes scalar_of (option_map leaf (leaf_denoted kind text.now)) result }
{
    match kind {
        1 => one::<bool>(text),
        2 => one::<i8>(text),
        3 => one::<u8>(text),
        4 => one::<i16>(text),
        5 => one::<u16>(text),
        6 => one::<i32>(text),
        7 => one::<u32>(text),
        8 => one::<i64>(text),
        9 => one::<u64>(text),
        10 => one::<FloatBits>(text),
        11 => one::<DoubleBits>(text),
        12 => Ok(Scalar::String(UaString::from_str(alloc, text)?)),
        13 => one::<DateTime>(text),
        14 => one::<Guid>(text),
        15 => Ok(Scalar::ByteString(UaBytes::new(Some(octets(alloc, text)?)))),
        19 => one::<StatusCode>(text),
        _ => Err(ValueFault::NotValue),
    }
}

/// The value of a type that a text denotes.
fn denoted<T: Textual>(text: &str) -> Result<T, ValueFault>
    ensures { Denotes T.as_leaf (leaf_denoted T.kind text.now) result }
{
    T::parse(text).ok_or(ValueFault::NotValue)
}

/// The value of a type that a text denotes, as a scalar.
fn one<T: Textual>(text: &str) -> Result<Scalar, ValueFault>
    ensures { Denotes scalar_of (option_map leaf (leaf_denoted T.kind text.now)) result }
{
    Ok(denoted::<T>(text)?.into_scalar())
}

/// The bytes that a text denotes in base64.
#[tactic(auto, unfolding(crate::specs::ValueText::octets_denoted))]
fn octets(alloc: Global, text: &str) -> Result<Vec<u8>, ValueFault>
    ensures { Denotes (λ v. v.items) (octets_denoted text.now) result }
{
    match STANDARD.decode(alloc, text.as_bytes()) {
        Ok(octets) => Ok(octets),
        Err(DecodeAllocError::OutOfMemory) => Err(ValueFault::OutOfMemory),
        Err(DecodeAllocError::DecodeError(_)) => Err(ValueFault::NotValue),
    }
}
