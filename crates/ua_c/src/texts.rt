//! Calls that need no handle: the dissector, and values as texts.

ghost use Rattle.std.specs.Prelude.{◌≡◌, ◌⊎◌, IfOk, IfErr, IsErrOf, MatchOption, None, Some, string_bytes};
ghost use Rattle.ua_nodes.specs.declared.fault.ValueFault.TheVariants.{NotValue};
ghost use Rattle.ua_pair.specs.Dissected.{AreLines, plain_of_side};
ghost use Rattle.ua_variant.specs.View.{variant_of};
ghost use Rattle.ua_c.specs.Status.{no_memory};
ghost use Rattle.ua_c.specs.Texts.{DecodesTo, DissectsTo, EncodesTo, HasNoValue, HasNoValueBy};
ghost use Rattle.ua_c.specs.Texts.{IsEncodingOf, IsNoEncoding, IsNoSide, IsNoString, IsNoValueEncoded};
ghost use Rattle.ua_c.specs.Texts.{IsSide, IsStringOf, IsTypeAndText, IsValueBy, IsValueOf, Puts, denoted_by};

use crate::bad_text::BadText;
use crate::status::{
    BAD_OCTETS, BAD_SIDE, BAD_TEXT, NO_MEMORY, OK, TEXT_TYPE, TEXT_VALUE, TOO_SMALL,
};
use crate::waiting::move_front;
use std::alloc::{AllocError, Global};
use std::str;
use ua_answers::parse_plain_value;
use ua_builtin::{UaString, Wire, WriteFault};
use ua_nodes::{ValueFault, parse_type, parse_value};
use ua_pair::{Side, dissect};
use ua_texts::push_variant;
use ua_variant::Variant;

/// Copies bytes to the start of a buffer where they fit, and returns how many they are.
pub(crate) fn put(octets: &[u8], buffer: &mut [u8], needed: &mut usize) -> u32
    ensures { Puts octets.now buffer.old buffer.new needed.new result }
{
    *needed = octets.len();
    if octets.len() > buffer.len() {
        return TOO_SMALL;
    }
    move_front(octets, buffer);
    OK
}

/// The String that bytes are, or a status.
pub(crate) fn string_of(alloc: Global, octets: &[u8]) -> Result<UaString, u32>
    ensures value { IfOk result (λ value. IsStringOf octets.now value) }
    ensures fault { IfErr result (λ status. IsNoString octets.now status) }
{
    let Ok(text) = str::from_utf8(octets) else {
        return Err(BAD_TEXT);
    };
    let Ok(value) = UaString::from_str(alloc, text) else {
        return Err(NO_MEMORY);
    };
    if value.is_encodable() {
        Ok(value)
    } else {
        Err(BAD_TEXT)
    }
}

/// The side of a number.
fn side_of(number: u32) -> Option<Side>
    ensures { MatchOption result (IsNoSide number) (λ side. IsSide number side) }
{
    match number {
        0 => Some(Side::Client),
        1 => Some(Side::Server),
        _ => None,
    }
}

/// The dissector's lines for the bytes that one side sent.
fn lines_of(alloc: Global, octets: &[u8], side: Side) -> Result<String, AllocError>
    ensures { IfOk result (λ text. AreLines (plain_of_side side) octets.now (string_bytes text)) }
{
    let mut text = String::new(alloc);
    dissect(alloc, octets, side, &mut text)?;
    Ok(text)
}

/// The dissector's lines for the bytes that one side of a connection sent, frame by frame and
/// message by message.
#[unsafe(no_mangle)]
pub extern "C" fn ua_dissect(
    alloc: Global,
    octets: &[u8],
    side: u32,
    buffer: &mut [u8],
    needed: &mut usize,
) -> u32
    ensures { DissectsTo octets.now side buffer.old buffer.new needed.new result }
{
    *needed = 0;
    let Some(side) = side_of(side) else {
        return BAD_SIDE;
    };
    match lines_of(alloc, octets, side) {
        Ok(text) => put(text.as_bytes(), buffer, needed),
        Err(_) => NO_MEMORY,
    }
}

/// The value that a text denotes at a type, where decimals and times are wanted in human-readable
/// form too.
fn parse_by(
    alloc: Global,
    kind: u8,
    array: bool,
    text: &str,
    plain: bool,
) -> Result<Variant, ValueFault>
    ensures value { IfOk result (λ v. denoted_by plain kind array text.now ≡ Some (variant_of v)) }
    ensures none { IsErrOf result NotValue → denoted_by plain kind array text.now ≡ None }
{
    if plain {
        parse_plain_value(alloc, kind, array, text)
    } else {
        parse_value(alloc, kind, array, text)
    }
}

/// The value that a type and a text denote, where decimals and times are wanted in human-readable
/// form too; or which of the two is none.
pub(crate) fn value_by(
    alloc: Global,
    kind: &[u8],
    text: &[u8],
    plain: bool,
) -> Result<Variant, BadText>
    ensures value { IfOk result (λ value. IsValueBy plain kind.now text.now value) }
    ensures fault { IfErr result (λ bad. HasNoValueBy plain kind.now text.now bad) }
{
    let Ok(kind) = str::from_utf8(kind) else {
        return Err(BadText::only(TEXT_TYPE, BAD_TEXT));
    };
    let Some((kind, array)) = parse_type(kind) else {
        return Err(BadText::only(TEXT_TYPE, BAD_TEXT));
    };
    let Ok(text) = str::from_utf8(text) else {
        return Err(BadText::only(TEXT_VALUE, BAD_TEXT));
    };
    match parse_by(alloc, kind, array, text, plain) {
        Ok(value) => Ok(value),
        Err(ValueFault::NotValue) => Err(BadText::only(TEXT_VALUE, BAD_TEXT)),
        Err(ValueFault::OutOfMemory) => Err(BadText::only(TEXT_VALUE, NO_MEMORY)),
    }
}

/// The value that a type and a text denote, or a status.
fn value_of(alloc: Global, kind: &[u8], text: &[u8]) -> Result<Variant, u32>
    ensures value { IfOk result (λ value. IsValueOf kind.now text.now value) }
    ensures fault { IfErr result (λ status. HasNoValue kind.now text.now status) }
{
    match value_by(alloc, kind, text, false) {
        Ok(value) => Ok(value),
        Err(bad) => Err(bad.status),
    }
}

/// The canonical encoding of a value, or a status.
pub(crate) fn encoding_of(alloc: Global, value: &Variant) -> Result<Vec<u8>, u32>
    ensures octets { IfOk result (λ octets. IsEncodingOf value.now octets.items) }
    ensures fault { IfErr result (λ status. IsNoEncoding value.now status) }
{
    let mut octets = Vec::new(alloc);
    match value.write(&mut octets) {
        Ok(()) => Ok(octets),
        Err(WriteFault::NotWritable) => Err(BAD_TEXT),
        Err(WriteFault::OutOfMemory) => Err(NO_MEMORY),
    }
}

/// The canonical encoding of the value that a type and a text denote.
#[unsafe(no_mangle)]
pub extern "C" fn ua_encode_value(
    alloc: Global,
    kind: &[u8],
    text: &[u8],
    buffer: &mut [u8],
    needed: &mut usize,
) -> u32
    ensures { EncodesTo kind.now text.now buffer.old buffer.new needed.new result }
{
    *needed = 0;
    let value = match value_of(alloc, kind, text) {
        Ok(value) => value,
        Err(status) => return status,
    };
    let encoding = encoding_of(alloc, &value);
    drop(value);
    match encoding {
        Ok(octets) => put(octets.as_slice(), buffer, needed),
        Err(status) => status,
    }
}

/// The type and the text of the value that bytes encode, or a status.
fn text_of(alloc: Global, octets: &[u8]) -> Result<String, u32>
    ensures text { IfOk result (λ text. IsTypeAndText octets.now (string_bytes text)) }
    ensures fault { IfErr result (λ status. (status ≡ no_memory) ⊎ IsNoValueEncoded octets.now status) }
{
    let value = match Variant::read_whole(alloc, octets) {
        Ok(Some(value)) => value,
        Ok(None) => return Err(BAD_OCTETS),
        Err(_) => return Err(NO_MEMORY),
    };
    let mut text = String::new(alloc);
    let pushed = push_variant(alloc, &mut text, &value);
    drop(value);
    match pushed {
        Ok(()) => Ok(text),
        Err(_) => Err(NO_MEMORY),
    }
}

/// The type and the text of the value that bytes encode.
#[unsafe(no_mangle)]
pub extern "C" fn ua_decode_value(
    alloc: Global,
    octets: &[u8],
    buffer: &mut [u8],
    needed: &mut usize,
) -> u32
    ensures { DecodesTo octets.now buffer.old buffer.new needed.new result }
{
    *needed = 0;
    match text_of(alloc, octets) {
        Ok(text) => put(text.as_bytes(), buffer, needed),
        Err(status) => status,
    }
}
