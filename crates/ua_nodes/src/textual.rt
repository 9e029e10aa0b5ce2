//! Values of types whose arrays are packed, as texts denote them.

ghost use Rattle.std.specs.Prelude.{◌≡◌, ◌≤◌, ◌<◌, ◌^◌, IfSome};
ghost use Rattle.std.specs.Option.{option_map};
ghost use Rattle.ua_nodes.specs.ValueText.{pattern_denoted, boolean_denoted, guid_denoted, leaf_denoted};

use crate::number::WholeNumber;
use std::str::FromStr;
use ua_builtin::{DateTime, DoubleBits, FloatBits, Guid, StatusCode};
use ua_variant::Pack;
use uuid::Uuid;

/// A type whose arrays are packed, and whose values have a text form.
pub trait Textual: Pack {
    /// The value that the text denotes; `None` where it denotes none.
    fn parse(text: &str) -> Option<Self>
        ensures { option_map Self.as_leaf result ≡ leaf_denoted Self.kind text.now };
}

impl Textual for bool {
    fn parse(text: &str) -> Option<bool> {
        boolean(text)
    }
}

impl Textual for i8 {
    fn parse(text: &str) -> Option<i8> {
        i8::from_text(text)
    }
}

impl Textual for u8 {
    fn parse(text: &str) -> Option<u8> {
        u8::from_text(text)
    }
}

impl Textual for i16 {
    fn parse(text: &str) -> Option<i16> {
        i16::from_text(text)
    }
}

impl Textual for u16 {
    fn parse(text: &str) -> Option<u16> {
        u16::from_text(text)
    }
}

impl Textual for i32 {
    fn parse(text: &str) -> Option<i32> {
        i32::from_text(text)
    }
}

impl Textual for u32 {
    fn parse(text: &str) -> Option<u32> {
        u32::from_text(text)
    }
}

impl Textual for i64 {
    fn parse(text: &str) -> Option<i64> {
        i64::from_text(text)
    }
}

impl Textual for u64 {
    fn parse(text: &str) -> Option<u64> {
        u64::from_text(text)
    }
}

impl Textual for FloatBits {
    fn parse(text: &str) -> Option<FloatBits> {
        Some(FloatBits {
            bits: pattern(text, 8)? as u32,
        })
    }
}

impl Textual for DoubleBits {
    fn parse(text: &str) -> Option<DoubleBits> {
        Some(DoubleBits {
            bits: pattern(text, 16)?,
        })
    }
}

impl Textual for DateTime {
    fn parse(text: &str) -> Option<DateTime> {
        Some(DateTime {
            ticks: i64::from_text(text)?,
        })
    }
}

impl Textual for Guid {
    fn parse(text: &str) -> Option<Guid> {
        Some(Guid { uuid: guid(text)? })
    }
}

impl Textual for StatusCode {
    fn parse(text: &str) -> Option<StatusCode> {
        Some(StatusCode {
            code: pattern(text, 8)? as u32,
        })
    }
}

/// The Boolean that a text denotes: `true` or `false`.
fn boolean(text: &str) -> Option<bool>
    ensures { result ≡ boolean_denoted text.now }
{
    bool::from_str(text).ok()
}

/// The pattern of bits that `0x` and so many hexadecimal digits denote.
fn pattern(text: &str, digits: usize) -> Option<u64>
    requires { digits ≤ 16 }
    ensures value { result ≡ pattern_denoted digits text.now }
    ensures small { IfSome result (λ n. n < 16 ^ digits) }
{
    let hex = text.strip_prefix("0x")?;
    if hex.len() != digits {
        return None;
    }
    if hex.starts_with('+') {
        return None;
    }
    u64::from_str_radix(hex, 16).ok()
}

/// The Guid that a text with its hyphens denotes.
#[tactic(auto, unfolding(crate::specs::ValueText::guid_denoted))]
fn guid(text: &str) -> Option<Uuid>
    ensures { result ≡ guid_denoted text.now }
{
    if text.len() != 36 {
        return None;
    }
    Uuid::parse_str(text).ok()
}
