//! Floating-point numbers as decimals.

ghost use Rattle.std.specs.Prelude.{◌≡◌, ◌≤◌, IfSome, Some, is_some, length};
ghost use Rattle.std.specs.Float.{NotNan};
ghost use Rattle.ua_plain.specs.Decimal.{IsDoubleText, IsFloatText, IsNumberText, double_denoted};
ghost use Rattle.ua_plain.specs.Decimal.{float_denoted, has_double_text, has_float_text};
ghost use Rattle.ua_plain.specs.Word.{IsWord};

use arrayvec::ArrayString;
use ryu::{Buffer, Float};
use std::num;
use ua_builtin::{DoubleBits, FloatBits};

/// The text of a number, at most 25 bytes.
pub type DecimalText = ArrayString<25>;

/// The pattern of a Float that is no number, as the standard writes it (OPC 10000-6, 5.2.2.3).
const FLOAT_NAN: u32 = 0xffc0_0000;

/// The pattern of a Double that is no number, as the standard writes it (OPC 10000-6, 5.2.2.3).
const DOUBLE_NAN: u64 = 0xfff8_0000_0000_0000;

/// Prints a Float as a decimal, such as `21.5` and `1e-5`, as `Infinity` with its sign, or as `NaN`
/// for the NaN pattern that the standard encodes. Returns `None` for any other NaN pattern.
#[tactic(auto, using(crate::proofs::Decimals::number_back, crate::proofs::Decimals::nan_back, crate::proofs::Decimals::number_word, crate::proofs::Decimals::has_quiet, crate::proofs::Decimals::has_number, crate::proofs::Decimals::has_none))]
pub fn float_text(value: FloatBits) -> Option<DecimalText>
    ensures some { is_some result ≡ has_float_text value.bits }
    ensures form { IfSome result (λ text. IsFloatText value.bits text.bytes) }
    ensures reads { IfSome result (λ text. float_denoted text.bytes ≡ Some value) }
    ensures word { IfSome result (λ text. IsWord text.bytes) }
{
    if value.bits == FLOAT_NAN {
        return Some(text_of("NaN"));
    }
    let number = num::f32_from_bits_with_nan(value.bits);
    if number.is_nan() {
        return None;
    }
    Some(number_text(number))
}

/// Prints a Double as a decimal, such as `21.5` and `1e-5`, as `Infinity` with its sign, or as
/// `NaN` for the NaN pattern that the standard encodes. Returns `None` for any other NaN pattern.
#[tactic(auto, using(crate::proofs::Decimals::number_back, crate::proofs::Decimals::nan_back, crate::proofs::Decimals::number_word, crate::proofs::Decimals::has_quiet, crate::proofs::Decimals::has_number, crate::proofs::Decimals::has_none))]
pub fn double_text(value: DoubleBits) -> Option<DecimalText>
    ensures some { is_some result ≡ has_double_text value.bits }
    ensures form { IfSome result (λ text. IsDoubleText value.bits text.bytes) }
    ensures reads { IfSome result (λ text. double_denoted text.bytes ≡ Some value) }
    ensures word { IfSome result (λ text. IsWord text.bytes) }
{
    if value.bits == DOUBLE_NAN {
        return Some(text_of("NaN"));
    }
    let number = num::f64_from_bits_with_nan(value.bits);
    if number.is_nan() {
        return None;
    }
    Some(number_text(number))
}

/// The text of a float that is a number.
fn number_text<F: Float>(number: F) -> DecimalText
    requires { NotNan (F.value number) }
    ensures form { IsNumberText F.format F.WHOLE_DIGITS F.LEADING_ZEROS (F.value number) result.bytes }
{
    let mut buffer = Buffer::new();
    match buffer.format(number) {
        "inf" => text_of("Infinity"),
        "-inf" => text_of("-Infinity"),
        text => text_of(text),
    }
}

/// A text of at most 25 bytes.
fn text_of(text: &str) -> DecimalText
    requires { length text.now ≤ 25 }
    ensures { result.bytes ≡ text.now }
{
    let Ok(text) = DecimalText::from(text) else {
        unreachable!()
    };
    text
}

/// Parses a text as a Float: the nearest one to a decimal, ties to the even pattern; `Infinity`
/// with a sign or without; for `NaN` the pattern that the standard encodes. Returns `None` if the
/// text is none of these.
#[tactic(auto, unfolding(crate::specs::Decimal::bits_denoted))]
pub fn parse_float(text: &str) -> Option<FloatBits>
    ensures { result ≡ float_denoted text.now }
{
    if text == "NaN" {
        return Some(FloatBits { bits: FLOAT_NAN });
    }
    let number: f32 = fast_float::parse(text).ok()?;
    if number.is_nan() {
        return None;
    }
    Some(FloatBits {
        bits: num::f32_to_bits_with_nan(number),
    })
}

/// Parses a text as a Double: the nearest one to a decimal, ties to the even pattern; `Infinity`
/// with a sign or without; for `NaN` the pattern that the standard encodes. Returns `None` if the
/// text is none of these.
#[tactic(auto, unfolding(crate::specs::Decimal::bits_denoted))]
pub fn parse_double(text: &str) -> Option<DoubleBits>
    ensures { result ≡ double_denoted text.now }
{
    if text == "NaN" {
        return Some(DoubleBits { bits: DOUBLE_NAN });
    }
    let number: f64 = fast_float::parse(text).ok()?;
    if number.is_nan() {
        return None;
    }
    Some(DoubleBits {
        bits: num::f64_to_bits_with_nan(number),
    })
}
