//! Texts, StatusCodes and bytes as the program prints them.

ghost use Rattle.std.specs.Prelude.{◌≡◌, ◌++◌, string_bytes, IsTrue, OnOk};
ghost use Rattle.std.specs.Char.{encode_utf8};
ghost use Rattle.uuid.specs.Text.{hyphenated_text, lower};
ghost use Rattle.std.specs.List.{flat_map};
ghost use Rattle.ua_texts.specs.Shown.{IsPlainOctet, escaped, escaped_char as one_escaped};
ghost use Rattle.ua_texts.specs.Shown.{escaped_octet, escaped_string};
ghost use Rattle.ua_texts.specs.Shown.{shown, shown_string, code_text, pattern_text, base64_text, written_text};

use base64::engine::general_purpose::STANDARD;
use std::alloc::{AllocError, Global};
use std::fmt::Write;
use ua_builtin::{Guid, StatusCode, UaBytes, UaString, Wire, WriteFault};
use uuid::Uuid;

/// Appends a String: bytes below 0x20 and 0x7F as `\x` and two digits, a backslash doubled, null as
/// `null`.
pub fn push_string(out: &mut String, text: &UaString) -> Result<(), AllocError>
    ensures { OnOk result (string_bytes out.new ≡ string_bytes out.old ++ shown_string text.now) }
{
    match text.as_str() {
        Some(text) => push_text(out, text),
        None => out.push_str("null"),
    }
}

fn push_text(out: &mut String, text: &str) -> Result<(), AllocError>
    ensures { OnOk result (string_bytes out.new ≡ string_bytes out.old ++ shown text.now) }
{
    for c in text.chars() {
        push_char(out, c)?;
    }
    Ok(())
}

/// Appends a character as a String has it: one below 0x20 and 0x7F as `\x` and two digits, a
/// backslash doubled, any other as it is.
pub(crate) fn push_char(out: &mut String, c: char) -> Result<(), AllocError>
    ensures { OnOk result (string_bytes out.new ≡ string_bytes out.old ++ shown (encode_utf8 c)) }
{
    if c == '\\' {
        out.push_str("\\\\")
    } else if c.is_ascii_control() {
        write!(out, "\\x{:02x}", c as u32)
    } else {
        out.push(c)
    }
}

/// Whether an ASCII character is shown as it is.
fn is_plain_octet(octet: u8) -> bool
    ensures { IsTrue result → IsPlainOctet octet }
{
    octet >= 0x20 && octet < 0x7F && octet != b'\\'
}

/// Whether a text is ASCII without control characters and backslashes.
// All bytes are looked at, so that many can be compared at once.
fn is_plain(text: &str) -> bool
    ensures { IsTrue result → escaped text.now ≡ text.now }
{
    let mut plain = true;
    for octet in text.as_bytes() {
        plain &= is_plain_octet(*octet);
    }
    plain
}

/// Appends a text with each control character, U+0080 to U+009F among them, escaped by its UTF-8
/// bytes, each as `\x` and two digits, and a backslash doubled: what is appended has no control
/// character.
pub fn push_escaped(out: &mut String, text: &str) -> Result<(), AllocError>
    ensures { OnOk result (string_bytes out.new ≡ string_bytes out.old ++ escaped text.now) }
{
    if is_plain(text) {
        return out.push_str(text);
    }
    for c in text.chars() {
        push_escaped_char(out, c)?;
    }
    Ok(())
}

/// Appends a character as an escaped text has it: a control character by its UTF-8 bytes, each as
/// `\x` and two digits, a backslash doubled, any other as it is.
pub(crate) fn push_escaped_char(out: &mut String, c: char) -> Result<(), AllocError>
    ensures { OnOk result (string_bytes out.new ≡ string_bytes out.old ++ one_escaped c) }
{
    if c == '\\' {
        out.push_str("\\\\")
    } else if c.is_control() {
        push_escaped_octets(out, c.encode_utf8(&mut [0; 4]).as_bytes())
    } else {
        out.push(c)
    }
}

fn push_escaped_octets(out: &mut String, octets: &[u8]) -> Result<(), AllocError>
    ensures { OnOk result (string_bytes out.new ≡ string_bytes out.old ++ flat_map escaped_octet octets.now) }
{
    for octet in octets {
        push_escaped_octet(out, *octet)?;
    }
    Ok(())
}

pub(crate) fn push_escaped_octet(out: &mut String, octet: u8) -> Result<(), AllocError>
    ensures { OnOk result (string_bytes out.new ≡ string_bytes out.old ++ escaped_octet octet) }
{
    write!(out, "\\x{octet:02x}")
}

/// Appends a String with its text escaped, null as `null`.
pub fn push_escaped_string(out: &mut String, text: &UaString) -> Result<(), AllocError>
    ensures { OnOk result (string_bytes out.new ≡ string_bytes out.old ++ escaped_string text.now) }
{
    match text.as_str() {
        Some(text) => push_escaped(out, text),
        None => out.push_str("null"),
    }
}

/// Appends a StatusCode as eight upper case hexadecimal digits.
pub fn push_code(out: &mut String, status: StatusCode) -> Result<(), AllocError>
    ensures { OnOk result (string_bytes out.new ≡ string_bytes out.old ++ code_text status.code) }
{
    write!(out, "{:08X}", status.code)
}

/// Appends a pattern of 32 bits: `0x` and eight hexadecimal digits.
pub fn push_pattern(out: &mut String, bits: u32) -> Result<(), AllocError>
    ensures { OnOk result (string_bytes out.new ≡ string_bytes out.old ++ pattern_text 8 bits) }
{
    write!(out, "0x{bits:08x}")
}

/// Appends a 64-bit pattern: `0x` and sixteen hexadecimal digits.
pub fn push_wide_pattern(out: &mut String, bits: u64) -> Result<(), AllocError>
    ensures { OnOk result (string_bytes out.new ≡ string_bytes out.old ++ pattern_text 16 bits) }
{
    write!(out, "0x{bits:016x}")
}

/// Appends a Guid with its hyphens, in lower case.
pub fn push_guid(out: &mut String, guid: &Guid) -> Result<(), AllocError>
    ensures { OnOk result (string_bytes out.new ≡ string_bytes out.old ++ hyphenated_text lower guid.now.uuid) }
{
    let mut buffer = Uuid::encode_buffer();
    out.push_str(guid.uuid.hyphenated().encode_lower(&mut buffer))
}

/// Appends a ByteString in base64, null as `null`.
pub fn push_base64(out: &mut String, octets: &UaBytes) -> Result<(), AllocError>
    ensures { OnOk result (string_bytes out.new ≡ string_bytes out.old ++ base64_text octets.now) }
{
    match octets.as_octets() {
        Some(octets) => STANDARD.encode_string(octets, out),
        None => out.push_str("null"),
    }
}

/// Appends the bytes of a value's canonical encoding, as `0x` and two hexadecimal digits for each,
/// or `unwritable` if it has none.
pub fn push_encoded<T: Wire>(alloc: Global, out: &mut String, value: &T) -> Result<(), AllocError>
    ensures { OnOk result (string_bytes out.new ≡ string_bytes out.old ++ written_text (T.format.encodable value.now)
        (T.format.canonical value.now)) }
{
    let mut octets = Vec::new(alloc);
    match value.write(&mut octets) {
        Ok(()) => {
            let digits = hex::encode(alloc, octets.as_slice())?;
            out.push_str("0x")?;
            out.push_str(&digits)
        }
        Err(WriteFault::NotWritable) => out.push_str("unwritable"),
        Err(WriteFault::OutOfMemory) => Err(AllocError),
    }
}
