//! The binary encoding of DiagnosticInfo (OPC 10000-6, 5.2.2.12).

ghost use Rattle.std.specs.Prelude.{◌≡◌, ◌≤◌, ◌++◌, true, IsTrue, OnOk, OnErr, is_some};
ghost use Rattle.std.specs.Int.{w32};
ghost use Rattle.ua_builtin.specs.Exact.{skipped};
ghost use Rattle.ua_builtin.specs.Flags.{flagged_text};
ghost use Rattle.ua_builtin.specs.Format.{most_levels, Gives, GivesBy, StaysBehind, Extends};
ghost use Rattle.ua_builtin.specs.Signed.{signed};
ghost use Rattle.ua_builtin.specs.Status.{status_code};
ghost use Rattle.ua_diagnostic.specs.Parts.{optional_read, optional_fits, optional_canonical};
ghost use Rattle.ua_diagnostic.specs.Diagnostic.{diagnostic_at, diagnostic_step, diagnostic_fields};
ghost use Rattle.ua_diagnostic.specs.Diagnostic.{diagnostic_flags, diagnostic_fits};
ghost use Rattle.ua_diagnostic.specs.Diagnostic.{diagnostic_fields_encodable, diagnostic_fields_canonical};
ghost use Rattle.ua_diagnostic.specs.Diagnostic.{diagnostic_canonical, innermost, no_fields};
ghost use Rattle.ua_diagnostic.specs.View.{diagnostic_of, diagnostic_fields_of};

use crate::diagnostic_info::{BoxedDiagnostic, DiagnosticInfo};
use crate::field::{append_field, append_three, read_field};
use std::alloc::{AllocError, Global};
use ua_builtin::flags::{append_flagged, flag_of, read_flagged};
use ua_builtin::{ReadFault, Skip, Source, StatusCode, UaString, Wire};

const SYMBOLIC_ID: u8 = 0x01;

const NAMESPACE_URI: u8 = 0x02;

const LOCALIZED_TEXT: u8 = 0x04;

const LOCALE: u8 = 0x08;

const ADDITIONAL_INFO: u8 = 0x10;

const INNER_STATUS_CODE: u8 = 0x20;

const INNER: u8 = 0x40;

/// The flags that a mask may have.
const KNOWN_FLAGS: u8 = 0x7F;

/// DiagnosticInfo (OPC 10000-6, 5.2.2.12).
impl Wire for DiagnosticInfo {
    ghost use Rattle.ua_diagnostic.specs.Formats.{diagnostic_format};

    ghost format = { diagnostic_format };

    #[inline]
    #[tactic(auto, using(crate::proofs::DiagnosticsLawful::lawful_diagnostic))]
    fn lawful() {}

    #[tactic(auto, unfolding(crate::specs::Formats::diagnostic_format))]
    fn read_value<S: Source>(
        alloc: Global,
        src: &mut S,
        depth: u32,
    ) -> Result<DiagnosticInfo, ReadFault> {
        read_diagnostic(alloc, src, depth)
    }

    #[tactic(auto, unfolding(crate::specs::Formats::diagnostic_format))]
    fn is_encodable(&self) -> bool {
        self.writable()
    }

    #[tactic(auto, using(crate::proofs::Written::diagnostic_fits_of), unfolding(crate::specs::Formats::diagnostic_format))]
    fn append(&self, out: &mut Vec<u8>) -> Result<(), AllocError> {
        append_diagnostic(self, out)
    }
}

/// Decodes a DiagnosticInfo of at most this nesting depth.
#[cycle(diagnostics)]
pub fn read_diagnostic<S: Source>(
    alloc: Global,
    src: &mut S,
    depth: u32,
) -> Result<DiagnosticInfo, ReadFault>
    requires levels { depth ≤ most_levels }
    ensures exact { GivesBy diagnostic_of (diagnostic_at depth) (S.octets src.old) (S.octets src.new) result }
    ensures behind { StaysBehind (S.octets src.old) (S.octets src.new) }
{
    if depth == 0 {
        return Err(ReadFault::NoValue);
    }
    read_level(alloc, src, depth - 1)
}

/// Reads a DiagnosticInfo, whose inner values may have that nesting depth.
#[cycle(diagnostics)]
#[tactic(auto, unfolding(crate::specs::Diagnostic::diagnostic_step, crate::specs::Diagnostic::diagnostic_fields))]
fn read_level<S: Source>(
    alloc: Global,
    src: &mut S,
    depth: u32,
) -> Result<DiagnosticInfo, ReadFault>
    requires levels { depth ≤ most_levels }
    ensures exact { GivesBy diagnostic_of (diagnostic_step (diagnostic_at depth)) (S.octets src.old)
        (S.octets src.new) result }
    ensures behind { StaysBehind (S.octets src.old) (S.octets src.new) }
{
    let mask = u8::read_value(alloc, src, 0)?;
    if mask > KNOWN_FLAGS {
        return Err(ReadFault::NoValue);
    }
    let symbolic_id = read_field(alloc, src, 0, mask & SYMBOLIC_ID != 0)?;
    let namespace_uri = read_field(alloc, src, 0, mask & NAMESPACE_URI != 0)?;
    let locale = read_field(alloc, src, 0, mask & LOCALE != 0)?;
    let localized_text = read_field(alloc, src, 0, mask & LOCALIZED_TEXT != 0)?;
    let additional_info = read_flagged(alloc, src, 0, mask & ADDITIONAL_INFO != 0)?;
    let inner_status_code = read_field(alloc, src, 0, mask & INNER_STATUS_CODE != 0)?;
    let inner = read_inner(alloc, src, depth, mask & INNER != 0)?;
    Ok(DiagnosticInfo {
        symbolic_id,
        namespace_uri,
        locale,
        localized_text,
        additional_info,
        inner_status_code,
        inner,
    })
}

/// Reads an inner info where it is announced.
#[cycle(diagnostics)]
fn read_inner<S: Source>(
    alloc: Global,
    src: &mut S,
    depth: u32,
    set: bool,
) -> Result<Option<BoxedDiagnostic>, ReadFault>
    requires levels { depth ≤ most_levels }
    ensures exact { Gives (optional_read set (diagnostic_at depth)) (S.octets src.old) (S.octets src.new) result }
    ensures behind { StaysBehind (S.octets src.old) (S.octets src.new) }
{
    if !set {
        return Ok(None);
    }
    let inner = read_diagnostic(alloc, src, depth)?;
    Ok(Some(BoxedDiagnostic::new(alloc, inner)?))
}

impl Skip for DiagnosticInfo {
    #[tactic(auto, unfolding(crate::specs::Formats::diagnostic_format))]
    fn skip_value<S: Source>(alloc: Global, src: &mut S, depth: u32) -> Result<(), ReadFault> {
        skip_diagnostic(alloc, src, depth)
    }
}

/// Skips a DiagnosticInfo of at most this nesting depth.
#[cycle(skipped_diagnostics)]
pub fn skip_diagnostic<S: Source>(alloc: Global, src: &mut S, depth: u32) -> Result<(), ReadFault>
    requires levels { depth ≤ most_levels }
    ensures exact { Gives (skipped (diagnostic_at depth)) (S.octets src.old) (S.octets src.new) result }
    ensures behind { StaysBehind (S.octets src.old) (S.octets src.new) }
{
    if depth == 0 {
        return Err(ReadFault::NoValue);
    }
    skip_level(alloc, src, depth - 1)
}

/// Skips a DiagnosticInfo, whose inner values may have that nesting depth. Each field is let go
/// before the next one is read.
#[cycle(skipped_diagnostics)]
#[tactic(auto, unfolding(crate::specs::Diagnostic::diagnostic_step))]
fn skip_level<S: Source>(alloc: Global, src: &mut S, depth: u32) -> Result<(), ReadFault>
    requires levels { depth ≤ most_levels }
    ensures exact { Gives (skipped (diagnostic_step (diagnostic_at depth))) (S.octets src.old)
        (S.octets src.new) result }
    ensures behind { StaysBehind (S.octets src.old) (S.octets src.new) }
{
    let mask = u8::read_value(alloc, src, 0)?;
    if mask > KNOWN_FLAGS {
        return Err(ReadFault::NoValue);
    }
    skip_fields(alloc, src, mask)?;
    skip_inner(alloc, src, depth, mask & INNER != 0)
}

/// Skips the fields that the mask announces, but the inner info.
#[tactic(auto, unfolding(crate::specs::Diagnostic::diagnostic_fields))]
fn skip_fields<S: Source>(alloc: Global, src: &mut S, mask: u8) -> Result<(), ReadFault>
    ensures exact { Gives (skipped (diagnostic_fields mask).decode) (S.octets src.old) (S.octets src.new) result }
    ensures behind { StaysBehind (S.octets src.old) (S.octets src.new) }
{
    read_field::<i32, S>(alloc, src, 0, mask & SYMBOLIC_ID != 0)?;
    read_field::<i32, S>(alloc, src, 0, mask & NAMESPACE_URI != 0)?;
    read_field::<i32, S>(alloc, src, 0, mask & LOCALE != 0)?;
    read_field::<i32, S>(alloc, src, 0, mask & LOCALIZED_TEXT != 0)?;
    read_flagged(alloc, src, 0, mask & ADDITIONAL_INFO != 0)?;
    read_field::<StatusCode, S>(alloc, src, 0, mask & INNER_STATUS_CODE != 0)?;
    Ok(())
}

/// Skips an inner info where it is announced.
#[cycle(skipped_diagnostics)]
fn skip_inner<S: Source>(alloc: Global, src: &mut S, depth: u32, set: bool) -> Result<(), ReadFault>
    requires levels { depth ≤ most_levels }
    ensures exact { Gives (skipped (optional_read set (diagnostic_at depth))) (S.octets src.old)
        (S.octets src.new) result }
    ensures behind { StaysBehind (S.octets src.old) (S.octets src.new) }
{
    if !set {
        return Ok(());
    }
    skip_diagnostic(alloc, src, depth)
}

/// The flags of the fields that are there, but the inner info.
#[tactic(auto, unfolding(crate::specs::Diagnostic::diagnostic_flags))]
fn mask_of(value: &DiagnosticInfo) -> u8
    ensures value { result ≡ diagnostic_flags (diagnostic_fields_of value.now) }
    ensures within { result ≤ 63 }
{
    flag_of(SYMBOLIC_ID, value.symbolic_id.is_some())
        + flag_of(NAMESPACE_URI, value.namespace_uri.is_some())
        + flag_of(LOCALIZED_TEXT, value.localized_text.is_some())
        + flag_of(LOCALE, value.locale.is_some())
        + flag_of(ADDITIONAL_INFO, value.additional_info.is_some())
        + flag_of(INNER_STATUS_CODE, value.inner_status_code.is_some())
}

/// Appends the fields that are there, but the inner info.
#[tactic(auto, unfolding(crate::specs::Diagnostic::diagnostic_fields_canonical))]
fn append_fields(value: &DiagnosticInfo, out: &mut Vec<u8>) -> Result<(), AllocError>
    requires { diagnostic_fields_encodable (diagnostic_fields_of value.now) ≡ true }
    ensures ok { OnOk result
        (out.new.items ≡ out.old.items ++ diagnostic_fields_canonical (diagnostic_fields_of value.now)) }
    ensures err { OnErr result (Extends out.old.items out.new.items) }
{
    append_three(&value.symbolic_id, &value.namespace_uri, &value.locale, out)?;
    append_texts(
        &value.localized_text,
        &value.additional_info,
        &value.inner_status_code,
        out,
    )
}

/// Appends the last three of these fields, where they are there.
fn append_texts(
    localized_text: &Option<i32>,
    additional_info: &UaString,
    inner_status_code: &Option<StatusCode>,
    out: &mut Vec<u8>,
) -> Result<(), AllocError>
    requires localized_text { IsTrue (optional_fits (signed w32).encodable localized_text.now) }
    requires additional_info { IsTrue ((flagged_text (is_some additional_info.now)).encodable additional_info.now) }
    requires inner_status_code { IsTrue (optional_fits status_code.encodable inner_status_code.now) }
    ensures ok { OnOk result
        (out.new.items ≡ out.old.items
        ++ (optional_canonical (signed w32).canonical localized_text.now
        ++ ((flagged_text (is_some additional_info.now)).canonical additional_info.now
        ++ optional_canonical status_code.canonical inner_status_code.now))) }
    ensures err { OnErr result (Extends out.old.items out.new.items) }
{
    append_field(localized_text, out)?;
    append_flagged(additional_info, out)?;
    append_field(inner_status_code, out)
}

/// Appends the canonical encoding of a DiagnosticInfo whose fields can be encoded.
pub(crate) fn append_diagnostic(value: &DiagnosticInfo, out: &mut Vec<u8>) -> Result<(), AllocError>
    requires { diagnostic_fits (diagnostic_of value.now) ≡ true }
    ensures ok { OnOk result (out.new.items ≡ out.old.items ++ diagnostic_canonical (diagnostic_of value.now)) }
    ensures err { OnErr result (Extends out.old.items out.new.items) }
{
    out.push(mask_of(value) + flag_of(INNER, value.inner.is_some()))?;
    append_fields(value, out)?;
    match &value.inner {
        None => Ok(()),
        Some(inner) => match inner.get() {
            None => append_empty(out),
            Some(inner) => append_diagnostic(inner, out),
        },
    }
}

/// Appends the canonical encoding of a DiagnosticInfo inside another value whose fields can be
/// encoded.
pub fn append_boxed_diagnostic(value: &BoxedDiagnostic, out: &mut Vec<u8>) -> Result<(), AllocError>
    requires { diagnostic_fits value.now ≡ true }
    ensures ok { OnOk result (out.new.items ≡ out.old.items ++ diagnostic_canonical value.now) }
    ensures err { OnErr result (Extends out.old.items out.new.items) }
{
    match value.get() {
        None => append_empty(out),
        Some(value) => append_diagnostic(value, out),
    }
}

/// Appends the canonical encoding of a DiagnosticInfo without any field.
#[tactic(auto, using(crate::proofs::Empty::empty_canonical))]
fn append_empty(out: &mut Vec<u8>) -> Result<(), AllocError>
    ensures ok { OnOk result (out.new.items ≡ out.old.items ++ diagnostic_canonical (innermost no_fields)) }
    ensures err { OnErr result (Extends out.old.items out.new.items) }
{
    out.push(0)?;
    Ok(())
}
