//! DiagnosticInfos in the human-readable form.

ghost use Rattle.std.specs.Prelude.{◌≡◌, ◌++◌, OnOk, string_bytes};
ghost use Rattle.ua_diagnostic.specs.Diagnostic.{innermost, no_fields};
ghost use Rattle.ua_diagnostic.specs.View.{diagnostic_fields_of, diagnostic_of};
ghost use Rattle.ua_texts.specs.PlainDiagnostic.{diagnostic_parts, plain_diagnostic};

use crate::plain_parts::{push_number_part, push_status_part, push_text_part};
use std::alloc::AllocError;
use ua_diagnostic::{BoxedDiagnostic, DiagnosticInfo};

/// Appends a DiagnosticInfo: the fields that are present, each by its name, within curly brackets.
#[cycle(plain_diagnostics)]
pub(crate) fn push_plain_diagnostic(
    out: &mut String,
    value: &BoxedDiagnostic,
    names: bool,
) -> Result<(), AllocError>
    ensures { OnOk result (string_bytes out.new ≡ string_bytes out.old ++ plain_diagnostic names value.now) }
{
    match value.get() {
        Some(value) => push_diagnostic(out, value, names),
        None => push_empty_diagnostic(out, names),
    }
}

/// Appends a DiagnosticInfo: the fields that are there, each by its name, within curly brackets.
#[cycle(plain_diagnostics)]
pub fn push_diagnostic(
    out: &mut String,
    value: &DiagnosticInfo,
    names: bool,
) -> Result<(), AllocError>
    ensures { OnOk result (string_bytes out.new ≡ string_bytes out.old ++ plain_diagnostic names
        (diagnostic_of value.now)) }
{
    out.push_str("{")?;
    push_diagnostic_parts(out, value, names)?;
    match &value.inner {
        Some(inner) => {
            out.push_str(" inner ")?;
            push_plain_diagnostic(out, inner, names)?;
            out.push_str(" }")
        }
        None => out.push_str(" }"),
    }
}

/// Appends a DiagnosticInfo without any field.
#[tactic(auto, using(crate::proofs::PlainDiagnostics::no_parts))]
fn push_empty_diagnostic(out: &mut String, names: bool) -> Result<(), AllocError>
    ensures { OnOk result (string_bytes out.new ≡ string_bytes out.old ++ plain_diagnostic names
        (innermost no_fields)) }
{
    let _names = names;
    out.push_str("{ }")
}

/// Appends the fields that are present, except the inner DiagnosticInfo.
#[tactic(auto, unfolding(crate::specs::PlainDiagnostic::diagnostic_parts))]
fn push_diagnostic_parts(
    out: &mut String,
    value: &DiagnosticInfo,
    names: bool,
) -> Result<(), AllocError>
    ensures { OnOk result (string_bytes out.new ≡ string_bytes out.old ++ diagnostic_parts names
        (diagnostic_fields_of value.now)) }
{
    push_number_part(out, "symbolic_id", value.symbolic_id)?;
    push_number_part(out, "namespace_uri", value.namespace_uri)?;
    push_number_part(out, "locale", value.locale)?;
    push_number_part(out, "localized_text", value.localized_text)?;
    push_text_part(out, "additional_info", &value.additional_info)?;
    push_status_part(out, "inner_status_code", value.inner_status_code, names)
}
