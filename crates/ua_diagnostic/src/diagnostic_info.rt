//! DiagnosticInfo as a value: its fields, its nesting depth, and copies of it.

ghost use Rattle.std.specs.Prelude.{◌≡◌, ◌≤◌, ◌↔◌, None, min, option_map, IfOk, IsTrue};
ghost use Rattle.ua_diagnostic.specs.Diagnostic.{innermost, no_fields, diagnostic_depth, diagnostic_count};
ghost use Rattle.ua_diagnostic.specs.Diagnostic.{diagnostic_fields_count, diagnostic_encodable};
ghost use Rattle.ua_diagnostic.specs.Diagnostic.{diagnostic_fits, diagnostic_fields_encodable};
ghost use Rattle.ua_diagnostic.specs.View.{diagnostic_of, diagnostic_fields_of, no_diagnostics, or_innermost};

use crate::field::{count_of, count_of_text, field_fits};
use std::alloc::{AllocError, Global};
use std::marker::Model;
use ua_builtin::flags::is_flagged_encodable;
use ua_builtin::{StatusCode, UaString, Wire};
use ua_wire::MOST_LEVELS;

/// A DiagnosticInfo: vendor-specific details of a StatusCode (OPC 10000-6, 5.2.2.12). The ids are
/// indexes into the StringTable of the response header.
#[cycle(diagnostics)]
#[derive(Debug, Drop)]
pub struct DiagnosticInfo {
    pub symbolic_id: Option<i32>,
    pub namespace_uri: Option<i32>,
    pub locale: Option<i32>,
    pub localized_text: Option<i32>,
    /// Null if it is absent.
    pub additional_info: UaString,
    pub inner_status_code: Option<StatusCode>,
    pub inner: Option<BoxedDiagnostic>,
}

/// A DiagnosticInfo inside another value, on the heap; one without any field is not allocated.
#[cycle(diagnostics)]
#[derive(Debug)]
pub struct BoxedDiagnostic {
    inner: Option<Box<DiagnosticInfo>>,
}

// By hand, so that a crate that lets a DiagnosticInfo go calls this, and proves nothing of what
// lies deeper.
impl Drop for BoxedDiagnostic {
    #[cycle(letting_go)]
    fn drop(self) {
        let BoxedDiagnostic { inner } = self;
        drop(inner);
    }
}

impl Model for BoxedDiagnostic {
    ghost use Rattle.std.specs.Coded.{codes};
    ghost use Rattle.ua_diagnostic.specs.Diagnostic.{DiagnosticData, diagnostic_depth};
    ghost use Rattle.ua_diagnostic.specs.Codes.{coded_diagnostic};

    ghost Value = { DiagnosticData };

    ghost coded = { coded_diagnostic (Prim.hlevel codes) };

    ghost use Rattle.std.specs.Prelude.{option_map};
    ghost use Rattle.ua_diagnostic.specs.View.{diagnostic_of, or_innermost, KeepsDiagnosticFields};

    ghost view = { λ a. or_innermost (option_map (λ b. diagnostic_of b.value) a.inner) };

    ghost invariant = { λ a. KeepsDiagnosticFields (option_map (λ b. diagnostic_of b.value) a.inner) };

    ghost size = { diagnostic_depth };

    ghost use Rattle.ua_diagnostic.specs.Sizes.{boxed_diagnostic_falls};

    ghost size_decreases = { λ a h. boxed_diagnostic_falls a.inner };
}

impl BoxedDiagnostic {
    /// Moves this value to the heap, unless it has no field.
    #[inline]
    pub fn new(alloc: Global, value: DiagnosticInfo) -> Result<BoxedDiagnostic, AllocError>
        ensures { IfOk result (λ b. b ≡ diagnostic_of value) }
    {
        if value.is_empty() {
            return Ok(BoxedDiagnostic { inner: None });
        }
        Ok(BoxedDiagnostic {
            inner: Some(Box::new(alloc, value)?),
        })
    }

    /// The value, or `None` for one without any field.
    #[inline]
    pub fn get(&self) -> Option<&DiagnosticInfo>
        ensures value { or_innermost (option_map (λ d. diagnostic_of d.now) result) ≡ self.now }
        ensures none { result ≡ None ↔ (self.now ≡ innermost no_fields) }
    {
        match &self.inner {
            Some(value) => Some(value.as_ref()),
            None => None,
        }
    }

    /// The nesting depth of the value, saturated at `u32::MAX`.
    pub fn depth(&self) -> u32
        ensures { result ≡ min (diagnostic_depth self.now) u32.MAX }
    {
        match self.get() {
            Some(value) => levels(value),
            None => 1,
        }
    }

    /// The number of values in it, saturated at `u64::MAX`.
    pub fn count(&self) -> u64
        ensures { result ≡ min (diagnostic_count self.now) u64.MAX }
    {
        match self.get() {
            Some(value) => count(value),
            None => 1,
        }
    }

    /// Whether each field can be encoded, whatever the nesting depth.
    #[tactic(auto, using(crate::proofs::Empty::empty_fits))]
    pub fn fits(&self) -> bool
        ensures { result ≡ diagnostic_fits self.now }
    {
        match self.get() {
            Some(value) => diagnostic_fits_in(value),
            None => true,
        }
    }

    /// Returns an owned copy, equal to this value.
    pub fn try_clone(&self, alloc: Global) -> Result<BoxedDiagnostic, AllocError>
        ensures { IfOk result (λ b. b ≡ self.now) }
    {
        let copied = match self.get() {
            Some(value) => copy(alloc, value)?,
            None => DiagnosticInfo::empty(),
        };
        BoxedDiagnostic::new(alloc, copied)
    }

    /// Returns the value, consuming its holder.
    #[inline]
    pub fn into_inner(self) -> DiagnosticInfo
        ensures { diagnostic_of result ≡ self }
    {
        let BoxedDiagnostic { inner } = self;
        match inner {
            Some(value) => Box::into_inner(value),
            None => DiagnosticInfo::empty(),
        }
    }
}

impl DiagnosticInfo {
    /// A DiagnosticInfo without any field. Allocates nothing.
    #[inline]
    pub fn empty() -> DiagnosticInfo
        ensures { result ≡ no_diagnostics }
    {
        DiagnosticInfo {
            symbolic_id: None,
            namespace_uri: None,
            locale: None,
            localized_text: None,
            additional_info: UaString::null(),
            inner_status_code: None,
            inner: None,
        }
    }

    /// Whether no field is present.
    #[inline]
    pub fn is_empty(&self) -> bool
        ensures { IsTrue result ↔ (self.now ≡ no_diagnostics) }
    {
        self.symbolic_id.is_none()
            && self.namespace_uri.is_none()
            && self.locale.is_none()
            && self.localized_text.is_none()
            && !self.additional_info.is_some()
            && self.inner_status_code.is_none()
            && self.inner.is_none()
    }

    /// The nesting depth of the value, saturated at `u32::MAX`.
    pub fn depth(&self) -> u32
        ensures { result ≡ min (diagnostic_depth (diagnostic_of self.now)) u32.MAX }
    {
        levels(self)
    }

    /// The number of values in it, saturated at `u64::MAX`.
    pub fn count(&self) -> u64
        ensures { result ≡ min (diagnostic_count (diagnostic_of self.now)) u64.MAX }
    {
        count(self)
    }

    /// Whether the value can be encoded: its nesting depth is at most 100, and each field can be
    /// encoded.
    pub fn writable(&self) -> bool
        ensures { result ≡ diagnostic_encodable (diagnostic_of self.now) }
    {
        self.depth() <= MOST_LEVELS && diagnostic_fits_in(self)
    }

    /// Whether each field can be encoded, whatever the nesting depth.
    pub fn fits(&self) -> bool
        ensures { result ≡ diagnostic_fits (diagnostic_of self.now) }
    {
        diagnostic_fits_in(self)
    }

    /// Returns an owned copy, equal to this value.
    pub fn try_clone(&self, alloc: Global) -> Result<DiagnosticInfo, AllocError>
        ensures { IfOk result (λ d. d ≡ self.now) }
    {
        copy(alloc, self)
    }
}

/// How many levels there are.
fn levels(value: &DiagnosticInfo) -> u32
    ensures { result ≡ min (diagnostic_depth (diagnostic_of value.now)) u32.MAX }
{
    match &value.inner {
        None => 1,
        Some(d) => match d.get() {
            None => 2,
            Some(d) => levels(d).saturating_add(1),
        },
    }
}

/// How many values there are.
fn count(value: &DiagnosticInfo) -> u64
    ensures { result ≡ min (diagnostic_count (diagnostic_of value.now)) u64.MAX }
{
    let fields = count_fields(value);
    match &value.inner {
        None => fields.saturating_add(1),
        Some(d) => match d.get() {
            None => fields.saturating_add(2),
            Some(d) => count(d).saturating_add(fields).saturating_add(1),
        },
    }
}

/// How many fields are there, but the inner info.
fn count_fields(value: &DiagnosticInfo) -> u64
    ensures value { result ≡ diagnostic_fields_count (diagnostic_fields_of value.now) }
    ensures within { result ≤ 6 }
{
    count_of(&value.symbolic_id)
        + count_of(&value.namespace_uri)
        + count_of(&value.locale)
        + count_of(&value.localized_text)
        + count_of_text(&value.additional_info)
        + count_of(&value.inner_status_code)
}

/// Whether the fields can be written, at every level.
#[tactic(auto, using(crate::proofs::Empty::empty_fits))]
fn diagnostic_fits_in(value: &DiagnosticInfo) -> bool
    ensures { result ≡ diagnostic_fits (diagnostic_of value.now) }
{
    fields_fit(value)
        && match &value.inner {
            None => true,
            Some(d) => match d.get() {
                None => true,
                Some(d) => diagnostic_fits_in(d),
            },
        }
}

/// Whether the fields can be written, but the inner info.
#[tactic(auto, unfolding(crate::specs::Diagnostic::diagnostic_fields_encodable))]
fn fields_fit(value: &DiagnosticInfo) -> bool
    ensures { result ≡ diagnostic_fields_encodable (diagnostic_fields_of value.now) }
{
    field_fits(&value.symbolic_id)
        && field_fits(&value.namespace_uri)
        && field_fits(&value.locale)
        && field_fits(&value.localized_text)
        && is_flagged_encodable(&value.additional_info)
        && field_fits(&value.inner_status_code)
}

/// A copy, at every level.
fn copy(alloc: Global, value: &DiagnosticInfo) -> Result<DiagnosticInfo, AllocError>
    ensures { IfOk result (λ d. d ≡ value.now) }
{
    let additional_info = value.additional_info.try_clone()?;
    let inner = match &value.inner {
        None => None,
        Some(inner) => {
            let copied = match inner.get() {
                None => DiagnosticInfo::empty(),
                Some(inner) => copy(alloc, inner)?,
            };
            Some(BoxedDiagnostic::new(alloc, copied)?)
        }
    };
    Ok(DiagnosticInfo {
        symbolic_id: value.symbolic_id,
        namespace_uri: value.namespace_uri,
        locale: value.locale,
        localized_text: value.localized_text,
        additional_info,
        inner_status_code: value.inner_status_code,
        inner,
    })
}
