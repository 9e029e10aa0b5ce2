//! Which values are null.

ghost use Rattle.std.specs.Prelude.{◌≡◌};
ghost use Rattle.ua_diagnostic.specs.View.{diagnostic_fields_of, diagnostic_of};
ghost use Rattle.ua_fields.specs.Leaves.{is_null_localized, is_null_name as is_no_name};
ghost use Rattle.ua_fields.specs.Leaves.{is_null_id as is_no_id, is_null_object as is_no_object};
ghost use Rattle.ua_fields.specs.Leaves.{is_empty as says_nothing, has_no_id as names_nothing};

use ua_builtin::{
    ExtensionBody, ExtensionObject, Identifier, LocalizedText, NodeId, QualifiedName,
};
use ua_variant::DiagnosticInfo;

/// Whether it has neither a namespace nor a name.
pub(crate) fn is_null_name(value: &QualifiedName) -> bool
    ensures { result ≡ is_no_name value.now }
{
    value.namespace == 0 && !value.name.is_some()
}

/// Whether it has neither a locale nor a text.
pub(crate) fn is_null_text(value: &LocalizedText) -> bool
    ensures { result ≡ is_null_localized value.now }
{
    !value.locale.is_some() && !value.text.is_some()
}

/// Whether it is the null NodeId.
fn is_null_id(id: &NodeId) -> bool
    ensures { result ≡ is_no_id id.now }
{
    id.namespace == 0 && matches!(&id.identifier, Identifier::Numeric(0))
}

/// Whether it has neither a type nor a body.
pub(crate) fn is_null_object(value: &ExtensionObject) -> bool
    ensures { result ≡ is_no_object value.now }
{
    is_null_id(&value.type_id) && matches!(&value.body, ExtensionBody::Absent)
}

/// Whether no id is present.
fn has_no_id(value: &DiagnosticInfo) -> bool
    ensures { result ≡ names_nothing (diagnostic_fields_of value.now) }
{
    value.symbolic_id.is_none()
        && value.namespace_uri.is_none()
        && value.locale.is_none()
        && value.localized_text.is_none()
}

/// Whether no field is present.
pub(crate) fn is_empty(value: &DiagnosticInfo) -> bool
    ensures { result ≡ says_nothing (diagnostic_of value.now) }
{
    has_no_id(value)
        && !value.additional_info.is_some()
        && value.inner_status_code.is_none()
        && value.inner.is_none()
}
