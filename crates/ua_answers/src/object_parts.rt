//! Parts of values as JSON objects.

ghost use Rattle.std.specs.Prelude.{◌≡◌, ◌++◌, ◌∷◌, [], codes, string_bytes};
ghost use Rattle.json.specs.Token.{key, string};
ghost use Rattle.json.specs.Tree.{json_tokens};
ghost use Rattle.uuid.specs.Text.{hyphenated_text, lower};
ghost use Rattle.ua_diagnostic.specs.Diagnostic.{innermost, no_fields};
ghost use Rattle.ua_diagnostic.specs.View.{diagnostic_fields_of, diagnostic_of};
ghost use Rattle.ua_answers.specs.Json.{object};
ghost use Rattle.ua_texts.specs.Shown.{code_text};
ghost use Rattle.ua_answers.specs.ObjectParts.{code_member, code_object, count_json, count_member, detail_members};
ghost use Rattle.ua_answers.specs.ObjectParts.{diagnostic_members, diagnostic_object, expanded_object, id_members};
ghost use Rattle.ua_answers.specs.ObjectParts.{identifier_json, identifier_letter as letter_of, localized_object};
ghost use Rattle.ua_answers.specs.ObjectParts.{name_object, node_members, node_object, number_member, text_member};
ghost use Rattle.ua_answers.specs.Tokens.{PutsTokens, fields_tokens};

use crate::object::{put_base64, put_name, put_signed_as, put_string, put_string_as, put_text};
use json::Writer;
use std::alloc::{AllocError, Global};
use ua_builtin::{
    ExpandedNodeId, Guid, Identifier, LocalizedText, NodeId, QualifiedName, StatusCode, UaString,
};
use ua_diagnostic::{BoxedDiagnostic, DiagnosticInfo};
use ua_texts::{push_code, push_guid};

/// Puts a member that is an unsigned number.
fn put_count_as(line: &mut Writer, name: &str, number: u32) -> Result<(), AllocError>
    ensures { PutsTokens result line.old line.new (key name.now ∷ json_tokens (count_json number)) }
{
    line.key(name)?;
    line.u64(u64::from(number))
}

/// The letter that texts of NodeIds have for the type of an identifier.
fn identifier_letter(identifier: &Identifier) -> &'static str
    ensures { result.now ≡ letter_of identifier.now }
{
    match identifier {
        Identifier::Numeric(_) => "i",
        Identifier::Text(_) => "s",
        Identifier::Guid(_) => "g",
        Identifier::Opaque(_) => "b",
    }
}

/// Puts a Guid with its hyphens, in lower case.
fn put_guid(alloc: Global, line: &mut Writer, guid: &Guid) -> Result<(), AllocError>
    ensures { PutsTokens result line.old line.new (string (hyphenated_text lower guid.now.uuid) ∷ []) }
{
    let mut text = String::new(alloc);
    push_guid(&mut text, guid)?;
    line.string(&text)
}

/// Puts an identifier: a number, a text, or null.
fn put_identifier(
    alloc: Global,
    line: &mut Writer,
    identifier: &Identifier,
) -> Result<(), AllocError>
    ensures { PutsTokens result line.old line.new (json_tokens (identifier_json identifier.now)) }
{
    match identifier {
        Identifier::Numeric(number) => line.u64(u64::from(*number)),
        Identifier::Text(text) => put_string(line, text),
        Identifier::Guid(guid) => put_guid(alloc, line, guid),
        Identifier::Opaque(octets) => put_base64(alloc, line, octets),
    }
}

/// Puts a member that is an identifier.
fn put_id(alloc: Global, line: &mut Writer, identifier: &Identifier) -> Result<(), AllocError>
    ensures { PutsTokens result line.old line.new (key (codes "id") ∷ json_tokens (identifier_json identifier.now)) }
{
    line.key("id")?;
    put_identifier(alloc, line, identifier)
}

/// Puts the members of a NodeId.
fn put_node_members(alloc: Global, line: &mut Writer, node: &NodeId) -> Result<(), AllocError>
    ensures { PutsTokens result line.old line.new (fields_tokens (node_members node.now)) }
{
    put_count_as(line, "ns", u32::from(node.namespace))?;
    put_text(line, "id_type", identifier_letter(&node.identifier))?;
    put_id(alloc, line, &node.identifier)
}

/// Puts a NodeId as an object.
#[tactic(auto, using(crate::proofs::Tokens::object_is))]
pub(crate) fn put_node(alloc: Global, line: &mut Writer, node: &NodeId) -> Result<(), AllocError>
    ensures { PutsTokens result line.old line.new (json_tokens (node_object node.now)) }
{
    line.begin_object()?;
    put_node_members(alloc, line, node)?;
    line.end_object()
}

/// Puts an ExpandedNodeId as an object.
#[tactic(auto, using(crate::proofs::Tokens::object_is))]
pub(crate) fn put_expanded(
    alloc: Global,
    line: &mut Writer,
    id: &ExpandedNodeId,
) -> Result<(), AllocError>
    ensures { PutsTokens result line.old line.new (json_tokens (expanded_object id.now)) }
{
    line.begin_object()?;
    put_count_as(line, "server", id.server_index)?;
    put_string_as(line, "uri", &id.namespace_uri)?;
    put_node_members(alloc, line, &id.node_id)?;
    line.end_object()
}

/// Puts a QualifiedName as an object.
pub(crate) fn put_qualified(line: &mut Writer, name: &QualifiedName) -> Result<(), AllocError>
    ensures { PutsTokens result line.old line.new (json_tokens (name_object name.now)) }
{
    line.begin_object()?;
    put_count_as(line, "ns", u32::from(name.namespace))?;
    put_string_as(line, "name", &name.name)?;
    line.end_object()
}

/// Puts a LocalizedText as an object.
pub(crate) fn put_localized(line: &mut Writer, value: &LocalizedText) -> Result<(), AllocError>
    ensures { PutsTokens result line.old line.new (json_tokens (localized_object value.now)) }
{
    line.begin_object()?;
    put_string_as(line, "locale", &value.locale)?;
    put_string_as(line, "text", &value.text)?;
    line.end_object()
}

/// Puts the digits of a StatusCode as a member.
fn put_digits(alloc: Global, line: &mut Writer, status: StatusCode) -> Result<(), AllocError>
    ensures { PutsTokens result line.old line.new (key (codes "code") ∷ string (code_text status.code) ∷ []) }
{
    let mut code = String::new(alloc);
    push_code(&mut code, status)?;
    put_text(line, "code", &code)
}

/// Puts a StatusCode as an object, with its name if names are wanted.
#[tactic(auto, using(crate::proofs::Tokens::object_is))]
pub(crate) fn put_code(
    alloc: Global,
    line: &mut Writer,
    status: StatusCode,
    names: bool,
) -> Result<(), AllocError>
    ensures { PutsTokens result line.old line.new (json_tokens (code_object names status.code)) }
{
    line.begin_object()?;
    put_digits(alloc, line, status)?;
    put_name(line, status, names)?;
    line.end_object()
}

/// Puts a member that is a signed number, if there is one.
fn put_number_member(line: &mut Writer, name: &str, number: Option<i32>) -> Result<(), AllocError>
    ensures { PutsTokens result line.old line.new (fields_tokens (number_member name.now number)) }
{
    match number {
        Some(number) => put_signed_as(line, name, number),
        None => Ok(()),
    }
}

/// Puts a member that is an unsigned number, if there is one.
pub(crate) fn put_count_member(
    line: &mut Writer,
    name: &str,
    number: Option<u16>,
) -> Result<(), AllocError>
    ensures { PutsTokens result line.old line.new (fields_tokens (count_member name.now number)) }
{
    match number {
        Some(number) => put_count_as(line, name, u32::from(number)),
        None => Ok(()),
    }
}

/// Puts a member that is a text, if there is one.
fn put_text_member(line: &mut Writer, name: &str, text: &UaString) -> Result<(), AllocError>
    ensures { PutsTokens result line.old line.new (fields_tokens (text_member name.now text.now)) }
{
    match text.as_str() {
        Some(text) => put_text(line, name, text),
        None => Ok(()),
    }
}

/// Puts a member that is a StatusCode, if there is one.
pub(crate) fn put_code_member(
    alloc: Global,
    line: &mut Writer,
    name: &str,
    status: Option<StatusCode>,
    names: bool,
) -> Result<(), AllocError>
    ensures { PutsTokens result line.old line.new (fields_tokens (code_member names name.now status)) }
{
    match status {
        Some(status) => {
            line.key(name)?;
            put_code(alloc, line, status, names)
        }
        None => Ok(()),
    }
}

/// Puts the ids of a DiagnosticInfo that are present.
fn put_ids(line: &mut Writer, value: &DiagnosticInfo) -> Result<(), AllocError>
    ensures { PutsTokens result line.old line.new (fields_tokens (id_members (diagnostic_fields_of value.now))) }
{
    put_number_member(line, "symbolic_id", value.symbolic_id)?;
    put_number_member(line, "namespace_uri", value.namespace_uri)?;
    put_number_member(line, "locale", value.locale)?;
    put_number_member(line, "localized_text", value.localized_text)
}

/// Puts the further fields of a DiagnosticInfo that are present, except the inner one.
fn put_details(
    alloc: Global,
    line: &mut Writer,
    value: &DiagnosticInfo,
    names: bool,
) -> Result<(), AllocError>
    ensures { PutsTokens result line.old line.new
        (fields_tokens (detail_members names (diagnostic_fields_of value.now))) }
{
    put_text_member(line, "additional_info", &value.additional_info)?;
    put_code_member(
        alloc,
        line,
        "inner_status_code",
        value.inner_status_code,
        names,
    )
}

/// Puts the fields of a DiagnosticInfo that are present, except the inner one.
fn put_diagnostic_members(
    alloc: Global,
    line: &mut Writer,
    value: &DiagnosticInfo,
    names: bool,
) -> Result<(), AllocError>
    ensures { PutsTokens result line.old line.new
        (fields_tokens (diagnostic_members names (diagnostic_fields_of value.now))) }
{
    put_ids(line, value)?;
    put_details(alloc, line, value, names)
}

/// Puts an object without a member.
pub(crate) fn put_empty(line: &mut Writer) -> Result<(), AllocError>
    ensures { PutsTokens result line.old line.new (json_tokens (object [])) }
{
    line.begin_object()?;
    line.end_object()
}

/// Puts a DiagnosticInfo as an object.
#[cycle(diagnostic_objects)]
pub(crate) fn put_diagnostic(
    alloc: Global,
    line: &mut Writer,
    value: &BoxedDiagnostic,
    names: bool,
) -> Result<(), AllocError>
    ensures { PutsTokens result line.old line.new (json_tokens (diagnostic_object names value.now)) }
{
    match value.get() {
        Some(value) => put_fields(alloc, line, value, names),
        None => put_no_fields(line, names),
    }
}

/// Puts a DiagnosticInfo without any field.
#[tactic(auto, unfolding(crate::specs::ObjectParts::diagnostic_members))]
fn put_no_fields(line: &mut Writer, names: bool) -> Result<(), AllocError>
    ensures { PutsTokens result line.old line.new (json_tokens (diagnostic_object names (innermost no_fields))) }
{
    let _names = names;
    put_empty(line)
}

/// Puts a DiagnosticInfo that has fields as an object.
#[cycle(diagnostic_objects)]
fn put_fields(
    alloc: Global,
    line: &mut Writer,
    value: &DiagnosticInfo,
    names: bool,
) -> Result<(), AllocError>
    ensures { PutsTokens result line.old line.new
        (json_tokens (diagnostic_object names (diagnostic_of value.now))) }
{
    line.begin_object()?;
    put_diagnostic_members(alloc, line, value, names)?;
    match &value.inner {
        Some(inner) => {
            line.key("inner")?;
            put_diagnostic(alloc, line, inner, names)?;
            line.end_object()
        }
        None => line.end_object(),
    }
}
