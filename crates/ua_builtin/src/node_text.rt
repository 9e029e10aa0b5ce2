//! NodeIds in their text form.

ghost use Rattle.std.specs.Prelude.{◌≡◌, ◌^◌, ◌++◌, ℕ, List, string_bytes, Some, option_map};
ghost use Rattle.std.specs.Prelude.{IfOk, IsErrOf, IfSome, IsNone, OnOk, MatchOption};
ghost use Rattle.base64.specs.Engines.{standard};
ghost use Rattle.base64.specs.GeneralPurpose.{encode_of, IsBytes};
ghost use Rattle.ua_builtin.specs.NodeText.{node_text, namespace_text, identifier_text, IsDecimal};
ghost use Rattle.ua_builtin.specs.NodeText.{NamesIdentifier, NamesNode, with_empty_identifier, filled_identifier};
ghost use Rattle.ua_builtin.specs.NodeText.{IsBehind, IsCutAtSemicolon, IsNodeTextRest, IsGuidText, IsBase64};
ghost use Rattle.ua_builtin.specs.declared.fault.TextFault.TheVariants.{NotNodeId};
ghost use Rattle.ua_builtin.specs.declared.guid.Guid.{Guid};
ghost use Rattle.ua_builtin.specs.declared.node_id.NodeId.{NodeId};
ghost use Rattle.ua_builtin.specs.declared.node_id.Identifier.{Identifier};

use crate::fault::TextFault;
use crate::guid::Guid;
use crate::node_id::{Identifier, NodeId};
use base64::DecodeAllocError;
use base64::engine::general_purpose::STANDARD;
use std::alloc::{AllocError, Global};
use ua_wire::{UaBytes, UaString};
use uuid::Uuid;

impl NodeId {
    /// The text form of this NodeId: `ns=` and its namespace index unless that is 0, and its
    /// identifier, where a null one is printed as an empty one (OPC 10000-6, 5.3.1.10).
    pub fn to_text(&self, alloc: Global) -> Result<String, AllocError>
        ensures text { IfOk result (λ t. string_bytes t ≡ node_text self.now) }
        ensures names { IfOk result (λ t. NamesNode (with_empty_identifier self.now) (string_bytes t)) }
    {
        let mut text = namespace_prefix(alloc, self.namespace)?;
        self.identifier.append_text(alloc, &mut text)?;
        Ok(text)
    }

    /// Parses a NodeId from its text form. The namespace may be left out or 0, a number may begin
    /// with zeros, and the digits of a Guid may be of either case.
    pub fn parse_text(alloc: Global, text: &str) -> Result<NodeId, TextFault>
        ensures found { IfOk result (λ v. NamesNode v text.now) }
        ensures none { IsErrOf result NotNodeId → (v : NodeId) → ¬ (NamesNode v text.now) }
    {
        let Some((namespace, rest)) = split_namespace(text) else {
            return Err(TextFault::NotNodeId);
        };
        let identifier = parse_identifier(alloc, rest)?;
        Ok(NodeId::new(namespace, identifier))
    }
}

impl Identifier {
    // Appends the text of the identifier.
    fn append_text(&self, alloc: Global, out: &mut String) -> Result<(), AllocError>
        ensures text { OnOk result (string_bytes out.new ≡ string_bytes out.old ++ identifier_text self.now) }
        ensures names { OnOk result (NamesIdentifier (filled_identifier self.now) (identifier_text self.now)) }
    {
        match self {
            Identifier::Numeric(number) => {
                let number = *number;
                let digits = format!(in alloc; "i={number}")?;
                out.push_str(&digits)?;
            }
            Identifier::Text(text) => {
                out.push_str("s=")?;
                out.push_str(text.as_str().unwrap_or(""))?;
            }
            Identifier::Guid(guid) => {
                let mut buffer = Uuid::encode_buffer();
                out.push_str("g=")?;
                out.push_str(guid.uuid.hyphenated().encode_lower(&mut buffer))?;
            }
            Identifier::Opaque(octets) => {
                out.push_str("b=")?;
                append_base64(octets.as_octets().unwrap_or(&[]), out)?;
            }
        }
        Ok(())
    }
}

fn namespace_prefix(alloc: Global, namespace: u16) -> Result<String, AllocError>
    ensures { IfOk result (λ t. string_bytes t ≡ namespace_text namespace) }
{
    if namespace == 0 {
        return Ok(String::new(alloc));
    }
    format!(in alloc; "ns={namespace};")
}

fn append_base64(octets: &[u8], out: &mut String) -> Result<(), AllocError>
    ensures text { OnOk result (string_bytes out.new ≡ string_bytes out.old ++ encode_of standard octets.now) }
    ensures octets { IsBytes octets.now }
{
    STANDARD.encode_string(octets, out)
}

// The namespace, and the text of the identifier.
fn split_namespace(text: &str) -> Option<(u16, &str)>
    ensures some { IfSome result (λ r. IsNodeTextRest r.0 r.1.now text.now) }
    ensures none { IsNone result → (v : NodeId) → ¬ (NamesNode v text.now) }
{
    let Some(rest) = behind(text, "ns=") else {
        return Some((0, text));
    };
    let (digits, identifier) = cut_at_semicolon(rest)?;
    let namespace = u16::try_from(parse_decimal(digits)?).ok()?;
    Some((namespace, identifier))
}

fn parse_identifier(alloc: Global, text: &str) -> Result<Identifier, TextFault>
    ensures found { IfOk result (λ i. NamesIdentifier i text.now) }
    ensures none { IsErrOf result NotNodeId → (i : Identifier) → ¬ (NamesIdentifier i text.now) }
{
    if let Some(digits) = behind(text, "i=") {
        let Some(number) = parse_decimal(digits) else {
            return Err(TextFault::NotNodeId);
        };
        return Ok(Identifier::Numeric(number));
    }
    if let Some(rest) = behind(text, "s=") {
        let text = UaString::from_str(alloc, rest)?;
        return Ok(Identifier::Text(text));
    }
    if let Some(rest) = behind(text, "g=") {
        let Some(guid) = parse_guid(rest) else {
            return Err(TextFault::NotNodeId);
        };
        return Ok(Identifier::Guid(guid));
    }
    if let Some(rest) = behind(text, "b=") {
        let octets = parse_base64(alloc, rest)?;
        return Ok(Identifier::Opaque(UaBytes::new(Some(octets))));
    }
    Err(TextFault::NotNodeId)
}

// What follows a prefix.
fn behind<'a>(text: &'a str, prefix: &str) -> Option<&'a str>
    ensures { IsBehind prefix.now text.now (option_map (λ r. r.now) result) }
{
    text.strip_prefix(prefix)
}

fn cut_at_semicolon(text: &str) -> Option<(&str, &str)>
    ensures { IsCutAtSemicolon text.now (option_map (λ r. (r.0.now, r.1.now)) result) }
{
    text.split_once(';')
}

fn parse_decimal(text: &str) -> Option<u32>
    ensures { MatchOption result ((n : ℕ) → ¬ (IsDecimal (2 ^ 32) n text.now)) (λ n. IsDecimal (2 ^ 32) n text.now) }
{
    if text.starts_with('+') {
        return None;
    }
    text.parse::<u32>().ok()
}

fn parse_guid(text: &str) -> Option<Guid>
    ensures { MatchOption result ((g : Guid) → ¬ (IsGuidText text.now g)) (λ g. IsGuidText text.now g) }
{
    if text.len() != 36 {
        return None;
    }
    match Uuid::try_parse(text) {
        Ok(uuid) => Some(Guid { uuid }),
        Err(_) => None,
    }
}

fn parse_base64(alloc: Global, text: &str) -> Result<Vec<u8>, TextFault>
    ensures found { IfOk result (λ octets. IsBase64 text.now octets.items) }
    ensures none { IsErrOf result NotNodeId → (octets : List ℕ) → ¬ (IsBase64 text.now octets) }
{
    match STANDARD.decode(alloc, text.as_bytes()) {
        Ok(octets) => Ok(octets),
        Err(DecodeAllocError::OutOfMemory) => Err(TextFault::OutOfMemory),
        Err(DecodeAllocError::DecodeError(_)) => Err(TextFault::NotNodeId),
    }
}
