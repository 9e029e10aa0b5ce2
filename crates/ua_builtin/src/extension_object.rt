//! ExtensionObject.

use crate::node_id::{Identifier, NodeId};
use crate::xml_element::XmlElement;
use std::alloc::{AllocError, Global};
use ua_wire::{ReadFault, Skip, Source, UaBytes, Wire, append_two};

/// The encoding of the object that holds nothing: the NodeId of two bytes, and no body.
const NULL_OBJECT: [u8; 3] = [0x00, 0x00, 0x00];

/// The body of an [`ExtensionObject`]. A null ByteString or XmlElement is a body, and differs from
/// no body.
#[derive(PartialEq, Eq, Debug, Drop)]
pub enum ExtensionBody {
    Absent,
    ByteString(UaBytes),
    Xml(XmlElement),
}

/// A structure of any type: the NodeId of its encoding, and its encoded bytes, which are preserved
/// as they are (OPC 10000-6, 5.2.2.15).
#[derive(PartialEq, Eq, Debug, Drop)]
pub struct ExtensionObject {
    pub type_id: NodeId,
    pub body: ExtensionBody,
}

impl ExtensionBody {
    ghost use Rattle.std.specs.Prelude.{◌≡◌, IfOk};

    /// Returns an owned copy, equal to this value.
    pub fn try_clone(&self) -> Result<ExtensionBody, AllocError>
        ensures { IfOk result (λ v. v ≡ self.now) }
    {
        Ok(match self {
            ExtensionBody::Absent => ExtensionBody::Absent,
            ExtensionBody::ByteString(octets) => ExtensionBody::ByteString(octets.try_clone()?),
            ExtensionBody::Xml(element) => ExtensionBody::Xml(element.try_clone()?),
        })
    }
}

impl ExtensionObject {
    ghost use Rattle.std.specs.Prelude.{◌≡◌, ◌↔◌, IsTrue, IfOk};
    ghost use Rattle.ua_builtin.specs.ExtensionObject.{null_object};

    /// The ExtensionObject without a structure: the null NodeId and no body (OPC 10000-6,
    /// 5.2.2.15). Allocates nothing.
    #[inline]
    pub fn null() -> ExtensionObject
        ensures { result ≡ null_object }
    {
        ExtensionObject {
            type_id: NodeId::null(),
            body: ExtensionBody::Absent,
        }
    }

    /// Whether this is the null ExtensionObject.
    #[inline]
    fn is_null(&self) -> bool
        ensures { IsTrue result ↔ (self.now ≡ null_object) }
    {
        self.type_id.namespace == 0
            && matches!(self.type_id.identifier, Identifier::Numeric(0))
            && matches!(self.body, ExtensionBody::Absent)
    }

    /// Returns an owned copy, equal to this value.
    pub fn try_clone(&self) -> Result<ExtensionObject, AllocError>
        ensures { IfOk result (λ v. v ≡ self.now) }
    {
        Ok(ExtensionObject {
            type_id: self.type_id.try_clone()?,
            body: self.body.try_clone()?,
        })
    }
}

impl ExtensionBody {
    ghost use Rattle.std.specs.Prelude.{◌≡◌, ◌++◌, IsTrue, OnOk, OnErr};
    ghost use Rattle.ua_wire.specs.Format.{Extends};
    ghost use Rattle.ua_builtin.specs.ExtensionObject.{body_fits, body_octets};

    // Appends the byte for the kind of body, and the body.
    fn append_kind(&self, out: &mut Vec<u8>) -> Result<(), AllocError>
        requires { IsTrue (body_fits self.now) }
        ensures ok { OnOk result (out.new.items ≡ out.old.items ++ body_octets self.now) }
        ensures err { OnErr result (Extends out.old.items out.new.items) }
    {
        match self {
            ExtensionBody::Absent => 0u8.append(out),
            ExtensionBody::ByteString(octets) => append_two(&1u8, octets, out),
            ExtensionBody::Xml(element) => append_two(&2u8, element, out),
        }
    }
}

impl Wire for ExtensionObject {
    ghost use Rattle.ua_wire.specs.Format.{flat};
    ghost use Rattle.ua_builtin.specs.ExtensionObject.{extension_object};

    ghost format = { flat extension_object };

    #[inline]
    #[tactic(auto, using(crate::proofs::ExtensionObjectLawful::lawful_extension_object))]
    fn lawful() {}

    #[tactic(auto, unfolding(crate::specs::ExtensionObject::extension_object))]
    fn read_value<S: Source>(
        alloc: Global,
        src: &mut S,
        depth: u32,
    ) -> Result<ExtensionObject, ReadFault> {
        let type_id = NodeId::read_value(alloc, src, depth)?;
        let body = match u8::read_value(alloc, src, depth)? {
            0 => ExtensionBody::Absent,
            1 => ExtensionBody::ByteString(UaBytes::read_value(alloc, src, depth)?),
            2 => ExtensionBody::Xml(XmlElement::read_value(alloc, src, depth)?),
            _ => return Err(ReadFault::NoValue),
        };
        Ok(ExtensionObject { type_id, body })
    }

    #[tactic(auto, unfolding(crate::specs::ExtensionObject::extension_object))]
    fn is_encodable(&self) -> bool {
        self.type_id.is_encodable()
            && match &self.body {
                ExtensionBody::Absent => true,
                ExtensionBody::ByteString(octets) => octets.is_encodable(),
                ExtensionBody::Xml(element) => element.is_encodable(),
            }
    }

    #[tactic(auto, unfolding(crate::specs::ExtensionObject::extension_object))]
    fn append(&self, out: &mut Vec<u8>) -> Result<(), AllocError> {
        if self.is_null() {
            // nearly always: what headers add is nothing
            out.extend_from_slice(&NULL_OBJECT)?;
            return Ok(());
        }
        self.type_id.append(out)?;
        self.body.append_kind(out)
    }
}

impl Skip for ExtensionObject {
    #[tactic(auto, unfolding(crate::specs::ExtensionObject::extension_object))]
    fn skip_value<S: Source>(alloc: Global, src: &mut S, depth: u32) -> Result<(), ReadFault> {
        NodeId::skip_value(alloc, src, depth)?;
        match u8::read_value(alloc, src, depth)? {
            0 => Ok(()),
            1 => UaBytes::skip_value(alloc, src, depth),
            2 => XmlElement::skip_value(alloc, src, depth),
            _ => Err(ReadFault::NoValue),
        }
    }
}
