//! NodeId.

ghost use Rattle.std.specs.Prelude.{◌≡◌, ◌++◌, OnOk, OnErr};
ghost use Rattle.ua_wire.specs.Format.{Extends};
ghost use Rattle.ua_builtin.specs.NodeId.{node, in_form, shortest_form};
ghost use Rattle.ua_builtin.specs.declared.node_id.Identifier.TheVariants.{Numeric};

use crate::guid::Guid;
use std::alloc::{AllocError, Global};
use ua_wire::{ReadFault, Skip, Source, UaBytes, UaString, Wire, append_two};

const TWO_OCTET: u8 = 0x00;

const FOUR_OCTET: u8 = 0x01;

const NUMERIC: u8 = 0x02;

const STRING: u8 = 0x03;

const GUID: u8 = 0x04;

const OPAQUE: u8 = 0x05;

/// The identifier of a node within its namespace (OPC 10000-3, 8.2).
#[derive(PartialEq, Eq, Hash, Debug, Drop)]
pub enum Identifier {
    Numeric(u32),
    Text(UaString),
    Guid(Guid),
    Opaque(UaBytes),
}

/// The identifier of a node in a server: the index of its namespace in the server's NamespaceArray,
/// and its identifier in that namespace (OPC 10000-6, 5.2.2.9).
#[derive(PartialEq, Eq, Hash, Debug, Drop)]
pub struct NodeId {
    pub namespace: u16,
    pub identifier: Identifier,
}

impl Identifier {
    ghost use Rattle.std.specs.Prelude.{◌≡◌, IfOk};

    /// Returns an owned copy, equal to this value.
    pub fn try_clone(&self) -> Result<Identifier, AllocError>
        ensures { IfOk result (λ v. v ≡ self.now) }
    {
        Ok(match self {
            Identifier::Numeric(number) => Identifier::Numeric(*number),
            Identifier::Text(text) => Identifier::Text(text.try_clone()?),
            Identifier::Guid(guid) => Identifier::Guid(*guid),
            Identifier::Opaque(octets) => Identifier::Opaque(octets.try_clone()?),
        })
    }
}

impl NodeId {
    ghost use Rattle.std.specs.Prelude.{◌≡◌, ◌≤◌, ◌++◌, IsTrue, IfOk, OnOk, OnErr};
    ghost use Rattle.ua_wire.specs.Exact.{skipped};
    ghost use Rattle.ua_wire.specs.Format.{most_levels, Gives, StaysBehind, Extends};
    ghost use Rattle.ua_builtin.specs.NodeId.{node, null_id, in_form, form_of};

    /// Makes a NodeId of a namespace index and an identifier.
    #[inline]
    pub fn new(namespace: u16, identifier: Identifier) -> NodeId
        ensures { result ≡ node namespace identifier }
    {
        NodeId {
            namespace,
            identifier,
        }
    }

    /// The null NodeId, which identifies no node: `i=0` (OPC 10000-6, 5.2.2.9). Allocates nothing.
    #[inline]
    pub fn null() -> NodeId
        ensures { result ≡ null_id }
    {
        NodeId::new(0, Identifier::Numeric(0))
    }

    /// Returns an owned copy, equal to this value.
    pub fn try_clone(&self) -> Result<NodeId, AllocError>
        ensures { IfOk result (λ v. v ≡ self.now) }
    {
        Ok(NodeId::new(self.namespace, self.identifier.try_clone()?))
    }

    /// Reads what follows the form byte.
    pub(crate) fn read_form<S: Source>(
        alloc: Global,
        src: &mut S,
        depth: u32,
        form: u8,
    ) -> Result<NodeId, ReadFault>
        requires levels { depth ≤ most_levels }
        ensures exact { Gives ((in_form form).decode) (S.octets src.old) (S.octets src.new) result }
        ensures behind { StaysBehind (S.octets src.old) (S.octets src.new) }
    {
        match form {
            TWO_OCTET => {
                let number = u8::read_value(alloc, src, depth)?;
                Ok(NodeId::new(0, Identifier::Numeric(u32::from(number))))
            }
            FOUR_OCTET => {
                let (namespace, number): (u8, u16) = Wire::read_value(alloc, src, depth)?;
                Ok(NodeId::new(u16::from(namespace), Identifier::Numeric(u32::from(number))))
            }
            NUMERIC => {
                let (namespace, number) = Wire::read_value(alloc, src, depth)?;
                Ok(NodeId::new(namespace, Identifier::Numeric(number)))
            }
            STRING => {
                let (namespace, text) = Wire::read_value(alloc, src, depth)?;
                Ok(NodeId::new(namespace, Identifier::Text(text)))
            }
            GUID => {
                let (namespace, guid) = Wire::read_value(alloc, src, depth)?;
                Ok(NodeId::new(namespace, Identifier::Guid(guid)))
            }
            OPAQUE => {
                let (namespace, octets) = Wire::read_value(alloc, src, depth)?;
                Ok(NodeId::new(namespace, Identifier::Opaque(octets)))
            }
            _ => Err(ReadFault::NoValue),
        }
    }

    /// Skips what follows the form byte.
    pub(crate) fn skip_form<S: Source>(
        alloc: Global,
        src: &mut S,
        depth: u32,
        form: u8,
    ) -> Result<(), ReadFault>
        requires levels { depth ≤ most_levels }
        ensures exact { Gives (skipped (in_form form).decode) (S.octets src.old) (S.octets src.new) result }
        ensures behind { StaysBehind (S.octets src.old) (S.octets src.new) }
    {
        match form {
            TWO_OCTET => u8::skip_value(alloc, src, depth),
            FOUR_OCTET => <(u8, u16)>::skip_value(alloc, src, depth),
            NUMERIC => <(u16, u32)>::skip_value(alloc, src, depth),
            STRING => <(u16, UaString)>::skip_value(alloc, src, depth),
            GUID => <(u16, Guid)>::skip_value(alloc, src, depth),
            OPAQUE => <(u16, UaBytes)>::skip_value(alloc, src, depth),
            _ => Err(ReadFault::NoValue),
        }
    }

    /// The form byte that a writer sets: that of the shortest form.
    pub(crate) fn form(&self) -> u8
        ensures { result ≡ form_of self.now }
    {
        match &self.identifier {
            Identifier::Numeric(number) => {
                if self.namespace == 0 && *number < 256 {
                    TWO_OCTET
                } else if self.namespace < 256 && *number < 65536 {
                    FOUR_OCTET
                } else {
                    NUMERIC
                }
            }
            Identifier::Text(_) => STRING,
            Identifier::Guid(_) => GUID,
            Identifier::Opaque(_) => OPAQUE,
        }
    }

    /// Whether what follows the form byte can be encoded.
    pub(crate) fn is_form_encodable(&self) -> bool
        ensures { result ≡ (in_form (form_of self.now)).encodable self.now }
    {
        let _namespace = self.namespace;
        match &self.identifier {
            Identifier::Numeric(number) => {
                let _number = *number;
                true
            }
            Identifier::Text(text) => text.is_encodable(),
            Identifier::Guid(guid) => guid.is_encodable(),
            Identifier::Opaque(octets) => octets.is_encodable(),
        }
    }

    /// Appends what follows the form byte.
    pub(crate) fn append_form(&self, out: &mut Vec<u8>) -> Result<(), AllocError>
        requires { IsTrue ((in_form (form_of self.now)).encodable self.now) }
        ensures ok { OnOk result (out.new.items ≡ out.old.items ++ (in_form (form_of self.now)).canonical self.now) }
        ensures err { OnErr result (Extends out.old.items out.new.items) }
    {
        match &self.identifier {
            Identifier::Numeric(number) => append_numeric(self.namespace, *number, out),
            Identifier::Text(text) => append_two(&self.namespace, text, out),
            Identifier::Guid(guid) => append_two(&self.namespace, guid, out),
            Identifier::Opaque(octets) => append_two(&self.namespace, octets, out),
        }
    }
}

/// Appends a number and its namespace in the shortest form that holds both.
fn append_numeric(namespace: u16, number: u32, out: &mut Vec<u8>) -> Result<(), AllocError>
    ensures ok { OnOk result (out.new.items ≡ out.old.items ++ (in_form (shortest_form namespace number)).canonical
        (node namespace (Numeric number))) }
    ensures err { OnErr result (Extends out.old.items out.new.items) }
{
    if namespace == 0 && number < 256 {
        (number as u8).append(out)
    } else if namespace < 256 && number < 65536 {
        append_two(&(namespace as u8), &(number as u16), out)
    } else {
        append_two(&namespace, &number, out)
    }
}

impl Wire for NodeId {
    ghost use Rattle.ua_wire.specs.Format.{flat};
    ghost use Rattle.ua_builtin.specs.NodeId.{node_id};

    ghost format = { flat node_id };

    #[inline]
    #[tactic(auto, using(crate::proofs::NodeIdLawful::lawful_node_id))]
    fn lawful() {}

    #[tactic(auto, unfolding(crate::specs::NodeId::node_id))]
    fn read_value<S: Source>(alloc: Global, src: &mut S, depth: u32) -> Result<NodeId, ReadFault> {
        let form = u8::read_value(alloc, src, depth)?;
        NodeId::read_form(alloc, src, depth, form)
    }

    #[tactic(auto, unfolding(crate::specs::NodeId::node_id))]
    fn is_encodable(&self) -> bool {
        self.is_form_encodable()
    }

    #[tactic(auto, unfolding(crate::specs::NodeId::node_id))]
    fn append(&self, out: &mut Vec<u8>) -> Result<(), AllocError> {
        self.form().append(out)?;
        self.append_form(out)
    }
}

impl Skip for NodeId {
    #[tactic(auto, unfolding(crate::specs::NodeId::node_id))]
    fn skip_value<S: Source>(alloc: Global, src: &mut S, depth: u32) -> Result<(), ReadFault> {
        let form = u8::read_value(alloc, src, depth)?;
        NodeId::skip_form(alloc, src, depth, form)
    }
}
