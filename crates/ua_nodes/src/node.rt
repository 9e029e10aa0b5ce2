//! Nodes.

use std::alloc::{AllocError, Global};
use std::marker::Model;
use ua_builtin::{DateTime, NodeId, StatusCode, UaString};
use ua_variant::{Scalar, Variant};

/// The access to the Value of a node (OPC 10000-3, 8.57).
#[derive(Clone, Copy, PartialEq, Eq, Debug)]
pub struct Access {
    pub readable: bool,
    pub writable: bool,
}

impl Access {
    ghost use Rattle.std.specs.Prelude.{◌≡◌};
    ghost use Rattle.ua_nodes.specs.Attribute.{access_level};

    /// The AccessLevel: bit 0 is set if the Value is readable, bit 1 if it is writable.
    #[inline]
    pub fn level(self) -> u8
        ensures { result ≡ access_level self }
    {
        match (self.readable, self.writable) {
            (false, false) => 0,
            (true, false) => 1,
            (false, true) => 2,
            (true, true) => 3,
        }
    }
}

/// A node of the NodeClass Variable, with its Value (OPC 10000-3, 5.6.2).
#[derive(Debug, Drop)]
pub struct Node {
    pub id: NodeId,
    pub name: UaString,
    /// The type id of the value, or of its elements.
    pub kind: u8,
    /// Whether the value is an array.
    pub array: bool,
    pub access: Access,
    pub value: Variant,
    pub status: Option<StatusCode>,
    /// The SourceTimestamp of the value.
    pub source_time: Option<DateTime>,
    /// The addition to the SourceTimestamp, in units of 10 picoseconds.
    pub source_picoseconds: Option<u16>,
}

impl Node {
    ghost use Rattle.std.specs.Prelude.{◌≡◌};
    ghost use Rattle.ua_nodes.specs.Table.{variable_of};

    /// The NodeId, and the node without it.
    #[inline]
    pub fn into_parts(self) -> (NodeId, Variable)
        ensures { result ≡ (self.id, variable_of self) }
    {
        let variable = Variable {
            name: self.name,
            kind: self.kind,
            array: self.array,
            access: self.access,
            value: NodeValue::new(self.value),
            status: self.status,
            source_time: self.source_time,
            source_picoseconds: self.source_picoseconds,
        };
        (self.id, variable)
    }
}

/// A node in a table, which has its NodeId as the key.
#[derive(Debug, Drop)]
pub struct Variable {
    pub name: UaString,
    /// The type id of the value, or of its elements.
    pub kind: u8,
    /// Whether the value is an array.
    pub array: bool,
    pub access: Access,
    pub value: NodeValue,
    pub status: Option<StatusCode>,
    /// The SourceTimestamp of the value.
    pub source_time: Option<DateTime>,
    /// The addition to the SourceTimestamp, in units of 10 picoseconds.
    pub source_picoseconds: Option<u16>,
}

/// The value of a node in a table.
#[derive(Debug, Drop)]
pub struct NodeValue {
    inner: Variant,
}

impl Model for NodeValue {
    ghost use Rattle.std.specs.Coded.{codes};
    ghost use Rattle.ua_variant.specs.Data.{VariantData};
    ghost use Rattle.ua_variant.specs.Codes.{coded_variant, coded_diagnostic};

    ghost Value = { VariantData };

    ghost coded = { coded_variant (Prim.hlevel (codes, coded_diagnostic (Prim.hlevel codes))) };

    ghost use Rattle.ua_variant.specs.View.{variant_of};

    ghost view = { λ v. variant_of v.inner };
}

impl NodeValue {
    ghost use Rattle.std.specs.Prelude.{◌≡◌, IfOk};
    ghost use Rattle.ua_variant.specs.View.{variant_of};

    /// Makes a node value of this value.
    #[inline]
    pub fn new(value: Variant) -> NodeValue
        ensures { result ≡ variant_of value }
    {
        NodeValue { inner: value }
    }

    #[inline]
    pub fn get(&self) -> &Variant
        ensures { variant_of result.now ≡ self.now }
    {
        &self.inner
    }

    /// Returns an owned copy, equal to this value. Numbers, times and StatusCodes are copied
    /// directly.
    #[inline(always)]
    pub fn try_clone(&self, alloc: Global) -> Result<Variant, AllocError>
        ensures { IfOk result (λ v. variant_of v ≡ self.now) }
    {
        match &self.inner {
            Variant::One(Scalar::Boolean(truth)) => Ok(Variant::One(Scalar::Boolean(*truth))),
            Variant::One(Scalar::SByte(number)) => Ok(Variant::One(Scalar::SByte(*number))),
            Variant::One(Scalar::Byte(number)) => Ok(Variant::One(Scalar::Byte(*number))),
            Variant::One(Scalar::Int16(number)) => Ok(Variant::One(Scalar::Int16(*number))),
            Variant::One(Scalar::UInt16(number)) => Ok(Variant::One(Scalar::UInt16(*number))),
            Variant::One(Scalar::Int32(number)) => Ok(Variant::One(Scalar::Int32(*number))),
            Variant::One(Scalar::UInt32(number)) => Ok(Variant::One(Scalar::UInt32(*number))),
            Variant::One(Scalar::Int64(number)) => Ok(Variant::One(Scalar::Int64(*number))),
            Variant::One(Scalar::UInt64(number)) => Ok(Variant::One(Scalar::UInt64(*number))),
            Variant::One(Scalar::Float(number)) => Ok(Variant::One(Scalar::Float(*number))),
            Variant::One(Scalar::Double(number)) => Ok(Variant::One(Scalar::Double(*number))),
            Variant::One(Scalar::DateTime(time)) => Ok(Variant::One(Scalar::DateTime(*time))),
            Variant::One(Scalar::StatusCode(code)) => Ok(Variant::One(Scalar::StatusCode(*code))),
            other => other.try_clone(alloc),
        }
    }
}
