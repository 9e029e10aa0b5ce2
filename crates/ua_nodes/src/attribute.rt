//! Attributes.

ghost use Rattle.std.specs.Prelude.{◌≡◌};
ghost use Rattle.ua_nodes.specs.Attribute.{attribute_of};

/// An attribute that nodes of the class Variable have here (OPC 10000-3, 5.6.2).
#[derive(Clone, Copy)]
pub(crate) enum Attribute {
    NodeId,
    NodeClass,
    BrowseName,
    DisplayName,
    Value,
    DataType,
    AccessLevel,
    UserAccessLevel,
}

impl Attribute {
    /// The attribute with this id (OPC 10000-6, A.1).
    pub(crate) fn from_id(id: u32) -> Option<Attribute>
        ensures { result ≡ attribute_of id }
    {
        match id {
            1 => Some(Attribute::NodeId),
            2 => Some(Attribute::NodeClass),
            3 => Some(Attribute::BrowseName),
            4 => Some(Attribute::DisplayName),
            13 => Some(Attribute::Value),
            14 => Some(Attribute::DataType),
            17 => Some(Attribute::AccessLevel),
            18 => Some(Attribute::UserAccessLevel),
            _ => None,
        }
    }
}
