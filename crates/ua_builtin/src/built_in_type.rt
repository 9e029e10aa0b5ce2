//! The built-in types by their names.

ghost use Rattle.std.specs.Prelude.{◌≡◌, MatchOption};
ghost use Rattle.ua_builtin.specs.BuiltInType.{HasNoType, id_of_type};

/// A built-in type (OPC 10000-6, 5.1.2). Its id is the number that stands in a Variant's first byte,
/// and that calls of the node table name a type by.
#[derive(Clone, Copy, PartialEq, Eq, Debug)]
pub enum BuiltInType {
    Boolean,
    SByte,
    Byte,
    Int16,
    UInt16,
    Int32,
    UInt32,
    Int64,
    UInt64,
    Float,
    Double,
    String,
    DateTime,
    Guid,
    ByteString,
    XmlElement,
    NodeId,
    ExpandedNodeId,
    StatusCode,
    QualifiedName,
    LocalizedText,
    ExtensionObject,
    DataValue,
    Variant,
    DiagnosticInfo,
}

impl BuiltInType {
    /// The id of the type, from 1 to 25.
    pub fn id(self) -> u8
        ensures { result ≡ id_of_type self }
    {
        match self {
            BuiltInType::Boolean => 1,
            BuiltInType::SByte => 2,
            BuiltInType::Byte => 3,
            BuiltInType::Int16 => 4,
            BuiltInType::UInt16 => 5,
            BuiltInType::Int32 => 6,
            BuiltInType::UInt32 => 7,
            BuiltInType::Int64 => 8,
            BuiltInType::UInt64 => 9,
            BuiltInType::Float => 10,
            BuiltInType::Double => 11,
            BuiltInType::String => 12,
            BuiltInType::DateTime => 13,
            BuiltInType::Guid => 14,
            BuiltInType::ByteString => 15,
            BuiltInType::XmlElement => 16,
            BuiltInType::NodeId => 17,
            BuiltInType::ExpandedNodeId => 18,
            BuiltInType::StatusCode => 19,
            BuiltInType::QualifiedName => 20,
            BuiltInType::LocalizedText => 21,
            BuiltInType::ExtensionObject => 22,
            BuiltInType::DataValue => 23,
            BuiltInType::Variant => 24,
            BuiltInType::DiagnosticInfo => 25,
        }
    }

    /// The type of this id, if there is one.
    pub fn from_id(id: u8) -> Option<BuiltInType>
        ensures { MatchOption result (HasNoType id) (λ kind. id_of_type kind ≡ id) }
    {
        match id {
            1 => Some(BuiltInType::Boolean),
            2 => Some(BuiltInType::SByte),
            3 => Some(BuiltInType::Byte),
            4 => Some(BuiltInType::Int16),
            5 => Some(BuiltInType::UInt16),
            6 => Some(BuiltInType::Int32),
            7 => Some(BuiltInType::UInt32),
            8 => Some(BuiltInType::Int64),
            9 => Some(BuiltInType::UInt64),
            10 => Some(BuiltInType::Float),
            11 => Some(BuiltInType::Double),
            12 => Some(BuiltInType::String),
            13 => Some(BuiltInType::DateTime),
            14 => Some(BuiltInType::Guid),
            15 => Some(BuiltInType::ByteString),
            16 => Some(BuiltInType::XmlElement),
            17 => Some(BuiltInType::NodeId),
            18 => Some(BuiltInType::ExpandedNodeId),
            19 => Some(BuiltInType::StatusCode),
            20 => Some(BuiltInType::QualifiedName),
            21 => Some(BuiltInType::LocalizedText),
            22 => Some(BuiltInType::ExtensionObject),
            23 => Some(BuiltInType::DataValue),
            24 => Some(BuiltInType::Variant),
            25 => Some(BuiltInType::DiagnosticInfo),
            _ => None,
        }
    }
}
