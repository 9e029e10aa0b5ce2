//! Names of types.

ghost use Rattle.std.specs.Prelude.{◌≡◌, ℕ, Bool, MatchOption};
ghost use Rattle.ua_nodes.specs.TypeName.{type_named, type_denoted, NamesType};

/// The type id that a text names, and whether the text names an array of that type, as `Int32[]`
/// does. The types are those whose values have a text form (OPC 10000-6, 5.1.2).
pub fn parse_type(text: &str) -> Option<(u8, bool)>
    ensures denoted { result ≡ type_denoted text.now }
    ensures named { MatchOption result ((kind : ℕ) (array : Bool) → ¬ (NamesType text.now kind array))
        (λ t. NamesType text.now t.0 t.1) }
{
    match text.strip_suffix("[]") {
        Some(name) => Some((kind_named(name)?, true)),
        None => Some((kind_named(text)?, false)),
    }
}

fn kind_named(name: &str) -> Option<u8>
    ensures { result ≡ type_named name.now }
{
    match name {
        "Boolean" => Some(1),
        "SByte" => Some(2),
        "Byte" => Some(3),
        "Int16" => Some(4),
        "UInt16" => Some(5),
        "Int32" => Some(6),
        "UInt32" => Some(7),
        "Int64" => Some(8),
        "UInt64" => Some(9),
        "Float" => Some(10),
        "Double" => Some(11),
        "String" => Some(12),
        "DateTime" => Some(13),
        "Guid" => Some(14),
        "ByteString" => Some(15),
        "StatusCode" => Some(19),
        _ => None,
    }
}
