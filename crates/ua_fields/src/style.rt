//! How the texts of fields are written.

ghost use Rattle.std.specs.Prelude.{◌≡◌};
ghost use Rattle.ua_fields.specs.Styles.{exact_field_style};

/// How the texts of fields are written.
#[derive(Clone, Copy, PartialEq, Eq, Debug)]
pub struct FieldStyle {
    /// Whether the standard name of a StatusCode follows it.
    pub names: bool,
    /// Whether they are as people write them: decimals, times, names, the fields of a
    /// DiagnosticInfo and of an identity token.
    pub plain: bool,
}

impl FieldStyle {
    /// Exact texts, with or without the names of StatusCodes.
    pub fn exact(names: bool) -> FieldStyle
        ensures { result ≡ exact_field_style names }
    {
        FieldStyle {
            names,
            plain: false,
        }
    }
}
