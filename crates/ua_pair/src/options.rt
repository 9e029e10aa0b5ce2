//! The options of the dissector.

ghost use Rattle.std.specs.Prelude.{◌≡◌};
ghost use Rattle.ua_pair.specs.Dissected.{plain_of_side as plain_options};
ghost use Rattle.ua_pair.specs.Styles.{style_of};

use ua_fields::{FieldStyle, Side};

/// The side whose bytes are printed, and what is printed of them.
#[derive(Clone, Copy, PartialEq, Eq, Debug)]
pub struct DissectOptions {
    /// The side that sent the bytes.
    pub side: Side,
    /// Whether the fields of a message follow its line.
    pub fields: bool,
    /// Whether the standard name of a StatusCode follows it, and `unsupported` is followed by the
    /// encoding.
    pub names: bool,
    /// Whether the fields are as people write them.
    pub plain: bool,
    /// The most bytes of a body whose fields are printed.
    pub largest: usize,
}

/// The most bytes of a body whose fields are printed, where no other number is wanted: a message is
/// decoded before, and its lines may take two hundred times as many bytes.
pub const MOST_FIELD_OCTETS: usize = 131_072;

impl DissectOptions {
    /// The bytes of this side, without fields and names, and at most [`MOST_FIELD_OCTETS`] of a body
    /// whose fields are printed.
    pub fn plain(side: Side) -> DissectOptions
        ensures { result ≡ plain_options side }
    {
        DissectOptions {
            side,
            fields: false,
            names: false,
            plain: false,
            largest: MOST_FIELD_OCTETS,
        }
    }

    /// How the texts of fields are written.
    pub fn style(&self) -> FieldStyle
        ensures { result ≡ style_of self.now }
    {
        FieldStyle {
            names: self.names,
            plain: self.plain,
        }
    }
}
