//! The server that a client asks for.

ghost use Rattle.std.specs.Prelude.{IsTrue};
ghost use Rattle.ua_wire.specs.Counted.{text};

use ua_builtin::UaString;

/// The URL of an endpoint, from which a Hello can be made.
#[derive(Debug, Drop)]
pub struct Address {
    pub url: UaString,
    ghost writable: { IsTrue (text.encodable url) },
}
