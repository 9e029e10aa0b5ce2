//! Laws of every type with an encoding, each carried by a function that does nothing at run time.

ghost use Rattle.std.specs.Prelude.{[]};
ghost use Rattle.ua_wire.specs.Laws.{CanonicalEncodes, EncodesOnce, ReadsBack};

use crate::wire::Wire;

/// The canonical encoding of a value is one of its encodings.
pub fn canonical_encodes<T: Wire>()
    ensures { CanonicalEncodes T.format }
{
    T::lawful();
}

/// No encoding is a proper prefix of another, and no byte sequence encodes two values.
pub fn encodes_once<T: Wire>()
    ensures { EncodesOnce T.format.encodes }
{
    T::lawful();
}

/// Decoding gives back the value that was encoded, whatever bytes follow.
pub fn reads_back<T: Wire>()
    ensures { ReadsBack T.format }
{
    T::lawful();
}

/// No encoding is empty.
pub fn encodes_in_octets<T: Wire>()
    ensures { (v : T) → ¬ (T.format.encodes v []) }
{
    T::lawful();
}
