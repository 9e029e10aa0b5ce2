//! Laws of Variants, DataValues and DiagnosticInfos, each carried by a function without a body.

ghost use Rattle.ua_builtin.specs.Laws.{CanonicalEncodes, EncodesOnce, ReadsBack};
ghost use Rattle.ua_variant.specs.Formats.{variant_format, data_value_format, diagnostic_format};

/// The canonical encoding of a value is one of its encodings.
pub fn canonical_encodes()
    ensures variant { CanonicalEncodes variant_format }
    ensures data_value { CanonicalEncodes data_value_format }
    ensures diagnostic { CanonicalEncodes diagnostic_format }
{}

/// No encoding is a proper prefix of another, and no byte sequence encodes two values.
pub fn encodes_once()
    ensures variant { EncodesOnce variant_format.encodes }
    ensures data_value { EncodesOnce data_value_format.encodes }
    ensures diagnostic { EncodesOnce diagnostic_format.encodes }
{}

/// Decoding gives back the value that was encoded, whatever bytes follow.
pub fn reads_back()
    ensures variant { ReadsBack variant_format }
    ensures data_value { ReadsBack data_value_format }
    ensures diagnostic { ReadsBack diagnostic_format }
{}
