//! The bytes that one side sent, as lines.

ghost use Rattle.std.specs.Prelude.{◌≡◌, OnOk, OnErr, string_bytes};
ghost use Rattle.ua_wire.specs.Format.{Extends};
ghost use Rattle.ua_pair.specs.Dissected.{AddsLines, plain_of_side};

use crate::dissector::Dissector;
use crate::options::DissectOptions;
use std::alloc::{AllocError, Global};
use ua_fields::Side;

/// Appends the lines of bytes, which are taken at once. After an error some of them may have been
/// appended.
fn push_lines(
    alloc: Global,
    octets: &[u8],
    options: DissectOptions,
    out: &mut String,
) -> Result<(), AllocError>
    ensures lines { OnOk result (AddsLines options octets.now (string_bytes out.old) (string_bytes out.new)) }
    ensures err { OnErr result (Extends (string_bytes out.old) (string_bytes out.new)) }
{
    let mut dissector = Dissector::new(alloc, options);
    dissector.take(octets, out)?;
    dissector.finish(out)
}

/// Appends the lines of the bytes that one side of a connection sent. On an error the text is
/// unchanged.
pub fn dissect(alloc: Global, octets: &[u8], side: Side, out: &mut String) -> Result<(), AllocError>
    ensures lines { OnOk result
        (AddsLines (plain_of_side side) octets.now (string_bytes out.old) (string_bytes out.new)) }
    ensures err { OnErr result (string_bytes out.new ≡ string_bytes out.old) }
{
    let len = out.len();
    let added = push_lines(alloc, octets, DissectOptions::plain(side), out);
    if added.is_err() {
        out.truncate(len);
    }
    added
}
