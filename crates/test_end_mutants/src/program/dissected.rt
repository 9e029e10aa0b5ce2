//! Bytes of one side, as lines.

ghost use Rattle.std.specs.Prelude.{◌++◌, ℕ, List, OnOk, string_bytes};
ghost use Rattle.ua_pair.specs.Dissecting.{StandsBehind, TellsMore};
ghost use Rattle.ua_pair.specs.declared.options.DissectOptions.{DissectOptions};

use std::alloc::{AllocError, Global};
use ua_pair::{DissectOptions, Dissector, Side};

/// Adds the lines of what a fragment completes.
pub fn tell_piece(
    alloc: Global,
    dissector: &mut Dissector,
    piece: &[u8],
    out: &mut String,
) -> Result<(), AllocError>
    ensures told { (options : DissectOptions) (octets told : List ℕ) → StandsBehind dissector.old options octets told
        → OnOk result (TellsMore dissector.new options (octets ++ piece.now) told (string_bytes out.old)
        (string_bytes out.new)) }
{
    let _alloc = alloc;
    dissector.take(piece, out)
}
