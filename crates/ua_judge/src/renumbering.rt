//! Streams with other numbers.

ghost use Rattle.std.specs.Prelude.{◌≡◌, ◌≤◌, ◌<◌, ◌+◌, ◌^◌, ◌++◌, length, IfOk, OnOk};
ghost use Rattle.ua_judge.specs.Renumbered.{with_number_at, renumbered, IsRenumbered};

use crate::field::Field;
use crate::named::{Named, rank_of};
use crate::raw_frame::{number_from, split_frame};
use std::alloc::{AllocError, Global};
use ua_builtin::Wire;

/// Appends a frame with another number at a place.
fn push_with_number(
    frame: &[u8],
    place: usize,
    number: u32,
    out: &mut Vec<u8>,
) -> Result<(), AllocError>
    requires { place + 4 ≤ length frame.now }
    ensures { OnOk result (out.new.items ≡ out.old.items ++ with_number_at place number frame.now) }
{
    out.extend_from_slice(&frame[..place])?;
    number.append(out)?;
    out.extend_from_slice(&frame[place + 4..])?;
    Ok(())
}

/// Appends a frame that ends at a place, renumbered.
fn push_renumbered(
    field: Field,
    names: &[Named],
    end: usize,
    frame: &[u8],
    out: &mut Vec<u8>,
) -> Result<(), AllocError>
    requires header { 8 ≤ length frame.now }
    requires few { length names.now < 2 ^ 32 }
    ensures { OnOk result (out.new.items ≡ out.old.items ++ renumbered field names.now end frame.now) }
{
    match field.place_in(frame) {
        Some(place) => {
            let rank = rank_of(names, number_from(frame, place), end);
            push_with_number(frame, place, rank as u32, out)
        }
        None => out.extend_from_slice(frame),
    }
}

/// The bytes of a stream, each frame renumbered by the numbers that the other end chose.
pub(crate) fn renumber(
    alloc: Global,
    field: Field,
    names: &[Named],
    octets: &[u8],
) -> Result<Vec<u8>, AllocError>
    ensures { IfOk result (λ out. IsRenumbered field names.now octets.now out.items) }
{
    if names.len() > u32::MAX as usize {
        return Err(AllocError);
    }
    let mut out = Vec::with_capacity(alloc, octets.len())?;
    let mut rest = octets;
    while let Some((frame, more)) = split_frame(rest) {
        let end = octets.len() - more.len();
        push_renumbered(field, names, end, frame, &mut out)?;
        rest = more;
    }
    out.extend_from_slice(rest)?;
    Ok(out)
}
