//! The standard's names of StatusCodes.

ghost use Rattle.std.specs.Prelude.{◌≡◌, ◌++◌, map, option_map, slice_get, string_bytes, OnOk};
ghost use Rattle.ua_texts.specs.Names.{name_of_code, named_code};
ghost use Rattle.ua_texts.specs.StatusCodes.{status_codes};

use crate::status_codes::{STATUS_CODES, STATUS_NAMES};
use crate::text::push_code;
use std::alloc::AllocError;
use ua_builtin::StatusCode;

/// The standard's name of a StatusCode (OPC 10000-6, A.2), if the table has the code.
pub fn code_name(status: StatusCode) -> Option<&'static str>
    ensures { option_map (λ name. name.now) result ≡ name_of_code status.code }
{
    match known_codes().binary_search(&status.code) {
        Ok(place) => name_at(place),
        Err(_) => None,
    }
}

/// The codes of the table, in ascending order.
fn known_codes() -> &'static [u32]
    ensures { result.now ≡ map (λ row. row.0) status_codes }
{
    &STATUS_CODES
}

/// The name at an index of the table.
fn name_at(place: usize) -> Option<&'static str>
    ensures { option_map (λ name. name.now) result ≡ slice_get (map (λ row. row.1) status_codes) place }
{
    STATUS_NAMES.lines().nth(place)
}

/// Appends a StatusCode, and, if names are wanted, its name after a space.
pub fn push_code_as(out: &mut String, status: StatusCode, names: bool) -> Result<(), AllocError>
    ensures { OnOk result (string_bytes out.new ≡ string_bytes out.old ++ named_code names status.code) }
{
    push_code(out, status)?;
    match code_name(status) {
        Some(name) if names => {
            out.push_str(" ")?;
            out.push_str(name)
        }
        _ => Ok(()),
    }
}
