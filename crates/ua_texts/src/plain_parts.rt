//! Parts of values by their names, in the human-readable form.

ghost use Rattle.std.specs.Prelude.{◌≡◌, ◌++◌, OnOk, string_bytes};
ghost use Rattle.ua_texts.specs.PlainLeaf.{Adds};
ghost use Rattle.ua_texts.specs.PlainParts.{IsMomentPart, IsTimePart, number_part};
ghost use Rattle.ua_texts.specs.PlainParts.{picoseconds_part, status_part, text_part};

use crate::marks::{Marks, push_marked};
use crate::plain_leaf::{push_moment, push_plain_code};
use std::alloc::AllocError;
use std::fmt::Write;
use ua_builtin::{DateTime, StatusCode, UaString};

/// Appends a number by its name, if there is one: ` symbolic_id 1`.
pub(crate) fn push_number_part(
    out: &mut String,
    name: &str,
    number: Option<i32>,
) -> Result<(), AllocError>
    ensures { OnOk result (string_bytes out.new ≡ string_bytes out.old ++ number_part name.now number) }
{
    match number {
        Some(number) => write!(out, " {name} {number}"),
        None => Ok(()),
    }
}

/// Appends a text in brackets by its name, if there is one.
pub(crate) fn push_text_part(
    out: &mut String,
    name: &str,
    text: &UaString,
) -> Result<(), AllocError>
    ensures { OnOk result (string_bytes out.new ≡ string_bytes out.old ++ text_part name.now text.now) }
{
    let Some(text) = text.as_str() else {
        return Ok(());
    };
    write!(out, " {name} (")?;
    push_marked(out, text, Marks::of(true))?;
    out.push_str(")")
}

/// Appends a status by its name, if there is one, with or without the standard's name of it.
pub(crate) fn push_status_part(
    out: &mut String,
    name: &str,
    status: Option<StatusCode>,
    names: bool,
) -> Result<(), AllocError>
    ensures { OnOk result (string_bytes out.new ≡ string_bytes out.old ++ status_part names name.now status) }
{
    match status {
        Some(status) => {
            write!(out, " {name} ")?;
            push_plain_code(out, status, names)
        }
        None => Ok(()),
    }
}

/// Appends a timestamp, and the picoseconds to be added to it, each by its name, if it is present.
pub(crate) fn push_time_part(
    out: &mut String,
    name: &str,
    moment: Option<DateTime>,
    picoseconds: Option<u16>,
) -> Result<(), AllocError>
    ensures { Adds result (string_bytes out.old) (string_bytes out.new) (IsTimePart name.now moment picoseconds) }
{
    push_moment_part(out, name, moment)?;
    push_picoseconds_part(out, name, picoseconds)
}

fn push_moment_part(
    out: &mut String,
    name: &str,
    moment: Option<DateTime>,
) -> Result<(), AllocError>
    ensures { Adds result (string_bytes out.old) (string_bytes out.new) (IsMomentPart name.now moment) }
{
    match moment {
        Some(moment) => {
            write!(out, " {name} ")?;
            push_moment(out, moment)
        }
        None => Ok(()),
    }
}

fn push_picoseconds_part(
    out: &mut String,
    name: &str,
    picoseconds: Option<u16>,
) -> Result<(), AllocError>
    ensures { OnOk result (string_bytes out.new ≡ string_bytes out.old ++ picoseconds_part name.now picoseconds) }
{
    match picoseconds {
        Some(picoseconds) => write!(out, " {name}_picoseconds {picoseconds}"),
        None => Ok(()),
    }
}
