//! The lines of Read results, with values and timestamps in the human-readable form.

ghost use Rattle.std.specs.Prelude.{◌≡◌, ◌++◌, string_bytes};
ghost use Rattle.ua_answers.specs.PlainAnswers.{ArePlainTimes, IsPlainLine, IsPlainRead};
ghost use Rattle.ua_answers.specs.PlainAnswers.{IsPlainTime, IsPlainTimesPart, IsPlainValuePart};
ghost use Rattle.ua_texts.specs.PlainLeaf.{Adds};

use crate::answer::push_status;
use crate::plain_object::push_plain_json;
use crate::style::LineStyle;
use std::alloc::{AllocError, Global};
use ua_builtin::{DateTime, NodeId, StatusCode};
use ua_texts::{push_moment, push_plain_variant};
use ua_variant::{DataValue, HeldVariant};

/// Appends the result of a Read item as [`push_read_line`](crate::push_read_line) does, but the
/// value as [`push_plain_variant`] does, and timestamps in RFC 3339. With JSON, a Float and a
/// Double are numbers, or strings if JSON has no number for them.
pub(crate) fn push_plain_read_line(
    alloc: Global,
    out: &mut String,
    node: &NodeId,
    answer: &DataValue,
    style: LineStyle,
) -> Result<(), AllocError>
    ensures { Adds result (string_bytes out.old) (string_bytes out.new) (IsPlainRead style node.now answer.now) }
{
    if style.json {
        push_plain_json(alloc, out, node, answer, style)
    } else {
        push_plain_line(alloc, out, node, answer, style)
    }
}

fn push_plain_line(
    alloc: Global,
    out: &mut String,
    node: &NodeId,
    answer: &DataValue,
    style: LineStyle,
) -> Result<(), AllocError>
    ensures { Adds result (string_bytes out.old) (string_bytes out.new) (IsPlainLine style node.now answer.now) }
{
    push_status(
        alloc,
        out,
        node,
        answer.status.unwrap_or(StatusCode::GOOD),
        style.names,
    )?;
    push_plain_value_part(alloc, out, &answer.value, style.names)?;
    push_plain_times_part(out, answer, style.times)?;
    out.push_str("\n")
}

/// Appends a value after a space, if there is one.
fn push_plain_value_part(
    alloc: Global,
    out: &mut String,
    value: &Option<HeldVariant>,
    names: bool,
) -> Result<(), AllocError>
    ensures { Adds result (string_bytes out.old) (string_bytes out.new) (IsPlainValuePart names value.now) }
{
    match value {
        Some(value) => {
            out.push_str(" ")?;
            push_plain_variant(alloc, out, value.get(), names)
        }
        None => Ok(()),
    }
}

/// Appends the timestamps of an answer, if they are wanted.
fn push_plain_times_part(
    out: &mut String,
    answer: &DataValue,
    times: bool,
) -> Result<(), AllocError>
    ensures { Adds result (string_bytes out.old) (string_bytes out.new) (IsPlainTimesPart times answer.now) }
{
    if times {
        push_plain_times(out, answer)
    } else {
        Ok(())
    }
}

/// Appends the timestamps of an answer.
fn push_plain_times(out: &mut String, answer: &DataValue) -> Result<(), AllocError>
    ensures { Adds result (string_bytes out.old) (string_bytes out.new) (ArePlainTimes answer.now) }
{
    out.push_str(" source ")?;
    push_plain_time(out, answer.source_timestamp)?;
    out.push_str(" server ")?;
    push_plain_time(out, answer.server_timestamp)
}

/// Appends a timestamp, or `none`.
fn push_plain_time(out: &mut String, moment: Option<DateTime>) -> Result<(), AllocError>
    ensures { Adds result (string_bytes out.old) (string_bytes out.new) (IsPlainTime moment) }
{
    match moment {
        Some(moment) => push_moment(out, moment),
        None => out.push_str("none"),
    }
}
