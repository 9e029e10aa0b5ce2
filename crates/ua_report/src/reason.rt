//! The reason of a fault beside its own text.

ghost use Rattle.std.specs.Prelude.{◌≡◌, ◌++◌, false, option_map, string_bytes, IfOk, IfSome, OnOk};
ghost use Rattle.ua_session.specs.Words.{NamesNoNode};
ghost use Rattle.ua_report.specs.Known.{code_in_fault, known_text, reason_line, word_line};
ghost use Rattle.ua_report.specs.Reasons.{StopsForFault, StopsAtFile};
ghost use Rattle.ua_report.specs.declared.fault.Fault.TheVariants.{CannotConnect, CannotListen, Looping};

use crate::fault::Fault;
use crate::known::{code_of, push_code_line};
use crate::loop_fault::LoopFault;
use crate::output::Stop;
use std::alloc::{AllocError, Global};
use std::fmt::Write;
use std::io;
use ua_builtin::{NodeId, TextFault};
use ua_nodes::{LineReason, MOST_OCTETS, ValueFault, parse_type, parse_value, without_return};
use ua_texts::push_escaped;

/// The reason of a fault beside its own text, which `--why` prints.
#[derive(Drop, Debug)]
pub enum Reason {
    /// The error of the system.
    System(io::Error),
    /// The text to blame: a field of a line, a line, a word, what is wrong with a file, or what a
    /// server says.
    Text(String),
    /// The place of the first byte of a file that is no hexadecimal digit, counted from 0.
    NoDigit(u64),
    /// That the last digit of a file has no pair.
    HalfPair,
}

/// The fault of a file that cannot be read, with the system's error.
pub fn cannot_read<'a>(file: &'a str, error: io::Error) -> Stop<'a>
    ensures { StopsAtFile file.entry result }
{
    match error.kind() {
        io::ErrorKind::OutOfMemory => Stop::Fault(Fault::NoMemory),
        _ => Stop::Because(Fault::CannotRead(file), Reason::System(error)),
    }
}

/// The fault of a record's file that cannot be written, with the system's error.
pub(crate) fn cannot_record<'a>(fault: Fault<'a>, error: io::Error) -> Stop<'a>
    ensures { StopsForFault fault.entry result }
{
    match error.kind() {
        io::ErrorKind::OutOfMemory => Stop::Fault(Fault::NoMemory),
        _ => Stop::Because(fault, Reason::System(error)),
    }
}

/// The fault of a port that cannot be listened on, or gives no connection, with the system's error.
pub fn cannot_listen<'a>(error: io::Error) -> Stop<'a>
    ensures { StopsForFault CannotListen result }
{
    Stop::Because(Fault::CannotListen, Reason::System(error))
}

/// The fault of a port that accepts no connection, with the system's error.
pub fn cannot_connect<'a>(error: io::Error) -> Stop<'a>
    ensures { StopsForFault CannotConnect result }
{
    Stop::Because(Fault::CannotConnect, Reason::System(error))
}

/// Appends the line of a reason. In a text, each byte in UTF-8 of a control character is written as
/// `\x` and two digits, and a backslash is doubled.
fn push_reason(out: &mut String, reason: &Reason) -> Result<(), AllocError>
    ensures { IfSome (reason_line reason.now)
        (λ line. OnOk result (string_bytes out.new ≡ string_bytes out.old ++ line)) }
{
    match reason {
        Reason::System(error) => write!(out, "  because {error}\n"),
        Reason::Text(text) => push_word(out, text),
        Reason::NoDigit(place) => write!(out, "  because no digit at index {place}\n"),
        Reason::HalfPair => out.push_str("  because an odd number of digits\n"),
    }
}

/// Appends the line of what is known of a fault: of its StatusCode, with the text of a server, or
/// of its reason.
pub(crate) fn push_known(
    out: &mut String,
    fault: &Fault<'_>,
    reason: Option<&Reason>,
) -> Result<(), AllocError>
    ensures { IfSome (known_text (code_in_fault fault.now) (option_map (λ r. r.now) reason.entry))
        (λ line. OnOk result (string_bytes out.new ≡ string_bytes out.old ++ line)) }
{
    match (code_of(fault), reason) {
        (Some(code), Some(Reason::Text(said))) => push_code_line(out, code, Some(said)),
        (Some(code), _) => push_code_line(out, code, None),
        (None, Some(reason)) => push_reason(out, reason),
        (None, None) => Ok(()),
    }
}

/// Appends the line of a word to blame.
pub fn push_word(out: &mut String, word: &str) -> Result<(), AllocError>
    ensures { OnOk result (string_bytes out.new ≡ string_bytes out.old ++ word_line word.now) }
{
    out.push_str("  because ")?;
    push_escaped(out, word)?;
    out.push_str("\n")
}

/// A fault with the text that is blamed for it.
pub fn blame<'a>(alloc: Global, fault: Fault<'a>, text: &str) -> Stop<'a>
    ensures { StopsForFault fault.entry result }
{
    match String::from_str(alloc, text) {
        Ok(text) => Stop::Because(fault, Reason::Text(text)),
        Err(_) => Stop::Fault(Fault::NoMemory),
    }
}

/// A fault of a node file with this text: that of a bad line with the field that its reason is
/// against.
pub fn blame_line<'a>(alloc: Global, text: &str, fault: Fault<'a>) -> Stop<'a>
    ensures { StopsForFault fault.entry result }
{
    let (Fault::Line { line, reason } | Fault::NodesLine { line, reason }) = fault else {
        return Stop::Fault(fault);
    };
    blame(alloc, fault, field_of(line_at(text, line), reason))
}

/// A fault of a script with this text: that of a bad line with the field, or the line, that is to
/// blame.
pub fn blame_step<'a>(alloc: Global, text: &str, fault: LoopFault) -> Stop<'a>
    ensures { StopsForFault (Looping fault) result }
{
    let LoopFault::ScriptLine(number) = fault else {
        return Stop::Fault(Fault::Looping(fault));
    };
    blame_text(alloc, line_at(text, number), fault)
}

/// The same, where the line is known.
pub fn blame_text<'a>(alloc: Global, line: &str, fault: LoopFault) -> Stop<'a>
    ensures { StopsForFault (Looping fault) result }
{
    match bad_field(alloc, line) {
        Ok(field) => blame(alloc, Fault::Looping(fault), field),
        Err(AllocError) => Stop::Fault(Fault::NoMemory),
    }
}

/// The line of a number, counted from 1, without one CR at its end.
fn line_at(text: &str, number: usize) -> &str {
    let line = text.split('\n').nth(number.saturating_sub(1));
    // Never: a fault names a line of the text.
    without_return(line.unwrap_or(""))
}

/// The field of a line of a node file that a reason is against; the line, where it has not five
/// fields.
fn field_of(line: &str, reason: LineReason) -> &str {
    let place = match reason {
        LineReason::Fields => return line,
        LineReason::Node | LineReason::Duplicate => 0,
        LineReason::Access => 1,
        LineReason::Name => 2,
        LineReason::Kind => 3,
        LineReason::Value => 4,
    };
    line.split('\t').nth(place).unwrap_or("")
}

/// The first field of a line of a script for which it asks for nothing; the line, where it has too
/// few fields or too many, or where each of them is good.
fn bad_field(alloc: Global, line: &str) -> Result<&str, AllocError> {
    let fields: Vec<&str> = line.split('\t').collect(alloc)?;
    let Some((word, operands)) = fields.split_first() else {
        return Ok(line);
    };
    match *word {
        "read" => bad_in_read(alloc, line, operands),
        "write" => bad_in_write(alloc, line, operands),
        "sleep" => Ok(bad_in_sleep(line, operands)),
        "renew" | "endpoints" => Ok(line),
        _ => Ok(word),
    }
}

/// The node or the range of elements behind `read` for which it asks for nothing; the line, where
/// both are good, or are not all there is.
fn bad_in_read<'t>(
    alloc: Global,
    line: &'t str,
    operands: &[&'t str],
) -> Result<&'t str, AllocError> {
    let (node, range) = match operands {
        [node] => (*node, ""),
        [node, range] => (*node, *range),
        _ => return Ok(line),
    };
    if !is_node(alloc, node)? {
        return Ok(node);
    }
    if range.len() > MOST_OCTETS {
        return Ok(range);
    }
    Ok(line)
}

/// The node, the type or the value behind `write` for which it asks for nothing; the line, where
/// all are good, or are not all there is.
fn bad_in_write<'t>(
    alloc: Global,
    line: &'t str,
    operands: &[&'t str],
) -> Result<&'t str, AllocError> {
    let [node, kind, text] = operands else {
        return Ok(line);
    };
    if !is_node(alloc, node)? {
        return Ok(node);
    }
    bad_value(alloc, line, kind, text)
}

/// The time behind `sleep`; the line, where it is not all there is.
fn bad_in_sleep<'t>(line: &'t str, operands: &[&'t str]) -> &'t str {
    match operands {
        [time] => time,
        _ => line,
    }
}

/// Whether the field of a script names a NodeId.
fn is_node(alloc: Global, text: &str) -> Result<bool, AllocError> {
    if text.len() > MOST_OCTETS {
        return Ok(false);
    }
    names_node(alloc, text)
}

/// Whether a text names a NodeId.
pub fn names_node(alloc: Global, text: &str) -> Result<bool, AllocError>
    ensures { IfOk result (λ named. named ≡ false → NamesNoNode text.now) }
{
    match NodeId::parse_text(alloc, text) {
        Ok(node) => {
            drop(node);
            Ok(true)
        }
        Err(TextFault::NotNodeId) => Ok(false),
        Err(TextFault::OutOfMemory) => Err(AllocError),
    }
}

/// A type that is none, or a text that is no value of it; the line, where both are good.
fn bad_value<'t>(
    alloc: Global,
    line: &'t str,
    kind: &'t str,
    text: &'t str,
) -> Result<&'t str, AllocError> {
    let Some((known, array)) = parse_type(kind) else {
        return Ok(kind);
    };
    match parse_value(alloc, known, array, text) {
        Ok(_) => Ok(line),
        Err(ValueFault::NotValue) => Ok(text),
        Err(ValueFault::OutOfMemory) => Err(AllocError),
    }
}
