//! Which word of a command is to blame, and what its type takes.

ghost use Rattle.std.specs.Prelude.{◌≡◌, true, [], cond, codes, string_bytes, IfOk, IfSome};
ghost use Rattle.ua_nodes.specs.TypeName.{type_denoted};
ghost use Rattle.ua_session.specs.Words.{NamesNoNode};
ghost use Rattle.ua_program.specs.Blamed.{form_text_of, plain_form, value_told};
ghost use Rattle.ua_report.specs.Reasons.{StopsForFault};
ghost use Rattle.ua_report.specs.declared.fault.Fault.TheVariants.{Words};

use std::alloc::{AllocError, Global};
use ua_nodes::parse_type;
use ua_report::{Fault, Reason, Stop, blame, names_node};
use ua_session::WordFault;
use ua_words::{ReadNodes, WriteNode};

/// Whether a word names no NodeId.
fn is_no_node(alloc: Global, word: &str) -> Result<bool, AllocError>
    ensures { IfOk result (λ none. none ≡ true → NamesNoNode word.now) }
{
    Ok(!names_node(alloc, word)?)
}

/// The first of these words that names no NodeId.
fn bad_node<'a>(alloc: Global, words: &[&'a str]) -> Result<Option<&'a str>, AllocError>
    ensures { IfOk result (λ found. IfSome found (λ word. NamesNoNode word.now)) }
{
    for word in words {
        if is_no_node(alloc, word)? {
            return Ok(Some(*word));
        }
    }
    Ok(None)
}

/// A fault of the words of `ua read`, with the one that is to blame.
pub(crate) fn blame_read<'a>(alloc: Global, asked: &ReadNodes<'a>, fault: WordFault) -> Stop<'a>
    ensures { StopsForFault (Words fault) result }
{
    let told = Fault::Words(fault);
    match (fault, asked.range) {
        (WordFault::BadNode, _) => match bad_node(alloc, &asked.nodes) {
            Ok(Some(word)) => blame(alloc, told, word),
            // Never none: one of them names no NodeId.
            Ok(None) => Stop::Fault(told),
            Err(AllocError) => Stop::Fault(Fault::NoMemory),
        },
        (WordFault::BadRange, Some(range)) => blame(alloc, told, range),
        _ => Stop::Fault(told),
    }
}

/// A fault of the words of `ua write`, with the one that is to blame.
pub(crate) fn blame_write<'a>(alloc: Global, asked: &WriteNode<'a>, fault: WordFault) -> Stop<'a>
    ensures { StopsForFault (Words fault) result }
{
    let told = Fault::Words(fault);
    match fault {
        WordFault::BadNode => blame(alloc, told, asked.node),
        WordFault::BadValue => match value_text(alloc, asked) {
            Ok(text) => Stop::Because(told, Reason::Text(text)),
            Err(AllocError) => Stop::Fault(Fault::NoMemory),
        },
        _ => Stop::Fault(told),
    }
}

/// What is told of a type that is none, or else of a value that is none of its type.
fn value_text(alloc: Global, asked: &WriteNode<'_>) -> Result<String, AllocError>
    ensures { IfOk result
        (λ text. string_bytes text ≡ value_told asked.now.style.plain asked.now.kind.now asked.now.value.now
        (type_denoted asked.now.kind.now)) }
{
    let (kind, value) = (asked.kind, asked.value);
    let Some((id, array)) = parse_type(kind) else {
        return format!(in alloc; "{kind} (no such type)");
    };
    let mut text = format!(in alloc; "{value} ({kind} takes ")?;
    text.push_str(form_besides(asked.style.plain, id))?;
    text.push_str(form_of(id))?;
    text.push_str(end_of(array))?;
    Ok(text)
}

/// The same where people write values; else nothing.
fn form_besides(plain: bool, kind: u8) -> &'static str
    ensures { result.now ≡ cond plain (plain_form kind) [] }
{
    if plain { plain_form(kind) } else { "" }
}

/// The end of what is told, of an array or of one value.
fn end_of(array: bool) -> &'static str
    ensures { result.now ≡ cond array (codes ", with commas between)") (codes ")") }
{
    if array { ", with commas between)" } else { ")" }
}

/// What a type takes with `--plain` besides.
fn plain_form(kind: u8) -> &'static str
    ensures { result.now ≡ plain_form kind }
{
    match kind {
        10 | 11 => "a decimal, or ",
        13 => "a time as 2026-11-27T08:00:00Z, or ",
        _ => "",
    }
}

/// What a type takes, by its number (OPC 10000-6, 5.1.2).
fn form_of(kind: u8) -> &'static str
    ensures { result.now ≡ form_text_of kind }
{
    match kind {
        1 => "true or false",
        2 => "-128 to 127",
        3 => "0 to 255",
        4 => "-32768 to 32767",
        5 => "0 to 65535",
        6 => "-2147483648 to 2147483647",
        7 => "0 to 4294967295",
        8 => "-9223372036854775808 to 9223372036854775807",
        9 => "0 to 18446744073709551615",
        10 | 19 => "0x and 8 hexadecimal digits",
        11 => "0x and 16 hexadecimal digits",
        13 => "ticks of 100 ns since 1601",
        14 => "a Guid as 00000001-0002-0003-0405-060708090a0b",
        15 => "base64",
        // A String takes any text, so that one is to blame for its length alone.
        _ => "a shorter text",
    }
}
