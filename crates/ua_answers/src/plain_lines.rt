//! Texts of values after their types, and the lines that contain them, in the human-readable form.

ghost use Rattle.std.specs.Prelude.{◌≡◌, ◌++◌, ◌∷◌, [], IfOk, OnOk, string_bytes};
ghost use Rattle.ua_answers.specs.PlainLines.{exact_fields, exact_line, exact_lines as exact_lines_of};
ghost use Rattle.ua_answers.specs.PlainLines.{exact_typed as exact_typed_of};

use crate::plain_read::push_exact_text;
use std::alloc::{AllocError, Global};
use ua_nodes::{parse_type, without_return};

/// The text of a value after the name of its type, with the bit pattern in place of each decimal
/// and the ticks in place of each time; unchanged if the name is no type.
pub fn exact_typed(alloc: Global, kind: &str, text: &str) -> Result<String, AllocError>
    ensures { IfOk result (λ exact. string_bytes exact ≡ exact_typed_of kind.now text.now) }
{
    let mut exact = String::new(alloc);
    push_exact_typed(&mut exact, kind, text)?;
    Ok(exact)
}

/// Appends the text of a value after the name of its type, in its exact form.
fn push_exact_typed(out: &mut String, kind: &str, text: &str) -> Result<(), AllocError>
    ensures { OnOk result (string_bytes out.new ≡ string_bytes out.old ++ exact_typed_of kind.now text.now) }
{
    match parse_type(kind) {
        Some((kind, array)) => push_exact_text(out, kind, array, text),
        None => out.push_str(text),
    }
}

/// The lines of a node file or of a script, with the value at the end of a line, after its type, in
/// its exact form. Each line keeps its number, and ends in LF.
pub fn exact_lines(alloc: Global, text: &str) -> Result<String, AllocError>
    ensures { IfOk result (λ exact. string_bytes exact ≡ exact_lines_of text.now) }
{
    let mut exact = String::new(alloc);
    for line in text.split('\n') {
        push_exact_line(&mut exact, without_return(line))?;
    }
    Ok(exact)
}

/// Appends a line in its exact form.
fn push_exact_line(out: &mut String, line: &str) -> Result<(), AllocError>
    ensures { OnOk result (string_bytes out.new ≡ string_bytes out.old ++ exact_line line.now) }
{
    push_exact_fields(out, line)?;
    out.push_str("\n")
}

/// Appends the fields of a line, separated by tabs, and the last one in its exact form.
fn push_exact_fields(out: &mut String, line: &str) -> Result<(), AllocError>
    ensures { OnOk result (string_bytes out.new ≡ string_bytes out.old ++ exact_fields line.now) }
{
    let mut kind = "";
    let mut rest = line;
    'fields: while let Some((field, more)) = rest.split_once('\t') {
        push_field(out, field)?;
        kind = field;
        rest = more;
    }
    push_exact_typed(out, kind, rest)
}

/// Appends a field, and a tab after it.
fn push_field(out: &mut String, field: &str) -> Result<(), AllocError>
    ensures { OnOk result (string_bytes out.new ≡ string_bytes out.old ++ (field.now ++ 9 ∷ [])) }
{
    out.push_str(field)?;
    out.push_str("\t")
}
