//! Files.

ghost use Rattle.std.specs.Prelude.{◌≡◌, IfOk, IfErr, IfSome, string_bytes};
ghost use Rattle.ua_nodes.specs.NodeFile.{WriteNodes, node_lines};
ghost use Rattle.ua_nodes.specs.Sound.{AreNodesSound};
ghost use Rattle.ua_report.specs.Reasons.{StopsAtFile, StopsAtNodes};
ghost use Rattle.ua_report.specs.Refused.{RefusesNodes};
ghost use Rattle.ua_report.specs.Forms.{form_given};

use crate::fault::Fault;
use crate::output::Stop;
use crate::reason::{Reason, blame_line, cannot_read};
use std::alloc::{AllocError, Global};
use std::fs;
use std::io::Read;
use std::rt::Files;
use ua_answers::exact_lines;
use ua_nodes::{LoadFault, NodeTable};

/// The bytes of a file.
pub fn read_file<'a, R: Files + AllocGlobal>(rt: &R, file: &'a str) -> Result<Vec<u8>, Stop<'a>>
    ensures { IfErr result (λ stop. StopsAtFile file.entry stop) }
{
    match fs::read(rt, file) {
        Ok(octets) => Ok(octets),
        Err(error) => Err(cannot_read(file, error)),
    }
}

/// A file, open for reading.
pub fn open_file<'a, R: Files>(rt: &R, file: &'a str) -> Result<R::File, Stop<'a>>
    ensures { IfErr result (λ stop. StopsAtFile file.entry stop) }
{
    match fs::open(rt, file) {
        Ok(opened) => Ok(opened),
        Err(error) => Err(cannot_read(file, error)),
    }
}

/// The bytes of the input, to its end; in faults it is a file of this name.
fn read_input<'a, I: Read>(alloc: Global, file: &'a str, input: &mut I) -> Result<Vec<u8>, Stop<'a>>
    ensures octets { IfOk result (λ octets. IfSome (I.remaining input.old) (λ all. octets.items ≡ all)) }
    ensures faults { IfErr result (λ stop. StopsAtFile file.entry stop) }
{
    let mut octets = Vec::new(alloc);
    match input.read_to_end(&mut octets) {
        Ok(_) => Ok(octets),
        Err(error) => Err(cannot_read(file, error)),
    }
}

/// The text of a file with these bytes; one that is not UTF-8 cannot be read.
fn text_of<'a>(alloc: Global, file: &'a str, octets: Vec<u8>) -> Result<String, Stop<'a>>
    ensures text { IfOk result (λ text. string_bytes text ≡ octets.items) }
    ensures faults { IfErr result (λ stop. StopsAtFile file.entry stop) }
{
    match String::from_utf8(octets) {
        Ok(text) => Ok(text),
        Err(error) => {
            let text = format!(in alloc; "{error}")?;
            Err(Stop::Because(Fault::CannotRead(file), Reason::Text(text)))
        }
    }
}

/// The text of a file; one that is not UTF-8 cannot be read.
pub(crate) fn read_text<'a, R: Files + AllocGlobal>(
    rt: &R,
    file: &'a str,
) -> Result<String, Stop<'a>>
    ensures { IfErr result (λ stop. StopsAtFile file.entry stop) }
{
    let octets = read_file(rt, file)?;
    text_of(rt.alloc(), file, octets)
}

/// The text itself; or its lines in their exact form, where people write decimals and times in it.
pub fn exact_form(alloc: Global, text: String, plain: bool) -> Result<String, AllocError>
    ensures { IfOk result (λ lines. string_bytes lines ≡ form_given plain (string_bytes text)) }
{
    if plain {
        exact_lines(alloc, &text)
    } else {
        Ok(text)
    }
}

/// The text of a node file or of a script, in its exact form where people write decimals and times
/// in it.
pub fn read_lines<'a, R: Files + AllocGlobal>(
    rt: &R,
    file: &'a str,
    plain: bool,
) -> Result<String, Stop<'a>>
    ensures { IfErr result (λ stop. StopsAtFile file.entry stop) }
{
    let text = read_text(rt, file)?;
    Ok(exact_form(rt.alloc(), text, plain)?)
}

/// The same of the input, to its end.
fn read_input_lines<'a, I: Read>(
    alloc: Global,
    file: &'a str,
    plain: bool,
    input: &mut I,
) -> Result<String, Stop<'a>>
    ensures lines { IfOk result
        (λ lines. IfSome (I.remaining input.old) (λ all. string_bytes lines ≡ form_given plain all)) }
    ensures faults { IfErr result (λ stop. StopsAtFile file.entry stop) }
{
    let octets = read_input(alloc, file, input)?;
    let text = text_of(alloc, file, octets)?;
    Ok(exact_form(alloc, text, plain)?)
}

/// The text of a node file, or of the input where it is named `-`, in its exact form where people
/// write decimals and times in it.
pub fn read_nodes<'a, R: Files + AllocGlobal, I: Read>(
    rt: &R,
    file: &'a str,
    plain: bool,
    input: &mut I,
) -> Result<String, Stop<'a>>
    ensures { IfErr result (λ stop. StopsAtFile file.entry stop) }
{
    if file == "-" {
        return read_input_lines(rt.alloc(), file, plain, input);
    }
    read_lines(rt, file, plain)
}

/// The nodes that the lines of a text write.
pub fn parse_nodes<'a>(alloc: Global, text: &str) -> Result<NodeTable, Fault<'a>>
    ensures nodes { IfOk result (λ nodes. WriteNodes (node_lines text.now) nodes) }
    ensures sound { IfOk result (λ nodes. AreNodesSound nodes) }
    ensures faults { IfErr result (λ fault. RefusesNodes text.now fault) }
{
    match NodeTable::load(alloc, text) {
        Ok(nodes) => Ok(nodes),
        Err(LoadFault::Line { line, reason }) => Err(Fault::Line { line, reason }),
        Err(LoadFault::OutOfMemory) => Err(Fault::NoMemory),
    }
}

/// The same, with the field that is to blame for a bad line.
#[tactic(auto, using(crate::proofs::Stops::stops_at_nodes))]
pub fn load_nodes<'a>(alloc: Global, text: &str) -> Result<NodeTable, Stop<'a>>
    ensures nodes { IfOk result (λ nodes. WriteNodes (node_lines text.now) nodes) }
    ensures sound { IfOk result (λ nodes. AreNodesSound nodes) }
    ensures faults { IfErr result (λ stop. StopsAtNodes text.now stop) }
{
    match parse_nodes(alloc, text) {
        Ok(nodes) => Ok(nodes),
        Err(fault) => Err(blame_line(alloc, text, fault)),
    }
}
