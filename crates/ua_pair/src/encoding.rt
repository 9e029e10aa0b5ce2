//! The encodings of messages, by their ids and names.

ghost use Rattle.std.specs.Prelude.{◌≡◌, ◌++◌, Some, map, option_map, slice_get, string_bytes, OnOk};
ghost use Rattle.ua_opening.specs.Message.{id_of_body};
ghost use Rattle.ua_texts.specs.Names.{name_in};
ghost use Rattle.ua_pair.specs.Encodings.{encodings};
ghost use Rattle.ua_pair.specs.Names.{encoding_text, name_of_encoding};

use crate::encodings::{ENCODING_NAMES, ENCODING_NUMBERS};
use std::alloc::{AllocError, Global};
use ua_builtin::{MOST_LEVELS, NodeId, ReadFault, Source, Wire};
use ua_fields::push_node;
use ua_opening::standard_number;

/// The name of the message whose binary encoding has this number (OPC 10000-6, A.3), where the
/// table has it.
pub fn encoding_name(number: u32) -> Option<&'static str>
    ensures { option_map (λ name. name.now) result ≡ name_in encodings number }
{
    match known_numbers().binary_search(&number) {
        Ok(place) => name_at(place),
        Err(_) => None,
    }
}

/// The numbers of the table, in ascending order.
fn known_numbers() -> &'static [u32]
    ensures { result.now ≡ map (λ row. row.0) encodings }
{
    &ENCODING_NUMBERS
}

/// The name at an index of the table.
fn name_at(place: usize) -> Option<&'static str>
    ensures { option_map (λ name. name.now) result ≡ slice_get (map (λ row. row.1) encodings) place }
{
    ENCODING_NAMES.lines().nth(place)
}

/// The name of the message whose encoding has this id.
fn name_of_id(id: &NodeId) -> Option<&'static str>
    ensures { option_map (λ name. name.now) result ≡ name_of_encoding id.now }
{
    encoding_name(standard_number(id)?)
}

/// Appends the NodeId of an encoding, and its standard name if it has one, each after a space.
fn push_id(alloc: Global, out: &mut String, id: &NodeId) -> Result<(), AllocError>
    ensures { OnOk result (string_bytes out.new ≡ string_bytes out.old ++ encoding_text (Some id.now)) }
{
    out.push_str(" ")?;
    push_node(alloc, out, id)?;
    match name_of_id(id) {
        Some(name) => {
            out.push_str(" ")?;
            out.push_str(name)
        }
        None => Ok(()),
    }
}

/// Appends the NodeId of the encoding at the start of a body, and its name, each after a space;
/// nothing if the body starts with none.
pub fn push_encoding<S: Source>(
    alloc: Global,
    src: &mut S,
    out: &mut String,
) -> Result<(), AllocError>
    ensures { OnOk result
        (string_bytes out.new ≡ string_bytes out.old ++ encoding_text (id_of_body (S.octets src.old))) }
{
    match NodeId::read_value(alloc, src, MOST_LEVELS) {
        Ok(id) => push_id(alloc, out, &id),
        Err(ReadFault::NoValue) => Ok(()),
        Err(ReadFault::OutOfMemory) => Err(AllocError),
    }
}
