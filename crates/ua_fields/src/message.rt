//! Messages as lines.

ghost use Rattle.std.specs.Prelude.{string_bytes};
ghost use Rattle.ua_fields.specs.Messages.{AreMessageLines};
ghost use Rattle.ua_texts.specs.PlainLeaf.{Adds};

use crate::lines::{Lines, Place};
use crate::style::FieldStyle;
use std::alloc::{AllocError, Global};
use ua_services::{OpenAnswer, Request, Response};

impl Lines for Request {
    ghost use Rattle.ua_fields.specs.Messages.{request_tree};

    ghost tree = { request_tree };

    fn is_structure() -> bool {
        true
    }

    fn push_lines(&self, alloc: Global, out: &mut String, place: Place) -> Result<(), AllocError> {
        match self {
            Request::GetEndpoints(message) => message.push_lines(alloc, out, place),
            Request::CreateSession(message) => message.push_lines(alloc, out, place),
            Request::ActivateSession(message) => message.push_lines(alloc, out, place),
            Request::CloseSession(message) => message.push_lines(alloc, out, place),
            Request::Read(message) => message.push_lines(alloc, out, place),
            Request::Write(message) => message.push_lines(alloc, out, place),
        }
    }
}

impl Lines for Response {
    ghost use Rattle.ua_fields.specs.Messages.{response_tree};

    ghost tree = { response_tree };

    fn is_structure() -> bool {
        true
    }

    fn push_lines(&self, alloc: Global, out: &mut String, place: Place) -> Result<(), AllocError> {
        match self {
            Response::GetEndpoints(message) => message.push_lines(alloc, out, place),
            Response::CreateSession(message) => message.push_lines(alloc, out, place),
            Response::ActivateSession(message) => message.push_lines(alloc, out, place),
            Response::CloseSession(message) => message.push_lines(alloc, out, place),
            Response::Read(message) => message.push_lines(alloc, out, place),
            Response::Write(message) => message.push_lines(alloc, out, place),
            Response::ServiceFault(message) => message.push_lines(alloc, out, place),
        }
    }
}

impl Lines for OpenAnswer {
    ghost use Rattle.ua_fields.specs.Messages.{open_answer_tree};

    ghost tree = { open_answer_tree };

    fn is_structure() -> bool {
        true
    }

    fn push_lines(&self, alloc: Global, out: &mut String, place: Place) -> Result<(), AllocError> {
        match self {
            OpenAnswer::Open(message) => message.push_lines(alloc, out, place),
            OpenAnswer::Fault(message) => message.push_lines(alloc, out, place),
        }
    }
}

/// Appends the lines of a message.
#[tactic(auto, using(crate::proofs::Behind::message_added))]
pub(crate) fn push_message<T: Lines>(
    alloc: Global,
    style: FieldStyle,
    message: &T,
    out: &mut String,
) -> Result<(), AllocError>
    ensures { Adds result (string_bytes out.old) (string_bytes out.new)
        (AreMessageLines style (T.tree message.now)) }
{
    let place = Place {
        style,
        margin: "  ",
        path: "",
    };
    message.push_lines(alloc, out, place)
}
