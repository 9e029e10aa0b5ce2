//! What has its line appended, and whose fields are appended behind it.

ghost use Rattle.std.specs.Prelude.{◌≡◌, Some, string_bytes};
ghost use Rattle.std.specs.List.{concat};
ghost use Rattle.ua_fields.specs.Bodies.{message_kind as kind_of_message, opening_kind as kind_of_opening};
ghost use Rattle.ua_pair.specs.Telling.{AreMessageFields, ArePendingLines};
ghost use Rattle.ua_texts.specs.PlainLeaf.{Adds};
ghost use Rattle.ua_pair.specs.Told.{AreFieldsOf, IsHeaderOf, IsHeaderWithin, IsWithin, is_large as has_more};

use crate::line::push_left_out;
use crate::options::DissectOptions;
use std::alloc::{AllocError, Global};
use ua_builtin::{Octets, Source};
use ua_chunk::{Message, OpenChunk};
use ua_fields::{BodyKind, Side, push_body, push_header};

/// What has its line appended, and its fields to be appended after it.
#[derive(Debug, Drop)]
pub enum Pending {
    /// A message, and whether it is of no known kind.
    Message(Message, bool),
    /// The chunk of an OPN.
    Opening(OpenChunk),
}

/// How the body of a MSG of this side is decoded.
fn message_kind(side: Side) -> BodyKind
    ensures { result ≡ kind_of_message side }
{
    match side {
        Side::Client => BodyKind::Request,
        Side::Server => BodyKind::Response,
    }
}

/// How the body of an OPN of this side is decoded.
fn opening_kind(side: Side) -> BodyKind
    ensures { result ≡ kind_of_opening side }
{
    match side {
        Side::Client => BodyKind::OpenRequest,
        Side::Server => BodyKind::OpenResponse,
    }
}

/// Whether more bytes are left than this.
fn is_large<S: Source>(src: &S, largest: usize) -> bool
    ensures { result ≡ has_more largest (S.octets src.now) }
{
    src.left() > largest
}

/// Appends the lines of the fields of a body, or the line that they are left out.
fn push_within<S: Source>(
    alloc: Global,
    options: &DissectOptions,
    kind: BodyKind,
    src: &mut S,
    out: &mut String,
) -> Result<(), AllocError>
    ensures { Adds result (string_bytes out.old) (string_bytes out.new)
        (IsWithin options.now kind (S.octets src.old)) }
{
    if is_large(src, options.largest) {
        return push_left_out(out, options.largest);
    }
    push_body(alloc, kind, options.style(), src, out)
}

/// Appends the lines of the fields of a message of this side, if they are wanted.
fn push_fields(
    alloc: Global,
    options: &DissectOptions,
    message: &Message,
    out: &mut String,
) -> Result<(), AllocError>
    ensures { Adds result (string_bytes out.old) (string_bytes out.new)
        (AreFieldsOf options.now (kind_of_message options.now.side) (concat message.now)) }
{
    if options.fields {
        let mut body = message.source();
        let kind = message_kind(options.side);
        push_within(alloc, options, kind, &mut body, out)
    } else {
        Ok(())
    }
}

/// Appends the lines of the header of a message of this side, unless its body is large.
fn push_header_within<S: Source>(
    alloc: Global,
    options: &DissectOptions,
    src: &mut S,
    out: &mut String,
) -> Result<(), AllocError>
    ensures { Adds result (string_bytes out.old) (string_bytes out.new)
        (IsHeaderWithin options.now (S.octets src.old)) }
{
    if is_large(src, options.largest) {
        return Ok(());
    }
    push_header(alloc, options.side, options.style(), src, out)
}

/// Appends the lines of the header of a message of no known kind, if fields are wanted.
fn push_header_if(
    alloc: Global,
    options: &DissectOptions,
    unsupported: bool,
    message: &Message,
    out: &mut String,
) -> Result<(), AllocError>
    ensures { Adds result (string_bytes out.old) (string_bytes out.new)
        (IsHeaderOf options.now unsupported (concat message.now)) }
{
    if options.fields && unsupported {
        let mut body = message.source();
        push_header_within(alloc, options, &mut body, out)
    } else {
        Ok(())
    }
}

/// Appends the lines of the fields of a message, or of its header, if they are wanted.
fn push_message_fields(
    alloc: Global,
    options: &DissectOptions,
    unsupported: bool,
    message: &Message,
    out: &mut String,
) -> Result<(), AllocError>
    ensures { Adds result (string_bytes out.old) (string_bytes out.new)
        (AreMessageFields options.now unsupported (concat message.now)) }
{
    push_fields(alloc, options, message, out)?;
    push_header_if(alloc, options, unsupported, message, out)
}

/// Appends the lines of the fields of the body of an OPN of this side, if they are wanted.
fn push_opening_fields(
    alloc: Global,
    options: &DissectOptions,
    chunk: &OpenChunk,
    out: &mut String,
) -> Result<(), AllocError>
    ensures { Adds result (string_bytes out.old) (string_bytes out.new)
        (AreFieldsOf options.now (kind_of_opening options.now.side) chunk.now.body) }
{
    if options.fields {
        let mut body = Octets::new(&chunk.body);
        let kind = opening_kind(options.side);
        push_within(alloc, options, kind, &mut body, out)
    } else {
        Ok(())
    }
}

/// Appends the lines of the fields of what has its line appended, if they are wanted.
fn push_fields_of(
    alloc: Global,
    options: &DissectOptions,
    pending: &Pending,
    out: &mut String,
) -> Result<(), AllocError>
    ensures { Adds result (string_bytes out.old) (string_bytes out.new)
        (ArePendingLines options.now (Some pending.now)) }
{
    match pending {
        Pending::Message(message, unsupported) => {
            push_message_fields(alloc, options, *unsupported, message, out)
        }
        Pending::Opening(chunk) => push_opening_fields(alloc, options, chunk, out),
    }
}

/// Appends the lines of the fields of what has its line appended, if they are wanted; none where
/// nothing is pending. If an allocation fails, some of them may have been appended.
pub(crate) fn push_pending(
    alloc: Global,
    options: &DissectOptions,
    pending: &Option<Pending>,
    out: &mut String,
) -> Result<(), AllocError>
    ensures { Adds result (string_bytes out.old) (string_bytes out.new) (ArePendingLines options.now pending.now) }
{
    match pending {
        Some(pending) => push_fields_of(alloc, options, pending, out),
        None => Ok(()),
    }
}
