//! The lines of what a chunk completes, and of the body of an OPN, without those of its fields.

ghost use Rattle.std.specs.Prelude.{◌≡◌, ◌++◌, ◌&&◌, [], ℕ, List, Some, cond, length, IfOk, OnOk};
ghost use Rattle.std.specs.Prelude.{string_bytes};
ghost use Rattle.std.specs.List.{concat};
ghost use Rattle.ua_chunk.specs.Item.Item.{Whole};
ghost use Rattle.ua_chunk.specs.View.{item_of};
ghost use Rattle.ua_opening.specs.Message.{id_of_body};
ghost use Rattle.ua_pair.specs.Lines.{message_line};
ghost use Rattle.ua_pair.specs.Names.{encoding_text, is_unsupported, message_title};
ghost use Rattle.ua_pair.specs.Telling.{ArePendingLines, none_pending};
ghost use Rattle.ua_pair.specs.Told.{IsItemText, IsOpenedText};

use crate::encoding::push_encoding;
use crate::fault::DissectFault;
use crate::line::{push_aborted_line, push_message_line, push_message_start, push_newline};
use crate::name::{message_name, opening_name};
use crate::options::DissectOptions;
use crate::pending::Pending;
use std::alloc::{AllocError, Global};
use ua_chunk::{Delivered, Message, OpenChunk};

/// Appends the encoding of a message of no known kind, which follows its name, if names are wanted.
fn push_unknown_encoding(
    alloc: Global,
    names: bool,
    unsupported: bool,
    message: &Message,
    lines: &mut String,
) -> Result<(), AllocError>
    ensures { OnOk result (string_bytes lines.new ≡ string_bytes lines.old
        ++ cond (names && unsupported) (encoding_text (id_of_body (concat message.now))) []) }
{
    if names && unsupported {
        push_encoding(alloc, &mut message.source(), lines)
    } else {
        Ok(())
    }
}

/// Appends the line of a message: whether it is of no known kind.
fn push_message_head(
    alloc: Global,
    options: &DissectOptions,
    request: u32,
    message: &Message,
    lines: &mut String,
) -> Result<bool, AllocError>
    ensures line { OnOk result (string_bytes lines.new ≡ string_bytes lines.old ++ message_line request
        (length (concat message.now)) (message_title options.now.names options.now.side (concat message.now))) }
    ensures unsupported { IfOk result (λ unsupported. unsupported ≡ is_unsupported options.now.side
        (concat message.now)) }
{
    let (name, unsupported) = message_name(alloc, options.side, message)?;
    push_message_start(lines, request, message.len(), name)?;
    push_unknown_encoding(alloc, options.names, unsupported, message, lines)?;
    push_newline(lines)?;
    Ok(unsupported)
}

/// Appends the line of a message, whose fields are pending then.
fn push_message(
    alloc: Global,
    options: &DissectOptions,
    request: u32,
    message: Message,
    lines: &mut String,
) -> Result<Pending, AllocError>
    ensures { IfOk result (λ pending. (more : List ℕ) → ArePendingLines options.now (Some pending) more
        → (text : List ℕ) × (string_bytes lines.new ++ more ≡ string_bytes lines.old ++ text)
        × IsItemText options.now (Whole request (concat message)) text) }
{
    let unsupported = push_message_head(alloc, options, request, &message, lines)?;
    Ok(Pending::Message(message, unsupported))
}

/// Appends the line of what a chunk completes, and returns the message whose fields are pending.
pub(crate) fn push_delivered(
    alloc: Global,
    options: &DissectOptions,
    delivered: Delivered,
    lines: &mut String,
) -> Result<Option<Pending>, AllocError>
    ensures { IfOk result (λ pending. (more : List ℕ) → ArePendingLines options.now pending more
        → (text : List ℕ) × (string_bytes lines.new ++ more ≡ string_bytes lines.old ++ text)
        × IsItemText options.now (item_of delivered) text) }
{
    match delivered {
        Delivered::Whole(request, message) => {
            let pending = push_message(alloc, options, request, message, lines)?;
            Ok(Some(pending))
        }
        Delivered::Aborted(request, code, _) => {
            push_aborted_line(lines, options.names, request, code)?;
            Ok(None)
        }
    }
}

/// Appends the line of the body of an OPN, whose fields are pending then.
pub(crate) fn push_opened(
    alloc: Global,
    options: &DissectOptions,
    chunk: OpenChunk,
    lines: &mut String,
) -> Result<Pending, AllocError>
    ensures { IfOk result (λ pending. (more : List ℕ) → ArePendingLines options.now (Some pending) more
        → (text : List ℕ) × (string_bytes lines.new ++ more ≡ string_bytes lines.old ++ text)
        × IsOpenedText options.now chunk text) }
{
    let name = opening_name(alloc, options.side, &chunk.body)?;
    push_message_line(lines, chunk.request, chunk.body.len(), name)?;
    Ok(Pending::Opening(chunk))
}

/// What is returned for a UA TCP message that leaves no fields pending.
pub(crate) fn without_pending(
    told: Result<(), DissectFault>,
) -> Result<Option<Pending>, DissectFault>
    ensures { result ≡ none_pending told }
{
    match told {
        Ok(()) => Ok(None),
        Err(fault) => Err(fault),
    }
}
