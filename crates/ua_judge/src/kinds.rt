//! The kinds of requests and replies, by the encodings that their bodies begin with.

ghost use Rattle.std.specs.List.{concat};
ghost use Rattle.std.specs.Prelude.{◌≡◌, not, IfOk};
ghost use Rattle.ua_channel.specs.ClientTold.ClientTold.{Answered};
ghost use Rattle.ua_judge.specs.Kinds.{encoding_of, is_fit_answer, is_misfit};
ghost use Rattle.ua_judge.specs.Kinds.{is_reply_to, kind_asked_under, request_kind_of};

use crate::named::Named;
use std::alloc::{AllocError, Global};
use ua_builtin::{MOST_LEVELS, NodeId, Octets, ReadFault, Source, Wire};
use ua_chunk::Message;
use ua_opening::standard_number;
use ua_services::{RequestKind, ResponseKind};

/// Whether an encoding is that of the response to a request of this kind, or of a ServiceFault.
fn is_reply_to(kind: RequestKind, number: u32) -> bool
    ensures { result ≡ is_reply_to kind number }
{
    number == kind.own_answer().encoding() || number == ResponseKind::ServiceFault.encoding()
}

/// The number of the encoding that a body begins with.
fn encoding_of<S: Source>(alloc: Global, body: &mut S) -> Result<Option<u32>, AllocError>
    ensures { IfOk result (λ number. number ≡ encoding_of (S.octets body.old)) }
{
    match NodeId::read_value(alloc, body, MOST_LEVELS) {
        Ok(id) => Ok(standard_number(&id)),
        Err(ReadFault::NoValue) => Ok(None),
        Err(ReadFault::OutOfMemory) => Err(AllocError),
    }
}

/// The kind of request that a body begins as.
pub(crate) fn request_kind_of(alloc: Global, body: &[u8]) -> Result<Option<RequestKind>, AllocError>
    ensures { IfOk result (λ kind. kind ≡ request_kind_of body.now) }
{
    match encoding_of(alloc, &mut Octets::new(body))? {
        Some(number) => Ok(RequestKind::from_encoding(number)),
        None => Ok(None),
    }
}

/// Whether a reply answers a request of this kind.
fn answers(alloc: Global, kind: RequestKind, reply: &Message) -> Result<bool, AllocError>
    ensures { IfOk result (λ fit. fit ≡ is_fit_answer (Some kind) (concat reply.now)) }
{
    match encoding_of(alloc, &mut reply.source())? {
        Some(number) => Ok(is_reply_to(kind, number)),
        None => Ok(false),
    }
}

/// The kind of the request under one of our RequestIds.
fn kind_asked(requests: &[Named], id: u32) -> Option<RequestKind>
    ensures { result ≡ kind_asked_under requests.now id }
{
    if id < 2 {
        return None;
    }
    match requests.get((id - 2) as usize) {
        Some(request) => request.kind,
        None => None,
    }
}

/// Whether a reply to one of these requests is of another kind.
pub(crate) fn is_misfit(
    alloc: Global,
    requests: &[Named],
    id: u32,
    reply: &Message,
) -> Result<bool, AllocError>
    ensures { IfOk result (λ misfit. misfit ≡ is_misfit requests.now (Answered id (concat reply.now))) }
{
    match kind_asked(requests, id) {
        Some(kind) => Ok(!answers(alloc, kind, reply)?),
        None => Ok(false),
    }
}
