//! The requests that a server answered, and who observes them.

ghost use Rattle.std.specs.Prelude.{◌≡◌};
ghost use Rattle.ua_server.specs.Happening.{IsTold};
ghost use Rattle.ua_server.specs.Requests.{items_asked};

use crate::attributes::item_count;
use ua_builtin::StatusCode;
use ua_services::{Request, RequestKind};

/// A request that was answered.
#[derive(Clone, Copy, Debug)]
pub struct AnsweredRequest {
    /// Its kind; `None` where the answered message is no request of these services.
    pub kind: Option<RequestKind>,
    /// If it is no such request, the number of the encoding that it begins with, if that is one of
    /// namespace 0.
    pub encoding: Option<u32>,
    /// How many items it asks for: those of its array, where its service is one with items, else 0.
    pub items: usize,
    /// The ServiceResult of its response; where the client takes no response of that size, the code
    /// of the abort that is sent instead.
    pub code: StatusCode,
}

/// An observer of each request that a server answers.
pub trait Watch {
    ghost use Rattle.ua_server.specs.declared.watch.AnsweredRequest.{AnsweredRequest};

    /// Relates the observer's state before a request to that after it.
    ghost notes: { Self → AnsweredRequest → Self → Type 0 };

    /// A request was answered. No clause says whether its answer is written by then.
    fn note(&mut self, request: AnsweredRequest)
        ensures { notes self.old request self.new };
}

/// No observer: drops what it is told.
#[derive(Clone, Copy, Debug)]
pub struct Unwatched;

impl Watch for Unwatched {
    ghost use Rattle.std.specs.Prelude.{⊤};

    ghost notes = { λ before request after. ⊤ };

    fn note(&mut self, request: AnsweredRequest) {}
}

/// Tells the observer of a request, if there is one.
pub(crate) fn tell<W: Watch>(watch: &mut W, request: Option<AnsweredRequest>)
    ensures { IsTold W.notes watch.old request watch.new }
{
    match request {
        Some(request) => watch.note(request),
        None => {}
    }
}

/// How many items a request asks for.
pub(crate) fn items_asked(request: &Request) -> usize
    ensures { result ≡ items_asked request.now }
{
    match request {
        Request::Read(message) => item_count(&message.nodes_to_read),
        Request::Write(message) => item_count(&message.nodes_to_write),
        _ => 0,
    }
}

impl AnsweredRequest {
    ghost use Rattle.std.specs.Prelude.{◌≡◌, ℕ, List, is_some};
    ghost use Rattle.ua_chunk.specs.Cutting.{cut_refusal};
    ghost use Rattle.ua_chunk.specs.declared.lane.Lane.{Lane};
    ghost use Rattle.ua_server.specs.Requests.{code_by};

    /// The answered request once its answer is sent, or an abort in its place.
    pub(crate) fn sent_as(self, is_abort: bool) -> AnsweredRequest
        ensures { (lane : Lane) (body : List ℕ) → is_abort ≡ is_some (cut_refusal lane body)
            → result ≡ record self { code = code_by (cut_refusal lane body) self.code } }
    {
        if is_abort {
            AnsweredRequest {
                kind: self.kind,
                encoding: self.encoding,
                items: self.items,
                code: StatusCode::BAD_RESPONSE_TOO_LARGE,
            }
        } else {
            self
        }
    }
}
